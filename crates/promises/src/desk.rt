// The desk cases: one table over the definitions that the public contracts cite, no code.

// Formats: trees of fields, and the two media that a tree is written in. Definitions and laws only, no code.

#![tactic(auto)]

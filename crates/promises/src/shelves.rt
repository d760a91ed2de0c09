// The promises about the shelf: definitions and theorems, no code.

// The promises about the intake: definitions and theorems, no code.

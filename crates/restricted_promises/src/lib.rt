// The promises on the restricted speed. It has no code of its own.

#![tactic(auto)]

// A journey's segments and their temporary constraints, and where a constraint of type 0 holds.

#![tactic(auto)]

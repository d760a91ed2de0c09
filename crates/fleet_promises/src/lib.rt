// The promises on the fleet board and on the change of a card's location, as theorems over the definitions that the contracts cite, no code.

#![tactic(auto)]

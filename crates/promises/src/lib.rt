// The promises: the customer's demands as theorems over the definitions that the public contracts cite, no code.

#![tactic(auto)]

pub mod deliveries;
pub mod desk;
pub mod shelves;

// The two trees of fields, a segment's and a journey's: their layout, their rows of fields, and the choice of a tree by the packet number.

#![tactic(auto)]

pub mod journey;
pub mod link;
pub mod rows;
pub mod segment;

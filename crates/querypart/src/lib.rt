// The parts of a query: items of the signbox or of the prefix with their alternatives, and the variance at the end.
#![tactic(auto)]

pub mod alternatives;
pub mod items;
pub mod variance;

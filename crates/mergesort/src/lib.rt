// A merge sort over parts of a lent list of entries.
#![tactic(auto)]

pub mod parts;

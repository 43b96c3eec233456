// Where the lines of a dictionary start.
#![tactic(auto)]

pub mod table;

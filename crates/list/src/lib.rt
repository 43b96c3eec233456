// The list of entry numbers in lent memory.
#![tactic(auto)]

pub mod bits;
pub mod numbering;

// Text with numbers in it, written into lent memory.
#![tactic(auto)]

pub mod line;

// Reading a sign into lent memory.
#![tactic(auto)]

pub mod arrays;

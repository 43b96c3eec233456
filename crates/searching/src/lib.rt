// Searching a dictionary (document 02, Q-10): what it answers, and below it searching by the conditions of a query.
#![tactic(auto)]

pub mod words;

// How many lines the dictionary has, and how many entries were written.
#[derive(Clone, Copy, Debug, PartialEq, Eq)]
pub struct Searched {
    pub lines: usize,
    pub written: usize,
}

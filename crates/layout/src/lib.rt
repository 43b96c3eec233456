// Answers as numbers, in the order in which C reads them: first the refusal number and the place, both 0 when the call is done.
#![tactic(auto)]

pub mod boxes;
pub mod fetched;
pub mod numbers;
pub mod signs;
pub mod verdicts;

// One token of a text, and why a call is refused.
#![tactic(auto)]

pub mod numerals;
pub mod reading;
pub mod refusal;

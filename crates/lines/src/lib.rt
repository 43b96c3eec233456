// Lines of bytes, where they lie, and the check of a dictionary.
#![tactic(auto)]

pub mod checked;
pub mod walk;

// The boxes of a sign's symbols and its centre, in memory.
#![tactic(auto)]

pub mod centre;
pub mod groups;
pub mod measure;

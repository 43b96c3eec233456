// Moving the numbers of a sign that lies in memory.
#![tactic(auto)]

pub mod writing;

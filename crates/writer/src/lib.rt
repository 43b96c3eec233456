// Writing a token, and writing a sign that lies in memory.
#![tactic(auto)]

pub mod arrays;
pub mod tokens;

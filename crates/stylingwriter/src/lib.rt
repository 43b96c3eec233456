// Writing the styling string of a record.
#![tactic(auto)]

mod figures;
mod parts;
mod record;
pub mod writing;

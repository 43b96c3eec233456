// The parts of a sign: signbox leads, spatial symbols and prefix symbols. Only `reading` is for other crates: its promises
// are equations, whatever the quick look inside it finds.
#![tactic(auto)]

mod quick;
mod quick_fsw;
mod quick_swu;
pub mod reading;

// One character of a query in SWU, read byte by byte.
#![tactic(auto)]

pub mod reading;

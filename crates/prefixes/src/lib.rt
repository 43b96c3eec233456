// The order of temporal prefixes, by the bytes of signs.
#![tactic(auto)]

pub mod order;

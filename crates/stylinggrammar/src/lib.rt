// The grammar of a styling string and of a sign with one, and how a styling lies in a record: defined in specs/, with its laws in
// proofs/.
#![tactic(auto)]

pub mod layout;

// The C interface. Each function hands on to a public entry and lays its answer out in lent numbers: first the refusal
// number and the place, both 0 when the call is done. A refused call has zeros after them, and leaves every other lent
// byte as it was. Only fetching tells no place, since its refusals have none. C says the set and the edition by a bool, and a list by
// its memory and a number of entries.
#![tactic(auto)]

pub mod dictionaries;
pub mod drawing;
pub mod queries;
pub mod signs;
pub mod stylings;
pub mod symbols;

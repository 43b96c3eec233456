// What a narrowing call and a run of such calls come to, and the claim about every run: see specs/ and proofs/.
#![tactic(auto)]

// How many of the listed entries a narrowing call kept, and how many it dropped.
#[derive(Clone, Copy, Debug, PartialEq, Eq)]
pub struct Narrowed {
    pub kept: usize,
    pub dropped: usize,
}

// When a sign meets a query: the verdict with its witnesses.
#![tactic(auto)]

pub mod judging;

// Whether a sign meets a query.
#[derive(Clone, Copy)]
pub enum Verdict {
    // for each signbox item the first symbol that fits it, counted from 1; places after the items hold 0
    Met([u16; 32]),
    // the number of the first condition that does not hold
    Unmet(u16),
}

// The two character sets in which a sign is written. Their tokens are defined in specs/, and their laws are proved in proofs/.
#![tactic(auto)]

// FSW is ASCII; SWU is Unicode in UTF-8, four bytes a character.
#[derive(Clone, Copy)]
pub enum Charset {
    Fsw,
    Swu,
}

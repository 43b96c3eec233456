// What a format is, and the laws of every format that is built from the combinators: see specs/ and proofs/.
#![tactic(auto)]

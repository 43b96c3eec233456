// The worked examples that document 01 marks with a star, as one statement: see specs/ and proofs/.
#![tactic(auto)]

// What a dictionary reads as, and the forms of call on it for which the claim about runs holds: see specs/ and proofs/.
#![tactic(auto)]

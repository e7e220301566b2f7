// The theory of orders has definitions and proofs and no code: see specs/ and proofs/.
#![tactic(auto)]

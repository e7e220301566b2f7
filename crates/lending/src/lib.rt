// What the calls on a lent board share has proofs and no code: see proofs/.
#![tactic(auto)]

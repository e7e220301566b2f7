// The quick test of one duty has definitions and proofs and no code: see specs/ and proofs/.
#![tactic(auto)]

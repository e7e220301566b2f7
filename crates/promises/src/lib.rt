// The promises of the calls taken together have definitions and proofs and no code: see specs/ and proofs/.
#![tactic(auto)]

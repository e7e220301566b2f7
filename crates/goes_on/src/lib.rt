// What a session leaves once it is played has definitions and proofs and no code: see specs/ and proofs/.
#![tactic(auto)]

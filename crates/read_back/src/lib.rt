// What was saved reads back, and what was read saves back: theorems and no code: see proofs/.
#![tactic(auto)]

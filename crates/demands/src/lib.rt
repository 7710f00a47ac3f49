// What was asked for, as theorems: statements in specs/, their proofs in proofs/, no code.
#![tactic(auto)]

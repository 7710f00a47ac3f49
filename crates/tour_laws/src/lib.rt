// The start and the tour of a fine card: what several crates above cite of them. Laws only, no code.
#![tactic(auto)]

// The exact lengths that demand 3 speaks of, and how near the computed ones come: definitions in specs/, laws in proofs/, no code.
#![tactic(auto)]

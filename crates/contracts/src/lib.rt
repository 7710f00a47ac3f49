// What every callable function's contract comes to, as theorems over the contracts themselves: no code.
#![tactic(auto)]

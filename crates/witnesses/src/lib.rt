// Cards that meet every premise of the demands, so that none of them speaks of nothing: worked out in specs/, no code.
#![tactic(auto)]

// However a card is cut, the end of its feed is that of the whole. Laws only, no code.
#![tactic(auto)]

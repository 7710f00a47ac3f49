// Cards of version 2: what the rule binds where contours have parts, and where none has and no grid is asked for that the card is
// answered as its version 1 twin. Stated in specs/, no code.
#![tactic(auto)]

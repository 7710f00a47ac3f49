// What `card::check` comes to: the table of refusals in words, answered exactly; what a fine card has, as a record; and the starred cards.
#![tactic(auto)]

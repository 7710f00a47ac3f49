// Cards that only the limits of today take: what is said of cards of more contours or pairs than before request 2026-04 is
// not said of nothing. Stated in specs/, no code.
#![tactic(auto)]

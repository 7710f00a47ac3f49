// Cards from before a request: what those keep that were filed before 2026-04 raised the limits, and what those limits say of a
// larger card; and what byte 34 of the head was before 2026-07. Stated in specs/, no code.
#![tactic(auto)]

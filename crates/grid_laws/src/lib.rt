// Spots found on a contour whose vertices are on the grid of 1/1024 mm stay within its reach: laws only, no code.
#![tactic(auto)]

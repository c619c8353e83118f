// Generic mathematics below document 01: lists, sums, division, least numbers. No code: see specs/ and proofs/.
#![tactic(auto)]

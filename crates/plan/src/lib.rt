// What holds between reading and writing a plan (document 01, demand 2): laws alone, in proofs/.
#![tactic(auto)]

// The distances of demand 3 for the numbers that a host is handed. There is no code here: only definitions and proofs.
#![tactic(auto)]

// The three demands in one place. There is no code here: only definitions and proofs.
#![tactic(auto)]

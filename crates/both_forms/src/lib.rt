// That the two forms of a basis give the same answers. There is no code here: only definitions and proofs.
#![tactic(auto)]

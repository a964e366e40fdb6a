// That every refusal has one of the papers' numbers. There is no code here: only definitions and proofs.
#![tactic(auto)]

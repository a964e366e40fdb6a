// The exact model and the distances of the engine's answers from it. There is no code here: only definitions and proofs.
#![tactic(auto)]

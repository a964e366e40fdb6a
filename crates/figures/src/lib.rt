// The figures of the paper. There is no code here: one table, and the proof that the definitions give what it states.
#![tactic(auto)]

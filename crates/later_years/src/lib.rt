// The years after 2130 (02, change 9): what their factors are, and which birth years an answer reads. It has no code.
#![tactic(auto)]

// Steps of the program logic that the kit lacks, for proofs by hand of code over structs that hold references and over
// slices of structs. No proof of this repository needs them today. No code: the laws are in proofs/.
#![tactic(auto)]

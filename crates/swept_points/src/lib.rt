// Model points and records answered from the table of a grid: the same answers as the direct engine's.
#![tactic(auto)]

pub mod life_values;
pub mod points;

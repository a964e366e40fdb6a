// The projection of mortality from a basis: reduction factors and mortality rates.
#![tactic(auto)]

pub mod factor;
pub mod rate;

// The values that rest on survivorship: expectation of life and annuity-due, each period and cohort.
#![tactic(auto)]

pub mod annuity;
pub mod expectation;

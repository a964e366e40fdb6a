// Enquiries: any bytes, any age, deferment and year are answered or refused.
#![tactic(auto)]

pub mod cells;
pub mod values;

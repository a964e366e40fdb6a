// Reading for the points program: a line of bytes as an enquiry.
#![tactic(auto)]

pub mod parse;

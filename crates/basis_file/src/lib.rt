// The basis file: blocks of 512 bytes that hold a data run, read and written.
#![tactic(auto)]

pub mod read;
pub mod write;

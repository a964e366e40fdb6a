// The points program's text: the opening line by the basis file, and the input answered line by line as it comes in
// parts.
#![tactic(auto)]

use outcome::Refusal;

pub mod lines;
pub mod open_basis;
pub mod whole;

// An unfinished line: its first 16 bytes, which tell whether it can be an enquiry, and how many lines were complete
// before it.
#[derive(Clone, Copy)]
pub struct Pending {
    pub bytes: [u8; 16],
    pub len: usize,
    pub complete: u64,
}

// What a part of the input leaves: the unfinished line, and the place behind the replies.
#[derive(Clone, Copy)]
pub struct Fed {
    pub pending: Pending,
    pub at: usize,
}

// What the basis file leaves: its check, and the place behind the opening line.
#[derive(Clone, Copy)]
pub struct Opening {
    pub check: Result<(), Refusal>,
    pub at: usize,
}

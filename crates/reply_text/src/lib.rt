// Printing for the points program: numbers, results and refusals as text, and a reply as a line of bytes.
#![tactic(auto)]

pub mod digits;
pub mod reply;

// A lent buffer, and the place behind what has been put into it.
#[derive(Drop)]
pub struct Output<'a> {
    pub out: &'a mut [u8],
    pub at: usize,
}

// A reply by value: its first `len` bytes.
#[derive(Drop)]
pub struct ReplyText {
    pub bytes: [u8; 192],
    pub len: usize,
}

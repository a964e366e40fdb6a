// The basis: what an accepted data run holds.
#![tactic(auto)]

pub mod fields;

// The terms by which an initial rate of improvement gives way to a long-term rate: I, L, T (years) and P (remaining at
// mid-point, in hundredths of a per cent).
#[derive(Clone, Copy)]
pub struct Convergence {
    pub initial: i32,
    pub long: i32,
    pub period: u8,
    pub remaining: u16,
}

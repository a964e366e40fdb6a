// A lifeline (the paper's word): the survivors of one cohort, year by year, each year checked anew.
#![tactic(auto)]

pub mod cohort;

use outcome::Refusal;

// What a step did.
#[derive(Clone, Copy)]
pub enum Status {
    Advanced,
    Ended,
    Refused(Refusal),
}

// What a lifeline holds beside its data run.
#[derive(Clone, Copy)]
pub struct Position {
    pub age: u32,
    pub year: u32,
    pub survivors: u64,
}

// Its position at its start, and whether that was refused.
#[derive(Clone, Copy)]
pub struct LifelineStart {
    pub position: Position,
    pub check: Result<(), Refusal>,
}

// Its position after a step, and what the step did.
#[derive(Clone, Copy)]
pub struct LifelineStep {
    pub position: Position,
    pub status: Status,
}

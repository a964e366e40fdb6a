// The lifeline reader (the paper's words): a small struct that holds the lent data run itself. Its start and its step have the
// work done by the numbers, and hold the same run again; the history is lent to each of them.
#![tactic(auto)]

ghost use Rattle.std.specs.Prelude.{◌≡◌};
ghost use Rattle.outcome.specs.Outcome.{finding};
ghost use Rattle.lifeline.specs.Said.{status_meaning};
ghost use Rattle.lifeline.specs.Lifeline.{start_at, position_after};
ghost use Rattle.lifeline_reader.specs.Reader.{line_at, position_of, line_started, step_of, line_stepped};

use lifeline::{Position, Status, cohort};
use outcome::Refusal;

// A lifeline over the run that it was lent.
#[derive(Clone, Copy)]
pub struct Lifeline<'a> {
    pub run: &'a [u8],
    pub age: u32,
    pub year: u32,
    pub survivors: u64,
}

// A lifeline at its start, and whether that was refused.
#[derive(Clone, Copy)]
pub struct Started<'a> {
    pub line: Lifeline<'a>,
    pub check: Result<(), Refusal>,
}

// A lifeline after a step, and what the step did.
#[derive(Clone, Copy)]
pub struct Stepped<'a> {
    pub line: Lifeline<'a>,
    pub status: Status,
}

impl<'a> Lifeline<'a> {
    // A lifeline over a run, at a position.
    fn at(run: &'a [u8], position: Position) -> Lifeline<'a>
        ensures { result ≡ line_at run.entry position }
    {
        Lifeline {
            run,
            age: position.age,
            year: position.year,
            survivors: position.survivors,
        }
    }

    fn position(&self) -> Position
        ensures { result ≡ position_of self.now }
    {
        Position {
            age: self.age,
            year: self.year,
            survivors: self.survivors,
        }
    }
}

pub fn start<'a>(run: &'a [u8], history: &[u8], age: u32, year: u32) -> Started<'a>
    ensures { (result.line ≡ line_started run.entry history.now age year)
        × (finding result.check ≡ (start_at run.now history.now age year).check) }
{
    let s = cohort::start_at(run, history, age, year);
    Started {
        line: Lifeline::at(run, s.position),
        check: s.check,
    }
}

pub fn step<'a>(l: Lifeline<'a>, history: &[u8]) -> Stepped<'a>
    ensures { (result.line ≡ line_stepped l.entry history.now) × (status_meaning result.status ≡ (step_of l.entry history.now).says) }
{
    let s = cohort::step_at(l.run, history, l.position());
    Stepped {
        line: Lifeline::at(l.run, s.position),
        status: s.status,
    }
}

// For callers that hold no lifeline: the position of one n steps after its start.
#[tactic(auto, using(crate::proofs::Steps::no_step, crate::proofs::Steps::one_step_more))]
pub fn position_after(run: &[u8], history: &[u8], age: u32, year: u32, n: u32) -> Position
    ensures { result ≡ position_after run.now history.now age year n }
{
    let mut l = start(run, history, age, year).line;
    for _ in 0..n {
        l = step(l, history).line;
    }
    l.position()
}

// The start and the step of a lifeline by its numbers: any bytes, any age and year, any survivors.
ghost use Rattle.std.specs.Prelude.{◌≡◌, length, MatchResult};
ghost use Rattle.outcome.specs.Outcome.{finding, refused};
ghost use Rattle.basis.specs.Basis.{basis_of, rated_from, Accepted};
ghost use Rattle.question.specs.Question.{in_range};
ghost use Rattle.lifeline.specs.Said.{start_meaning, step_meaning};
ghost use Rattle.lifeline.specs.Lifeline.{start_at, last_year_at, step_year_check, position_check, survivors_check, step_check, step_to, step_at};

use crate::{LifelineStart, LifelineStep, Position, Status};
use arithmetic::UNIT;
use history::LentBasis;
use outcome::{Reason, Refusal};

// U at an age and year, checked as an enquiry with deferment 0.
#[tactic(auto, unfolding(crate::specs::Lifeline::start_at))]
pub fn start_at(run: &[u8], history: &[u8], age: u32, year: u32) -> LifelineStart
    ensures { start_meaning result ≡ start_at run.now history.now age year }
{
    let check = enquiry::values::check_valuation(run, history, age, 0, year);
    let position = match check {
        Ok(()) => Position {
            age,
            year,
            survivors: UNIT,
        },
        Err(_) => Position {
            age: 0,
            year: 0,
            survivors: 0,
        },
    };
    LifelineStart { position, check }
}

// From B on, with a birth year up to 2110. The sum is made in 64 bits, where it cannot wrap.
fn is_step_year(first: u32, age: u32, year: u32) -> bool
    ensures { result ≡ in_range first (last_year_at age) year }
{
    first <= year && year as u64 <= 2110 + age as u64
}

// 7: any other year.
#[tactic(auto, unfolding(crate::specs::Lifeline::step_year_check))]
fn check_step_year(first: u32, age: u32, year: u32) -> Result<(), Refusal>
    ensures { finding result ≡ step_year_check first age year }
{
    if is_step_year(first, age, year) {
        Ok(())
    } else {
        Err(Reason::Year.at(year as u64, 0))
    }
}

// 5: survivors above U, with the length of the run for a place.
#[tactic(auto, unfolding(crate::specs::Lifeline::survivors_check))]
fn check_survivors(run: &[u8], survivors: u64) -> Result<(), Refusal>
    ensures { finding result ≡ survivors_check (length run.now) survivors }
{
    if survivors <= UNIT {
        Ok(())
    } else {
        Err(Reason::Limits.at(run.len() as u64, 0))
    }
}

// The age, the year, then the survivors.
#[tactic(auto, unfolding(crate::specs::Lifeline::position_check))]
fn check_position(run: &[u8], position: Position) -> Result<(), Refusal>
    requires { Accepted run.now }
    ensures { finding result ≡ position_check (length run.now) (rated_from (basis_of run.now)) position }
{
    question::check_age(position.age)?;
    check_step_year(basis::fields::rated_from(run), position.age, position.year)?;
    check_survivors(run, position.survivors)
}

// All that a step checks before it advances: the data run and its history afresh, then these.
#[tactic(auto, using(crate::proofs::Steps::step_rules))]
fn check_step(run: &[u8], history: &[u8], position: Position) -> Result<(), Refusal>
    ensures { finding result ≡ step_check run.now history.now position }
{
    history::check::check_run_and_history(run, history)?;
    check_position(run, position)
}

// A step that is not refused: the checks, then the end at 150, then one year of cohort survivorship.
#[tactic(auto, using(crate::proofs::Steps::step_rules), unfolding(crate::specs::Lifeline::step_at, crate::specs::Lifeline::year_unless_ended))]
fn step_or_refusal(run: &[u8], history: &[u8], position: Position) -> Result<LifelineStep, Refusal>
    ensures { MatchResult result (λ s. step_meaning s ≡ step_at run.now history.now position)
        (λ r. step_at run.now history.now position ≡ step_to position (refused r)) }
{
    check_step(run, history, position)?;
    let Position {
        age,
        year,
        survivors,
    } = position;
    if age == 150 {
        return Ok(LifelineStep {
            position,
            status: Status::Ended,
        });
    }
    let b = LentBasis { run, history };
    let survivors = survivorship::survivors_after_year(b, age, year, survivors)?;
    Ok(LifelineStep {
        position: Position {
            age: age + 1,
            year: year + 1,
            survivors,
        },
        status: Status::Advanced,
    })
}

// A refused step leaves the position as it is.
pub fn step_at(run: &[u8], history: &[u8], position: Position) -> LifelineStep
    ensures { step_meaning result ≡ step_at run.now history.now position }
{
    match step_or_refusal(run, history, position) {
        Ok(step) => step,
        Err(refusal) => LifelineStep {
            position,
            status: Status::Refused(refusal),
        },
    }
}

// Lifelines as C keeps them: the host holds age, year and survivors between the calls, and lends the data run and its
// history to each.
ghost use Rattle.std.specs.Prelude.{◌≡◌};
ghost use Rattle.lifeline.specs.Lifeline.{position_at, start_at, step_at};
ghost use Rattle.engine.specs.Lifelines.{lifeline_of_start, lifeline_of_step};

use crate::CLifeline;
use lifeline::{Position, cohort};

pub fn parvusek_lifeline_start(run: &[u8], history: &[u8], age: u32, year: u32) -> CLifeline
    ensures { result ≡ lifeline_of_start (start_at run.now history.now age year) }
{
    CLifeline::from(cohort::start_at(run, history, age, year))
}

pub fn parvusek_lifeline_step(
    run: &[u8],
    history: &[u8],
    age: u32,
    year: u32,
    survivors: u64,
) -> CLifeline
    ensures { result ≡ lifeline_of_step (step_at run.now history.now (position_at age year survivors)) }
{
    let position = Position {
        age,
        year,
        survivors,
    };
    CLifeline::from(cohort::step_at(run, history, position))
}

// Exports for lifelines as C keeps them: the host holds age, year and survivors between the calls.
ghost use Rattle.std.specs.Prelude.{◌≡◌};
ghost use Rattle.lifeline.specs.Lifeline.{position_at, start_at, step_at};
ghost use Rattle.engine.specs.Lifelines.{lifeline_of_start, lifeline_of_step};

use engine::CLifeline;

#[unsafe(no_mangle)]
pub extern "C" fn parvusek_lifeline_start(
    run: &[u8],
    history: &[u8],
    age: u32,
    year: u32,
) -> CLifeline
    ensures { result ≡ lifeline_of_start (start_at run.now history.now age year) }
{
    engine::lifelines::parvusek_lifeline_start(run, history, age, year)
}

#[unsafe(no_mangle)]
pub extern "C" fn parvusek_lifeline_step(
    run: &[u8],
    history: &[u8],
    age: u32,
    year: u32,
    survivors: u64,
) -> CLifeline
    ensures { result ≡ lifeline_of_step (step_at run.now history.now (position_at age year survivors)) }
{
    engine::lifelines::parvusek_lifeline_step(run, history, age, year, survivors)
}

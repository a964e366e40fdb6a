// The grid: a lent list of 119 point records whose results are filled in place.
#![tactic(auto)]

ghost use Rattle.std.specs.Prelude.{◌≡◌, length};
ghost use Rattle.outcome.specs.Outcome.{finding};
ghost use Rattle.grid.specs.Grid.{grid_check, grid_of};

use factor_table::{TABLE_LENGTH, TabledBasis};
use grid_record::Point;
use history::LentBasis;
use outcome::Refusal;

// 11 before the run and its history are looked at, which is done once for the whole list.
#[tactic(auto, unfolding(crate::specs::Grid::grid_check))]
pub fn check_grid(run: &[u8], history: &[u8], count: usize) -> Result<(), Refusal>
    ensures { finding result ≡ grid_check run.now history.now count }
{
    lent::check_room(119, count)?;
    history::check::check_run_and_history(run, history)
}

// Each record's results or its own refusal, in its place.
#[tactic(auto, using(crate::proofs::Filled::enough_records, crate::proofs::Filled::grid_workable))]
pub fn fill<'a>(run: &'a [u8], history: &'a [u8], points: &mut [Point]) -> Result<(), Refusal>
    ensures result_value { finding result ≡ grid_check run.now history.now (length points.old) }
    ensures points_after { points.new ≡ grid_of run.now history.now points.old }
{
    check_grid(run, history, points.len())?;
    let basis = LentBasis { run, history };
    let mut table: [u32; TABLE_LENGTH] = [0; TABLE_LENGTH];
    factor_table::fill_table(basis, &mut table);
    let tabled = TabledBasis {
        basis,
        numbers: &table,
    };
    for p in &mut points[..119] {
        *p = swept_points::points::swept_record(tabled, *p);
    }
    Ok(())
}

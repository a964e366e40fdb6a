// The grid point by point, each by the direct engine: for tests and measurements, which hold the sweep against it.
// It is no part of the engine's archive and of its header; the records come and go by value. direct_grid_c exports it to C.
#![tactic(auto)]

ghost use Rattle.std.specs.Prelude.{◌≡◌};
ghost use Rattle.grid.specs.Grid.{grid_of};

use grid_record::Point;
use history::LentBasis;

#[repr(C)]
#[derive(Drop)]
pub struct Records {
    pub points: [Point; 119],
}

// The records answered where the grid's checks let them be.
#[tactic(auto, using(grid::proofs::Filled::grid_workable))]
fn answer_all(run: &[u8], history: &[u8], records: [Point; 119]) -> [Point; 119]
    ensures { result ≡ grid_of run.now history.now records }
{
    let mut points = records;
    if grid::check_grid(run, history, 119).is_ok() {
        let basis = LentBasis { run, history };
        for p in &mut points {
            *p = grid_record::direct_record(basis, *p);
        }
    }
    points
}

pub fn parvusek_direct_grid(run: &[u8], history: &[u8], records: Records) -> Records
    ensures { result.points ≡ grid_of run.now history.now records.points }
{
    let asked = records.points;
    let points = answer_all(run, history, asked);
    Records { points }
}

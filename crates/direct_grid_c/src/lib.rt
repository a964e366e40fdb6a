// The direct grid for C: its one function, exported by its name, for tests and measurements.
// It is an archive of its own, and no part of the engine's.
#![tactic(auto)]

ghost use Rattle.std.specs.Prelude.{◌≡◌};
ghost use Rattle.grid.specs.Grid.{grid_of};

use direct_grid::Records;

#[unsafe(no_mangle)]
pub extern "C" fn parvusek_direct_grid(run: &[u8], history: &[u8], records: Records) -> Records
    ensures { result.points ≡ grid_of run.now history.now records.points }
{
    direct_grid::parvusek_direct_grid(run, history, records)
}

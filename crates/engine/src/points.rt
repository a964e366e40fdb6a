// Sets of model points: the small set by value, the grid in place.
ghost use Rattle.std.specs.Prelude.{◌≡◌, length};
ghost use Rattle.small_set.specs.SmallSet.{small_set_of};
ghost use Rattle.grid.specs.Grid.{grid_check, grid_of};
ghost use Rattle.engine.specs.Enquiry.{refusal_of};

use crate::answers;
use grid_record::Point;
use outcome::Refusal;
use small_set::{Questions, SmallSet};

pub fn parvusek_small_set(run: &[u8], history: &[u8], questions: Questions) -> SmallSet
    ensures { result ≡ small_set_of run.now history.now questions }
{
    small_set::small_set(run, history, questions)
}

pub fn parvusek_grid(run: &[u8], history: &[u8], points: &mut [Point]) -> Refusal
    ensures value { result ≡ refusal_of (grid_check run.now history.now (length points.old)) }
    ensures points_after { points.new ≡ grid_of run.now history.now points.old }
{
    answers::refusal_of(grid::fill(run, history, points))
}

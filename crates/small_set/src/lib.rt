// The small set: six model points on one basis, by value. Any bytes and any questions are answered or refused.
#![tactic(auto)]

ghost use Rattle.std.specs.Prelude.{◌≡◌, map};
ghost use Rattle.history.specs.Held.{held};
ghost use Rattle.model_points.specs.Point.{point_of};
ghost use Rattle.small_set.specs.SmallSet.{small_set_of};

use history::LentBasis;
use model_points::PointAnswer;
use outcome::{NO_REFUSAL, Refusal};
use question::Question;

// The six questions of the small set.
#[repr(C)]
#[derive(Clone, Copy)]
pub struct Questions {
    pub points: [Question; 6],
}

// The small set: six answers, and the refusal of the whole.
#[repr(C)]
#[derive(Clone, Copy)]
pub struct SmallSet {
    pub refusal: Refusal,
    pub points: [PointAnswer; 6],
}

// A point that carries 0 in every result, refusal and place.
const BLANK: PointAnswer = PointAnswer {
    results: [0; 4],
    refusal: NO_REFUSAL,
};

// The six answers on an accepted data run and its history. In a loop there is one call that keeps its answer and a copy of the basis
// on the stack, and not six.
fn six(b: LentBasis, questions: [Question; 6]) -> [PointAnswer; 6]
    ensures { result ≡ map (point_of (held b.entry)) questions }
{
    let mut points = [BLANK; 6];
    for (i, point) in points.iter_mut().enumerate() {
        *point = model_points::direct_point(b, questions[i]);
    }
    points
}

// The run and its history are checked once. A refused one refuses the whole: its points carry 0 in every result, refusal and place.
pub fn small_set(run: &[u8], history: &[u8], questions: Questions) -> SmallSet
    ensures { result ≡ small_set_of run.now history.now questions }
{
    match history::check::check_run_and_history(run, history) {
        Ok(()) => {
            let asked = questions.points;
            let points = six(LentBasis { run, history }, asked);
            SmallSet {
                refusal: NO_REFUSAL,
                points,
            }
        }
        Err(refusal) => {
            let points = [BLANK; 6];
            SmallSet { refusal, points }
        }
    }
}

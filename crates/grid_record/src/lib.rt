// One record of the grid on an accepted data run and its history.
#![tactic(auto)]

ghost use Rattle.std.specs.Prelude.{◌≡◌};
ghost use Rattle.history.specs.Held.{held};
ghost use Rattle.grid_record.specs.Record.{question_of, record_of, answered_of};

use history::LentBasis;
use model_points::PointAnswer;
use question::Question;

// A record of the grid: a question and its answer in 64 bytes, the refusal's places last.
#[repr(C)]
#[derive(Clone, Copy)]
pub struct Point {
    pub age: u32,
    pub deferment: u32,
    pub year: u32,
    pub refusal: u32,
    pub results: [u64; 4],
    pub first: u64,
    pub second: u64,
}

impl From<Point> for Question {
    ghost from_gives = { λ p q. q ≡ question_of p };

    fn from(p: Point) -> Question {
        Question {
            age: p.age,
            deferment: p.deferment,
            year: p.year,
        }
    }
}

// The record with its question unchanged, and an answer in place of what it held.
pub fn recorded(p: Point, a: PointAnswer) -> Point
    ensures { result ≡ record_of p a }
{
    let results = a.results;
    Point {
        refusal: a.refusal.number,
        results,
        first: a.refusal.first,
        second: a.refusal.second,
        ..p
    }
}

#[tactic(auto, unfolding(crate::specs::Record::answered_of))]
pub fn direct_record(b: LentBasis, p: Point) -> Point
    ensures { result ≡ answered_of (held b.entry) p }
{
    recorded(p, model_points::direct_point(b, p.into()))
}

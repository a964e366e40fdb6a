// A model point: a question about one life, and its four results on an accepted data run and its history.
#![tactic(auto)]

ghost use Rattle.std.specs.Prelude.{◌≡◌};
ghost use Rattle.history.specs.Held.{held};
ghost use Rattle.model_points.specs.Point.{results_meaning, checked_results_of, point_answer_of, point_of};

use history::LentBasis;
use outcome::{NO_REFUSAL, Refusal};
use question::Question;
use survivorship::Kind;
use valuation::{annuity, expectation};

// A question's answer: period and cohort expectation, period and cohort annuity, and a refusal of number 0; or the first refusal
// of the four, and four results of 0.
#[repr(C)]
#[derive(Clone, Copy)]
pub struct PointAnswer {
    pub results: [u64; 4],
    pub refusal: Refusal,
}

impl From<Result<[u64; 4], Refusal>> for PointAnswer {
    ghost from_gives = { λ results answer. answer ≡ point_answer_of (results_meaning results) };

    fn from(results: Result<[u64; 4], Refusal>) -> PointAnswer {
        match results {
            Ok(results) => PointAnswer {
                results,
                refusal: NO_REFUSAL,
            },
            Err(refusal) => PointAnswer {
                results: [0; 4],
                refusal,
            },
        }
    }
}

// The four results in their order, or the first refusal: of the question's own checks, then of the four.
#[tactic(auto, using(crate::proofs::Points::asks_life), unfolding(basis::specs::Basis::rated_from, crate::specs::Point::results_of, crate::specs::Point::four_results_of))]
fn direct_results(b: LentBasis, q: Question) -> Result<[u64; 4], Refusal>
    ensures { results_meaning result ≡ checked_results_of (held b.entry) q }
{
    let Question {
        age,
        deferment,
        year,
    } = q;
    question::check_question(b.run, age, deferment, year)?;
    Ok([
        expectation::expectation_at(b, Kind::Period, age, deferment, year)?,
        expectation::expectation_at(b, Kind::Cohort, age, deferment, year)?,
        annuity::annuity_at(b, Kind::Period, age, deferment, year)?,
        annuity::annuity_at(b, Kind::Cohort, age, deferment, year)?,
    ])
}

#[tactic(auto, unfolding(crate::specs::Point::point_of))]
pub fn direct_point(b: LentBasis, q: Question) -> PointAnswer
    ensures { result ≡ point_of (held b.entry) q }
{
    direct_results(b, q).into()
}

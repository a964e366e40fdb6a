// A point's four results, and a record of the grid, from the table.
ghost use Rattle.std.specs.Prelude.{◌≡◌};
ghost use Rattle.outcome.specs.Outcome.{meaning};
ghost use Rattle.history.specs.Checked.{Life};
ghost use Rattle.history.specs.Held.{held};
ghost use Rattle.valuation.specs.Valuation.{expectation_of};
ghost use Rattle.model_points.specs.Point.{results_meaning, checked_results_of, point_of};
ghost use Rattle.grid_record.specs.Record.{answered_of};
ghost use Rattle.swept_points.specs.LifeValues.{life_expectation};

use crate::life_values::{LifeValues, life_values_from};
use factor_table::TabledBasis;
use grid_record::Point;
use model_points::PointAnswer;
use outcome::Refusal;
use question::Question;
use survivorship::Kind;

// The expectation of one kind: without a deferment the values from the age itself, which are known, have it; else it is that
// from the later age.
#[tactic(auto, using(crate::proofs::SoFar::deferred))]
fn expectation(
    t: TabledBasis,
    kind: Kind,
    q: Question,
    known: Result<LifeValues, Refusal>,
) -> Result<u64, Refusal>
    requires { Life t.basis.run.now t.basis.history.now q.age q.deferment q.year
        × (life_expectation known ≡ expectation_of (held t.basis) kind q.age 0 q.year) }
    ensures { meaning result ≡ expectation_of (held t.entry.basis) kind q.age q.deferment q.year }
{
    if q.deferment == 0 {
        return Ok(known?.expectation);
    }
    let age = q.age + q.deferment;
    let year = q.year + q.deferment;
    Ok(life_values_from(t, kind, age, 0, year)?.expectation)
}

// The four results in their order, or the first refusal: of the question's own checks, then of the four.
#[tactic(auto, using(model_points::proofs::Points::asks_life), unfolding(basis::specs::Basis::rated_from, model_points::specs::Point::results_of, model_points::specs::Point::four_results_of))]
fn swept_results(t: TabledBasis, q: Question) -> Result<[u64; 4], Refusal>
    ensures { results_meaning result ≡ checked_results_of (held t.entry.basis) q }
{
    let Question {
        age,
        deferment,
        year,
    } = q;
    question::check_question(t.basis.run, age, deferment, year)?;
    let period = life_values_from(t, Kind::Period, age, deferment, year);
    let cohort = life_values_from(t, Kind::Cohort, age, deferment, year);
    Ok([
        expectation(t, Kind::Period, q, period)?,
        expectation(t, Kind::Cohort, q, cohort)?,
        period?.annuity,
        cohort?.annuity,
    ])
}

// The answer of a point.
#[tactic(auto, unfolding(model_points::specs::Point::point_of))]
pub fn swept_point(t: TabledBasis, q: Question) -> PointAnswer
    ensures { result ≡ point_of (held t.entry.basis) q }
{
    swept_results(t, q).into()
}

// A record of the grid with its answer in place of what it held.
#[tactic(auto, unfolding(grid_record::specs::Record::answered_of))]
pub fn swept_record(t: TabledBasis, p: Point) -> Point
    ensures { result ≡ answered_of (held t.entry.basis) p }
{
    grid_record::recorded(p, swept_point(t, p.into()))
}

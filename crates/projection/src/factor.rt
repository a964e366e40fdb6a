// The reduction factor at an age: U in year B, then reduced year by year by the improvements of that age.
ghost use Rattle.std.specs.Prelude.{◌≡◌, ◌≤◌, pos, nat_abs};
ghost use Rattle.history.specs.Checked.{Cell};
ghost use Rattle.history.specs.Held.{held};
ghost use Rattle.outcome.specs.Outcome.{meaning};
ghost use Rattle.improvement.specs.Improvement.{improvement_of};
ghost use Rattle.improvement.specs.Checked.{ImprovedCell};
ghost use Rattle.projection.specs.Projection.{factor_next, factor_needed, factor_from, factor_of};

use arithmetic::UNIT;
use basis::Convergence;
use history::LentBasis;
use outcome::{Reason, Refusal};

// This year's factor from last year's and the improvement.
fn factor_next(factor: u64, improvement: i64) -> u64
    requires { (factor ≤ 4_000_000_000) × (nat_abs improvement ≤ 500_000_000) }
    ensures { pos result ≡ factor_next (pos factor) improvement }
{
    let left = (1_000_000_000 - improvement) as u64;
    arithmetic::round_div_unsigned(factor * left, UNIT)
}

// A factor that an answer needs, or 10 where it is above 4 × U.
#[tactic(auto, unfolding(crate::specs::Projection::factor_needed))]
fn checked_factor(age: u32, year: u32, next: u64) -> Result<u64, Refusal>
    ensures { meaning result ≡ factor_needed age year (pos next) }
{
    if next <= 4_000_000_000 {
        Ok(next)
    } else {
        Err(Reason::Factor.at(age as u64, year as u64))
    }
}

// This year's factor with refusals 9 and 10, in this order.
#[tactic(auto, using(improvement::proofs::Cases::needed_small), unfolding(crate::specs::Projection::factor_from))]
fn factor_from(age: u32, year: u32, improvement: i64, factor: u64) -> Result<u64, Refusal>
    requires { factor ≤ 4_000_000_000 }
    ensures { meaning result ≡ factor_from age year improvement (pos factor) }
{
    let improvement = improvement::checked_improvement(age, year, improvement)?;
    checked_factor(age, year, factor_next(factor, improvement))
}

// The same at an age whose terms the caller has read.
pub fn factor_in(
    b: LentBasis,
    terms: Convergence,
    age: u32,
    year: u32,
    factor: u64,
) -> Result<u64, Refusal>
    requires { ImprovedCell b.run.now b.history.now age year × (terms ≡ (held b).by_age age) × (factor ≤ 4_000_000_000) }
    ensures { meaning result ≡ factor_from age year (improvement_of (held b.entry) age year) (pos factor) }
{
    factor_from(
        age,
        year,
        improvement::improvement_at(b, terms, age, year),
        factor,
    )
}

// The factor at an age in a year from B on.
pub fn factor_at(b: LentBasis, age: u32, year: u32) -> Result<u64, Refusal>
    requires { Cell b.run.now b.history.now age year }
    ensures { meaning result ≡ factor_of (held b.entry) age year }
{
    let terms = basis::fields::age_terms(b.run, age);
    let base = basis::fields::base_year(b.run);
    let years = year - base;
    let mut factor = UNIT;
    for k in 0..years {
        factor = factor_in(b, terms, age, base + 1 + k, factor)?;
    }
    Ok(factor)
}

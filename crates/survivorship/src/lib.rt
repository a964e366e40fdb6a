// Survivorship: of U lives at an age, those who are left after some years.
#![tactic(auto)]

ghost use Rattle.std.specs.Prelude.{◌≡◌, ◌+◌, ◌≤◌, pos};
ghost use Rattle.history.specs.Checked.{Cell, Life};
ghost use Rattle.history.specs.Held.{held};
ghost use Rattle.outcome.specs.Outcome.{value, and_then, meaning};
ghost use Rattle.projection.specs.Bounded.{AtMost};
ghost use Rattle.survivorship.specs.Survivorship.{year_on, survivors_next, survivors_after_year, survivors_of};

use arithmetic::UNIT;
use history::LentBasis;
use outcome::Refusal;

// How a life passes through the rates: the period kind stays in one year, the cohort kind moves with the age.
#[derive(Clone, Copy)]
pub enum Kind {
    Period,
    Cohort,
}

// The year of the rate j years on.
pub fn year_on(kind: Kind, j: u32, year: u32) -> u32
    requires { (year ≤ 2260) × (j ≤ 130) }
    ensures { result ≡ year_on kind j year }
{
    match kind {
        Kind::Period => year,
        Kind::Cohort => year + j,
    }
}

// The survivors after a year from those before it and the rate.
fn survivors_next(s: u64, q: u64) -> u64
    requires { (s ≤ 1_000_000_000) × (q ≤ 1_000_000_000) }
    ensures { (pos result ≡ survivors_next (pos s) (pos q)) × (result ≤ 1_000_000_000) }
{
    arithmetic::round_div_unsigned(s * (UNIT - q), UNIT)
}

// The same with what the rate is, wherever that was worked out, or the rate's refusal.
pub fn survivors_by(rate: Result<u64, Refusal>, s: u64) -> Result<u64, Refusal>
    requires { (s ≤ 1_000_000_000) × AtMost 1_000_000_000 (meaning rate) }
    ensures { meaning result ≡ and_then (meaning rate) (λ q. value (survivors_next (pos s) q)) }
{
    Ok(survivors_next(s, rate?))
}

// The same at an age in a year from B on.
#[tactic(auto, using(projection::proofs::Years::rate_at_most), unfolding(crate::specs::Survivorship::survivors_after_year))]
pub fn survivors_after_year(b: LentBasis, age: u32, year: u32, s: u64) -> Result<u64, Refusal>
    requires { Cell b.run.now b.history.now age year × (s ≤ 1_000_000_000) }
    ensures { meaning result ≡ survivors_after_year (held b.entry) age year (pos s) }
{
    survivors_by(projection::rate::rate_at(b, age, year), s)
}

// The survivors after n years.
pub fn survivors_at(b: LentBasis, kind: Kind, age: u32, n: u32, year: u32) -> Result<u64, Refusal>
    requires { Life b.run.now b.history.now age n year }
    ensures { meaning result ≡ survivors_of (held b.entry) kind age n year }
{
    let mut s = UNIT;
    for j in 0..n {
        s = survivors_after_year(b, age + j, year_on(kind, j, year), s)?;
    }
    Ok(s)
}

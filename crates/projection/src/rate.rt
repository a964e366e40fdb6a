// The mortality rate at an age in a year: the base rate reduced by the factor, and never above one.
ghost use Rattle.std.specs.Prelude.{◌≡◌, ◌≤◌, pos};
ghost use Rattle.basis.specs.Basis.{basis_of, Accepted};
ghost use Rattle.outcome.specs.Outcome.{value, and_then, meaning};
ghost use Rattle.history.specs.Checked.{Cell};
ghost use Rattle.history.specs.Held.{held};
ghost use Rattle.projection.specs.Bounded.{AtMost};
ghost use Rattle.projection.specs.Projection.{rate_from, rate_of};

use crate::factor;
use arithmetic::UNIT;
use history::LentBasis;
use outcome::Refusal;

// The lesser of U and the base rate times the factor.
fn rate_from(run: &[u8], age: u32, factor: u64) -> u64
    requires { Accepted run.now × (20 ≤ age) × (age ≤ 150) × (factor ≤ 4_000_000_000) }
    ensures { pos result ≡ rate_from (basis_of run.now) age (pos factor) }
{
    let base_rate = u64::from(basis::fields::base_rate(run, age));
    arithmetic::round_div_unsigned(base_rate * factor, UNIT).min(UNIT)
}

// The mortality rate at an age from what its factor is, wherever that was worked out, or the factor's refusal.
pub fn rate_by(run: &[u8], age: u32, factor: Result<u64, Refusal>) -> Result<u64, Refusal>
    requires { Accepted run.now × (20 ≤ age) × (age ≤ 150) × AtMost 4_000_000_000 (meaning factor) }
    ensures { meaning result ≡ and_then (meaning factor) (λ f. value (rate_from (basis_of run.now) age f)) }
{
    Ok(rate_from(run, age, factor?))
}

// The mortality rate at an age in a year from B on.
#[tactic(auto, using(crate::proofs::Years::factor_small), unfolding(crate::specs::Projection::rate_of))]
pub fn rate_at(b: LentBasis, age: u32, year: u32) -> Result<u64, Refusal>
    requires { Cell b.run.now b.history.now age year }
    ensures { meaning result ≡ rate_of (held b.entry) age year }
{
    rate_by(b.run, age, factor::factor_at(b, age, year))
}

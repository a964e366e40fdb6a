// The values of a life: one loop along its rates gives expectation and annuity.
ghost use Rattle.std.specs.Prelude.{◌≡◌, ◌≤◌, pos};
ghost use Rattle.outcome.specs.Outcome.{meaning};
ghost use Rattle.history.specs.Checked.{Cell};
ghost use Rattle.history.specs.Held.{held};
ghost use Rattle.survivorship.specs.Survivorship.{survivors_after_year};
ghost use Rattle.valuation.specs.Valuation.{expectation_of, annuity_of};
ghost use Rattle.swept_points.specs.LifeValues.{LifeFrom, life_expectation, life_annuity};
ghost use Rattle.swept_points.specs.Inner.DeferredPayment.{deferred_payment};

use arithmetic::{HALF_UNIT, UNIT};
use factor_table::{TabledBasis, discounts};
use outcome::Refusal;
use survivorship::Kind;

// The expectation from the age itself, and the annuity.
#[derive(Clone, Copy)]
pub struct LifeValues {
    pub expectation: u64,
    pub annuity: u64,
}

// The survivors after a year at an age, by the factor of the table.
fn survivors_after_year(t: TabledBasis, age: u32, year: u32, s: u64) -> Result<u64, Refusal>
    requires { Cell t.basis.run.now t.basis.history.now age year × (s ≤ 1_000_000_000) }
    ensures { meaning result ≡ survivors_after_year (held t.entry.basis) age year (pos s) }
{
    let factor = factor_table::reading::factor(t, age, year);
    survivorship::survivors_by(projection::rate::rate_by(t.basis.run, age, factor), s)
}

// The payment after j years to the survivors, by the discount of these years: none before the deferment's end.
fn deferred_payment(discount: u64, deferment: u32, j: u32, s: u64) -> u64
    requires { (discount ≤ 4_000_000_000) × (s ≤ 1_000_000_000) }
    ensures { (pos result ≡ deferred_payment (pos discount) deferment j (pos s)) × (result ≤ 4_000_000_000) }
{
    if j < deferment {
        return 0;
    }
    valuation::annuity::payment(discount, s)
}

// From an age in a year to age 150, with an annuity whose payments begin after a deferment; or the first refusal, which is that
// of both.
pub fn life_values_from(
    t: TabledBasis,
    kind: Kind,
    age: u32,
    deferment: u32,
    year: u32,
) -> Result<LifeValues, Refusal>
    requires { LifeFrom t.basis.run.now t.basis.history.now t.numbers.now age deferment year }
    ensures expectation { life_expectation result ≡ expectation_of (held t.entry.basis) kind age 0 year }
    ensures annuity { life_annuity result ≡ annuity_of (held t.entry.basis) kind age deferment year }
{
    let last = 150 - age;
    let mut s = UNIT;
    let mut lives: u64 = 0;
    let mut annuity = deferred_payment(discounts::discount(t.numbers, 0), deferment, 0, UNIT);
    for j in 0..last {
        s = survivors_after_year(t, age + j, survivorship::year_on(kind, j, year), s)?;
        lives += s;
        annuity += deferred_payment(discounts::discount(t.numbers, j + 1), deferment, j + 1, s);
    }
    Ok(LifeValues {
        expectation: HALF_UNIT + lives,
        annuity,
    })
}

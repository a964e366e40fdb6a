// The annuity-due: one unit a year in advance for life, discounted, from the end of a deferment.
ghost use Rattle.std.specs.Prelude.{◌≡◌, ◌+◌, ◌≤◌, pos};
ghost use Rattle.basis.specs.Basis.{basis_of, Accepted};
ghost use Rattle.outcome.specs.Outcome.{meaning, value};
ghost use Rattle.history.specs.Checked.{Life};
ghost use Rattle.history.specs.Held.{held};
ghost use Rattle.survivorship.specs.Survivorship.{survivors_of};
ghost use Rattle.valuation.specs.Valuation.{discount_next, discount_after, payment, annuity_of};

use arithmetic::UNIT;
use history::LentBasis;
use outcome::Refusal;
use survivorship::Kind;

// The discount a year later. At a rate below zero it grows, and stays below 4 × U for the 130 years that there are.
pub fn discount_next(v: u64, accumulation: u64) -> u64
    requires { (v ≤ 4_000_000_000) × (990_000_000 ≤ accumulation) × (accumulation ≤ 1_200_000_000) }
    ensures { pos result ≡ discount_next (pos v) accumulation }
{
    arithmetic::round_div_unsigned(v * UNIT, accumulation)
}

// The discount after n years.
#[tactic(auto, using(crate::proofs::Discount::year_by_year), unfolding(crate::specs::Valuation::discount_after))]
fn discount_after(run: &[u8], n: u32) -> u64
    requires { Accepted run.now × (n ≤ 130) }
    ensures { pos result ≡ discount_after (basis_of run.now) n }
{
    let accumulation = basis::fields::accumulation(run);
    let mut v = UNIT;
    for _j in 0..n {
        v = discount_next(v, accumulation);
    }
    v
}

// One year's payment to the survivors, discounted.
pub fn payment(v: u64, s: u64) -> u64
    requires { (v ≤ 4_000_000_000) × (s ≤ 1_000_000_000) }
    ensures { (pos result ≡ payment (pos v) (pos s)) × (result ≤ 4_000_000_000) }
{
    arithmetic::round_div_unsigned(v * s, UNIT)
}

// The annuity from the survivors at the deferment's end.
fn annuity_from(
    b: LentBasis,
    kind: Kind,
    age: u32,
    deferment: u32,
    year: u32,
    first: u64,
) -> Result<u64, Refusal>
    requires { Life b.run.now b.history.now age deferment year
        × (survivors_of (held b) kind age deferment year ≡ value (pos first)) }
    ensures { meaning result ≡ annuity_of (held b.entry) kind age deferment year }
{
    let accumulation = basis::fields::accumulation(b.run);
    let last = 150 - age;
    let mut v = discount_after(b.run, deferment);
    let mut s = first;
    let mut total = payment(v, s);
    for j in deferment..last {
        let year = survivorship::year_on(kind, j, year);
        s = survivorship::survivors_after_year(b, age + j, year, s)?;
        v = discount_next(v, accumulation);
        total += payment(v, s);
    }
    Ok(total)
}

// The annuity at an age in a year, with a deferment.
#[tactic(auto, using(crate::proofs::Payments::within_deferment))]
pub fn annuity_at(
    b: LentBasis,
    kind: Kind,
    age: u32,
    deferment: u32,
    year: u32,
) -> Result<u64, Refusal>
    requires { Life b.run.now b.history.now age deferment year }
    ensures { meaning result ≡ annuity_of (held b.entry) kind age deferment year }
{
    let first = survivorship::survivors_at(b, kind, age, deferment, year)?;
    annuity_from(b, kind, age, deferment, year, first)
}

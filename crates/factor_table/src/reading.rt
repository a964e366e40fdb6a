// A factor read from the table: what is stored for its year, or one step from what is stored for the year before.
ghost use Rattle.std.specs.Prelude.{◌≡◌, ◌+◌, ◌≤◌, ◌<◌, length};
ghost use Rattle.basis.specs.Basis.{basis_of, Accepted};
ghost use Rattle.history.specs.Checked.{Cell};
ghost use Rattle.history.specs.Held.{held};
ghost use Rattle.outcome.specs.Outcome.{meaning};
ghost use Rattle.projection.specs.Projection.{factor_of};
ghost use Rattle.factor_table.specs.Inner.Reading.{is_stored, place_of, stored_factor};
ghost use Rattle.factor_table.specs.FactorTable.{factors_length, table_length};

use crate::{EARLY_LENGTH, TabledBasis};
use outcome::Refusal;

// Is a year itself stored, and not the one before it?
fn is_stored(year: u32) -> bool
    ensures { result ≡ is_stored year }
{
    year < 2130 || year % 2 == 0
}

// Where the number of an age stands, in the last year up to this one that is stored.
fn place(run: &[u8], age: u32, year: u32) -> usize
    requires { Accepted run.now × (20 ≤ age) × (age ≤ 150) × ((basis_of run.now).base ≤ year) × (year ≤ 2110 + age) }
    ensures { (result ≡ place_of (basis_of run.now) age year) × (result < factors_length) }
{
    if year < 2130 {
        let k = year - basis::fields::base_year(run);
        return (131 * k + (age - 20)) as usize;
    }
    let m = (year - 2130) / 2;
    EARLY_LENGTH + (132 * m - m * m + (age - 20 - 2 * m)) as usize
}

// What stands there.
fn stored(run: &[u8], numbers: &[u32], age: u32, year: u32) -> Result<u64, Refusal>
    requires { Accepted run.now × (20 ≤ age) × (age ≤ 150) × ((basis_of run.now).base ≤ year) × (year ≤ 2110 + age)
        × (length numbers.now ≡ table_length) }
    ensures { meaning result ≡ stored_factor (basis_of run.now) numbers.now age year }
{
    let at = place(run, age, year);
    sweep::decoded(age, numbers[at])
}

// The factor at an age in a year from B on.
pub fn factor(t: TabledBasis, age: u32, year: u32) -> Result<u64, Refusal>
    requires { Cell t.basis.run.now t.basis.history.now age year }
    ensures { meaning result ≡ factor_of (held t.entry.basis) age year }
{
    let last = stored(t.basis.run, t.numbers, age, year)?;
    if is_stored(year) {
        return Ok(last);
    }
    let terms = basis::fields::age_terms(t.basis.run, age);
    projection::factor::factor_in(t.basis, terms, age, year, last)
}

// The expectation of life: the years that U lives have left on average, with half a year for the year of death.
ghost use Rattle.std.specs.Prelude.{◌≡◌, ◌+◌, ◌≤◌};
ghost use Rattle.history.specs.Checked.{Life};
ghost use Rattle.history.specs.Held.{held};
ghost use Rattle.outcome.specs.Outcome.{meaning};
ghost use Rattle.valuation.specs.Valuation.{expectation_of};

use arithmetic::{HALF_UNIT, UNIT};
use history::LentBasis;
use outcome::Refusal;
use survivorship::Kind;

// The expectation from the deferred age in the deferred year.
pub fn expectation_at(
    b: LentBasis,
    kind: Kind,
    age: u32,
    deferment: u32,
    year: u32,
) -> Result<u64, Refusal>
    requires { Life b.run.now b.history.now age deferment year }
    ensures { meaning result ≡ expectation_of (held b.entry) kind age deferment year }
{
    let from = age + deferment;
    let start = year + deferment;
    let last = 150 - from;
    let mut s = UNIT;
    let mut total = 0;
    for j in 0..last {
        let year = survivorship::year_on(kind, j, start);
        s = survivorship::survivors_after_year(b, from + j, year, s)?;
        total += s;
    }
    Ok(HALF_UNIT + total)
}

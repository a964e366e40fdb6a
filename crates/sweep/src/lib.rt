// The year sweep (02, changes 5 and 9): the factors of all ages, advanced one year per step.
// The state is lent: 131 numbers of 4 bytes, one for each age from 20 to 150, each a factor or a refusal.
#![tactic(auto)]

ghost use Rattle.std.specs.Prelude.{◌≡◌, ◌+◌, ◌≤◌, ◌<◌, pos, ltb, length};
ghost use Rattle.outcome.specs.Outcome.{meaning};
ghost use Rattle.history.specs.Checked.{Cell};
ghost use Rattle.history.specs.Held.{held};
ghost use Rattle.sweep.specs.Sweep.{sweep_start, factor_on, advanced_factor, sweep_step};
ghost use Rattle.sweep.specs.Encoding.{refused_number, decoded, state_in, Encodes};

use history::LentBasis;
use outcome::Refusal;

// The number of a refusal that is given in a year.
fn refused_number(number: u32, year: u32) -> u32
    requires { (number ≤ 10) × (year ≤ 2260) }
    ensures { result ≡ refused_number number year }
{
    4_000_000_000 + (10_000 * number + year)
}

// What a number of the state stands for at an age.
#[tactic(auto, unfolding(crate::specs::Encoding::decoded))]
pub fn decoded(age: u32, n: u32) -> Result<u64, Refusal>
    ensures { meaning result ≡ decoded age n }
{
    if n <= 4_000_000_000 {
        return Ok(n as u64);
    }
    let refused = n - 4_000_000_000;
    Err(Refusal {
        number: refused / 10_000,
        first: age as u64,
        second: (refused % 10_000) as u64,
    })
}

// The state in year B: U at every age.
pub fn start() -> [u32; 131]
    ensures { Encodes result sweep_start }
{
    [1_000_000_000; 131]
}

// The number of the next year's factor at an age, or of its refusal.
fn next_factor(b: LentBasis, age: u32, year: u32, n: u32) -> u32
    requires { Cell b.run.now b.history.now age year × (year < 2110 + age) × (n ≤ 4_000_000_000) }
    ensures { decoded age result ≡ factor_on (held b.entry) age year (pos n) }
{
    let terms = basis::fields::age_terms(b.run, age);
    match projection::factor::factor_in(b, terms, age, year + 1, n as u64) {
        Ok(factor) => factor as u32,
        Err(r) => refused_number(r.number, year + 1),
    }
}

// One age from a year to the next: a refusal stays, and from the birth year 2110 on a factor does too.
#[tactic(auto, unfolding(crate::specs::Sweep::advanced_factor, crate::specs::Encoding::decoded))]
fn advanced_factor(b: LentBasis, age: u32, year: u32, n: u32) -> u32
    requires { (20 ≤ age) × (age ≤ 150) × ((held b).base ≤ year) }
    ensures { decoded age result ≡ advanced_factor (held b.entry) age year (decoded age n) }
{
    if 4_000_000_000 < n {
        return n;
    }
    if year < 2110 + age {
        next_factor(b, age, year, n)
    } else {
        n
    }
}

// One step: every age by itself. A step from 2260 on is none, which the answer says.
pub fn step(b: LentBasis, year: u32, state: &mut [u32]) -> bool
    requires { (length state.old ≡ 131) × ((held b).base ≤ year) }
    ensures value { result ≡ ltb year 2260 }
    ensures encodes { Encodes state.new (sweep_step (held b.entry) year (state_in state.old)) }
{
    for (i, n) in state.iter_mut().enumerate() {
        *n = advanced_factor(b, 20 + i as u32, year, *n);
    }
    year < 2260
}

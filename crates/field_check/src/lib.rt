// The check of one field of a data run, or of the data of a history: each of its numbers against the field's limits.
#![tactic(auto)]

ghost use Rattle.std.specs.Prelude.{◌≡◌, ◌+◌, ◌*◌, ◌^◌, ◌<◌, ◌≤◌, length};
ghost use Rattle.outcome.specs.Outcome.{passes, finding};
ghost use Rattle.layout.specs.Layout.{width_of, value_at};
ghost use Rattle.field_check.specs.Field.{between, field_check};

use layout::{Number, value_at, width_of};
use outcome::Refusal;

// Numbers of one kind, one after the other, with the limits of each and the number of the refusal of one outside them.
#[derive(Clone, Copy)]
pub struct Field {
    pub number: u32,
    pub kind: Number,
    pub low: i64,
    pub high: i64,
    pub offset: usize,
    pub count: usize,
}

// Whether a number is from the one to the other, both included.
pub fn in_limits(low: i64, high: i64, n: i64) -> bool
    ensures { result ≡ between low high n }
{
    low <= n && n <= high
}

// Where the number of a place in a field stands.
#[tactic(auto, using(crate::proofs::Turns::entry_inside))]
fn entry_at(f: Field, i: usize) -> usize
    requires { (i < f.count) × (f.offset + f.count * width_of f.kind < 2 ^ 64) }
    ensures { result ≡ f.offset + width_of f.kind * i }
{
    f.offset + width_of(f.kind) * i
}

// Whether that number is within its limits.
#[tactic(auto, using(crate::proofs::Turns::entry_inside))]
fn entry_ok(run: &[u8], f: Field, i: usize) -> bool
    requires { (i < f.count) × (f.offset + f.count * width_of f.kind ≤ length run.now) }
    ensures { result ≡ between f.low f.high (value_at f.kind run.now (f.offset + width_of f.kind * i)) }
{
    in_limits(f.low, f.high, value_at(run, f.kind, entry_at(f, i)))
}

// Whether every number of a field is within its limits. None is left out once one is found outside, so that the compiler
// may look at several at a time.
#[tactic(auto, unfolding(crate::specs::Field::entries_check, crate::specs::Field::field_check), using(crate::proofs::Turns::also))]
pub fn all_within(run: &[u8], f: Field) -> bool
    requires { f.offset + f.count * width_of f.kind ≤ length run.now }
    ensures { result ≡ passes (field_check run.now f) }
{
    let mut all = true;
    for i in 0..f.count {
        all &= entry_ok(run, f, i);
    }
    all
}

// The first number of a field that is outside its limits.
#[tactic(auto, unfolding(crate::specs::Field::entries_check, crate::specs::Field::field_check), using(crate::proofs::Turns::inside, crate::proofs::Turns::outside))]
pub fn check_field(run: &[u8], f: Field) -> Result<(), Refusal>
    requires { f.offset + f.count * width_of f.kind ≤ length run.now }
    ensures { finding result ≡ field_check run.now f }
{
    for i in 0..f.count {
        if !entry_ok(run, f, i) {
            return Err(Refusal {
                number: f.number,
                first: entry_at(f, i) as u64,
                second: 0,
            });
        }
    }
    Ok(())
}

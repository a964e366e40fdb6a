// The check of a history (13, 2, 3, 4, 5), and of a data run with its history.
ghost use Rattle.std.specs.Prelude.{◌≡◌, ◌+◌, ◌*◌, ◌≤◌, ◌<◌, length};
ghost use Rattle.basis.specs.Basis.{basis_of, Accepted};
ghost use Rattle.outcome.specs.Outcome.{passes, finding};
ghost use Rattle.layout.specs.Layout.{width_of};
ghost use Rattle.field_check.specs.Field.{fields_check};
ghost use Rattle.block.specs.Blocks.{parts_of};
ghost use Rattle.history.specs.History.{actual_years, history_fields, history_check, run_and_history_check};
ghost use Rattle.history.specs.Inner.Part.{part_check};

use field_check::Field;
use layout::Number;
use outcome::{Reason, Refusal};

const LEAST_IMPROVEMENT: i64 = -500_000_000;

const GREATEST_IMPROVEMENT: i64 = 500_000_000;

// The two fields of a year's first block, its improvements and the data behind them, which are zero.
const YOUNGER_AGES: Field = Field {
    number: 5,
    kind: Number::SignedWord,
    low: LEAST_IMPROVEMENT,
    high: GREATEST_IMPROVEMENT,
    offset: 0,
    count: 66,
};

const FIRST_REMAINING: Field = Field {
    number: 4,
    kind: Number::Byte,
    low: 0,
    high: 0,
    offset: 264,
    count: 242,
};

// The two fields of its second block.
const OLDER_AGES: Field = Field {
    number: 5,
    kind: Number::SignedWord,
    low: LEAST_IMPROVEMENT,
    high: GREATEST_IMPROVEMENT,
    offset: 0,
    count: 65,
};

const SECOND_REMAINING: Field = Field {
    number: 4,
    kind: Number::Byte,
    low: 0,
    high: 0,
    offset: 260,
    count: 246,
};

// The years from B + 1 to F.
fn years_needed(run: &[u8]) -> usize
    requires { Accepted run.now }
    ensures { result ≡ actual_years (basis_of run.now) }
{
    basis::fields::foundation_year(run).saturating_sub(basis::fields::base_year(run)) as usize
}

// A field in the data of a block, with the place of its refusal counted in the joined data.
fn check_part(history: &[u8], b: usize, f: Field) -> Result<(), Refusal>
    requires { (b < 176) × (512 * b + 512 ≤ length history.now) × (f.offset + f.count * width_of f.kind ≤ 506) }
    ensures { finding result ≡ part_check history.now b f }
{
    let from = 512 * b + 2;
    match field_check::check_field(&history[from..from + 506], f) {
        Ok(()) => Ok(()),
        Err(r) => Err(Refusal {
            first: (506 * b) as u64 + r.first,
            ..r
        }),
    }
}

// Whether every number of a field in the data of a block is within its limits.
fn part_within(history: &[u8], b: usize, f: Field) -> bool
    requires { (b < 176) × (512 * b + 512 ≤ length history.now) × (f.offset + f.count * width_of f.kind ≤ 506) }
    ensures { result ≡ passes (part_check history.now b f) }
{
    let from = 512 * b + 2;
    field_check::all_within(&history[from..from + 506], f)
}

// Every 4, then every 5. The years go backwards, so that the first refusal of each kind is the one that is left. As in the
// check of a run the fields stand in the calls, so that the compiler knows their limits, and what is outside its limits is
// sought only in a year that has some.
fn check_fields(history: &[u8], years: usize) -> Result<(), Refusal>
    requires { (length history.now ≡ 1024 * years) × (years ≤ 88) }
    ensures { finding result ≡ fields_check (parts_of (2 * years) history.now) (history_fields years) }
{
    let mut fours = Ok(());
    let mut fives = Ok(());
    for k in (0..years).rev() {
        let b = 2 * k;
        let zero = part_within(history, b, FIRST_REMAINING)
            & part_within(history, b + 1, SECOND_REMAINING);
        let within = part_within(history, b, YOUNGER_AGES)
            & part_within(history, b + 1, OLDER_AGES);
        if zero & within {
            continue;
        }
        let four = outcome::first_of(
            check_part(history, b, FIRST_REMAINING),
            check_part(history, b + 1, SECOND_REMAINING),
        );
        let five = outcome::first_of(
            check_part(history, b, YOUNGER_AGES),
            check_part(history, b + 1, OLDER_AGES),
        );
        fours = outcome::first_of(four, fours);
        fives = outcome::first_of(five, fives);
    }
    outcome::first_of(fours, fives)
}

// The length (13), the blocks, then the fields.
#[tactic(auto, unfolding(crate::specs::History::history_check, crate::specs::History::history_data))]
pub fn check_history(run: &[u8], history: &[u8]) -> Result<(), Refusal>
    requires { Accepted run.now }
    ensures { finding result ≡ history_check (basis_of run.now) history.now }
{
    let years = years_needed(run);
    if history.len() != 1024 * years {
        return Err(Reason::HistoryLength.at((1024 * years) as u64, 0));
    }
    block::check_blocks(history, 2 * years)?;
    check_fields(history, years)
}

// The data run afresh, then its history.
#[tactic(auto, unfolding(crate::specs::History::run_and_history_check), using(run_check::proofs::Acceptance::accepted))]
pub fn check_run_and_history(run: &[u8], history: &[u8]) -> Result<(), Refusal>
    ensures { finding result ≡ run_and_history_check run.now history.now }
{
    run_check::check_run(run)?;
    check_history(run, history)
}

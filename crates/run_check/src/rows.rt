// The rows of the table of fields. Each stands in the call that checks it, so that the compiler knows its kind of number and its
// limits in the loop.
ghost use Rattle.std.specs.Prelude.{◌≡◌, ◌+◌, ◌*◌, ◌≤◌, length};
ghost use Rattle.layout.specs.Layout.{mpb1, mpb2, run_length, fields_end, width_of, proportion_of};
ghost use Rattle.layout.specs.Meaning.{meant};
ghost use Rattle.outcome.specs.Outcome.{finding};
ghost use Rattle.field_check.specs.Field.{field_check, fields_check};
ghost use Rattle.run_check.specs.Run.{exactly, mark_fields, zero_fields, single_fields, base_rates, rates, periods, proportions, age_fields, birth_year_fields};

use field_check::{Field, all_within, check_field};
use layout::forms::letter_of;
use layout::offsets::{
    birth_year_initial_rates_at, birth_year_long_term_rates_at, birth_year_periods_at,
    birth_year_proportions_at, fields_end,
};
use layout::{Form, Number};
use outcome::Refusal;

// Bytes that have one value only (4).
fn exactly(byte: i64, offset: usize, count: usize) -> Field
    ensures { result ≡ exactly byte offset count }
{
    Field {
        number: 4,
        kind: Number::Byte,
        low: byte,
        high: byte,
        offset,
        count,
    }
}

// The fields of one number, F, B, the constant addition and the rate of discount, and the base rates (5).
const FOUNDATION: Field = Field {
    number: 5,
    kind: Number::Half,
    low: layout::EARLIEST_YEAR,
    high: layout::LAST_FOUNDATION_YEAR,
    offset: layout::FOUNDATION_AT,
    count: 1,
};

const BASE: Field = Field {
    number: 5,
    kind: Number::Half,
    low: layout::EARLIEST_YEAR,
    high: layout::LAST_BASE_YEAR,
    offset: layout::BASE_AT,
    count: 1,
};

const ADDITION: Field = Field {
    number: 5,
    kind: Number::SignedWord,
    low: layout::LEAST_ADDITION,
    high: layout::ADDITION_LIMIT,
    offset: layout::ADDITION_AT,
    count: 1,
};

const DISCOUNT: Field = Field {
    number: 5,
    kind: Number::SignedWord,
    low: layout::LEAST_DISCOUNT,
    high: layout::GREATEST_DISCOUNT,
    offset: layout::DISCOUNT_AT,
    count: 1,
};

const BASE_RATES: Field = Field {
    number: 5,
    kind: Number::Word,
    low: 0,
    high: layout::GREATEST_BASE_RATE,
    offset: layout::BASE_RATES_AT,
    count: layout::AGES,
};

// The letters of the mark.
#[tactic(auto, unfolding(field_check::specs::Field::fields_check))]
pub(crate) fn check_mark(run: &[u8], form: Form) -> Result<(), Refusal>
    requires { fields_end (meant form) ≤ length run.now }
    ensures { finding result ≡ fields_check run.now (mark_fields (meant form)) }
{
    check_field(run, exactly(77, 0, 1))?;
    check_field(run, exactly(80, 1, 1))?;
    check_field(run, exactly(66, 2, 1))?;
    check_field(run, exactly(letter_of(form), 3, 1))
}

// The zero bytes before the base rates and behind the fields.
#[tactic(auto, unfolding(field_check::specs::Field::fields_check))]
pub(crate) fn check_zeros(run: &[u8], form: Form) -> Result<(), Refusal>
    requires { (length run.now ≡ run_length (meant form)) × (fields_end (meant form) ≤ length run.now) }
    ensures { finding result ≡ fields_check run.now (zero_fields (meant form)) }
{
    check_field(run, exactly(0, layout::ZEROS_AT, layout::ZEROS))?;
    let end = fields_end(form);
    check_field(run, exactly(0, end, run.len() - end))
}

// The fields of one number.
#[tactic(auto, unfolding(field_check::specs::Field::fields_check))]
pub(crate) fn check_single_fields(run: &[u8]) -> Result<(), Refusal>
    requires { run_length mpb1 ≤ length run.now }
    ensures { finding result ≡ fields_check run.now single_fields }
{
    check_field(run, FOUNDATION)?;
    check_field(run, BASE)?;
    check_field(run, ADDITION)?;
    check_field(run, DISCOUNT)
}

// A table. Every number is looked at, several at a time, and only where one is outside its limits is the first such sought. It is
// put into each call, since the loop is fast where the kind and the limits are known.
#[inline(always)]
fn check_table(run: &[u8], f: Field) -> Result<(), Refusal>
    requires { f.offset + f.count * width_of f.kind ≤ length run.now }
    ensures { finding result ≡ field_check run.now f }
{
    if all_within(run, f) {
        return Ok(());
    }
    check_field(run, f)
}

// The base rates.
pub(crate) fn check_base_rates(run: &[u8]) -> Result<(), Refusal>
    requires { run_length mpb1 ≤ length run.now }
    ensures { finding result ≡ field_check run.now base_rates }
{
    check_table(run, BASE_RATES)
}

// I or L (5).
fn check_rates(run: &[u8], offset: usize, count: usize) -> Result<(), Refusal>
    requires { offset + count * 4 ≤ length run.now }
    ensures { finding result ≡ field_check run.now (rates offset count) }
{
    let f = Field {
        number: 5,
        kind: Number::SignedWord,
        low: layout::LEAST_RATE,
        high: layout::RATE_LIMIT,
        offset,
        count,
    };
    check_table(run, f)
}

// T (5).
fn check_periods(run: &[u8], offset: usize, count: usize) -> Result<(), Refusal>
    requires { offset + count ≤ length run.now }
    ensures { finding result ≡ field_check run.now (periods offset count) }
{
    let f = Field {
        number: 5,
        kind: Number::Byte,
        low: 1,
        high: layout::LONGEST_PERIOD,
        offset,
        count,
    };
    check_table(run, f)
}

// P of MPB1 (5).
fn check_per_cents(run: &[u8], offset: usize, count: usize) -> Result<(), Refusal>
    requires { offset + count ≤ length run.now }
    ensures { finding result ≡ field_check run.now (proportions mpb1 offset count) }
{
    let f = Field {
        number: 5,
        kind: Number::Byte,
        low: 0,
        high: layout::GREATEST_PER_CENTS,
        offset,
        count,
    };
    check_table(run, f)
}

// P of MPB2 (5).
fn check_hundredths(run: &[u8], offset: usize, count: usize) -> Result<(), Refusal>
    requires { offset + count * 2 ≤ length run.now }
    ensures { finding result ≡ field_check run.now (proportions mpb2 offset count) }
{
    let f = Field {
        number: 5,
        kind: Number::Half,
        low: 0,
        high: layout::GREATEST_HUNDREDTHS,
        offset,
        count,
    };
    check_table(run, f)
}

// P.
fn check_proportions(run: &[u8], form: Form, offset: usize, count: usize) -> Result<(), Refusal>
    requires { offset + count * width_of (proportion_of (meant form)) ≤ length run.now }
    ensures { finding result ≡ field_check run.now (proportions (meant form) offset count) }
{
    match form {
        Form::Mpb1 => check_per_cents(run, offset, count),
        Form::Mpb2 => check_hundredths(run, offset, count),
    }
}

// The terms of improvement by age. Every count is known here too, which the loops are faster by, and the four tables are looked
// at one after the other before any of them is asked for its refusal.
#[tactic(auto, unfolding(field_check::specs::Field::fields_check))]
pub(crate) fn check_age_terms(run: &[u8], form: Form) -> Result<(), Refusal>
    requires { fields_end (meant form) ≤ length run.now }
    ensures { finding result ≡ fields_check run.now (age_fields (meant form)) }
{
    let initials = check_rates(run, layout::AGE_INITIAL_RATES_AT, layout::AGES);
    let longs = check_rates(run, layout::AGE_LONG_TERM_RATES_AT, layout::AGES);
    let periods = check_periods(run, layout::AGE_PERIODS_AT, layout::AGES);
    let proportions = check_proportions(run, form, layout::AGE_PROPORTIONS_AT, layout::AGES);
    initials?;
    longs?;
    periods?;
    proportions
}

// The same by birth year.
#[tactic(auto, unfolding(field_check::specs::Field::fields_check))]
pub(crate) fn check_birth_year_terms(run: &[u8], form: Form) -> Result<(), Refusal>
    requires { fields_end (meant form) ≤ length run.now }
    ensures { finding result ≡ fields_check run.now (birth_year_fields (meant form)) }
{
    let initials = check_rates(run, birth_year_initial_rates_at(form), layout::BIRTH_YEARS);
    let longs = check_rates(
        run,
        birth_year_long_term_rates_at(form),
        layout::BIRTH_YEARS,
    );
    let periods = check_periods(run, birth_year_periods_at(form), layout::BIRTH_YEARS);
    let proportions = check_proportions(
        run,
        form,
        birth_year_proportions_at(form),
        layout::BIRTH_YEARS,
    );
    initials?;
    longs?;
    periods?;
    proportions
}

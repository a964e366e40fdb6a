// The layout of a data run (01, "The basis file"): the kinds of number in it, its two forms, where each field stands, and the
// limits of each.
#![tactic(auto)]

pub mod forms;
pub mod offsets;

ghost use Rattle.std.specs.Prelude.{◌≡◌, ◌+◌, ◌≤◌, length};
ghost use Rattle.layout.specs.Layout.{width_of, value_at};

// A kind of number in a data run: a byte, 2 bytes, 4 bytes, 4 bytes signed.
#[derive(Clone, Copy)]
pub enum Number {
    Byte,
    Half,
    Word,
    SignedWord,
}

// The form of a data run and of its file (02, change 7). They differ in the mark, in how P is written, and in length.
#[derive(Clone, Copy)]
pub enum Form {
    Mpb1,
    Mpb2,
}

// The blocks of a file of each form, each with 506 data bytes among its 512.
pub const MPB1_BLOCKS: usize = 9;

pub const MPB2_BLOCKS: usize = 10;

pub const MPB1_RUN_LENGTH: usize = 506 * MPB1_BLOCKS;

pub const MPB2_RUN_LENGTH: usize = 506 * MPB2_BLOCKS;

pub const MPB1_FILE_LENGTH: usize = 512 * MPB1_BLOCKS;

pub const MPB2_FILE_LENGTH: usize = 512 * MPB2_BLOCKS;

// One number for each age from 20 to 150, or for each birth year from 1842 to 2110.
pub const AGES: usize = 131;

pub const BIRTH_YEARS: usize = 269;

// The bytes of a table of base rates, I or L by age, and of I or L by birth year.
pub const AGE_RATES_LENGTH: usize = 4 * AGES;

pub const BIRTH_YEAR_RATES_LENGTH: usize = 4 * BIRTH_YEARS;

// The offset of each field that stands before the first P. Every table begins where the one before it ends.
pub const FOUNDATION_AT: usize = 4;

pub const BASE_AT: usize = 6;

pub const ADDITION_AT: usize = 8;

pub const DISCOUNT_AT: usize = 12;

pub const ZEROS_AT: usize = 16;

pub const BASE_RATES_AT: usize = 30;

pub const AGE_INITIAL_RATES_AT: usize = BASE_RATES_AT + AGE_RATES_LENGTH;

pub const AGE_LONG_TERM_RATES_AT: usize = AGE_INITIAL_RATES_AT + AGE_RATES_LENGTH;

pub const AGE_PERIODS_AT: usize = AGE_LONG_TERM_RATES_AT + AGE_RATES_LENGTH;

pub const AGE_PROPORTIONS_AT: usize = AGE_PERIODS_AT + AGES;

// The zero bytes between the rate of discount and the base rates.
pub const ZEROS: usize = BASE_RATES_AT - ZEROS_AT;

// The limits.
pub const EARLIEST_YEAR: i64 = 1992;

pub const LAST_FOUNDATION_YEAR: i64 = 2080;

pub const LAST_BASE_YEAR: i64 = 2130;

pub const ADDITION_LIMIT: i64 = 100_000_000;

pub const LEAST_ADDITION: i64 = -ADDITION_LIMIT;

pub const LEAST_DISCOUNT: i64 = -10_000_000;

pub const GREATEST_DISCOUNT: i64 = 200_000_000;

pub const GREATEST_BASE_RATE: i64 = 1_000_000_000;

pub const RATE_LIMIT: i64 = 200_000_000;

pub const LEAST_RATE: i64 = -RATE_LIMIT;

pub const LONGEST_PERIOD: i64 = 50;

// P in a run of MPB1, and in one of MPB2.
pub const GREATEST_PER_CENTS: i64 = 150;

pub const GREATEST_HUNDREDTHS: i64 = 15_000;

// How many bytes a number has.
pub fn width_of(kind: Number) -> usize
    ensures { result ≡ width_of kind }
{
    match kind {
        Number::Byte => 1,
        Number::Half => 2,
        Number::Word | Number::SignedWord => 4,
    }
}

// The number that stands at an offset.
pub fn value_at(run: &[u8], kind: Number, at: usize) -> i64
    requires { at + width_of kind ≤ length run.now }
    ensures { result ≡ value_at kind run.now at }
{
    match kind {
        Number::Byte => i64::from(run[at]),
        Number::Half => i64::from(little_endian::read_u16(run, at)),
        Number::Word => i64::from(little_endian::read_u32(run, at)),
        Number::SignedWord => i64::from(little_endian::read_i32(run, at)),
    }
}

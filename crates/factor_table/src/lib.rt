// What is worked out once for all records of the grid: every age's factor in every year, by the sweep, and the discounts.
// It is lent: 22,565 numbers of 4 bytes. 131 for each year from B to 2129, 0 where there are fewer than 138 of these; behind them
// 131 for 2130, 129 for 2132 and so on to 1 for 2260; and last 131 discounts.
#![tactic(auto)]

pub mod discounts;
pub mod factors;
pub mod later_years;
pub mod reading;

ghost use Rattle.std.specs.Prelude.{◌≡◌, length};
ghost use Rattle.history.specs.Held.{held};
ghost use Rattle.factor_table.specs.FactorTable.{table_length, FactorTable};

use history::LentBasis;

// 131 numbers for each of the 138 years from 1992 to 2129.
pub const EARLY_LENGTH: usize = 18078;

// The same with every second year from 2130 to 2260 behind them.
pub const FACTORS_LENGTH: usize = 22434;

// The same with the discounts of 0 to 130 years behind them.
pub const TABLE_LENGTH: usize = 22565;

// A basis that may be worked with, and what was worked out of it once.
#[derive(Clone, Copy)]
pub struct TabledBasis<'a, 'b> {
    pub basis: LentBasis<'a>,
    pub numbers: &'b [u32],
    ghost filled: { FactorTable (held basis) numbers.now },
}

pub fn fill_table(b: LentBasis, numbers: &mut [u32])
    requires { length numbers.old ≡ table_length }
    ensures { FactorTable (held b.entry) numbers.new }
{
    let from_2130 = factors::store_years(b, numbers);
    factors::clear_rest(b.run, numbers);
    later_years::store_later_years(b, from_2130, numbers);
    discounts::store_discounts(b.run, numbers);
}

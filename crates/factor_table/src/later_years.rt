// The factors from 2130 on: the state of the sweep in every second year, and of it the ages that have a birth year up to 2110.
ghost use Rattle.std.specs.Prelude.{◌≡◌, length};
ghost use Rattle.history.specs.Held.{held};
ghost use Rattle.sweep.specs.Sweep.{sweep_after};
ghost use Rattle.sweep.specs.Encoding.{Encodes};
ghost use Rattle.factor_table.specs.Inner.Storing.{KeptBefore};
ghost use Rattle.factor_table.specs.FactorTable.{early_years, early_length, table_length, LaterYearsStored};

use crate::{EARLY_LENGTH, factors};
use history::LentBasis;

// The sweep goes on from its state in 2130, two years a turn.
pub(crate) fn store_later_years(b: LentBasis, from_2130: [u32; 131], numbers: &mut [u32])
    requires { (length numbers.old ≡ table_length)
        × Encodes from_2130 (sweep_after (held b) (early_years (held b))) }
    ensures later_years_stored { LaterYearsStored (held b.entry) numbers.new 66 }
    ensures kept_before { KeptBefore early_length numbers.old numbers.new }
{
    let mut state = from_2130;
    let mut at = EARLY_LENGTH;
    for m in 0..66 {
        let first = 2 * m as usize;
        factors::store_state(&state, first, at, numbers);
        sweep::step(b, 2130 + 2 * m, &mut state);
        sweep::step(b, 2131 + 2 * m, &mut state);
        at += 131 - first;
    }
}

// The factors of the years from B to 2129: the state of the sweep in each of them, stored.
ghost use Rattle.std.specs.Prelude.{◌≡◌, ◌+◌, ◌*◌, ◌≤◌, length};
ghost use Rattle.basis.specs.Basis.{basis_of, Accepted};
ghost use Rattle.history.specs.Held.{held};
ghost use Rattle.sweep.specs.Sweep.{sweep_after};
ghost use Rattle.sweep.specs.Encoding.{Encodes};
ghost use Rattle.factor_table.specs.Inner.Storing.{StandsAt, KeptBefore};
ghost use Rattle.factor_table.specs.FactorTable.{early_years, table_length, YearsStored, RestIsZero};

use crate::EARLY_LENGTH;
use history::LentBasis;

// From this year on only every second one is stored.
const LATER_FROM: u32 = 2130;

// The numbers of a state from one of them on, put into the table at a place; what stands before it is kept.
pub(crate) fn store_state(state: &[u32], from: usize, at: usize, numbers: &mut [u32])
    requires { (length state.now ≡ 131) × (from ≤ 131) × (at + 131 ≤ length numbers.old + from) × (at ≤ table_length) }
    ensures stands_at { StandsAt at from state.now numbers.new }
    ensures kept_before { KeptBefore at numbers.old numbers.new }
{
    numbers[at..at + 131 - from].copy_from_slice(&state[from..]);
}

// The sweep goes through the years once; its state in 2130 is the answer.
pub(crate) fn store_years(b: LentBasis, numbers: &mut [u32]) -> [u32; 131]
    requires { length numbers.old ≡ table_length }
    ensures encodes { Encodes result (sweep_after (held b.entry) (early_years (held b.entry))) }
    ensures years_stored { YearsStored (held b.entry) numbers.new
        (early_years (held b.entry)) }
{
    let base = basis::fields::base_year(b.run);
    let mut state = sweep::start();
    for year in base..LATER_FROM {
        store_state(&state, 0, 131 * (year - base) as usize, numbers);
        sweep::step(b, year, &mut state);
    }
    state
}

// The room that no year takes.
pub(crate) fn clear_rest(run: &[u8], numbers: &mut [u32])
    requires { Accepted run.now × (length numbers.old ≡ table_length) }
    ensures rest_is_zero { RestIsZero (basis_of run.now) numbers.new }
    ensures kept_before { KeptBefore (131 * (early_years (basis_of run.now))) numbers.old numbers.new }
{
    let years = LATER_FROM - basis::fields::base_year(run);
    numbers[131 * years as usize..EARLY_LENGTH].fill(0);
}

// The discounts after 0 to 130 years, stored behind the factors, and read back.
ghost use Rattle.std.specs.Prelude.{◌≡◌, ◌≤◌, length};
ghost use Rattle.basis.specs.Basis.{basis_of, Accepted};
ghost use Rattle.factor_table.specs.Inner.Storing.{KeptBefore};
ghost use Rattle.factor_table.specs.FactorTable.{factors_length, table_length, stored_discount, DiscountsStored};

use crate::FACTORS_LENGTH;
use arithmetic::UNIT;

pub(crate) fn store_discounts(run: &[u8], numbers: &mut [u32])
    requires { Accepted run.now × (length numbers.old ≡ table_length) }
    ensures discounts_stored { DiscountsStored (basis_of run.now) numbers.new 131 }
    ensures kept_before { KeptBefore factors_length numbers.old numbers.new }
{
    let accumulation = basis::fields::accumulation(run);
    let mut v = UNIT;
    for n in &mut numbers[FACTORS_LENGTH..] {
        *n = v as u32;
        v = valuation::annuity::discount_next(v, accumulation);
    }
}

// The discount after some years, as it stands in the table.
pub fn discount(numbers: &[u32], j: u32) -> u64
    requires { (length numbers.now ≡ table_length) × (j ≤ 130) }
    ensures { result ≡ stored_discount numbers.now j }
{
    let at = FACTORS_LENGTH + j as usize;
    u64::from(numbers[at])
}

// The nine tables of a data run, each handed back as that stretch of the lent run itself.
#![tactic(auto)]

ghost use Rattle.std.specs.Prelude.{◌≡◌, ◌+◌};
ghost use Rattle.layout.specs.Meaning.{meant};
ghost use Rattle.tables.specs.Tables.{stretch_of, table_start, table_of};

use layout::Form;
use layout::offsets::{
    birth_year_initial_rates_at, birth_year_long_term_rates_at, birth_year_periods_at,
    birth_year_proportions_at, proportion_width,
};

// The tables in the order in which they stand in the run: one entry for each age from 20, or for each birth year from
// 1842. Periods are T, proportions P.
#[derive(Clone, Copy)]
pub enum Table {
    BaseRates,
    AgeInitialRates,
    AgeLongTermRates,
    AgePeriods,
    AgeProportions,
    BirthYearInitialRates,
    BirthYearLongTermRates,
    BirthYearPeriods,
    BirthYearProportions,
}

// A table's stretch of a run: its offset, and how many bytes it has.
fn stretch_of(form: Form, table: Table) -> (usize, usize)
    ensures { result ≡ stretch_of (meant form) table }
{
    match table {
        Table::BaseRates => (layout::BASE_RATES_AT, layout::AGE_RATES_LENGTH),
        Table::AgeInitialRates => (layout::AGE_INITIAL_RATES_AT, layout::AGE_RATES_LENGTH),
        Table::AgeLongTermRates => (layout::AGE_LONG_TERM_RATES_AT, layout::AGE_RATES_LENGTH),
        Table::AgePeriods => (layout::AGE_PERIODS_AT, layout::AGES),
        Table::AgeProportions => (
            layout::AGE_PROPORTIONS_AT,
            proportion_width(form) * layout::AGES,
        ),
        Table::BirthYearInitialRates => (
            birth_year_initial_rates_at(form),
            layout::BIRTH_YEAR_RATES_LENGTH,
        ),
        Table::BirthYearLongTermRates => (
            birth_year_long_term_rates_at(form),
            layout::BIRTH_YEAR_RATES_LENGTH,
        ),
        Table::BirthYearPeriods => (birth_year_periods_at(form), layout::BIRTH_YEARS),
        Table::BirthYearProportions => (
            birth_year_proportions_at(form),
            proportion_width(form) * layout::BIRTH_YEARS,
        ),
    }
}

// A table of an accepted run; of a refused run a stretch of length 0. The first promise is the stretch's contents, the
// second that it lies in the caller's own run, at the table's offset.
#[tactic(auto, using(crate::proofs::Stretches::handing_back))]
pub fn table_of(run: &[u8], table: Table) -> &[u8]
    ensures contents { result.now ≡ table_of run.now table }
    ensures place { result.ref_ptr ≡ (run.entry.ref_ptr.0, table_start run.now table + run.entry.ref_ptr.1) }
{
    let Ok(()) = run_check::check_run(run) else {
        return &run[..0];
    };
    let (start, length) = stretch_of(layout::forms::form_of_run(run.len()), table);
    &run[start..start + length]
}

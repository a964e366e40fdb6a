// The parts of the output, one after another.
ghost use Rattle.std.specs.Prelude.{◌≡◌, ◌+◌, ◌*◌, ◌≤◌, length, nat_abs};
ghost use Rattle.layout.specs.Layout.{width_of, proportion_of, run_length, age_long_term_rates_at, age_periods_at, age_proportions_at, birth_year_initial_rates_at};
ghost use Rattle.layout.specs.Meaning.{meant};
ghost use Rattle.lent.specs.Lent.{placed};
ghost use Rattle.short_form.specs.ShortForm.{long_term_limit, long_term_rates, age_periods, proportions, ages_of, birth_years_of};

use crate::{periods, rates};
use layout::Form;
use layout::offsets::{
    birth_year_initial_rates_at, birth_year_long_term_rates_at, birth_year_periods_at,
    birth_year_proportions_at, fields_end,
};

// The age L.
fn put_rates(rate: i32, out: &mut [u8])
    requires { (nat_abs rate ≤ long_term_limit) × (age_periods_at ≤ length out.old) }
    ensures { out.new ≡ placed out.old age_long_term_rates_at (long_term_rates rate) }
{
    for i in 0..layout::AGES {
        let word = little_endian::i32_bytes(rates::long_term_rate(rate, 20 + i));
        lent::put(&word, out, layout::AGE_LONG_TERM_RATES_AT + 4 * i);
    }
}

// The age T.
fn put_age_periods(out: &mut [u8])
    requires { age_proportions_at ≤ length out.old }
    ensures { out.new ≡ placed out.old age_periods_at age_periods }
{
    for place in 0..layout::AGES {
        out[layout::AGE_PERIODS_AT + place] = periods::age_period(20 + place);
    }
}

// P of 50 per cent, n times.
fn put_proportions(form: Form, n: usize, out: &mut [u8], at: usize)
    requires { at + width_of (proportion_of (meant form)) * n ≤ length out.old }
    ensures { out.new ≡ placed out.old at (proportions (meant form) n) }
{
    let width = layout::offsets::proportion_width(form);
    for i in 0..n {
        proportion::put_proportion(form, 5_000, out, at + width * i);
    }
}

// What stands before the age L, kept, then the age L, T and P.
pub(crate) fn put_ages(run: &[u8], form: Form, rate: i32, out: &mut [u8])
    requires { (length run.now ≡ run_length (meant form)) × (nat_abs rate ≤ long_term_limit) × (run_length (meant form) ≤ length out.old) }
    ensures { out.new ≡ placed out.old 0 (ages_of (meant form) run.now rate) }
{
    lent::put(&run[0..layout::AGE_LONG_TERM_RATES_AT], out, 0);
    put_rates(rate, out);
    put_age_periods(out);
    put_proportions(form, layout::AGES, out, layout::AGE_PROPORTIONS_AT);
}

// The birth-year I, kept, then the birth-year L, T and P, and the form's last zero bytes.
pub(crate) fn put_birth_years(run: &[u8], form: Form, out: &mut [u8])
    requires { (length run.now ≡ run_length (meant form)) × (run_length (meant form) ≤ length out.old) }
    ensures { out.new ≡ placed out.old (birth_year_initial_rates_at (meant form)) (birth_years_of (meant form) run.now) }
{
    let from = birth_year_initial_rates_at(form);
    let long = birth_year_long_term_rates_at(form);
    let end = fields_end(form);
    lent::put(&run[from..long], out, from);
    lent::put_repeated(0, layout::BIRTH_YEAR_RATES_LENGTH, out, long);
    lent::put_repeated(
        periods::BY_BIRTH_YEAR,
        layout::BIRTH_YEARS,
        out,
        birth_year_periods_at(form),
    );
    put_proportions(
        form,
        layout::BIRTH_YEARS,
        out,
        birth_year_proportions_at(form),
    );
    lent::put_repeated(0, run.len() - end, out, end);
}

// The fields of an accepted data run, laid out as MPB1.
ghost use Rattle.std.specs.Prelude.{◌≡◌, ◌+◌, ◌*◌, ◌≤◌, length};
ghost use Rattle.layout.specs.Layout.{mpb1, width_of, proportion_of, form_of_run, run_length, birth_year_initial_rates_at};
ghost use Rattle.lent.specs.Lent.{placed};
ghost use Rattle.basis.specs.Basis.{Accepted};
ghost use Rattle.old_form.specs.OldForm.{proportions_in, ProportionsWithin, ages_in, birth_years_in, in_form};

use layout::Form;
use layout::forms::form_of_run;
use layout::offsets::{birth_year_initial_rates_at, birth_year_proportions_at};

// n P of a table, each over 100.
#[tactic(auto, using(crate::proofs::Turns::putting))]
fn put_per_cents(run: &[u8], offset: usize, n: usize, out: &mut [u8], at: usize)
    requires accepted { Accepted run.now × ProportionsWithin run.now offset n × (at + n ≤ length out.old) }
    requires n_in_bounds { offset + width_of (proportion_of (form_of_run (length run.now))) * n ≤ length run.now }
    ensures { out.new ≡ placed out.old at (proportions_in mpb1 run.now offset 0 n) }
{
    let form = form_of_run(run.len());
    for place in 0..n {
        let p = proportion::proportion_at(run, form, offset, place);
        proportion::put_proportion(Form::Mpb1, p, out, at + place);
    }
}

// The mark, the fields before the age P as they stand, and the age P.
fn put_ages(run: &[u8], out: &mut [u8])
    requires { Accepted run.now × (run_length mpb1 ≤ length out.old) }
    ensures { out.new ≡ placed out.old 0 (ages_in mpb1 run.now) }
{
    lent::put(b"MPB1", out, 0);
    lent::put(
        &run[layout::FOUNDATION_AT..layout::AGE_PROPORTIONS_AT],
        out,
        layout::FOUNDATION_AT,
    );
    put_per_cents(
        run,
        layout::AGE_PROPORTIONS_AT,
        layout::AGES,
        out,
        layout::AGE_PROPORTIONS_AT,
    );
}

// The fields by birth year before P as they stand, and P, with which a run of MPB1 ends.
fn put_birth_years(run: &[u8], out: &mut [u8])
    requires { Accepted run.now × (run_length mpb1 ≤ length out.old) }
    ensures { out.new ≡ placed out.old (birth_year_initial_rates_at mpb1) (birth_years_in mpb1 run.now) }
{
    let form = form_of_run(run.len());
    let from = birth_year_initial_rates_at(form);
    let proportions = birth_year_proportions_at(form);
    lent::put(
        &run[from..proportions],
        out,
        birth_year_initial_rates_at(Form::Mpb1),
    );
    put_per_cents(
        run,
        proportions,
        layout::BIRTH_YEARS,
        out,
        birth_year_proportions_at(Form::Mpb1),
    );
}

// The whole run.
pub(crate) fn lay_old_form(run: &[u8], out: &mut [u8])
    requires { Accepted run.now × (length out.old ≡ run_length mpb1) }
    ensures { out.new ≡ in_form mpb1 run.now }
{
    put_ages(run, out);
    put_birth_years(run, out);
}

// The short form of a data run, in the run's own form: one long-term rate S in place of its long-term rates, a default period by age, 20 by
// birth year, and every proportion 50 per cent (01, "Short form"; 02, change 8).
#![tactic(auto)]

mod parts;
mod periods;
mod rates;

ghost use Rattle.std.specs.Prelude.{◌≡◌};
ghost use Rattle.outcome.specs.Outcome.{finding};
ghost use Rattle.lent.specs.Lent.{written};
ghost use Rattle.short_form.specs.ShortForm.{short_form_check, short_check, short_form_of};

use outcome::{Reason, Refusal};

// The run's own check, then S.
#[tactic(auto, unfolding(crate::specs::ShortForm::short_form_check))]
fn check_short_form(run: &[u8], rate: i32) -> Result<(), Refusal>
    ensures { finding result ≡ short_form_check run.now rate }
{
    run_check::check_run(run)?;
    if field_check::in_limits(layout::LEAST_RATE, layout::RATE_LIMIT, i64::from(rate)) {
        Ok(())
    } else {
        Err(Reason::Limits.at(layout::AGE_LONG_TERM_RATES_AT as u64, 0))
    }
}

// Writes the short form into the front of `out`.
#[tactic(auto, using(crate::proofs::Checking::let_through))]
pub fn short_form(run: &[u8], rate: i32, out: &mut [u8]) -> Result<(), Refusal>
    ensures result_value { finding result ≡ short_check run.now rate out.old }
    ensures out_after { out.new ≡ written (finding result) (short_form_of run.now rate) out.old }
{
    let form = layout::forms::form_of_run(run.len());
    lent::check_room(layout::forms::run_length(form), out.len())?;
    check_short_form(run, rate)?;
    parts::put_ages(run, form, rate, out);
    parts::put_birth_years(run, form, out);
    Ok(())
}

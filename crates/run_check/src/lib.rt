// Whether a data run may be used (01, refusals 1, 4 and 5): its length, then every field of one table of fields.
#![tactic(auto)]

mod rows;

ghost use Rattle.std.specs.Prelude.{◌≡◌, ◌≤◌, length};
ghost use Rattle.outcome.specs.Outcome.{finding};
ghost use Rattle.layout.specs.Layout.{mpb1, run_length, fields_end};
ghost use Rattle.layout.specs.Meaning.{meant};
ghost use Rattle.field_check.specs.Field.{fields_check};
ghost use Rattle.run_check.specs.Run.{fields_of, run_check};

use layout::Form;
use layout::forms::{form_of_run, run_length};
use outcome::{Reason, Refusal};

// The fields of a run of its form's length, those that have one value only before those with limits.
#[tactic(auto, using(crate::proofs::Turns::parts))]
fn check_fields(run: &[u8], form: Form) -> Result<(), Refusal>
    requires { (length run.now ≡ run_length (meant form)) × (fields_end (meant form) ≤ length run.now) × (run_length mpb1 ≤ length run.now) }
    ensures { finding result ≡ fields_check run.now (fields_of (meant form)) }
{
    rows::check_mark(run, form)?;
    rows::check_zeros(run, form)?;
    rows::check_single_fields(run)?;
    rows::check_base_rates(run)?;
    rows::check_age_terms(run, form)?;
    rows::check_birth_year_terms(run, form)
}

// The first refusal of a data run.
#[tactic(auto, unfolding(crate::specs::Run::run_check))]
pub fn check_run(run: &[u8]) -> Result<(), Refusal>
    ensures { finding result ≡ run_check run.now }
{
    let form = form_of_run(run.len());
    if run.len() != run_length(form) {
        return Err(Reason::Length.at(0, 0));
    }
    check_fields(run, form)
}

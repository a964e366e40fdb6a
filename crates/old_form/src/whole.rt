// Whether every P is a whole per cent.
ghost use Rattle.std.specs.Prelude.{◌≡◌, ◌+◌, ◌*◌, ◌≤◌, length};
ghost use Rattle.outcome.specs.Outcome.{finding};
ghost use Rattle.layout.specs.Layout.{width_of, proportion_of, form_of_run};
ghost use Rattle.basis.specs.Basis.{Accepted};
ghost use Rattle.old_form.specs.OldForm.{whole_from, whole_check};

use layout::forms::form_of_run;
use layout::offsets::{birth_year_proportions_at, proportion_width};
use outcome::{Reason, Refusal};

// The first of n P of a table that is no whole per cent (17).
#[tactic(auto, using(crate::proofs::Turns::looking), unfolding(crate::specs::OldForm::whole_from))]
fn check_table(run: &[u8], offset: usize, n: usize) -> Result<(), Refusal>
    requires accepted { Accepted run.now }
    requires n_in_bounds { offset + width_of (proportion_of (form_of_run (length run.now))) * n ≤ length run.now }
    ensures { finding result ≡ whole_from run.now offset 0 n }
{
    let form = form_of_run(run.len());
    let width = proportion_width(form);
    for place in 0..n {
        if proportion::proportion_at(run, form, offset, place) % 100 != 0 {
            return Err(Reason::PartPerCent.at((offset + width * place) as u64, 0));
        }
    }
    Ok(())
}

// By age, then by birth year.
pub(crate) fn check_whole(run: &[u8]) -> Result<(), Refusal>
    requires { Accepted run.now }
    ensures { finding result ≡ whole_check run.now }
{
    let form = form_of_run(run.len());
    check_table(run, layout::AGE_PROPORTIONS_AT, layout::AGES)?;
    check_table(run, birth_year_proportions_at(form), layout::BIRTH_YEARS)
}

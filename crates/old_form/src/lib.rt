// A basis of either form written in the old one, MPB1 (02, change 7).
#![tactic(auto)]

mod fields;
mod whole;

ghost use Rattle.std.specs.Prelude.{◌≡◌};
ghost use Rattle.outcome.specs.Outcome.{finding};
ghost use Rattle.lent.specs.Lent.{written};
ghost use Rattle.old_form.specs.OldForm.{old_form_check, write_old_check, old_file_of};

use outcome::Refusal;

// The run's own check, then whether each P is a whole per cent.
#[tactic(auto, using(crate::proofs::Checking::accepted_run), unfolding(crate::specs::OldForm::old_form_check))]
fn check_old_form(run: &[u8]) -> Result<(), Refusal>
    ensures { finding result ≡ old_form_check run.now }
{
    run_check::check_run(run)?;
    whole::check_whole(run)
}

// The MPB1 file of an accepted data run of either form, into the front of `file`. The run is laid out in an array of its own
// first, and written from there as every run is.
#[tactic(auto, using(crate::proofs::Writing::written_anew))]
pub fn write_old_form(run: &[u8], file: &mut [u8]) -> Result<(), Refusal>
    ensures result_value { finding result ≡ write_old_check run.now file.old }
    ensures file_after { file.new ≡ written (finding result) (old_file_of run.now) file.old }
{
    lent::check_room(layout::MPB1_FILE_LENGTH, file.len())?;
    check_old_form(run)?;
    let mut old = [0u8; layout::MPB1_RUN_LENGTH];
    fields::lay_old_form(run, &mut old);
    basis_file::write::write_file(&old, file)
}

// The basis: a data run checked, a basis file read and written, in its own form or in the old one, a short form made.
ghost use Rattle.std.specs.Prelude.{◌≡◌};
ghost use Rattle.lent.specs.Lent.{written};
ghost use Rattle.run_check.specs.Run.{run_check};
ghost use Rattle.basis_file.specs.File.{run_in, file_of, read_check, write_check};
ghost use Rattle.old_form.specs.OldForm.{write_old_check, old_file_of};
ghost use Rattle.short_form.specs.ShortForm.{short_form_of, short_check};
ghost use Rattle.engine.specs.Enquiry.{refusal_of};

use crate::answers;
use outcome::Refusal;

pub fn parvusek_check_basis(run: &[u8]) -> Refusal
    ensures { result ≡ refusal_of (run_check run.now) }
{
    answers::refusal_of(run_check::check_run(run))
}

// The data run of a basis file, into the front of `run`.
pub fn parvusek_read_basis(file: &[u8], run: &mut [u8]) -> Refusal
    ensures value { result ≡ refusal_of (read_check file.now run.old) }
    ensures run_after { run.new ≡ written (read_check file.now run.old) (run_in file.now) run.old }
{
    answers::refusal_of(basis_file::read::read_file(file, run))
}

// The basis file of a data run, into the front of `file`.
pub fn parvusek_write_basis(run: &[u8], file: &mut [u8]) -> Refusal
    ensures value { result ≡ refusal_of (write_check run.now file.old) }
    ensures file_after { file.new ≡ written (write_check run.now file.old) (file_of run.now) file.old }
{
    answers::refusal_of(basis_file::write::write_file(run, file))
}

// The MPB1 file of a data run of either form, into the front of `file`.
pub fn parvusek_write_old_form(run: &[u8], file: &mut [u8]) -> Refusal
    ensures value { result ≡ refusal_of (write_old_check run.now file.old) }
    ensures file_after { file.new ≡ written (write_old_check run.now file.old) (old_file_of run.now) file.old }
{
    answers::refusal_of(old_form::write_old_form(run, file))
}

// The short form of a data run with one long-term rate, into the front of `out`.
pub fn parvusek_short_form(run: &[u8], rate: i32, out: &mut [u8]) -> Refusal
    ensures value { result ≡ refusal_of (short_check run.now rate out.old) }
    ensures out_after { out.new ≡ written (short_check run.now rate out.old) (short_form_of run.now rate) out.old }
{
    answers::refusal_of(short_form::short_form(run, rate, out))
}

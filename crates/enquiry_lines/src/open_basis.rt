// The basis file and the history read, and the first line of the output: the header, or the refusal that stands alone.
ghost use Rattle.std.specs.Prelude.{◌≡◌, ◌≤◌, length};
ghost use Rattle.outcome.specs.Outcome.{finding};
ghost use Rattle.layout.specs.Layout.{mpb2, run_length};
ghost use Rattle.lent.specs.Lent.{written};
ghost use Rattle.basis_file.specs.File.{run_in};
ghost use Rattle.enquiry_lines.specs.Output.{files_check, Opened};
ghost use Rattle.enquiry_lines.specs.State.{reply_room};

use crate::Opening;
use basis_file::read;
use outcome::Refusal;
use reply_text::Output;

// The file's data run, put into the front of `run` where neither the file nor the history is refused. There is room for
// either form. It is read into an array of its own first, since the history is checked against it.
fn read_files(file: &[u8], history: &[u8], run: &mut [u8]) -> Result<(), Refusal>
    requires { run_length mpb2 ≤ length run.old }
    ensures result_value { finding result ≡ files_check file.now history.now }
    ensures run_after { run.new ≡ written (finding result) (run_in file.now) run.old }
{
    let mut room = [0u8; layout::MPB2_RUN_LENGTH];
    read::read_file(file, &mut room)?;
    let read = &room[..read::length_needed(file)];
    history::check::check_history(read, history)?;
    lent::put(read, run, 0);
    Ok(())
}

// The same, and the opening line at the start of `out`.
pub fn open_files(file: &[u8], history: &[u8], run: &mut [u8], out: &mut [u8]) -> Opening
    requires mpb2_in_bounds { run_length mpb2 ≤ length run.old }
    requires reply_room_in_bounds { reply_room ≤ length out.old }
    ensures { Opened file.now history.now run.old out.old run.new out.new result }
{
    let check = read_files(file, history, run);
    let mut output = Output { out, at: 0 };
    match check {
        Ok(()) => output.header(),
        Err(x) => output.refusal(x),
    }
    Opening {
        check,
        at: output.at,
    }
}

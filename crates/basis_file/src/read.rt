// Reading: the data run of a basis file, given out only when nothing refuses the file.
ghost use Rattle.std.specs.Prelude.{◌≡◌, ◌*◌, ◌≤◌, length};
ghost use Rattle.outcome.specs.Outcome.{finding};
ghost use Rattle.layout.specs.Layout.{blocks_in, run_length, file_length, form_of_file};
ghost use Rattle.layout.specs.Meaning.{meant};
ghost use Rattle.run_check.specs.Run.{run_check};
ghost use Rattle.lent.specs.Lent.{written};
ghost use Rattle.block.specs.Blocks.{parts_of};
ghost use Rattle.basis_file.specs.File.{run_in, outer_check, read_check};

use layout::Form;
use layout::forms::{blocks_in, file_length, form_of_file, run_length};
use outcome::{Reason, Refusal};

// How long the data run of a file is, which is the old form's for a file of any other length.
pub fn length_needed(file: &[u8]) -> usize
    ensures { result ≡ run_length (form_of_file (length file.now)) }
{
    run_length(form_of_file(file.len()))
}

// The length, then the blocks.
#[tactic(auto, unfolding(crate::specs::File::outer_check))]
fn check_outer(file: &[u8]) -> Result<(), Refusal>
    ensures { finding result ≡ outer_check file.now }
{
    let form = form_of_file(file.len());
    if file.len() != file_length(form) {
        return Err(Reason::Length.at(0, 0));
    }
    block::check_blocks(file, blocks_in(form))
}

// The data parts of n blocks, joined.
#[tactic(auto, using(crate::proofs::Turns::joining))]
fn join_parts(file: &[u8], n: usize, run: &mut [u8])
    requires { (length file.now ≡ 512 * n) × (length run.old ≡ 506 * n) × (n ≤ 10) }
    ensures { run.new ≡ parts_of n file.now }
{
    for b in 0..n {
        let from = 512 * b + 2;
        lent::put(&file[from..from + 506], run, 506 * b);
    }
}

// The data run of a file whose blocks are right, into the front of `run`. It is joined in `joined` first, since the check goes
// over one stretch, and a refused file leaves the output alone.
fn read_blocks(file: &[u8], form: Form, joined: &mut [u8], run: &mut [u8]) -> Result<(), Refusal>
    requires { (length file.now ≡ file_length (meant form)) × (length joined.old ≡ run_length (meant form)) × (run_length (meant form) ≤ length run.old) }
    ensures result_value { finding result ≡ run_check (parts_of (blocks_in (meant form)) file.now) }
    ensures run_after { run.new ≡ written (finding result) (parts_of (blocks_in (meant form)) file.now) run.old }
{
    join_parts(file, blocks_in(form), joined);
    run_check::check_run(joined)?;
    lent::put(joined, run, 0);
    Ok(())
}

// The data run of an accepted file, into the front of `run`.
#[tactic(auto, using(crate::proofs::Files::let_in), unfolding(crate::specs::File::file_check, crate::specs::File::run_in))]
pub fn read_file(file: &[u8], run: &mut [u8]) -> Result<(), Refusal>
    ensures result_value { finding result ≡ read_check file.now run.old }
    ensures run_after { run.new ≡ written (finding result) (run_in file.now) run.old }
{
    let needed = length_needed(file);
    lent::check_room(needed, run.len())?;
    check_outer(file)?;
    let mut room = [0u8; layout::MPB2_RUN_LENGTH];
    read_blocks(file, form_of_file(file.len()), &mut room[..needed], run)
}

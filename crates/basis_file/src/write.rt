// Writing: the basis file of a data run that nothing refuses.
ghost use Rattle.std.specs.Prelude.{◌≡◌, ◌*◌, ◌≤◌, length};
ghost use Rattle.outcome.specs.Outcome.{finding};
ghost use Rattle.lent.specs.Lent.{written, placed};
ghost use Rattle.block.specs.Blocks.{blocks_of};
ghost use Rattle.basis_file.specs.File.{file_of, write_check};

use layout::forms::{blocks_in, file_length, form_of_run};
use outcome::Refusal;

// n blocks, in the front of `file`.
#[tactic(auto, using(crate::proofs::Turns::writing))]
fn write_blocks(run: &[u8], n: usize, file: &mut [u8])
    requires { (length run.now ≡ 506 * n) × (512 * n ≤ length file.old) × (n ≤ 10) }
    ensures { file.new ≡ placed file.old 0 (blocks_of 0 n run.now) }
{
    for b in 0..n {
        let from = 506 * b;
        block::put_block(&run[from..from + 506], b, file, 512 * b);
    }
}

// The file of an accepted data run in its own form, into the front of `file`.
#[tactic(auto, using(crate::proofs::Files::let_out), unfolding(crate::specs::File::file_of))]
pub fn write_file(run: &[u8], file: &mut [u8]) -> Result<(), Refusal>
    ensures result_value { finding result ≡ write_check run.now file.old }
    ensures file_after { file.new ≡ written (finding result) (file_of run.now) file.old }
{
    let form = form_of_run(run.len());
    let needed = file_length(form);
    lent::check_room(needed, file.len())?;
    run_check::check_run(run)?;
    write_blocks(run, blocks_in(form), file);
    Ok(())
}

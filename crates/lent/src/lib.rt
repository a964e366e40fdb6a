// Lent outputs (01, "Who can cause a refusal"): whether one has room, and what is put into it, part by part.
#![tactic(auto)]

ghost use Rattle.std.specs.Prelude.{◌≡◌, ◌+◌, ◌≤◌, length, replicate};
ghost use Rattle.outcome.specs.Outcome.{finding};
ghost use Rattle.lent.specs.Lent.{count_check, placed};

use outcome::{Reason, Refusal};

// Whether as many elements are lent as are needed: the first check of every call that fills a lent output.
#[tactic(auto, unfolding(crate::specs::Lent::count_check))]
pub fn check_room(needed: usize, lent: usize) -> Result<(), Refusal>
    ensures { finding result ≡ count_check needed lent }
{
    if needed <= lent {
        Ok(())
    } else {
        Err(Reason::Room.at(needed as u64, 0))
    }
}

// Puts a part into an output, from a place on.
pub fn put(part: &[u8], out: &mut [u8], at: usize)
    requires { at + length part.now ≤ length out.old }
    ensures { out.new ≡ placed out.old at part.now }
{
    out[at..at + part.len()].copy_from_slice(part);
}

// Puts one byte there n times.
pub fn put_repeated(byte: u8, n: usize, out: &mut [u8], at: usize)
    requires { at + n ≤ length out.old }
    ensures { out.new ≡ placed out.old at (replicate n byte) }
{
    out[at..at + n].fill(byte);
}

// The whole output of the points program for a text that is lent at once, whatever parts it is fed in.
ghost use Rattle.std.specs.Prelude.{◌+◌, ◌*◌, ◌≤◌, length};
ghost use Rattle.history.specs.Held.{held};
ghost use Rattle.reply_text.specs.Put.{Put};
ghost use Rattle.enquiry_lines.specs.Output.{output_of};
ghost use Rattle.enquiry_lines.specs.State.{empty_after, reply_room, Ready, Answered};

use crate::{Fed, lines, open_basis};
use basis_file::read;
use factor_table::{TABLE_LENGTH, TabledBasis};
use history::LentBasis;

// The text in parts of the lengths given, as far as it goes, and then what is left of it.
fn feed_parts(t: TabledBasis, text: &[u8], lengths: &[usize], out: &mut [u8], from: usize) -> Fed
    requires { Ready t.basis.run.now t.basis.history.now t.numbers.now (empty_after 0) (length text.now) out.old from }
    ensures { Answered (held t.entry.basis) (empty_after 0) text.now out.old
        from out.new result }
{
    let mut pending = lines::begin();
    let mut at = from;
    let mut rest = text;
    for &length in lengths {
        let (part, more) = rest.split_at(rest.len().min(length));
        let f = lines::feed(t, pending, part, out, at);
        pending = f.pending;
        at = f.at;
        rest = more;
    }
    lines::feed(t, pending, rest, out, at)
}

// What the points program prints on a basis file, a history file and a text, into the front of `out`: 192 bytes of room for
// the opening line, for each byte of the text and for a last line that lacks its byte 10.
pub fn output(file: &[u8], history: &[u8], text: &[u8], lengths: &[usize], out: &mut [u8]) -> usize
    requires { reply_room * (length text.now + 2) ≤ length out.old }
    ensures { Put out.old 0 (output_of file.now history.now text.now) out.new result }
{
    let mut room = [0u8; layout::MPB2_RUN_LENGTH];
    let mut table = [0u32; TABLE_LENGTH];
    let o = open_basis::open_files(file, history, &mut room, out);
    let at = o.at;
    let Ok(()) = o.check else {
        return at;
    };
    let basis = LentBasis {
        run: &room[..read::length_needed(file)],
        history,
    };
    factor_table::fill_table(basis, &mut table);
    let t = TabledBasis {
        basis,
        numbers: &table,
    };
    let f = feed_parts(t, text, lengths, out, at);
    lines::finish(t, f.pending, out, f.at)
}

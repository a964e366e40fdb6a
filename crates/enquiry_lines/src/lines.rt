// A text that comes in parts, answered line by line on an accepted data run and its history, from what was worked out of
// them. The caller gives room for 192 bytes of reply to each byte of a part: an empty line is one byte.
ghost use Rattle.std.specs.Prelude.{◌≡◌, ◌+◌, ◌≤◌, length};
ghost use Rattle.history.specs.Held.{held};
ghost use Rattle.enquiry_text.specs.Line.{line_of};
ghost use Rattle.reply_text.specs.Put.{Put};
ghost use Rattle.enquiry_lines.specs.Lines.{last_line, reply_to, replies};
ghost use Rattle.enquiry_lines.specs.State.{kept, empty_after, reply_room, Ready, Answered};

use crate::{Fed, Pending};
use enquiry_text::parse;
use factor_table::TabledBasis;
use outcome::Reason;
use reply_text::Output;

// The reply to a line by its number from 1.
fn put_line(t: TabledBasis, out: &mut [u8], at: usize, number: u64, text: &[u8]) -> usize
    requires { at + reply_room ≤ length out.old }
    ensures put { Put out.old at
        (reply_to (held t.entry.basis) (line_of number text.now)) out.new result }
    ensures upper_bound { result ≤ at + reply_room }
{
    let mut output = Output { out, at };
    let Some(q) = parse::parse_line(text) else {
        output.refusal(Reason::Line.at(number, 0));
        return output.at;
    };
    let a = swept_points::points::swept_point(t, q);
    output.reply(q, a);
    output.at
}

// Nothing read yet.
pub fn begin() -> Pending
    ensures { result ≡ empty_after 0 }
{
    Pending {
        bytes: [0; 16],
        len: 0,
        complete: 0,
    }
}

// Takes a part of the input, and puts the replies to the lines that end in it into `out`, from a place on. A byte that ends
// no line is kept while there is room: a line of more than 16 bytes is malformed, whatever else stands in it.
pub fn feed(t: TabledBasis, s: Pending, part: &[u8], out: &mut [u8], from: usize) -> Fed
    requires { Ready t.basis.run.now t.basis.history.now t.numbers.now s (length part.now) out.old from }
    ensures { Answered (held t.entry.basis) s part.now out.old from
        out.new result }
{
    let Pending {
        mut bytes,
        mut len,
        mut complete,
    } = s;
    let mut at = from;
    for &b in part {
        if b == b'\n' {
            at = put_line(t, out, at, complete + 1, &bytes[..len]);
            bytes = [0; 16];
            len = 0;
            complete += 1;
        } else if len < bytes.len() {
            bytes[len] = b;
            len += 1;
        }
    }
    Fed {
        pending: Pending {
            bytes,
            len,
            complete,
        },
        at,
    }
}

// The end of the input: an unfinished line is a line.
pub fn finish(t: TabledBasis, s: Pending, out: &mut [u8], from: usize) -> usize
    requires { Ready t.basis.run.now t.basis.history.now t.numbers.now s 1 out.old from }
    ensures { Put out.old from
        (replies (held t.entry.basis) (s.complete + 1) (last_line (kept s))) out.new result }
{
    let Pending {
        bytes,
        len,
        complete,
    } = s;
    if len == 0 {
        return from;
    }
    put_line(t, out, from, complete + 1, &bytes[..len])
}

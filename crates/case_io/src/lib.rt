// What the programs that run the cases of the reference model share: the count of the cases, room for a basis and a history, and
// the lines they print.
#![tactic(auto)]

ghost use Rattle.std.specs.Prelude.{◌≡◌, ◌≤◌, length, cond};
ghost use Rattle.reply_text.specs.Reply.{refusal_line, by_value};
ghost use Rattle.case_io.specs.Lines.{named_line, numbers_line};

use outcome::Refusal;
use reply_text::{Output, ReplyText};

// Nothing says that the input ends, so the cases are counted up to this number, which no run reaches.
const MOST_CASES: u64 = 1_000_000_000_000_000;

// How many cases there are: `next` runs one, and says whether it was there.
pub fn count_cases<F: FnMut() -> bool>(mut next: F) -> u64
    requires { F.IsAlwaysCallable next }
    ensures { result ≤ 1_000_000_000_000_000 }
{
    for cases in 0..MOST_CASES {
        if !next() {
            return cases;
        }
    }
    MOST_CASES
}

// Room for a file or a data run of either form, and for one that is too long.
pub fn basis_room() -> [u8; 5200]
    ensures { 5200 ≡ length result }
{
    [0; 5200]
}

// Room for the longest history, of 88 years.
pub fn history_room() -> [u8; 90112]
    ensures { 90112 ≡ length result }
{
    [0; 90112]
}

// ---- lines
// Each prints a line and answers it by value, so that its bytes are promised. Whether it could be written nobody asks.
fn print(rt: &impl Print, bytes: [u8; 192], length: usize) -> ReplyText
    requires { length ≤ 192 }
    ensures { result ≡ record { bytes = bytes; len = length } }
{
    let _ = rt.write_all(&bytes[..length]);
    ReplyText { bytes, len: length }
}

// `refused`, the refusal's number and its places.
pub fn print_refused(rt: &impl Print, x: Refusal) -> ReplyText
    ensures { result ≡ by_value (refusal_line x) }
{
    let mut line = [0u8; 192];
    let mut output = Output {
        out: &mut line,
        at: 0,
    };
    output.refusal(x);
    let end = output.at;
    print(rt, line, end)
}

// A number behind a word.
pub fn print_named(rt: &impl Print, word: &[u8], n: u64) -> ReplyText
    requires { length word.now ≤ 7 }
    ensures { result ≡ by_value (named_line word.now n) }
{
    let mut line = [0u8; 192];
    let mut output = Output {
        out: &mut line,
        at: 0,
    };
    output.text(word);
    output.number(n, b'\n');
    let end = output.at;
    print(rt, line, end)
}

// What follows a number: a space, or byte 10 after the last.
fn separator(last: bool) -> u8
    ensures { result ≡ cond last 10 32 }
{
    if last { b'\n' } else { b' ' }
}

// Numbers, a space between two.
pub fn print_numbers(rt: &impl Print, numbers: &[u64]) -> ReplyText
    requires { length numbers.now ≤ 4 }
    ensures { result ≡ by_value (numbers_line numbers.now) }
{
    let mut line = [0u8; 192];
    let mut output = Output {
        out: &mut line,
        at: 0,
    };
    for (i, n) in numbers.iter().enumerate() {
        output.number(*n, separator(i + 1 == numbers.len()));
    }
    let end = output.at;
    print(rt, line, end)
}

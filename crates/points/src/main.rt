// The points program: answers the lines of standard input by the basis in basis.bin and the history in history.bin, on
// standard output. It moves bytes; what they mean is enquiry_lines' to say.
#![tactic(auto)]

ghost use Rattle.std.specs.Prelude.{◌≡◌, ◌+◌, ◌*◌, ◌≤◌, ◌<◌, List, ℕ, IfSome, length, take};
ghost use Rattle.std.specs.Bool.{OnTrue};
ghost use Rattle.std.specs.Io.KnownBytes.{Appends};
ghost use Rattle.layout.specs.Layout.{mpb2, run_length, file_length};
ghost use Rattle.history.specs.Held.{held};
ghost use Rattle.factor_table.specs.FactorTable.{table_length};
ghost use Rattle.enquiry_lines.specs.Lines.{lines_of, replies};
ghost use Rattle.enquiry_lines.specs.Output.{output_of};
ghost use Rattle.enquiry_lines.specs.State.{empty_after, reply_room, Ready};
ghost use Rattle.points.specs.Blocks.{ReadyForBlocks, BlockAnswered, BlocksAnswered};

use basis_file::read::length_needed;
use enquiry_lines::{Pending, lines, open_basis};
use factor_table::{TABLE_LENGTH, TabledBasis};
use history::LentBasis;
use reading::read_full;
use std::fs::File;
use std::io::{Error, ErrorKind, Read, Write};
use std::rt::Files;

// What a block leaves that was read and whose replies were written: the unfinished line, and whether it was the last block.
#[derive(Clone, Copy)]
struct Turn {
    pending: Pending,
    is_last: bool,
}

// A number of blocks that no input has.
const MOST_BLOCKS: u64 = 1_000_000_000_000_000;

// One byte longer than the longest basis file: of a longer file so much is read that its length is refused.
const FILE_ROOM: usize = layout::MPB2_FILE_LENGTH + 1;

fn file_room() -> [u8; FILE_ROOM]
    ensures { file_length mpb2 + 1 ≡ length result }
{
    [0; FILE_ROOM]
}

// One byte longer than the longest history, of 88 years, for the same reason.
fn history_room() -> [u8; 90113]
    ensures { 90113 ≡ length result }
{
    [0; 90113]
}

// Room for the run of either form, which is put into its front.
fn run_room() -> [u8; layout::MPB2_RUN_LENGTH]
    ensures { run_length mpb2 ≡ length result }
{
    [0; layout::MPB2_RUN_LENGTH]
}

// A block of the input. It is small, since the room for its replies is made ready before the first one.
fn block_room() -> [u8; 1024]
    ensures { 1024 ≡ length result }
{
    [0; 1024]
}

// Room for the replies to a block, 192 bytes for each of its bytes.
fn reply_room() -> [u8; 196608]
    ensures { 196608 ≡ length result }
{
    [0; 196608]
}

// Room for the factors of all ages and years, and the discounts.
fn table_room() -> [u32; TABLE_LENGTH]
    ensures { table_length ≡ length result }
{
    [0; TABLE_LENGTH]
}

// Writes a line to standard error: what failed, and why.
fn tell(rt: &impl Eprint, told: &str, error: Error) {
    let _ = eprintln!(rt; "{told}: {error}");
}

// Whether a file has been read to its end. A read that fails is told on standard error.
fn is_read(rt: &impl Eprint, file: &mut impl Read, told: &str) -> bool {
    let mut more = [0u8; 1];
    match file.read(&mut more) {
        Ok(got) => got == 0,
        Err(error) => {
            tell(rt, told, error);
            false
        }
    }
}

// How many bytes of a file stand at the start of `room`. A missing file has none. One that is there and cannot be opened or
// read fills the room, which is longer than any such file may be, so that its length is refused.
fn read_named(rt: &(impl Files + Eprint), name: &str, told: &str, room: &mut [u8]) -> usize
    ensures within { result ≤ length room.new }
    ensures in_front { result ≡ length (take result room.new) }
{
    let mut file = match File::open(rt, name) {
        Ok(file) => file,
        Err(error) => {
            if error.kind() == ErrorKind::NotFound {
                return 0;
            }
            tell(rt, told, error);
            return room.len();
        }
    };
    let n = read_full(&mut file, room);
    if is_read(rt, &mut file, told) {
        return n;
    }
    room.len()
}

// Writes a part of the output; where that fails, standard error says that the output is not whole.
fn write_out<W: Write>(rt: &impl Eprint, output: &mut W, part: &[u8]) -> bool
    ensures { OnTrue result (Appends (W.contents output.old) (W.contents output.new) part.now) }
{
    match output.write_all(part) {
        Ok(()) => true,
        Err(error) => {
            tell(
                rt,
                "points: the output is not whole; standard output",
                error,
            );
            false
        }
    }
}

// Reads a block and answers the lines that end in it; `blocks` more can follow. The last block is empty. None, if it cannot
// be read or its replies are not taken: then no further line is answered, and standard error says so.
fn answer_block<I: Read, W: Write>(
    rt: &impl Eprint,
    input: &mut I,
    output: &mut W,
    tabled: TabledBasis,
    s: Pending,
    part: &mut [u8],
    out: &mut [u8],
    blocks: u64,
) -> Option<Turn>
    requires { ReadyForBlocks tabled.basis.run.now tabled.basis.history.now tabled.numbers.now s (blocks + 1) part.old out.old }
    ensures ready { IfSome result (λ t. ReadyForBlocks tabled.entry.basis.run.now tabled.entry.basis.history.now tabled.entry.numbers.now t.pending blocks part.new out.new) }
    ensures answered { IfSome result (λ t. BlockAnswered (held tabled.entry.basis) s part.old
        (I.remaining input.old) (I.remaining input.new) (W.contents output.old) (W.contents output.new) t) }
{
    let n = match input.read(part) {
        Ok(n) => n,
        Err(error) => {
            tell(rt, "points: the input is not whole; standard input", error);
            return None;
        }
    };
    let f = lines::feed(tabled, s, &part[..n], out, 0);
    let at = f.at;
    if !write_out(rt, output, &out[..at]) {
        return None;
    }
    Some(Turn {
        pending: f.pending,
        is_last: n == 0,
    })
}

// All blocks, and the unfinished line behind them, if they were read and their replies were written. Nothing says that the
// input ends, so the blocks are counted down from a number that no run uses up.
fn answer_blocks<I: Read, W: Write>(
    rt: &impl Eprint,
    input: &mut I,
    output: &mut W,
    tabled: TabledBasis,
    part: &mut [u8],
    out: &mut [u8],
) -> Option<Pending>
    requires { ReadyForBlocks tabled.basis.run.now tabled.basis.history.now tabled.numbers.now (empty_after 0) 1000000000000000 part.old out.old }
    ensures ready { IfSome result (λ s. Ready tabled.entry.basis.run.now tabled.entry.basis.history.now tabled.entry.numbers.now s 1024 out.new 0) }
    ensures answered { IfSome result (λ s. BlocksAnswered (held tabled.entry.basis) part.old
        (I.remaining input.old) (I.remaining input.new) (W.contents output.old) (W.contents output.new) s) }
{
    let mut pending = lines::begin();
    for blocks in (0..MOST_BLOCKS).rev() {
        let t = answer_block(rt, input, output, tabled, pending, part, out, blocks)?;
        pending = t.pending;
        if t.is_last {
            break;
        }
    }
    Some(pending)
}

// All of standard input: its blocks, then a last line that lacks its byte 10. The basis stays the same, so that the factors
// of all ages and years are worked out once, before the first line. Whether all of it was read and answered.
fn answer_input<I: Read, W: Write>(
    rt: &impl Eprint,
    input: &mut I,
    output: &mut W,
    basis: LentBasis,
    table: &mut [u32],
    part: &mut [u8],
    out: &mut [u8],
) -> bool
    requires table_length_is { length table.old ≡ table_length }
    requires part_len_bound { (length part.old ≤ 1024) × (reply_room * 1024 ≤ length out.old) }
    ensures { OnTrue result (0 < length part.old → IfSome (I.remaining input.old) (λ text. length text < 1000000000000000 →
        Appends (W.contents output.old) (W.contents output.new) (replies (held basis.entry) 1 (lines_of text)))) }
{
    factor_table::fill_table(basis, table);
    let tabled = TabledBasis {
        basis,
        numbers: table,
    };
    let Some(pending) = answer_blocks(rt, input, output, tabled, part, out) else {
        return false;
    };
    let at = lines::finish(tabled, pending, out, 0);
    write_out(rt, output, &out[..at])
}

// What the program writes on the bytes of its two files and its input; a missing file has none. Whether it could read and write
// all of it.
fn answer<I: Read, W: Write>(
    rt: &impl Eprint,
    input: &mut I,
    output: &mut W,
    file: &[u8],
    history: &[u8],
) -> bool
    ensures { OnTrue result (IfSome (I.remaining input.old) (λ text. length text < 1000000000000000 →
        Appends (W.contents output.old) (W.contents output.new) (output_of file.now history.now text))) }
{
    let mut run = run_room();
    let mut out = reply_room();
    let o = open_basis::open_files(file, history, &mut run, &mut out);
    let at = o.at;
    let is_written = write_out(rt, output, &out[..at]);
    let Ok(()) = o.check else {
        return is_written;
    };
    if !is_written {
        return false;
    }
    let mut part = block_room();
    let mut table = table_room();
    let basis = LentBasis {
        run: &run[..length_needed(file)],
        history,
    };
    answer_input(rt, input, output, basis, &mut table, &mut part, &mut out)
}

fn main(rt: HostRuntime) {
    let mut file = file_room();
    let mut history = history_room();
    let n = read_named(&rt, "basis.bin", "points: basis.bin", &mut file);
    let m = read_named(&rt, "history.bin", "points: history.bin", &mut history);
    answer(
        &rt,
        &mut rt.stdin(),
        &mut rt.stdout(),
        &file[..n],
        &history[..m],
    );
}

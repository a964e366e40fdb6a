// Runs the cases of the reference model on the basis: files read, data runs written, in the old form too, and short forms made,
// with every refusal.
//
// Standard input, all numbers little-endian: a file of each form, of 4,608 and of 5,120 bytes, then cases to the end. A case is
// its kind (1 byte: 0 read, 1 write, 2 short form, 3 write in the old form), its base (1: 0 for the first file), input length (2),
// output length (2), S (4), number of patches (2), and for each patch an offset (2) and a byte (1). The input is the base's file
// for kind 0, else its data run, cut or extended with zero bytes to the input length and then patched; the output is filled with
// place % 251. A line a case: the refusal's number and places, zeros where there is none, and the sum of (place + 1) * byte over
// the output after the call.
#![tactic(auto)]

ghost use Rattle.std.specs.Prelude.{◌≡◌, ◌<◌, ◌≤◌, length};
ghost use Rattle.layout.specs.Layout.{mpb1, mpb2, file_length};

use basis_file::{read, write};
use outcome::{NO_REFUSAL, Refusal};
use reading::read_full;
use std::io::Read;

// ---- the input and the output of a case
fn old_file_room() -> [u8; layout::MPB1_FILE_LENGTH]
    ensures { file_length mpb1 ≡ length result }
{
    [0; layout::MPB1_FILE_LENGTH]
}

fn new_file_room() -> [u8; layout::MPB2_FILE_LENGTH]
    ensures { file_length mpb2 ≡ length result }
{
    [0; layout::MPB2_FILE_LENGTH]
}

// What a case asks for.
#[derive(Clone, Copy)]
enum Kind {
    Read,
    Write,
    ShortForm,
    OldForm,
}

impl From<u8> for Kind {
    fn from(number: u8) -> Kind {
        match number {
            0 => Kind::Read,
            1 => Kind::Write,
            3 => Kind::OldForm,
            _ => Kind::ShortForm,
        }
    }
}

// Where a byte of the file stands, or one of its data run.
fn place_in_file(kind: Kind, i: usize) -> usize
    requires { i < 5200 }
{
    match kind {
        Kind::Read => i,
        _ => 512 * (i / 506) + 2 + i % 506,
    }
}

// The bytes of the file, or of its data run, and 0 beyond the end.
fn lay_base(file: &[u8], kind: Kind, input: &mut [u8])
    requires { length input.old ≤ 5200 }
{
    for (i, byte) in input.iter_mut().enumerate() {
        *byte = file.get(place_in_file(kind, i)).copied().unwrap_or(0);
    }
}

// One patch of standard input.
fn patch(stdin: &mut impl Read, input: &mut [u8]) {
    let mut read = [0u8; 3];
    read_full(stdin, &mut read);
    let at = little_endian::read_u16(&read, 0) as usize;
    if at < input.len() {
        input[at] = read[2];
    }
}

fn patch_all(stdin: &mut impl Read, input: &mut [u8], patches: u32) {
    for _ in 0..patches {
        patch(stdin, input);
    }
}

fn fill(output: &mut [u8]) {
    for (i, byte) in output.iter_mut().enumerate() {
        *byte = (i % 251) as u8;
    }
}

// ---- a case
fn sum_of(output: &[u8]) -> u32
    requires { length output.now ≤ 5200 }
{
    let mut sum: u32 = 0;
    for (i, byte) in output.iter().enumerate() {
        sum = sum.wrapping_add((i as u32 + 1) * u32::from(*byte));
    }
    sum
}

// The refusal's number and places, or zeros, and the sum.
fn print_answer(rt: &impl Print, answer: Result<(), Refusal>, sum: u32) {
    let r = match answer {
        Ok(()) => NO_REFUSAL,
        Err(r) => r,
    };
    case_io::print_numbers(
        rt,
        &[u64::from(r.number), r.first, r.second, u64::from(sum)],
    );
}

fn answer(kind: Kind, rate: i32, input: &[u8], output: &mut [u8]) -> Result<(), Refusal> {
    match kind {
        Kind::Read => read::read_file(input, output),
        Kind::Write => write::write_file(input, output),
        Kind::ShortForm => short_form::short_form(input, rate, output),
        Kind::OldForm => old_form::write_old_form(input, output),
    }
}

fn work(
    rt: &impl Print,
    stdin: &mut impl Read,
    file: &[u8],
    header: &[u8],
    input: &mut [u8],
    output: &mut [u8],
)
    requires { (length header.now ≡ 12) × (length input.old ≤ 5200) × (length output.old ≤ 5200) }
{
    let kind = Kind::from(header[0]);
    lay_base(file, kind, input);
    patch_all(stdin, input, little_endian::read_u16(header, 10));
    fill(output);
    let c = answer(kind, little_endian::read_i32(header, 6), input, output);
    print_answer(rt, c, sum_of(output));
}

fn run_case(rt: &impl Print, stdin: &mut impl Read, file: &[u8], header: &[u8])
    requires { length header.now ≡ 12 }
{
    let mut input = case_io::basis_room();
    let mut output = case_io::basis_room();
    let given = (little_endian::read_u16(header, 2) as usize).min(input.len());
    let lent = (little_endian::read_u16(header, 4) as usize).min(output.len());
    work(
        rt,
        stdin,
        file,
        header,
        &mut input[..given],
        &mut output[..lent],
    );
}

// Reads a case and works it on its base; false at the end of the input.
fn next_case(rt: &impl Print, stdin: &mut impl Read, old: &[u8], new: &[u8]) -> bool {
    let mut header = [0u8; 12];
    if read_full(stdin, &mut header) < 12 {
        return false;
    }
    let file = if header[1] == 0 { old } else { new };
    run_case(rt, stdin, file, &header);
    true
}

// How many cases there are.
fn run_cases(rt: &impl Print, stdin: &mut impl Read, old: &[u8], new: &[u8]) -> u64 {
    case_io::count_cases(|| next_case(rt, stdin, old, new))
}

fn main(rt: HostRuntime) {
    let mut stdin = rt.stdin();
    let mut old = old_file_room();
    let mut new = new_file_room();
    read_full(&mut stdin, &mut old);
    read_full(&mut stdin, &mut new);
    case_io::print_named(&rt, b"cases ", run_cases(&rt, &mut stdin, &old, &new));
}

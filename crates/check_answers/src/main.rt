// Runs the cases of the reference model on the enquiries: all nine kinds, with every refusal.
//
// Standard input, all numbers little-endian: the number of bytes that are lent (4 bytes), and as many bytes, data runs of either
// form and history files one after the other; then cases to the end. A case is its kind (1 byte: 0 improvement, 1 factor, 2 rate,
// then period and cohort: 3 and 4 survivorship, 5 and 6 expectation, 7 and 8 annuity), age, deferment and year (4 each), where its
// data run starts in those bytes (4) and its length (4), and the same of its history. A line a case: `value` and the number, or
// `refused` and the refusal's number and places.
#![tactic(auto)]

ghost use Rattle.std.specs.Prelude.{◌≡◌, ◌≤◌, length};

use outcome::{NO_REFUSAL, Refusal};
use reading::read_full;
use std::io::Read;
use survivorship::Kind;

// ---- what is lent
// Room for the data runs and the histories.
const ROOM: usize = 1_048_576;

fn room() -> [u8; ROOM]
    ensures { 1048576 ≡ length result }
{
    [0; ROOM]
}

// Reads the number of bytes that are lent.
fn read_length(stdin: &mut impl Read) -> u32 {
    let mut bytes = [0u8; 4];
    read_full(stdin, &mut bytes);
    little_endian::read_u32(&bytes, 0)
}

// A stretch of the bytes; where they have no such stretch, no bytes.
fn stretch(bytes: &[u8], start: usize, length: usize) -> &[u8]
    requires { (start ≤ 4294967295) × (length ≤ 4294967295) }
{
    bytes.get(start..start + length).unwrap_or(&[])
}

// ---- a case
// What a case asks for.
#[derive(Clone, Copy)]
enum Asked {
    Improvement,
    Factor,
    Rate,
    Survivorship(Kind),
    Expectation(Kind),
    Annuity(Kind),
}

// The kinds of case by their numbers.
fn asked_of(number: u8) -> Option<Asked> {
    match number {
        0 => Some(Asked::Improvement),
        1 => Some(Asked::Factor),
        2 => Some(Asked::Rate),
        3 => Some(Asked::Survivorship(Kind::Period)),
        4 => Some(Asked::Survivorship(Kind::Cohort)),
        5 => Some(Asked::Expectation(Kind::Period)),
        6 => Some(Asked::Expectation(Kind::Cohort)),
        7 => Some(Asked::Annuity(Kind::Period)),
        8 => Some(Asked::Annuity(Kind::Cohort)),
        _ => None,
    }
}

fn print_answer(rt: &impl Print, answer: Result<u64, Refusal>) {
    match answer {
        Ok(n) => case_io::print_named(rt, b"value ", n),
        Err(r) => case_io::print_refused(rt, r),
    };
}

fn print_signed_answer(rt: &impl Print, answer: Result<i64, Refusal>) {
    match answer {
        Ok(n) if n < 0 => case_io::print_named(rt, b"value -", n.unsigned_abs()),
        Ok(n) => case_io::print_named(rt, b"value ", n.unsigned_abs()),
        Err(r) => case_io::print_refused(rt, r),
    };
}

// A kind that is not there is answered by a refusal that no rule has.
fn run_case(
    rt: &impl Print,
    run: &[u8],
    history: &[u8],
    asked: Option<Asked>,
    age: u32,
    deferment: u32,
    year: u32,
) {
    let answer = match asked {
        Some(Asked::Improvement) => {
            print_signed_answer(rt, enquiry::cells::improvement(run, history, age, year));
            return;
        }
        Some(Asked::Factor) => enquiry::cells::factor(run, history, age, year),
        Some(Asked::Rate) => enquiry::cells::rate(run, history, age, year),
        Some(Asked::Survivorship(kind)) => {
            enquiry::values::survivorship(run, history, kind, age, deferment, year)
        }
        Some(Asked::Expectation(kind)) => {
            enquiry::values::expectation(run, history, kind, age, deferment, year)
        }
        Some(Asked::Annuity(kind)) => {
            enquiry::values::annuity(run, history, kind, age, deferment, year)
        }
        None => Err(NO_REFUSAL),
    };
    print_answer(rt, answer);
}

// Reads a case and works it; false at the end of the input.
fn next_case(rt: &impl Print, stdin: &mut impl Read, lent: &[u8]) -> bool {
    let mut asked = [0u8; 29];
    if read_full(stdin, &mut asked) < 29 {
        return false;
    }
    let age = little_endian::read_u32(&asked, 1);
    let deferment = little_endian::read_u32(&asked, 5);
    let year = little_endian::read_u32(&asked, 9);
    let start = little_endian::read_u32(&asked, 13);
    let length = little_endian::read_u32(&asked, 17);
    let history_start = little_endian::read_u32(&asked, 21);
    let history_length = little_endian::read_u32(&asked, 25);
    let run = stretch(lent, start as usize, length as usize);
    let history = stretch(lent, history_start as usize, history_length as usize);
    run_case(rt, run, history, asked_of(asked[0]), age, deferment, year);
    true
}

// How many cases there are.
fn run_cases(rt: &impl Print, stdin: &mut impl Read, lent: &[u8]) -> u64 {
    case_io::count_cases(|| next_case(rt, stdin, lent))
}

fn work(rt: &impl Print, stdin: &mut impl Read, lent: &mut [u8]) {
    read_full(stdin, lent);
    case_io::print_named(rt, b"cases ", run_cases(rt, stdin, lent));
}

fn main(rt: HostRuntime) {
    let mut stdin = rt.stdin();
    let mut space = room();
    let length = (read_length(&mut stdin) as usize).min(space.len());
    work(&rt, &mut stdin, &mut space[..length]);
}

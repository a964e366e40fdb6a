// Runs the cases of the reference model on the two readers of a data run: its nine tables, and lifelines over it.
//
// Standard input, all numbers little-endian: cases to the end. A case is the number of bytes of its data run (4 bytes) and
// of its history (4), the data run, the history, the number of its lifelines (2), and for each lifeline its age, its year
// and a number of steps (4 each). Nine lines for the tables of a case, in the order in which they stand: the number of bytes handed
// back, the sum of these bytes, and the sum of those sums, byte by byte. Then a line for each lifeline, n steps from its start: age, year and
// survivors.
#![tactic(auto)]

use reading::read_full;
use std::io::Read;
use tables::Table;

// ---- the tables
// The length of a stretch, the sum of its bytes and the sum of those sums, which tells their order.
fn print_stretch(rt: &impl Print, stretch: &[u8]) {
    let mut sum: u32 = 0;
    let mut sums: u32 = 0;
    for byte in stretch {
        sum = sum.wrapping_add(u32::from(*byte));
        sums = sums.wrapping_add(sum);
    }
    case_io::print_numbers(rt, &[stretch.len() as u64, u64::from(sum), u64::from(sums)]);
}

fn print_tables(rt: &impl Print, run: &[u8]) {
    let tables = [
        Table::BaseRates,
        Table::AgeInitialRates,
        Table::AgeLongTermRates,
        Table::AgePeriods,
        Table::AgeProportions,
        Table::BirthYearInitialRates,
        Table::BirthYearLongTermRates,
        Table::BirthYearPeriods,
        Table::BirthYearProportions,
    ];
    for table in tables {
        print_stretch(rt, tables::table_of(run, table));
    }
}

// ---- the lifelines
// One lifeline of standard input, n steps from its start.
fn follow(rt: &impl Print, stdin: &mut impl Read, run: &[u8], history: &[u8]) {
    let mut asked = [0u8; 12];
    read_full(stdin, &mut asked);
    let age = little_endian::read_u32(&asked, 0);
    let year = little_endian::read_u32(&asked, 4);
    let steps = little_endian::read_u32(&asked, 8);
    let p = lifeline_reader::position_after(run, history, age, year, steps);
    case_io::print_numbers(rt, &[u64::from(p.age), u64::from(p.year), p.survivors]);
}

fn follow_all(rt: &impl Print, stdin: &mut impl Read, run: &[u8], history: &[u8]) {
    let mut number = [0u8; 2];
    read_full(stdin, &mut number);
    for _ in 0..little_endian::read_u16(&number, 0) {
        follow(rt, stdin, run, history);
    }
}

// ---- the cases
fn run_case(rt: &impl Print, stdin: &mut impl Read, run: &mut [u8], history: &mut [u8]) {
    read_full(stdin, run);
    read_full(stdin, history);
    print_tables(rt, run);
    follow_all(rt, stdin, run, history);
}

// Reads a case and works it; false at the end of the input.
fn next_case(rt: &impl Print, stdin: &mut impl Read) -> bool {
    let mut head = [0u8; 8];
    if read_full(stdin, &mut head) < 8 {
        return false;
    }
    let mut run = case_io::basis_room();
    let mut history = case_io::history_room();
    let given = (little_endian::read_u32(&head, 0) as usize).min(run.len());
    let lent = (little_endian::read_u32(&head, 4) as usize).min(history.len());
    run_case(rt, stdin, &mut run[..given], &mut history[..lent]);
    true
}

fn main(rt: HostRuntime) {
    let mut stdin = rt.stdin();
    case_io::count_cases(|| next_case(&rt, &mut stdin));
}

// Runs the year sweep on the bases of the reference model, from B through 2260 and a step beyond.
//
// Standard input, all numbers little-endian: cases to the end. A case is the number of bytes of its data run (4 bytes) and of its
// history (4), the data run and the history file. A line a state: the year, and the sum of age × number over the ages from 20
// to 150, the number being the factor, or for a refusal 4 × U + 10,000 × its number + its year. A refused basis has the
// line of its refusal alone.
#![tactic(auto)]

ghost use Rattle.std.specs.Prelude.{◌≡◌, ◌≤◌, length};

use history::LentBasis;
use reading::read_full;
use std::io::Read;

// The sum of age × number over the ages.
fn weighed(state: &[u32]) -> u64
    requires { length state.now ≡ 131 }
{
    let mut sum: u64 = 0;
    for (i, number) in state.iter().enumerate() {
        sum += (20 + i as u64) * u64::from(*number);
    }
    sum
}

fn print_state(rt: &impl Print, year: u32, state: &[u32])
    requires { length state.now ≡ 131 }
{
    case_io::print_numbers(rt, &[u64::from(year), weighed(state)]);
}

// The states of all years, and the step after the last year.
fn sweep_years(rt: &impl Print, b: LentBasis) {
    let mut state = sweep::start();
    for year in basis::fields::base_year(b.run)..2261 {
        print_state(rt, year, &state);
        sweep::step(b, year, &mut state);
    }
    print_state(rt, 2261, &state);
}

fn sweep_case(rt: &impl Print, run: &[u8], history: &[u8]) {
    match history::check::check_run_and_history(run, history) {
        Ok(()) => sweep_years(rt, LentBasis { run, history }),
        Err(r) => {
            case_io::print_refused(rt, r);
        }
    }
}

// Reads a case and works it; false at the end of the input.
fn next_case(rt: &impl Print, stdin: &mut impl Read) -> bool {
    let mut head = [0u8; 8];
    if read_full(stdin, &mut head) < 8 {
        return false;
    }
    let mut run = case_io::basis_room();
    let mut history = case_io::history_room();
    let given = (little_endian::read_u32(&head, 0) as usize).min(run.len());
    let lent = (little_endian::read_u32(&head, 4) as usize).min(history.len());
    read_case(rt, stdin, &mut run[..given], &mut history[..lent]);
    true
}

fn read_case(rt: &impl Print, stdin: &mut impl Read, run: &mut [u8], history: &mut [u8]) {
    read_full(stdin, run);
    read_full(stdin, history);
    sweep_case(rt, run, history);
}

fn main(rt: HostRuntime) {
    let mut stdin = rt.stdin();
    case_io::count_cases(|| next_case(&rt, &mut stdin));
}

// The four calls. Each decides first and writes afterwards, so that a refused one changes nothing.
ghost use Rattle.std.specs.Prelude.{◌≡◌, pos};
ghost use Rattle.outcome.specs.Outcome.{finding, checked, value, meaning};
ghost use Rattle.roll.specs.Roll.{after_call};
ghost use Rattle.roll.specs.Kept.{roll_check, numbers_in, place_of, opened_roll, joining, joined_roll, leaving, left_roll, total_said, total_answer};

use crate::{changes, joins, kept};
use outcome::Refusal;

// An empty roll for one valuation year, which is not checked here.
#[tactic(auto, using(crate::proofs::Cases::opened_rules), unfolding(crate::specs::Kept::opened))]
pub fn open_roll(year: u32, roll: &mut [u64]) -> Result<(), Refusal>
    ensures result_value { finding result ≡ roll_check roll.old }
    ensures roll_after { roll.new ≡ after_call roll.old (opened_roll year roll.old) }
{
    kept::check_roll(roll)?;
    roll[0] = year as u64;
    roll[1] = 0;
    Ok(())
}

// The liability that a join would set, or its refusal, the list's room first.
#[tactic(auto, using(crate::proofs::Cases::room_passed), unfolding(crate::specs::Kept::joining))]
fn joining(
    roll: &[u64],
    run: &[u8],
    history: &[u8],
    number: u32,
    age: u32,
    pension: u32,
) -> Result<u64, Refusal>
    ensures { meaning result ≡ joining roll.now run.now history.now number age pension }
{
    kept::check_roll(roll)?;
    joins::liability_joining(roll, run, history, number, age, pension)
}

// A member joins: the answer is the total afterwards.
#[tactic(auto, using(crate::proofs::Cases::joining_value))]
pub fn join(
    run: &[u8],
    history: &[u8],
    roll: &mut [u64],
    number: u32,
    age: u32,
    pension: u32,
) -> Result<u64, Refusal>
    ensures result_value { meaning result ≡ total_said (joined_roll roll.old run.now history.now number age pension) }
    ensures roll_after { roll.new ≡
        after_call roll.old (joined_roll roll.old run.now history.now number age pension) }
{
    let liability = joining(roll, run, history, number, age, pension)?;
    changes::with_member(roll, number, age, pension, liability);
    Ok(kept::total_in(roll))
}

// The place of the member who would leave, or the refusal, the list's room first.
#[tactic(auto, using(crate::proofs::Cases::room_passed), unfolding(crate::specs::Kept::leaving))]
fn leaving(roll: &[u64], number: u32) -> Result<usize, Refusal>
    ensures { meaning result ≡ checked (leaving roll.now number) (value (pos (place_of number (numbers_in roll.now)))) }
{
    kept::check_roll(roll)?;
    joins::place_leaving(roll, number)
}

// A member leaves: the answer is the total afterwards.
#[tactic(auto, using(crate::proofs::Cases::leaving_value))]
pub fn leave(roll: &mut [u64], number: u32) -> Result<u64, Refusal>
    ensures result_value { meaning result ≡ total_said (left_roll roll.old number) }
    ensures roll_after { roll.new ≡ after_call roll.old (left_roll roll.old number) }
{
    let place = leaving(roll, number)?;
    changes::without_member(roll, place);
    Ok(kept::total_in(roll))
}

// The total of the liabilities on the roll.
#[tactic(auto, using(crate::proofs::Cases::room_passed))]
pub fn total(roll: &[u64]) -> Result<u64, Refusal>
    ensures { meaning result ≡ total_answer roll.now }
{
    kept::check_roll(roll)?;
    Ok(kept::total_in(roll))
}

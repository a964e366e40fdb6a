// A roll of pensions in payment, in a list of numbers that the host keeps.
ghost use Rattle.std.specs.Prelude.{◌≡◌};
ghost use Rattle.roll.specs.Roll.{after_call};
ghost use Rattle.roll.specs.Kept.{roll_check, opened_roll, joined_roll, left_roll, total_said, total_answer};
ghost use Rattle.engine.specs.Enquiry.{refusal_of, answer_of};

use crate::{CAnswer, answers};
use outcome::Refusal;
use roll::calls;

pub fn parvusek_roll_open(year: u32, roll: &mut [u64]) -> Refusal
    ensures value { result ≡ refusal_of (roll_check roll.old) }
    ensures roll_after { roll.new ≡ after_call roll.old (opened_roll year roll.old) }
{
    answers::refusal_of(calls::open_roll(year, roll))
}

pub fn parvusek_roll_join(
    run: &[u8],
    history: &[u8],
    roll: &mut [u64],
    number: u32,
    age: u32,
    pension: u32,
) -> CAnswer
    ensures value { result ≡ answer_of (total_said (joined_roll roll.old run.now history.now number age pension)) }
    ensures roll_after { roll.new ≡ after_call roll.old
        (joined_roll roll.old run.now history.now number age pension) }
{
    CAnswer::from(calls::join(run, history, roll, number, age, pension))
}

pub fn parvusek_roll_leave(roll: &mut [u64], number: u32) -> CAnswer
    ensures value { result ≡ answer_of (total_said (left_roll roll.old number)) }
    ensures roll_after { roll.new ≡ after_call roll.old (left_roll roll.old number) }
{
    CAnswer::from(calls::leave(roll, number))
}

pub fn parvusek_roll_total(roll: &[u64]) -> CAnswer
    ensures { result ≡ answer_of (total_answer roll.now) }
{
    CAnswer::from(calls::total(roll))
}

// What a join and a leave ask before anything is written: the roll's own refusals, then the liability of a join or the place of a leave.
ghost use Rattle.std.specs.Prelude.{◌≡◌, ◌≤◌, length, pos};
ghost use Rattle.outcome.specs.Outcome.{finding, refusal, unless, checked, value, meaning};
ghost use Rattle.outcome.specs.Reasons.{number_of};
ghost use Rattle.roll.specs.Roll.{join_check, leave_check, liability_of, liability_on, liability_joining};
ghost use Rattle.roll.specs.Kept.{year_in, numbers_in, place_of};

use crate::kept;
use arithmetic::UNIT;
use outcome::{Reason, Refusal};
use survivorship::Kind;

// A refusal that names a member, unless a condition holds.
fn refuse_unless(holds: bool, reason: Reason, member: u32) -> Result<(), Refusal>
    ensures { finding result ≡ unless holds (refusal (number_of reason) member 0) }
{
    if holds {
        Ok(())
    } else {
        Err(reason.at(member as u64, 0))
    }
}

// 16, then 14, then 5.
#[tactic(auto, using(crate::proofs::Cases::join_is))]
pub(crate) fn check_join(roll: &[u64], number: u32, pension: u32) -> Result<(), Refusal>
    requires { 2002 ≤ length roll.now }
    ensures { finding result ≡ join_check (numbers_in roll.now) number pension }
{
    let free = kept::place_in(roll, number).is_none();
    let space = kept::count_in(roll) < kept::PLACES;
    refuse_unless(free, Reason::OnRoll, number)?;
    refuse_unless(space, Reason::RollFull, number)?;
    refuse_unless(pension <= 10_000_000, Reason::Limits, number)
}

// The place of a member who may leave; 15: the number is not on the roll.
#[tactic(auto, using(crate::proofs::Cases::place_said))]
pub(crate) fn place_leaving(roll: &[u64], number: u32) -> Result<usize, Refusal>
    requires { 2002 ≤ length roll.now }
    ensures { meaning result ≡ checked (leave_check (numbers_in roll.now) number) (value (pos (place_of number (numbers_in roll.now)))) }
{
    kept::place_in(roll, number).ok_or(Reason::NotOnRoll.at(number as u64, 0))
}

// Pension × annuity / U in whole pence. No annuity is above 131 payments of 4 × U, so that the product is below 2^63.
fn liability_of(pension: u32, annuity: u64) -> u64
    requires { (pension ≤ 10_000_000) × (annuity ≤ 524_000_000_000) }
    ensures { pos result ≡ liability_of pension (pos annuity) }
{
    arithmetic::round_div_unsigned(pension as u64 * annuity, UNIT)
}

// The liability on the lent basis and history; a pension of 0 needs its annuity too.
#[tactic(auto, using(crate::proofs::Liability::annuity_small), unfolding(crate::specs::Roll::liability_on))]
fn liability_on(
    run: &[u8],
    history: &[u8],
    age: u32,
    year: u32,
    pension: u32,
) -> Result<u64, Refusal>
    requires { pension ≤ 10_000_000 }
    ensures { meaning result ≡ liability_on run.now history.now age year pension }
{
    let annuity = enquiry::values::annuity(run, history, Kind::Cohort, age, 0, year)?;
    Ok(liability_of(pension, annuity))
}

// The roll's own refusals before any of the engine's.
#[tactic(auto, using(crate::proofs::Cases::join_limited), unfolding(crate::specs::Roll::liability_joining))]
pub(crate) fn liability_joining(
    roll: &[u64],
    run: &[u8],
    history: &[u8],
    number: u32,
    age: u32,
    pension: u32,
) -> Result<u64, Refusal>
    requires { 2002 ≤ length roll.now }
    ensures { meaning result ≡ liability_joining (numbers_in roll.now) (year_in roll.now) run.now history.now
        number age pension }
{
    check_join(roll, number, pension)?;
    liability_on(run, history, age, kept::year_in(roll), pension)
}

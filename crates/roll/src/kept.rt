// What a lent list holds, whatever stands in it: the year, how many, where a number stands, and the total.
ghost use Rattle.std.specs.Prelude.{◌≡◌, ◌==◌, ◌%◌, ◌^◌, ◌≤◌, ◌+◌, length, take, drop, fold, position};
ghost use Rattle.outcome.specs.Outcome.{finding};
ghost use Rattle.roll.specs.Kept.{roll_check, year_in, count_in, numbers_in, total_in};

use outcome::{Reason, Refusal};

// How many numbers a roll is kept in, and how many members it has room for.
pub(crate) const LENGTH: usize = 2002;

pub(crate) const PLACES: usize = 500;

// Where the areas of the member numbers, the ages, the pensions and the liabilities begin.
pub(crate) const NUMBERS: usize = 2;

pub(crate) const AGES: usize = NUMBERS + PLACES;

pub(crate) const PENSIONS: usize = AGES + PLACES;

pub(crate) const LIABILITIES: usize = PENSIONS + PLACES;

// 11: the list is too short.
#[tactic(auto, unfolding(crate::specs::Kept::roll_check))]
pub(crate) fn check_roll(roll: &[u64]) -> Result<(), Refusal>
    ensures { finding result ≡ roll_check roll.now }
{
    if LENGTH <= roll.len() {
        Ok(())
    } else {
        Err(Reason::Room.at(8 * LENGTH as u64, 0))
    }
}

pub(crate) fn year_in(roll: &[u64]) -> u32
    requires { 2002 ≤ length roll.now }
    ensures { result ≡ year_in roll.now }
{
    (roll[0] % (1 << 32)) as u32
}

// How many are on the roll, at most 500.
pub(crate) fn count_in(roll: &[u64]) -> usize
    requires { 2002 ≤ length roll.now }
    ensures { (result ≡ count_in roll.now) × (result ≤ 500) }
{
    roll[1].min(PLACES as u64) as usize
}

// What stands in an area for those on the roll.
fn area(roll: &[u64], from: usize) -> &[u64]
    requires { (2002 ≤ length roll.now) × (from ≤ 1502) }
    ensures { result.now ≡ take (count_in roll.now) (drop from roll.now) }
{
    &roll[from..from + count_in(roll)]
}

// The place of a member who is on the roll.
pub(crate) fn place_in(roll: &[u64], number: u32) -> Option<usize>
    requires { 2002 ≤ length roll.now }
    ensures { result ≡ position (λ n. n == number) (numbers_in roll.now) }
{
    let number = number as u64;
    area(roll, NUMBERS).iter().position(|n| *n == number)
}

// The numbers of a list added up, in 64 bits.
fn add_up(list: &[u64]) -> u64
    ensures { result ≡ fold (λ sum n. (sum + n) % 2 ^ 64) 0 list.now }
{
    list.iter().fold(0, |sum, n| sum.wrapping_add(*n))
}

// The total of the liabilities.
#[tactic(auto, using(crate::proofs::Places::added_by_fold), unfolding(crate::specs::Kept::total_in))]
pub(crate) fn total_in(roll: &[u64]) -> u64
    requires { 2002 ≤ length roll.now }
    ensures { result ≡ total_in roll.now }
{
    add_up(area(roll, LIABILITIES))
}

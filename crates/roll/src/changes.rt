// What a call changes in the list: a member more in the next place, or a member less and the gap closed.
ghost use Rattle.std.specs.Prelude.{◌≡◌, ◌<◌, ◌≤◌, length};
ghost use Rattle.roll.specs.Kept.{count_in, with_member, closed_up, without_member};

use crate::kept::{AGES, LIABILITIES, NUMBERS, PENSIONS, count_in};

// A member in the next place of each area.
#[tactic(auto, unfolding(crate::specs::Kept::with_member))]
pub(crate) fn with_member(roll: &mut [u64], number: u32, age: u32, pension: u32, liability: u64)
    requires { (2002 ≤ length roll.old) × (count_in roll.old < 500) }
    ensures { roll.new ≡ with_member number age pension liability roll.old }
{
    let n = count_in(roll);
    roll[1] = n as u64 + 1;
    roll[NUMBERS + n] = number as u64;
    roll[AGES + n] = age as u64;
    roll[PENSIONS + n] = pension as u64;
    roll[LIABILITIES + n] = liability;
}

// What stands at place i goes; what stands behind it, up to place n, moves up.
#[tactic(auto, using(crate::proofs::Places::closed_by_copy))]
fn close_up(list: &mut [u64], i: usize, n: usize)
    requires { (i < n) × (n ≤ length list.old) }
    ensures { list.new ≡ closed_up i n list.old }
{
    list.copy_within(i + 1..n, i);
}

// The member at place i goes from each area. It is not put into its caller, whose search would carry numbers for the moves from turn
// to turn: a leave of a number that is not on the roll would take half as many instructions again.
#[inline(never)]
#[tactic(auto, unfolding(crate::specs::Kept::without_member))]
pub(crate) fn without_member(roll: &mut [u64], i: usize)
    requires { (2002 ≤ length roll.old) × (i < count_in roll.old) }
    ensures { roll.new ≡ without_member i roll.old }
{
    let n = count_in(roll);
    for from in [NUMBERS, AGES, PENSIONS, LIABILITIES] {
        close_up(roll, from + i, from + n);
    }
    roll[1] = n as u64 - 1;
}

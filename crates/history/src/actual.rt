// The actual improvements of an accepted history. They are read where they stand in the file, as its blocks are not joined.
ghost use Rattle.std.specs.Prelude.{◌≡◌, cond, ◌+◌, ◌*◌, ◌-◌, ◌≤◌, ◌<◌, leb};
ghost use Rattle.basis.specs.Basis.{basis_of};
ghost use Rattle.history.specs.History.{actual_of};

use crate::LentBasis;

// Where an age stands in the two blocks of a year.
fn place_in_blocks(age: u32) -> usize
    requires { (20 ≤ age) × (age ≤ 150) }
    ensures { result ≡ cond (leb age 85) (2 + 4 * (age - 20)) (514 + 4 * (age - 86)) }
{
    if age <= 85 {
        2 + 4 * (age as usize - 20)
    } else {
        514 + 4 * (age as usize - 86)
    }
}

// The actual improvement at an age in a year from B + 1 to F.
pub fn actual_improvement(b: LentBasis, age: u32, year: u32) -> i32
    requires { (20 ≤ age) × (age ≤ 150) × ((basis_of b.run.now).base < year) × (year ≤ (basis_of b.run.now).foundation) }
    ensures { result ≡ actual_of (basis_of b.entry.run.now) b.entry.history.now age year }
{
    let years = (year - basis::fields::base_year(b.run) - 1) as usize;
    little_endian::read_i32(b.history, 1024 * years + place_in_blocks(age))
}

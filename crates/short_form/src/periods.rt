// The periods of convergence: by age they are shorter at high ages (02, change 8), by birth year all the same.
ghost use Rattle.std.specs.Prelude.{◌≡◌};
ghost use Rattle.short_form.specs.ShortForm.{age_period_of};

// By age: the longest period and the last age that has it, the last age of the fall, and the shortest period, above that age.
const LONGEST: u8 = 20;

const LEVEL_TO: usize = 60;

const FALLING_TO: usize = 90;

const SHORTEST: u8 = 5;

// By birth year.
pub(crate) const BY_BIRTH_YEAR: u8 = 20;

// The period at an age.
pub(crate) fn age_period(age: usize) -> u8
    ensures { result ≡ age_period_of age }
{
    if age <= LEVEL_TO {
        LONGEST
    } else if age <= FALLING_TO {
        LONGEST - ((age - LEVEL_TO) / 2) as u8
    } else {
        SHORTEST
    }
}

// The long-term rates by age: S to age 90, then a thirtieth of it less for each year, and 0 from 120 on.
ghost use Rattle.std.specs.Prelude.{◌≡◌, ◌-◌, ◌≤◌, nat_abs};
ghost use Rattle.short_form.specs.ShortForm.{long_term_limit, share_of, long_term_of};

// The last age with all of S.
const RUN_OFF_AGE: usize = 90;

// The share of S at an age, in thirtieths: 30 less what the age exceeds 90, never below 0 nor above 30.
fn share(age: usize) -> usize
    ensures { result ≡ share_of age }
{
    30usize.saturating_sub(age.saturating_sub(RUN_OFF_AGE))
}

// The long-term rate at an age.
pub(crate) fn long_term_rate(rate: i32, age: usize) -> i32
    requires { (nat_abs rate ≤ long_term_limit) × (20 ≤ age) × (age ≤ 150) }
    ensures { result ≡ long_term_of rate age }
{
    arithmetic::round_div(rate as i64 * share(age) as i64, 30) as i32
}

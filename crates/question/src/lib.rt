// What an enquiry asks: its own checks, 6, 8 and 7.
#![tactic(auto)]

ghost use Rattle.std.specs.Prelude.{◌≡◌};
ghost use Rattle.outcome.specs.Outcome.{finding};
ghost use Rattle.basis.specs.Basis.{basis_of, Accepted, rated_from};
ghost use Rattle.question.specs.Question.{age_check, deferment_check, year_check, cell_check, question_check};

use outcome::{Reason, Refusal};

// A question: an age, a deferment and a year, whatever they hold.
#[repr(C)]
#[derive(Clone, Copy)]
pub struct Question {
    pub age: u32,
    pub deferment: u32,
    pub year: u32,
}

// 6: age outside 20 to 150.
#[tactic(auto, unfolding(crate::specs::Question::age_check))]
pub fn check_age(age: u32) -> Result<(), Refusal>
    ensures { finding result ≡ age_check age }
{
    if (20..=150).contains(&age) {
        Ok(())
    } else {
        Err(Reason::Age.at(age as u64, 0))
    }
}

// 8: age + deferment above 150. The sum is made in 64 bits, where it cannot wrap.
#[tactic(auto, unfolding(crate::specs::Question::deferment_check))]
fn check_deferment(age: u32, deferment: u32) -> Result<(), Refusal>
    ensures { finding result ≡ deferment_check age deferment }
{
    if u64::from(age) + u64::from(deferment) <= 150 {
        Ok(())
    } else {
        Err(Reason::Deferment.at(age as u64, deferment as u64))
    }
}

// 7: the enquiry's year after 2130, or before the first that it may name.
#[tactic(auto, unfolding(crate::specs::Question::year_check))]
fn check_year(first: u32, year: u32) -> Result<(), Refusal>
    ensures { finding result ≡ year_check first year }
{
    if (first..=2130).contains(&year) {
        Ok(())
    } else {
        Err(Reason::Year.at(year as u64, 0))
    }
}

// 6, then 7.
pub fn check_cell(first: u32, age: u32, year: u32) -> Result<(), Refusal>
    ensures { finding result ≡ cell_check first age year }
{
    check_age(age)?;
    check_year(first, year)
}

// 6, then 8, then 7, for years from the first that has a rate.
#[tactic(auto, unfolding(crate::specs::Question::question_check))]
pub fn check_question(run: &[u8], age: u32, deferment: u32, year: u32) -> Result<(), Refusal>
    requires { Accepted run.now }
    ensures { finding result ≡ question_check (rated_from (basis_of run.now)) age deferment year }
{
    check_age(age)?;
    check_deferment(age, deferment)?;
    check_year(basis::fields::rated_from(run), year)
}

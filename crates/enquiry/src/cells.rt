// Enquiries for single cells of the projection: an improvement, a factor, a rate.
ghost use Rattle.std.specs.Prelude.{◌≡◌};
ghost use Rattle.outcome.specs.Outcome.{meaning, signed_meaning};
ghost use Rattle.enquiry.specs.Enquiry.{improvement_enquiry, factor_enquiry, rate_enquiry};

use history::LentBasis;
use outcome::Refusal;

// An improvement, in a year from the first that has one. As in every enquiry the data run and its history are checked afresh, and
// only then is there a year to be read of the run.
#[tactic(auto, using(crate::proofs::Passed::asked), unfolding(crate::specs::Enquiry::improvement_enquiry))]
pub fn improvement(run: &[u8], history: &[u8], age: u32, year: u32) -> Result<i64, Refusal>
    ensures { signed_meaning result ≡ improvement_enquiry run.now history.now age year }
{
    history::check::check_run_and_history(run, history)?;
    question::check_cell(improvement::first_year(run), age, year)?;
    let b = LentBasis { run, history };
    improvement::improvement_needed(b, age, year)
}

// A factor, in a year from B on.
#[tactic(auto, using(crate::proofs::Passed::asked), unfolding(crate::specs::Enquiry::factor_enquiry))]
pub fn factor(run: &[u8], history: &[u8], age: u32, year: u32) -> Result<u64, Refusal>
    ensures { meaning result ≡ factor_enquiry run.now history.now age year }
{
    history::check::check_run_and_history(run, history)?;
    question::check_cell(basis::fields::base_year(run), age, year)?;
    let b = LentBasis { run, history };
    projection::factor::factor_at(b, age, year)
}

// A rate, in a year from the first that has one.
#[tactic(auto, using(crate::proofs::Passed::asked), unfolding(crate::specs::Enquiry::rate_enquiry, basis::specs::Basis::rated_from))]
pub fn rate(run: &[u8], history: &[u8], age: u32, year: u32) -> Result<u64, Refusal>
    ensures { meaning result ≡ rate_enquiry run.now history.now age year }
{
    history::check::check_run_and_history(run, history)?;
    question::check_cell(basis::fields::rated_from(run), age, year)?;
    let b = LentBasis { run, history };
    projection::rate::rate_at(b, age, year)
}

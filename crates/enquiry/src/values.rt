// Enquiries for the values of a life: survivorship, expectation and annuity, each period and cohort.
ghost use Rattle.std.specs.Prelude.{◌≡◌};
ghost use Rattle.outcome.specs.Outcome.{meaning, finding};
ghost use Rattle.enquiry.specs.Enquiry.{valuation_check, survivorship_enquiry, expectation_enquiry, annuity_enquiry};

use history::LentBasis;
use outcome::Refusal;
use survivorship::Kind;

// The data run and its history afresh, then the question.
#[tactic(auto, using(crate::proofs::Passed::asked), unfolding(basis::specs::Basis::rated_from))]
pub fn check_valuation(
    run: &[u8],
    history: &[u8],
    age: u32,
    deferment: u32,
    year: u32,
) -> Result<(), Refusal>
    ensures { finding result ≡ valuation_check run.now history.now age deferment year }
{
    history::check::check_run_and_history(run, history)?;
    question::check_question(run, age, deferment, year)
}

#[tactic(auto, using(crate::proofs::Passed::asked), unfolding(crate::specs::Enquiry::survivorship_enquiry))]
pub fn survivorship(
    run: &[u8],
    history: &[u8],
    kind: Kind,
    age: u32,
    deferment: u32,
    year: u32,
) -> Result<u64, Refusal>
    ensures { meaning result ≡ survivorship_enquiry run.now history.now kind age deferment year }
{
    check_valuation(run, history, age, deferment, year)?;
    let b = LentBasis { run, history };
    survivorship::survivors_at(b, kind, age, deferment, year)
}

#[tactic(auto, using(crate::proofs::Passed::asked), unfolding(crate::specs::Enquiry::expectation_enquiry))]
pub fn expectation(
    run: &[u8],
    history: &[u8],
    kind: Kind,
    age: u32,
    deferment: u32,
    year: u32,
) -> Result<u64, Refusal>
    ensures { meaning result ≡ expectation_enquiry run.now history.now kind age deferment year }
{
    check_valuation(run, history, age, deferment, year)?;
    let b = LentBasis { run, history };
    valuation::expectation::expectation_at(b, kind, age, deferment, year)
}

#[tactic(auto, using(crate::proofs::Passed::asked), unfolding(crate::specs::Enquiry::annuity_enquiry))]
pub fn annuity(
    run: &[u8],
    history: &[u8],
    kind: Kind,
    age: u32,
    deferment: u32,
    year: u32,
) -> Result<u64, Refusal>
    ensures { meaning result ≡ annuity_enquiry run.now history.now kind age deferment year }
{
    check_valuation(run, history, age, deferment, year)?;
    let b = LentBasis { run, history };
    valuation::annuity::annuity_at(b, kind, age, deferment, year)
}

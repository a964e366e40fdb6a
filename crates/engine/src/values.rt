// Enquiries for values: survivorship, expectation of life and annuity-due, each period and cohort.
ghost use Rattle.std.specs.Prelude.{◌≡◌};
ghost use Rattle.survivorship.specs.declared.Kind.TheVariants.{Period, Cohort};
ghost use Rattle.enquiry.specs.Enquiry.{survivorship_enquiry, expectation_enquiry, annuity_enquiry};
ghost use Rattle.engine.specs.Enquiry.{answer_of};

use crate::CAnswer;
use enquiry::values;
use survivorship::Kind;

// The deferment is the number of years.
pub fn parvusek_period_survivorship(
    run: &[u8],
    history: &[u8],
    age: u32,
    deferment: u32,
    year: u32,
) -> CAnswer
    ensures { result ≡ answer_of (survivorship_enquiry run.now history.now Period age deferment year) }
{
    CAnswer::from(values::survivorship(run, history, Kind::Period, age, deferment, year))
}

pub fn parvusek_cohort_survivorship(
    run: &[u8],
    history: &[u8],
    age: u32,
    deferment: u32,
    year: u32,
) -> CAnswer
    ensures { result ≡ answer_of (survivorship_enquiry run.now history.now Cohort age deferment year) }
{
    CAnswer::from(values::survivorship(run, history, Kind::Cohort, age, deferment, year))
}

pub fn parvusek_period_expectation(
    run: &[u8],
    history: &[u8],
    age: u32,
    deferment: u32,
    year: u32,
) -> CAnswer
    ensures { result ≡ answer_of (expectation_enquiry run.now history.now Period age deferment year) }
{
    CAnswer::from(values::expectation(run, history, Kind::Period, age, deferment, year))
}

pub fn parvusek_cohort_expectation(
    run: &[u8],
    history: &[u8],
    age: u32,
    deferment: u32,
    year: u32,
) -> CAnswer
    ensures { result ≡ answer_of (expectation_enquiry run.now history.now Cohort age deferment year) }
{
    CAnswer::from(values::expectation(run, history, Kind::Cohort, age, deferment, year))
}

pub fn parvusek_period_annuity(
    run: &[u8],
    history: &[u8],
    age: u32,
    deferment: u32,
    year: u32,
) -> CAnswer
    ensures { result ≡ answer_of (annuity_enquiry run.now history.now Period age deferment year) }
{
    CAnswer::from(values::annuity(run, history, Kind::Period, age, deferment, year))
}

pub fn parvusek_cohort_annuity(
    run: &[u8],
    history: &[u8],
    age: u32,
    deferment: u32,
    year: u32,
) -> CAnswer
    ensures { result ≡ answer_of (annuity_enquiry run.now history.now Cohort age deferment year) }
{
    CAnswer::from(values::annuity(run, history, Kind::Cohort, age, deferment, year))
}

// Exports for values: survivorship, expectation of life and annuity-due, each period and cohort.
ghost use Rattle.std.specs.Prelude.{◌≡◌};
ghost use Rattle.survivorship.specs.declared.Kind.TheVariants.{Period, Cohort};
ghost use Rattle.enquiry.specs.Enquiry.{survivorship_enquiry, expectation_enquiry, annuity_enquiry};
ghost use Rattle.engine.specs.Enquiry.{answer_of};

use engine::CAnswer;

// The deferment is the number of years.
#[unsafe(no_mangle)]
pub extern "C" fn parvusek_period_survivorship(
    run: &[u8],
    history: &[u8],
    age: u32,
    deferment: u32,
    year: u32,
) -> CAnswer
    ensures { result ≡ answer_of (survivorship_enquiry run.now history.now Period age deferment year) }
{
    engine::values::parvusek_period_survivorship(run, history, age, deferment, year)
}

#[unsafe(no_mangle)]
pub extern "C" fn parvusek_cohort_survivorship(
    run: &[u8],
    history: &[u8],
    age: u32,
    deferment: u32,
    year: u32,
) -> CAnswer
    ensures { result ≡ answer_of (survivorship_enquiry run.now history.now Cohort age deferment year) }
{
    engine::values::parvusek_cohort_survivorship(run, history, age, deferment, year)
}

#[unsafe(no_mangle)]
pub extern "C" fn parvusek_period_expectation(
    run: &[u8],
    history: &[u8],
    age: u32,
    deferment: u32,
    year: u32,
) -> CAnswer
    ensures { result ≡ answer_of (expectation_enquiry run.now history.now Period age deferment year) }
{
    engine::values::parvusek_period_expectation(run, history, age, deferment, year)
}

#[unsafe(no_mangle)]
pub extern "C" fn parvusek_cohort_expectation(
    run: &[u8],
    history: &[u8],
    age: u32,
    deferment: u32,
    year: u32,
) -> CAnswer
    ensures { result ≡ answer_of (expectation_enquiry run.now history.now Cohort age deferment year) }
{
    engine::values::parvusek_cohort_expectation(run, history, age, deferment, year)
}

#[unsafe(no_mangle)]
pub extern "C" fn parvusek_period_annuity(
    run: &[u8],
    history: &[u8],
    age: u32,
    deferment: u32,
    year: u32,
) -> CAnswer
    ensures { result ≡ answer_of (annuity_enquiry run.now history.now Period age deferment year) }
{
    engine::values::parvusek_period_annuity(run, history, age, deferment, year)
}

#[unsafe(no_mangle)]
pub extern "C" fn parvusek_cohort_annuity(
    run: &[u8],
    history: &[u8],
    age: u32,
    deferment: u32,
    year: u32,
) -> CAnswer
    ensures { result ≡ answer_of (annuity_enquiry run.now history.now Cohort age deferment year) }
{
    engine::values::parvusek_cohort_annuity(run, history, age, deferment, year)
}

// Enquiries for single cells of the projection: an improvement, a factor, a rate.
ghost use Rattle.std.specs.Prelude.{◌≡◌};
ghost use Rattle.enquiry.specs.Enquiry.{improvement_enquiry, factor_enquiry, rate_enquiry};
ghost use Rattle.engine.specs.Enquiry.{answer_of, signed_answer_of};

use crate::{CAnswer, CSignedAnswer};
use enquiry::cells;

pub fn parvusek_improvement(run: &[u8], history: &[u8], age: u32, year: u32) -> CSignedAnswer
    ensures { result ≡ signed_answer_of (improvement_enquiry run.now history.now age year) }
{
    CSignedAnswer::from(cells::improvement(run, history, age, year))
}

pub fn parvusek_factor(run: &[u8], history: &[u8], age: u32, year: u32) -> CAnswer
    ensures { result ≡ answer_of (factor_enquiry run.now history.now age year) }
{
    CAnswer::from(cells::factor(run, history, age, year))
}

pub fn parvusek_rate(run: &[u8], history: &[u8], age: u32, year: u32) -> CAnswer
    ensures { result ≡ answer_of (rate_enquiry run.now history.now age year) }
{
    CAnswer::from(cells::rate(run, history, age, year))
}

// The improvement at an age in a year: the history's in a year that has an actual one, otherwise the sum of two components, rounded
// once, and the constant addition.
#![tactic(auto)]

ghost use Rattle.std.specs.Prelude.{◌≡◌, ◌+ℤ◌};
ghost use Rattle.arithmetic.specs.Fraction.{◌+ᶠ◌, round};
ghost use Rattle.basis.specs.Basis.{basis_of, Accepted, ConvergenceLimits};
ghost use Rattle.history.specs.Held.{held};
ghost use Rattle.outcome.specs.Outcome.{signed_meaning};
ghost use Rattle.component.specs.Component.{component_of};
ghost use Rattle.improvement.specs.Improvement.{addition_of, birth_terms, projected_of, is_actual, first_year, improvement_of, improvement_needed, usable};
ghost use Rattle.improvement.specs.Checked.{ImprovedCell, ProjectedCell};

use basis::Convergence;
use history::LentBasis;
use outcome::{Reason, Refusal};

// The constant addition of a year.
#[tactic(auto, unfolding(crate::specs::Improvement::addition_of))]
fn addition_in(run: &[u8], year: u32) -> i32
    requires { Accepted run.now }
    ensures { result ≡ addition_of (basis_of run.now) year }
{
    if basis::fields::foundation_year(run) < year {
        basis::fields::constant_addition(run)
    } else {
        0
    }
}

// The component by attained age and the component by birth year, added and rounded once, and an addition, a number of years after F.
fn improvement_from(attained: Convergence, birth: Convergence, years: u32, addition: i32) -> i64
    requires { ConvergenceLimits attained × ConvergenceLimits birth }
    ensures { result ≡ round (component_of attained years +ᶠ component_of birth years) +ℤ addition }
{
    let rounded = arithmetic::round_sum(
        component::component(attained, years),
        component::component(birth, years),
    );
    rounded + i64::from(addition)
}

// The terms of the birth year, which is the calendar year less the age.
fn birth_terms(run: &[u8], age: u32, year: u32) -> Convergence
    requires { ProjectedCell run.now age year }
    ensures { result ≡ birth_terms (basis_of run.now) age year }
{
    basis::fields::birth_year_terms(run, year - age)
}

// The projection's improvement at an age, whose terms the caller has read, in a year from F on.
#[tactic(auto, unfolding(crate::specs::Improvement::projected_of, crate::specs::Improvement::components_of))]
fn projected_at(run: &[u8], terms: Convergence, age: u32, year: u32) -> i64
    requires { ProjectedCell run.now age year × (terms ≡ (basis_of run.now).by_age age) }
    ensures { result ≡ projected_of (basis_of run.now) age year }
{
    let years = year - basis::fields::foundation_year(run);
    let birth = birth_terms(run, age, year);
    improvement_from(terms, birth, years, addition_in(run, year))
}

// Does the history have this year's improvements? It has those from B + 1 to F.
fn is_actual(run: &[u8], year: u32) -> bool
    requires { Accepted run.now }
    ensures { result ≡ is_actual (basis_of run.now) year }
{
    basis::fields::base_year(run) < year && year <= basis::fields::foundation_year(run)
}

// The improvement at an age, whose terms the caller has read, in a year that has one.
#[tactic(auto, using(crate::proofs::Cases::projected_with), unfolding(crate::specs::Improvement::improvement_of, crate::specs::Improvement::first_year))]
pub fn improvement_at(b: LentBasis, terms: Convergence, age: u32, year: u32) -> i64
    requires { ImprovedCell b.run.now b.history.now age year × (terms ≡ (basis_of b.run.now).by_age age) }
    ensures { result ≡ improvement_of (held b.entry) age year }
{
    if is_actual(b.run, year) {
        i64::from(history::actual::actual_improvement(b, age, year))
    } else {
        projected_at(b.run, terms, age, year)
    }
}

// The first year that has an improvement: F, and B + 1 with B before F.
#[tactic(auto, unfolding(crate::specs::Improvement::first_year))]
pub fn first_year(run: &[u8]) -> u32
    requires { Accepted run.now }
    ensures { result ≡ first_year (basis_of run.now) }
{
    (basis::fields::base_year(run) + 1).min(basis::fields::foundation_year(run))
}

// Is an improvement within ±500,000,000?
fn is_usable(improvement: i64) -> bool
    ensures { result ≡ usable improvement }
{
    (-500_000_000..=500_000_000).contains(&improvement)
}

// An improvement that an answer needs, or 9 where it is beyond ±500,000,000.
#[tactic(auto, unfolding(crate::specs::Improvement::improvement_needed))]
pub fn checked_improvement(age: u32, year: u32, improvement: i64) -> Result<i64, Refusal>
    ensures { signed_meaning result ≡ improvement_needed age year improvement }
{
    if is_usable(improvement) {
        Ok(improvement)
    } else {
        Err(Reason::Improvement.at(age as u64, year as u64))
    }
}

// The improvement at an age in a year that has one, with refusal 9.
pub fn improvement_needed(b: LentBasis, age: u32, year: u32) -> Result<i64, Refusal>
    requires { ImprovedCell b.run.now b.history.now age year }
    ensures { signed_meaning result ≡ improvement_needed age year (improvement_of (held b.entry) age year) }
{
    let terms = basis::fields::age_terms(b.run, age);
    checked_improvement(age, year, improvement_at(b, terms, age, year))
}

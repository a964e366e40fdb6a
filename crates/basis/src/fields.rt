// The fields of an accepted data run, each by its offset. Whoever asks has checked the run.
ghost use Rattle.std.specs.Prelude.{◌≡◌, ◌+◌, ◌*◌, ◌≤◌, ◌<◌, length};
ghost use Rattle.layout.specs.Layout.{mpb2, width_of, proportion_of, run_length};
ghost use Rattle.layout.specs.Meaning.{meant};
ghost use Rattle.basis.specs.Basis.{basis_of, accumulation_of, terms_at, Accepted, rated_from};

use crate::Convergence;
use layout::Form;
use layout::forms::form_of_run;
use layout::offsets::{
    birth_year_initial_rates_at, birth_year_long_term_rates_at, birth_year_periods_at,
    birth_year_proportions_at,
};

#[tactic(auto, unfolding(crate::specs::Basis::basis_of))]
pub fn foundation_year(run: &[u8]) -> u32
    requires { Accepted run.now }
    ensures { result ≡ (basis_of run.now).foundation }
{
    little_endian::read_u16(run, layout::FOUNDATION_AT)
}

#[tactic(auto, unfolding(crate::specs::Basis::basis_of))]
pub fn base_year(run: &[u8]) -> u32
    requires { Accepted run.now }
    ensures { result ≡ (basis_of run.now).base }
{
    little_endian::read_u16(run, layout::BASE_AT)
}

// The first year that has a rate.
#[tactic(auto, unfolding(crate::specs::Basis::rated_from))]
pub fn rated_from(run: &[u8]) -> u32
    requires { Accepted run.now }
    ensures { result ≡ rated_from (basis_of run.now) }
{
    base_year(run)
}

#[tactic(auto, unfolding(crate::specs::Basis::basis_of))]
pub fn constant_addition(run: &[u8]) -> i32
    requires { Accepted run.now }
    ensures { result ≡ (basis_of run.now).addition }
{
    little_endian::read_i32(run, layout::ADDITION_AT)
}

// U and the rate of discount: what one unit grows to in a year.
#[tactic(auto, unfolding(crate::specs::Basis::basis_of, crate::specs::Basis::accumulation_of))]
pub fn accumulation(run: &[u8]) -> u64
    requires { Accepted run.now }
    ensures { result ≡ accumulation_of (basis_of run.now) }
{
    (arithmetic::UNIT as i64 + i64::from(little_endian::read_i32(run, layout::DISCOUNT_AT))) as u64
}

#[tactic(auto, unfolding(crate::specs::Basis::basis_of), using(crate::proofs::Places::places))]
pub fn base_rate(run: &[u8], age: u32) -> u32
    requires { Accepted run.now × (20 ≤ age) × (age ≤ 150) }
    ensures { result ≡ (basis_of run.now).base_rate age }
{
    little_endian::read_u32(run, layout::BASE_RATES_AT + 4 * (age as usize - 20))
}

// Where the tables of the terms begin: those of I, L, T and P.
#[derive(Clone, Copy)]
struct TermTables {
    initial: usize,
    long: usize,
    period: usize,
    remaining: usize,
}

// The terms at one place of their tables.
fn terms_at(run: &[u8], form: Form, tables: TermTables, place: usize) -> Convergence
    requires initial_in_bounds { tables.initial + 4 * place + 4 ≤ length run.now }
    requires long_in_bounds { tables.long + 4 * place + 4 ≤ length run.now }
    requires period_in_bounds { tables.period + place < length run.now }
    requires remaining_in_bounds { tables.remaining + width_of (proportion_of (meant form)) * place + width_of (proportion_of (meant form)) ≤ length run.now }
    requires run_len_bound { length run.now ≤ run_length mpb2 }
    ensures { result ≡ terms_at (meant form) run.now tables.initial tables.long tables.period tables.remaining place }
{
    Convergence {
        initial: little_endian::read_i32(run, tables.initial + 4 * place),
        long: little_endian::read_i32(run, tables.long + 4 * place),
        period: run[tables.period + place],
        remaining: proportion::proportion_at(run, form, tables.remaining, place),
    }
}

#[tactic(auto, unfolding(crate::specs::Basis::basis_of), using(crate::proofs::Places::places))]
pub fn age_terms(run: &[u8], age: u32) -> Convergence
    requires { Accepted run.now × (20 ≤ age) × (age ≤ 150) }
    ensures { result ≡ (basis_of run.now).by_age age }
{
    let tables = TermTables {
        initial: layout::AGE_INITIAL_RATES_AT,
        long: layout::AGE_LONG_TERM_RATES_AT,
        period: layout::AGE_PERIODS_AT,
        remaining: layout::AGE_PROPORTIONS_AT,
    };
    terms_at(run, form_of_run(run.len()), tables, age as usize - 20)
}

#[tactic(auto, unfolding(crate::specs::Basis::basis_of), using(crate::proofs::Places::places))]
pub fn birth_year_terms(run: &[u8], year: u32) -> Convergence
    requires { Accepted run.now × (1842 ≤ year) × (year ≤ 2110) }
    ensures { result ≡ (basis_of run.now).by_birth_year year }
{
    let form = form_of_run(run.len());
    let tables = TermTables {
        initial: birth_year_initial_rates_at(form),
        long: birth_year_long_term_rates_at(form),
        period: birth_year_periods_at(form),
        remaining: birth_year_proportions_at(form),
    };
    terms_at(run, form, tables, year as usize - 1842)
}

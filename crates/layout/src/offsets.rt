// The offsets that depend on the form: of the tables by birth year, which stand after the first P, and of the end of the fields.
ghost use Rattle.std.specs.Prelude.{◌≡◌};
ghost use Rattle.layout.specs.Layout.{width_of, proportion_of, birth_year_initial_rates_at, birth_year_long_term_rates_at, birth_year_periods_at};
ghost use Rattle.layout.specs.Layout.{birth_year_proportions_at, fields_end};
ghost use Rattle.layout.specs.Meaning.{meant};

use crate::Form;

// How many bytes a P has.
pub fn proportion_width(form: Form) -> usize
    ensures { result ≡ width_of (proportion_of (meant form)) }
{
    match form {
        Form::Mpb1 => 1,
        Form::Mpb2 => 2,
    }
}

pub fn birth_year_initial_rates_at(form: Form) -> usize
    ensures { result ≡ birth_year_initial_rates_at (meant form) }
{
    crate::AGE_PROPORTIONS_AT + proportion_width(form) * crate::AGES
}

pub fn birth_year_long_term_rates_at(form: Form) -> usize
    ensures { result ≡ birth_year_long_term_rates_at (meant form) }
{
    birth_year_initial_rates_at(form) + crate::BIRTH_YEAR_RATES_LENGTH
}

pub fn birth_year_periods_at(form: Form) -> usize
    ensures { result ≡ birth_year_periods_at (meant form) }
{
    birth_year_long_term_rates_at(form) + crate::BIRTH_YEAR_RATES_LENGTH
}

pub fn birth_year_proportions_at(form: Form) -> usize
    ensures { result ≡ birth_year_proportions_at (meant form) }
{
    birth_year_periods_at(form) + crate::BIRTH_YEARS
}

// Where the fields end, and the last zero bytes of the form begin.
pub fn fields_end(form: Form) -> usize
    ensures { result ≡ fields_end (meant form) }
{
    birth_year_proportions_at(form) + proportion_width(form) * crate::BIRTH_YEARS
}

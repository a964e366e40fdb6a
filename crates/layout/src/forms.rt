// What each form has of its own, and the form that a length tells.
ghost use Rattle.std.specs.Prelude.{◌≡◌, pos};
ghost use Rattle.layout.specs.Layout.{letter_of, blocks_in, run_length, file_length, form_of_run, form_of_file};
ghost use Rattle.layout.specs.Meaning.{meant};

use crate::Form;

// The last letter of its mark.
pub fn letter_of(form: Form) -> i64
    ensures { result ≡ pos (letter_of (meant form)) }
{
    match form {
        Form::Mpb1 => 49,
        Form::Mpb2 => 50,
    }
}

// The blocks of its file.
pub fn blocks_in(form: Form) -> usize
    ensures { result ≡ blocks_in (meant form) }
{
    match form {
        Form::Mpb1 => crate::MPB1_BLOCKS,
        Form::Mpb2 => crate::MPB2_BLOCKS,
    }
}

pub fn run_length(form: Form) -> usize
    ensures { result ≡ run_length (meant form) }
{
    match form {
        Form::Mpb1 => crate::MPB1_RUN_LENGTH,
        Form::Mpb2 => crate::MPB2_RUN_LENGTH,
    }
}

pub fn file_length(form: Form) -> usize
    ensures { result ≡ file_length (meant form) }
{
    match form {
        Form::Mpb1 => crate::MPB1_FILE_LENGTH,
        Form::Mpb2 => crate::MPB2_FILE_LENGTH,
    }
}

// The form that the length of a data run tells; any other length counts as the old form's.
#[tactic(auto, unfolding(crate::specs::Layout::form_of_run))]
pub fn form_of_run(length: usize) -> Form
    ensures { meant result ≡ form_of_run length }
{
    if length == crate::MPB2_RUN_LENGTH {
        Form::Mpb2
    } else {
        Form::Mpb1
    }
}

// The same of a file.
#[tactic(auto, unfolding(crate::specs::Layout::form_of_file))]
pub fn form_of_file(length: usize) -> Form
    ensures { meant result ≡ form_of_file length }
{
    if length == crate::MPB2_FILE_LENGTH {
        Form::Mpb2
    } else {
        Form::Mpb1
    }
}

// Reading a line: three decimal numbers of 1 to 4 digits, single spaces between, no needless leading zero.
ghost use Rattle.std.specs.Prelude.{◌≡◌, ℕ, ◌≤◌, length};
ghost use Rattle.enquiry_text.specs.Line.{digits_from, is_padded, number_of, line_of};
ghost use Rattle.enquiry_text.specs.Meaning.{word_meaning, line_meaning};

use question::Question;

// The enquiry that a line of bytes is, its byte 10 not among them; none if the line is malformed.
pub fn parse_line(text: &[u8]) -> Option<Question>
    ensures { (number : ℕ) → line_meaning number result ≡ line_of number text.now }
{
    let mut words = text.split(|b| *b == b' ');
    let age = number(words.next()?)?;
    let deferment = number(words.next()?)?;
    let year = number(words.next()?)?;
    match words.next() {
        None => Some(Question {
            age,
            deferment,
            year,
        }),
        Some(_) => None,
    }
}

// A word that is a number.
#[tactic(auto, unfolding(crate::specs::Line::number_of))]
fn number(word: &[u8]) -> Option<u32>
    ensures { word_meaning result ≡ number_of word.now }
{
    if word.is_empty() || 4 < word.len() || is_padded(word) {
        return None;
    }
    value_of(word)
}

// Whether a word begins with a needless zero.
fn is_padded(word: &[u8]) -> bool
    ensures { result ≡ is_padded word.now }
{
    1 < word.len() && word[0] == b'0'
}

// The number that up to four digits spell.
fn value_of(word: &[u8]) -> Option<u32>
    requires { length word.now ≤ 4 }
    ensures { word_meaning result ≡ digits_from 0 word.now }
{
    let mut value = 0;
    for d in word {
        if !d.is_ascii_digit() {
            return None;
        }
        value = 10 * value + u32::from(*d - b'0');
    }
    Some(value)
}

// Numbers as text, put into an output. The caller gives room for the most that each can put.
ghost use Rattle.std.specs.Prelude.{◌≡◌, [], ◌∷◌, ◌++◌, ◌+◌, ◌<◌, ◌≤◌, length};
ghost use Rattle.reply_text.specs.Decimal.{digits, places_from, digits_of, decimal_of};
ghost use Rattle.reply_text.specs.Put.{Puts};

use crate::Output;
use arithmetic::UNIT;

// How many digits n has.
fn places(n: u64) -> usize
    ensures value { result ≡ places_from 19 n }
    ensures upper_bound { result ≤ 20 }
{
    n.max(1).ilog10() as usize + 1
}

impl Output<'_> {
    // A text as it stands.
    pub fn text(&mut self, text: &[u8])
        requires { self.old.at + length text.now ≤ length self.old.out.now }
        ensures { Puts self.old text.now self.new }
    {
        lent::put(text, self.out, self.at);
        self.at += text.len();
    }

    fn byte(&mut self, b: u8)
        requires { self.old.at < length self.old.out.now }
        ensures { Puts self.old (b ∷ []) self.new }
    {
        self.out[self.at] = b;
        self.at += 1;
    }

    // The last k digits of n.
    fn last_digits(&mut self, n: u64, k: usize)
        requires { self.old.at + k ≤ length self.old.out.now }
        ensures put { Puts self.old (digits k n) self.new }
        ensures place { self.new.at ≡ self.old.at + k }
    {
        let mut rest = n;
        for i in (0..k).rev() {
            self.out[self.at + i] = b'0' + (rest % 10) as u8;
            rest /= 10;
        }
        self.at += k;
    }

    // A number, then one byte more.
    pub fn number(&mut self, n: u64, then: u8)
        requires { self.old.at + 21 ≤ length self.old.out.now }
        ensures put { Puts self.old (digits_of n ++ then ∷ []) self.new }
        ensures upper_bound { self.new.at ≤ self.old.at + 21 }
    {
        self.last_digits(n, places(n));
        self.byte(then);
    }

    // A result with nine decimals, then one byte more.
    pub(crate) fn units(&mut self, v: u64, then: u8)
        requires { self.old.at + 31 ≤ length self.old.out.now }
        ensures put { Puts self.old (decimal_of v ++ then ∷ []) self.new }
        ensures upper_bound { self.new.at ≤ self.old.at + 31 }
    {
        self.number(v / UNIT, b'.');
        self.last_digits(v % UNIT, 9);
        self.byte(then);
    }
}

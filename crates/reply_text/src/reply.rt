// The lines that the points program prints, put into an output with 192 bytes of room.
ghost use Rattle.std.specs.Prelude.{◌≡◌, ◌++◌, ◌+◌, ◌≤◌, length};
ghost use Rattle.reply_text.specs.Ascii.{ascii};
ghost use Rattle.reply_text.specs.Put.{Puts};
ghost use Rattle.reply_text.specs.Reply.{header_line, question_text, results_text, refusal_line, reply_of, by_value};

use crate::{Output, ReplyText};
use model_points::PointAnswer;
use outcome::Refusal;
use question::Question;

impl Output<'_> {
    pub fn header(&mut self)
        requires { self.old.at + 192 ≤ length self.old.out.now }
        ensures { Puts self.old header_line self.new }
    {
        self.text(b"age deferment year period_ex cohort_ex period_annuity cohort_annuity\n");
    }

    // `refused`, the number and the two places.
    pub fn refusal(&mut self, x: Refusal)
        requires { self.old.at + 192 ≤ length self.old.out.now }
        ensures put { Puts self.old (refusal_line x) self.new }
        ensures upper_bound { self.new.at ≤ self.old.at + 192 }
    {
        self.text(b"refused ");
        self.number(x.number as u64, b' ');
        self.number(x.first, b' ');
        self.number(x.second, b'\n');
    }

    // The three numbers that were asked, each with a space after it.
    fn question(&mut self, q: Question)
        requires { self.old.at + 63 ≤ length self.old.out.now }
        ensures put { Puts self.old (question_text q ++ ascii " ") self.new }
        ensures upper_bound { self.new.at ≤ self.old.at + 63 }
    {
        self.number(q.age as u64, b' ');
        self.number(q.deferment as u64, b' ');
        self.number(q.year as u64, b' ');
    }

    // The four results, a space between two and byte 10 after the last.
    fn results(&mut self, v: [u64; 4])
        requires { self.old.at + 124 ≤ length self.old.out.now }
        ensures put { Puts self.old (results_text v ++ ascii "\n") self.new }
        ensures upper_bound { self.new.at ≤ self.old.at + 124 }
    {
        self.units(v[0], b' ');
        self.units(v[1], b' ');
        self.units(v[2], b' ');
        self.units(v[3], b'\n');
    }

    // The reply to a question.
    pub fn reply(&mut self, q: Question, a: PointAnswer)
        requires { self.old.at + 192 ≤ length self.old.out.now }
        ensures put { Puts self.old (reply_of q a) self.new }
        ensures upper_bound { self.new.at ≤ self.old.at + 192 }
    {
        let PointAnswer { results, refusal } = a;
        if refusal.number == 0 {
            self.question(q);
            self.results(results);
        } else {
            self.refusal(refusal);
        }
    }
}

// The same by value, with no precondition; the bytes behind the reply are 0.
pub fn reply_of(q: Question, a: PointAnswer) -> ReplyText
    ensures { result ≡ by_value (reply_of q a) }
{
    let mut bytes = [0u8; 192];
    let mut output = Output {
        out: &mut bytes,
        at: 0,
    };
    output.reply(q, a);
    let len = output.at;
    ReplyText { bytes, len }
}

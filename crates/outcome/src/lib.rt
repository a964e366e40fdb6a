// What a check finds and what work comes to: a value or a numbered refusal. Every layer above answers by `Result`, with a
// refusal as the error.
#![tactic(auto)]

ghost use Rattle.std.specs.Prelude.{◌≡◌};
ghost use Rattle.outcome.specs.Outcome.{refusal, first_of, finding};
ghost use Rattle.outcome.specs.Reasons.{number_of};

// A refusal: its number and its two places (01, "Who can cause a refusal").
#[repr(C)]
#[derive(Clone, Copy)]
pub struct Refusal {
    pub number: u32,
    pub first: u64,
    pub second: u64,
}

// None, in records and for C: number 0 with places 0.
pub const NO_REFUSAL: Refusal = Refusal {
    number: 0,
    first: 0,
    second: 0,
};

// Why something is refused, in the order of the papers' numbers, which begin with 1.
#[derive(Clone, Copy)]
pub enum Reason {
    // 1: a file or a data run of no form's length.
    Length,
    // 2: a block whose check is wrong.
    BlockCheck,
    // 3: a block whose number is not its place.
    BlockNumber,
    // 4: a byte that has one value only, and has another.
    FixedByte,
    // 5: a number outside its limits.
    Limits,
    // 6, 7, 8: an age, a year, a deferment that no answer has.
    Age,
    Year,
    Deferment,
    // 9: an improvement beyond its limits.
    Improvement,
    // 10: a factor above its limit.
    Factor,
    // 11: too little room in a lent output.
    Room,
    // 12: a line that is no enquiry.
    Line,
    // 13: a history of another length than the basis needs.
    HistoryLength,
    // 14: a roll that is full.
    RollFull,
    // 15: a member who is not on the roll.
    NotOnRoll,
    // 16: a member who is on it already.
    OnRoll,
    // 17: a proportion that is no whole per cent.
    PartPerCent,
}

impl Reason {
    // The number that the papers give it.
    pub fn number(self) -> u32
        ensures { result ≡ number_of self }
    {
        match self {
            Reason::Length => 1,
            Reason::BlockCheck => 2,
            Reason::BlockNumber => 3,
            Reason::FixedByte => 4,
            Reason::Limits => 5,
            Reason::Age => 6,
            Reason::Year => 7,
            Reason::Deferment => 8,
            Reason::Improvement => 9,
            Reason::Factor => 10,
            Reason::Room => 11,
            Reason::Line => 12,
            Reason::HistoryLength => 13,
            Reason::RollFull => 14,
            Reason::NotOnRoll => 15,
            Reason::OnRoll => 16,
            Reason::PartPerCent => 17,
        }
    }

    // The refusal with its places.
    pub fn at(self, first: u64, second: u64) -> Refusal
        ensures { result ≡ refusal (number_of self) first second }
    {
        Refusal {
            number: self.number(),
            first,
            second,
        }
    }
}

// The first refusal of two checks.
pub fn first_of(first: Result<(), Refusal>, next: Result<(), Refusal>) -> Result<(), Refusal>
    ensures { finding result ≡ first_of (finding first) (finding next) }
{
    first?;
    next
}

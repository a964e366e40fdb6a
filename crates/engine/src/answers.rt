// Checks and answers as C takes them: structs instead of results, with refusal number 0 for none.
ghost use Rattle.std.specs.Prelude.{◌≡◌};
ghost use Rattle.outcome.specs.Outcome.{finding, meaning, signed_meaning};
ghost use Rattle.lifeline.specs.Said.{start_meaning, step_meaning};
ghost use Rattle.engine.specs.Enquiry.{refusal_of, answer_of, signed_answer_of};
ghost use Rattle.engine.specs.Lifelines.{lifeline_of_start, lifeline_of_step};

use crate::{CAnswer, CLifeline, CSignedAnswer};
use lifeline::{LifelineStart, LifelineStep, Position, Status};
use outcome::{NO_REFUSAL, Refusal};

pub(crate) fn refusal_of(check: Result<(), Refusal>) -> Refusal
    ensures { result ≡ refusal_of (finding check) }
{
    check.err().unwrap_or(NO_REFUSAL)
}

impl From<Result<u64, Refusal>> for CAnswer {
    ghost from_gives = { λ answer given. given ≡ answer_of (meaning answer) };

    fn from(answer: Result<u64, Refusal>) -> CAnswer {
        match answer {
            Ok(n) => CAnswer {
                refusal: NO_REFUSAL,
                value: n,
            },
            Err(refusal) => CAnswer { refusal, value: 0 },
        }
    }
}

impl From<Result<i64, Refusal>> for CSignedAnswer {
    ghost from_gives = { λ answer given. given ≡ signed_answer_of (signed_meaning answer) };

    fn from(answer: Result<i64, Refusal>) -> CSignedAnswer {
        match answer {
            Ok(i) => CSignedAnswer {
                refusal: NO_REFUSAL,
                value: i,
            },
            Err(refusal) => CSignedAnswer { refusal, value: 0 },
        }
    }
}

fn lifeline_at(position: Position, refusal: Refusal, ended: u32) -> CLifeline
    ensures { result ≡ record { refusal = refusal; survivors = position.survivors; age = position.age; year = position.year; ended = ended } }
{
    CLifeline {
        refusal,
        survivors: position.survivors,
        age: position.age,
        year: position.year,
        ended,
    }
}

impl From<LifelineStart> for CLifeline {
    ghost from_gives = { λ start given. given ≡ lifeline_of_start (start_meaning start) };

    fn from(start: LifelineStart) -> CLifeline {
        lifeline_at(start.position, refusal_of(start.check), 0)
    }
}

impl From<LifelineStep> for CLifeline {
    ghost from_gives = { λ step given. given ≡ lifeline_of_step (step_meaning step) };

    fn from(step: LifelineStep) -> CLifeline {
        match step.status {
            Status::Advanced => lifeline_at(step.position, NO_REFUSAL, 0),
            Status::Ended => lifeline_at(step.position, NO_REFUSAL, 1),
            Status::Refused(refusal) => lifeline_at(step.position, refusal, 0),
        }
    }
}

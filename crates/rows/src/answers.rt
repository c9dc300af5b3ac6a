// How a call is answered: the first check that fails refuses it.
ghost use Rattle.std.specs.Prelude.{◌≡◌};
ghost use Rattle.rows.specs.Answers.{answered, code_of, needs, refusal, tells, value_of};
ghost use Rattle.rows.specs.Codes.{checked, telling, with_code};

use crate::{Answer, Refusal, Told};

// The code by which document 01 answers the refusal.
impl From<Refusal> for u32 {
    ghost from_gives = { λ refusal code. code ≡ code_of refusal };

    fn from(refusal: Refusal) -> u32 {
        match refusal {
            Refusal::NoThread => 1,
            Refusal::NoChannel => 2,
            Refusal::NoConnection => 3,
            Refusal::OtherDirection => 4,
            Refusal::NoTimestamp => 5,
            Refusal::BelowVisibleTime => 6,
            Refusal::AlreadyPresent => 7,
            Refusal::ItemsFull => 8,
            Refusal::TableFull => 9,
            Refusal::NothingUnseen => 10,
            Refusal::NotOpen => 11,
            Refusal::SliceTooShort(_) => 12,
        }
    }
}

impl Refusal {
    // What a refusal tells beside its code.
    pub fn value(self) -> u64
        ensures { result ≡ value_of self }
    {
        match self {
            Refusal::SliceTooShort(items) => items as u64,
            _ => 0,
        }
    }
}

impl From<Result<Told, Refusal>> for Answer {
    ghost from_gives = { λ outcome answer. answer ≡ answered outcome };

    fn from(outcome: Result<Told, Refusal>) -> Answer {
        match outcome {
            Ok(told) => Answer::with_code(0, told.value, told.time),
            Err(refusal) => Answer {
                code: u32::from(refusal),
                value: refusal.value(),
                time: 0,
            },
        }
    }
}

// `needs` and `telling` are for a caller that goes by the numbers of codes; one that goes by refusals asks `refusals::needs`.

// One check more of a call: its code where it fails, unless an earlier one has failed.
pub fn needs(code: u32, holds: bool, refusing: u32) -> u32
    ensures { result ≡ checked code (needs holds (refusal refusing)) }
{
    if code != 0 {
        return code;
    }
    if holds {
        return 0;
    }
    refusing
}

impl Answer {
    // The answer with this code: an accepted call tells its value and its time, a refused one nothing.
    pub fn with_code(code: u32, value: u64, time: u32) -> Answer
        ensures { result ≡ with_code code (tells value time) }
    {
        if code == 0 {
            return Answer {
                code: 0,
                value,
                time,
            };
        }
        Answer {
            code,
            value: 0,
            time: 0,
        }
    }

    // This refusal, which tells more than its code, in the place of one with the same code.
    pub fn telling(self, refused: Answer) -> Answer
        ensures { result ≡ telling self refused }
    {
        if self.code == refused.code {
            return refused;
        }
        self
    }
}

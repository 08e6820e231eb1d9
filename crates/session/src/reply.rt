// What a session answers to a call, as a line of text.

ghost use Rattle.std.specs.Prelude.{◌≡◌, Some, IfOk, string_bytes};
ghost use Rattle.running.specs.Steps.{step_number, step_names};
ghost use Rattle.session.specs.Performed.{step_said, answer_said, count_said, value_said};
ghost use Rattle.session.specs.Replies.{reply_line, refusal_told};

use refused::Refused;
use running::kinds::{NoQuestion, StepRefusal};
use sheet::refusal::Refusal;
use std::alloc::{AllocError, Global};
use std::fmt;

// The number of the refusal of a question.
const NO_QUESTION: u8 = 13;

#[derive(Clone, Copy, PartialEq, Eq, Debug)]
pub enum Reply {
    // A step is made.
    Made,
    // A step is refused.
    Refused(StepRefusal),
    // The answer to a question.
    Truth(bool),
    // There is no such question.
    NoQuestion(NoQuestion),
    // A call is refused for whatever reason, with the number of the refusal and what it names.
    RefusedBy(u8, usize),
    // A mode, a number of rows or a byte.
    Count(usize),
    // The value of an element.
    Value(i32),
    // What is asked for is missing.
    Nothing,
    // The line is no call.
    NotACall,
    // The bytes that were to be opened are no sheet.
    NoSheet(Refusal),
}

impl Reply {
    // The number of the refusal of a call, and what it names.
    pub fn refusal(self) -> Option<(u8, usize)>
        ensures { result ≡ refusal_told self }
    {
        match self {
            Reply::Refused(fault) => Some(numbered(fault)),
            Reply::NoQuestion(NoQuestion { question }) => Some((NO_QUESTION, question)),
            Reply::RefusedBy(number, named) => Some((number, named)),
            Reply::Made
            | Reply::Truth(_)
            | Reply::Count(_)
            | Reply::Value(_)
            | Reply::Nothing
            | Reply::NotACall
            | Reply::NoSheet(_) => None,
        }
    }
}

impl From<Result<(), StepRefusal>> for Reply {
    ghost from_gives = { λ x r. r ≡ step_said x };

    fn from(step: Result<(), StepRefusal>) -> Reply {
        match step {
            Ok(()) => Reply::Made,
            Err(fault) => Reply::Refused(fault),
        }
    }
}

impl From<Result<bool, NoQuestion>> for Reply {
    ghost from_gives = { λ x r. r ≡ answer_said x };

    fn from(answer: Result<bool, NoQuestion>) -> Reply {
        match answer {
            Ok(truth) => Reply::Truth(truth),
            Err(fault) => Reply::NoQuestion(fault),
        }
    }
}

impl From<Option<usize>> for Reply {
    ghost from_gives = { λ x r. r ≡ count_said x };

    fn from(count: Option<usize>) -> Reply {
        count.map_or(Reply::Nothing, Reply::Count)
    }
}

impl From<Option<i32>> for Reply {
    ghost from_gives = { λ x r. r ≡ value_said x };

    fn from(value: Option<i32>) -> Reply {
        value.map_or(Reply::Nothing, Reply::Value)
    }
}

// The line for the reply, with no line feed.
impl fmt::Display for Reply {
    ghost output = { λ r. Some (reply_line r) };

    fn fmt<W: fmt::Write>(&self, f: &mut fmt::Formatter<W>) -> fmt::Result {
        match *self {
            Reply::Made => write!(f, "made"),
            Reply::Refused(fault) => {
                let (number, transition) = numbered(fault);
                write!(f, "refused {number} {transition}")
            }
            Reply::Truth(truth) => write!(f, "{truth}"),
            Reply::NoQuestion(NoQuestion { question }) => {
                write!(f, "refused {NO_QUESTION} {question}")
            }
            Reply::RefusedBy(number, named) => write!(f, "refused {number} {named}"),
            Reply::Count(n) => write!(f, "{n}"),
            Reply::Value(n) => write!(f, "{n}"),
            Reply::Nothing => write!(f, "nothing"),
            Reply::NotACall => write!(f, "not a call"),
            Reply::NoSheet(refusal) => {
                let refused = Refused::from(refusal);
                write!(f, "{refused}")
            }
        }
    }
}

// The line for the reply, as a text of its own.
pub fn reply_text(heap: Global, reply: Reply) -> Result<String, AllocError>
    ensures { IfOk result (λ t. string_bytes t ≡ reply_line reply) }
{
    format!(in heap; "{reply}")
}

// The number of the refusal of a step, and the transition that it names.
fn numbered(fault: StepRefusal) -> (u8, usize)
    ensures number { result.0 ≡ step_number fault }
    ensures transition { result.1 ≡ step_names fault }
{
    match fault {
        StepRefusal::NoTransition(t) => (8, t),
        StepRefusal::NoStep(t) => (9, t),
        StepRefusal::OtherMode(t) => (10, t),
        StepRefusal::NotConnected(t) => (11, t),
        StepRefusal::GuardFalse(t) => (12, t),
    }
}

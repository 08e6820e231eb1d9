// What a cut keeps and refuses, and the calls of a run.

ghost use Rattle.std.specs.Prelude.{◌≡◌};
ghost use Rattle.cutting.specs.CutSheet.{question_told};

use running::kinds::Step;
use sheet::sizes::MOST_QUESTIONS;

// A thing that a cut keeps or drops: an element or an event by its row number, or a mode by its component and number.
#[derive(Clone, Copy, PartialEq, Eq, Debug)]
pub enum Thing {
    Element(u8),
    Event(u8),
    Mode(u8, u8),
}

// A set of questions: question q is bit q.
pub type QuestionSet = u16;

// No cut, 14.
#[derive(Clone, Copy, PartialEq, Eq, Debug)]
pub enum NoCut {
    // No question is chosen.
    EmptySet,
    // The chosen question is missing or blank.
    NoQuestion(usize),
}

impl NoCut {
    // The question that is told; 16 for an empty set.
    pub fn question(self) -> usize
        ensures { result ≡ question_told self }
    {
        match self {
            NoCut::EmptySet => MOST_QUESTIONS as usize,
            NoCut::NoQuestion(q) => q,
        }
    }
}

// A call of a run: back to the start, a step, or the answer to a question.
#[derive(Clone, Copy)]
pub enum RunCall {
    Home,
    Step(Step),
    Answer(usize),
}

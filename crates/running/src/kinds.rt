// What is asked of a sheet that runs, and what it answers.

// A step is one transition alone, or a pair of a sender and a hearer. Transitions go by their row numbers.
#[derive(Clone, Copy, PartialEq, Eq, Debug)]
pub enum Step {
    Alone(usize),
    Pair(usize, usize),
}

// Why a step is not made, in the order of the numbers 8 to 12. Each names a transition; in a pair, `NoStep` and
// `NotConnected` name the sender.
#[derive(Clone, Copy, PartialEq, Eq, Debug)]
pub enum StepRefusal {
    // The transition is missing or blank.
    NoTransition(usize),
    // By its make this is no step: a transition alone has no event; in a pair the sender's event goes out, the hearer's
    // comes in, and their components differ.
    NoStep(usize),
    // The transition's component is in another mode than its from mode.
    OtherMode(usize),
    // No connection between the two events lists its owner's mode.
    NotConnected(usize),
    // The transition's guard is false.
    GuardFalse(usize),
}

// What a node gives: a value node a number, a condition node a truth.
#[derive(Clone, Copy, PartialEq, Eq, Debug)]
pub enum Worth {
    Number(i32),
    Truth(bool),
}

// The question is missing or blank: 13.
#[derive(Clone, Copy, PartialEq, Eq, Debug)]
pub struct NoQuestion {
    pub question: usize,
}

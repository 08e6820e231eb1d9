// What one line of a session asks of a rig.

// Transitions, components, questions, elements, sections, rows and places go by their numbers.
#[derive(Clone, Copy, PartialEq, Eq, Debug)]
pub enum Call {
    // A step by one transition.
    Alone(usize),
    // A step by a sender and a hearer.
    Pair(usize, usize),
    // Back to the start.
    Home,
    // The answer to a question.
    Answer(usize),
    // The mode of a component.
    Mode(usize),
    // The value of an element.
    Value(usize),
    // The number of rows of a section.
    Count(usize),
    // The byte of a section at a row and a place.
    Byte(usize, usize, usize),
}

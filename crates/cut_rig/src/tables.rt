// The tables of a cut.

use closing::marks::Marks;
use cutting::kinds::QuestionSet;
use sheet::sizes::{MOST_NODES, SECTIONS};

// A place for each row that a section can have; fixed, since a rig on another takes no memory of its own.
pub(crate) const ROWS: usize = MOST_NODES as usize;

// The set of questions, the marks of what is kept for it, and for each row of each section whether it stays.
#[derive(Drop)]
pub(crate) struct Tables {
    pub(crate) set: QuestionSet,
    pub(crate) marks: Marks,
    pub(crate) rows: [[bool; ROWS]; SECTIONS],
}

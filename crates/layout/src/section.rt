// The rows of a layout by the type of what they hold.

ghost use Rattle.std.specs.Prelude.{◌≡◌};
ghost use Rattle.layout.specs.Laid.{rows_of};
ghost use Rattle.sheet.specs.Lookup.{there};
ghost use Rattle.sheet.specs.Sections.{rows};

use crate::rows::Layout;
use sheet::decode::{SectionRow, row_at};
use sheet::rows::{
    Component, Connection, Element, Event, Flow, Node, Question, Setting, Transition,
};
use sheet::sizes::{
    COMPONENT_BYTES, CONNECTION_BYTES, ELEMENT_BYTES, EVENT_BYTES, FLOW_BYTES, NODE_BYTES,
    QUESTION_BYTES, SETTING_BYTES, TRANSITION_BYTES,
};

// A typed value of a row, with the section of a layout that its rows stand in.
pub trait InLayout<const N: usize>: SectionRow<N> {
    fn rows_in<'a>(sheet: &Layout<'a>) -> &'a [[u8; N]]
        ensures { result.now ≡ rows (rows_of sheet.now) Self.SectionRow.SECTION };
}

impl<'a> Layout<'a> {
    // What row i of a section holds; nothing where it is missing, blank or malformed.
    pub fn row<const N: usize, R: InLayout<N>>(&self, i: usize) -> Option<R>
        ensures { result ≡ there R.FromRow.entry (rows (rows_of self.now) R.SectionRow.SECTION) i }
    {
        row_at(R::rows_in(self), i)
    }
}

impl InLayout<COMPONENT_BYTES> for Component {
    fn rows_in<'a>(sheet: &Layout<'a>) -> &'a [[u8; COMPONENT_BYTES]] {
        sheet.components
    }
}

impl InLayout<ELEMENT_BYTES> for Element {
    fn rows_in<'a>(sheet: &Layout<'a>) -> &'a [[u8; ELEMENT_BYTES]] {
        sheet.elements
    }
}

impl InLayout<EVENT_BYTES> for Event {
    fn rows_in<'a>(sheet: &Layout<'a>) -> &'a [[u8; EVENT_BYTES]] {
        sheet.events
    }
}

impl InLayout<NODE_BYTES> for Node {
    fn rows_in<'a>(sheet: &Layout<'a>) -> &'a [[u8; NODE_BYTES]] {
        sheet.nodes
    }
}

impl InLayout<FLOW_BYTES> for Flow {
    fn rows_in<'a>(sheet: &Layout<'a>) -> &'a [[u8; FLOW_BYTES]] {
        sheet.flows
    }
}

impl InLayout<CONNECTION_BYTES> for Connection {
    fn rows_in<'a>(sheet: &Layout<'a>) -> &'a [[u8; CONNECTION_BYTES]] {
        sheet.connections
    }
}

impl InLayout<TRANSITION_BYTES> for Transition {
    fn rows_in<'a>(sheet: &Layout<'a>) -> &'a [[u8; TRANSITION_BYTES]] {
        sheet.transitions
    }
}

impl InLayout<SETTING_BYTES> for Setting {
    fn rows_in<'a>(sheet: &Layout<'a>) -> &'a [[u8; SETTING_BYTES]] {
        sheet.settings
    }
}

impl InLayout<QUESTION_BYTES> for Question {
    fn rows_in<'a>(sheet: &Layout<'a>) -> &'a [[u8; QUESTION_BYTES]] {
        sheet.questions
    }
}

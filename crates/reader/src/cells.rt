// The counts, bytes and typed rows of an accepted sheet.

ghost use Rattle.std.specs.Prelude.{◌≡◌, ℕ, [], slice_index_or};
ghost use Rattle.std.specs.List.{slice_get};
ghost use Rattle.layout.specs.Laid.{rows_of};
ghost use Rattle.sheet.specs.Cells.{count_of, byte_of};
ghost use Rattle.sheet.specs.Lookup.{there};
ghost use Rattle.sheet.specs.Sections.{rows};
ghost use Rattle.reader.specs.Means.{rows_held};

use crate::accepted::AcceptedSheet;
use layout::rows::Layout;
use layout::section::InLayout;
use sheet::sizes::{
    COMPONENTS, CONNECTIONS, ELEMENTS, EVENTS, FLOWS, NODES, QUESTIONS, SETTINGS, TRANSITIONS,
};

// One byte of a row, or nothing where there is none.
fn cell<const N: usize>(rows: &[[u8; N]], row: usize, place: usize) -> Option<u8>
    ensures { result ≡ slice_get (slice_index_or rows.now row []) place }
{
    rows.get(row)?.get(place).copied()
}

impl AcceptedSheet {
    // The sheet as the sections that it holds.
    fn layout(&self) -> Layout<'_>
        ensures { rows_of result ≡ rows_held self.now }
    {
        Layout {
            components: &self.components,
            elements: &self.elements,
            events: &self.events,
            nodes: &self.nodes,
            flows: &self.flows,
            connections: &self.connections,
            transitions: &self.transitions,
            settings: &self.settings,
            questions: &self.questions,
        }
    }

    // What a row holds, or nothing where there is none or it is blank.
    pub fn row<const N: usize, R: InLayout<N>>(&self, row: usize) -> Option<R>
        ensures { result ≡ there R.FromRow.entry (rows (rows_held self.now) R.SectionRow.SECTION) row }
    {
        self.layout().row(row)
    }

    // The number of rows of a section, or nothing where there is no such section. Sections go by number here and below: any
    // number may come. By cases twice, since the slices have nine types.
    pub fn count(&self, section: usize) -> Option<usize>
        ensures { result ≡ count_of (rows_held self.now) section }
    {
        match section {
            COMPONENTS => Some(self.components.len()),
            ELEMENTS => Some(self.elements.len()),
            EVENTS => Some(self.events.len()),
            NODES => Some(self.nodes.len()),
            FLOWS => Some(self.flows.len()),
            CONNECTIONS => Some(self.connections.len()),
            TRANSITIONS => Some(self.transitions.len()),
            SETTINGS => Some(self.settings.len()),
            QUESTIONS => Some(self.questions.len()),
            _ => None,
        }
    }

    // One byte of a row, or nothing where there is none.
    pub fn byte(&self, section: usize, row: usize, place: usize) -> Option<u8>
        ensures { result ≡ byte_of (rows_held self.now) section row place }
    {
        match section {
            COMPONENTS => cell(&self.components, row, place),
            ELEMENTS => cell(&self.elements, row, place),
            EVENTS => cell(&self.events, row, place),
            NODES => cell(&self.nodes, row, place),
            FLOWS => cell(&self.flows, row, place),
            CONNECTIONS => cell(&self.connections, row, place),
            TRANSITIONS => cell(&self.transitions, row, place),
            SETTINGS => cell(&self.settings, row, place),
            QUESTIONS => cell(&self.questions, row, place),
            _ => None,
        }
    }
}

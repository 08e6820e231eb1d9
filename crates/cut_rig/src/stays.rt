// Which rows stay.

ghost use Rattle.std.specs.Prelude.{◌≡◌, ℕ, ◌<◌, false, [], Some, MatchResult, slice_index_or};
ghost use Rattle.closing.specs.Marks.{kept_of, KeepsFor};
ghost use Rattle.cut_rig.specs.Tables.{kept_in, stays_in, TablesFit};
ghost use Rattle.cutting.specs.CutCells.{row_stays, blank_byte};
ghost use Rattle.cutting.specs.CutSheet.{keeps_events, keeps_setting, shown_mode, cut_fault};
ghost use Rattle.cutting.specs.Kept.{keeps_from, chosen_in};
ghost use Rattle.sheet.specs.Lookup.{is, transition_at, connection_at, setting_at};

use crate::tables::{ROWS, Tables};
use closing::close::{is_chosen, kept_things};
use closing::marks::Marks;
use cutting::kinds::{NoCut, QuestionSet, Thing};
use sheet::rows::{Connection, Element, Event, Flow, Node, Question, Setting, Transition};
use sheet::sizes::{
    CONNECTIONS, ELEMENTS, EVENTS, FLOWS, NODES, QUESTIONS, SECTIONS, SETTINGS, TRANSITIONS,
};
use view::typed::row;
use view::view::View;

// What decides which rows stay: the rows, the marks of what is kept of them, and the set of questions.
#[derive(Drop)]
struct Keeping<'a, V: View> {
    view: &'a V,
    marks: &'a Marks,
    set: QuestionSet,
    ghost keeps: { KeepsFor (V.View.rows view.now) set marks.now },
}

impl<'a, V: View> Keeping<'a, V> {
    // Whether transition t is there and its from mode is kept.
    fn transition_stays(&self, t: usize) -> bool
        ensures { result ≡ is (transition_at (V.View.rows self.now.view.now) t) (keeps_from (kept_of self.now.marks.now)) }
    {
        row(self.view, t).is_some_and(|x: Transition| self
            .marks
            .keeps(Thing::Mode(x.component, x.from)))
    }

    // Whether connection i is there and both its events are kept.
    fn connection_stays(&self, i: usize) -> bool
        ensures { result ≡ is (connection_at (V.View.rows self.now.view.now) i) (keeps_events (kept_of self.now.marks.now)) }
    {
        row(self.view, i).is_some_and(|x: Connection| {
            self.marks.keeps(Thing::Event(x.out_event))
                && self.marks.keeps(Thing::Event(x.in_event))
        })
    }

    // Whether setting i is there, its transition stays and its element is kept. With `is_some_and`, whose closure would call
    // another method of `self`, the result of that call stayed unknown.
    fn setting_stays(&self, i: usize) -> bool
        ensures { result ≡ is (setting_at (V.View.rows self.now.view.now) i) (keeps_setting (kept_of self.now.marks.now) (V.View.rows self.now.view.now)) }
    {
        let Some(x) = row::<_, Setting, _>(self.view, i) else {
            return false;
        };
        self.transition_stays(usize::from(x.transition))
            && self.marks.keeps(Thing::Element(x.element))
    }

    // Whether a row of a section other than the components stays. By cases, since the rows of each section have a type of
    // their own.
    fn stays(&self, section: usize, number: u8) -> bool
        ensures { result ≡ row_stays (kept_of self.now.marks.now) (chosen_in self.now.set) (V.View.rows self.now.view.now) section number }
    {
        let i = usize::from(number);
        match section {
            ELEMENTS => {
                row::<_, Element, _>(self.view, i).is_some()
                    && self.marks.keeps(Thing::Element(number))
            }
            EVENTS => {
                row::<_, Event, _>(self.view, i).is_some() && self.marks.keeps(Thing::Event(number))
            }
            NODES => row::<_, Node, _>(self.view, i).is_some() && self.marks.keeps_node(i),
            FLOWS => {
                row(self.view, i).is_some_and(|x: Flow| self.marks.keeps(Thing::Element(x.port)))
            }
            CONNECTIONS => self.connection_stays(i),
            TRANSITIONS => self.transition_stays(i),
            SETTINGS => self.setting_stays(i),
            QUESTIONS => { row::<_, Question, _>(self.view, i).is_some() && is_chosen(self.set, i) }
            _ => false,
        }
    }

    // For each row of a section whether it stays.
    fn staying_of(&self, section: usize) -> [bool; ROWS]
        ensures { (i : ℕ) → i < 128 → slice_index_or result i false ≡ row_stays (kept_of self.now.marks.now) (chosen_in self.now.set) (V.View.rows self.now.view.now) section i }
    {
        let mut rows = [false; ROWS];
        for (row, stay) in rows.iter_mut().enumerate() {
            *stay = self.stays(section, row as u8);
        }
        rows
    }

    // For each row of each section whether it stays.
    fn staying_rows(&self) -> [[bool; ROWS]; SECTIONS]
        ensures { (section i : ℕ) → section < 9 → i < 128 → slice_index_or (slice_index_or result section []) i false ≡ row_stays (kept_of self.now.marks.now) (chosen_in self.now.set) (V.View.rows self.now.view.now) section i }
    {
        let mut sections = [[false; ROWS]; SECTIONS];
        for (section, rows) in sections.iter_mut().enumerate() {
            *rows = self.staying_of(section);
        }
        sections
    }
}

impl Tables {
    // The tables of a cut for a set of questions, or why there is no such cut.
    pub(crate) fn new<V: View>(view: &V, set: QuestionSet) -> Result<Tables, NoCut>
        ensures { MatchResult result (λ t. TablesFit (V.View.rows view.now) t × (t.set ≡ set)) (λ f. cut_fault (V.View.rows view.now) set ≡ Some f) }
    {
        let marks = kept_things(view, set)?;
        let keeping = Keeping {
            view,
            marks: &marks,
            set,
        };
        let rows = keeping.staying_rows();
        Ok(Tables { set, marks, rows })
    }

    // Whether a row stays; false where the table has no place for it.
    pub(crate) fn row_stays(&self, section: usize, row: usize) -> bool
        ensures { result ≡ stays_in self.now section row }
    {
        self.rows.get(section).and_then(|rows| rows.get(row)) == Some(&true)
    }

    // A mode of a component as the cut shows it.
    pub(crate) fn shown_mode(&self, component: u8, mode: u8) -> u8
        ensures { result ≡ shown_mode (kept_in self.now) component mode }
    {
        if self.marks.keeps(Thing::Mode(component, mode)) {
            mode
        } else {
            0
        }
    }
}

// A byte of the blank row of a section.
pub(crate) fn byte_of_blank(section: usize, place: usize) -> u8
    ensures { result ≡ blank_byte section place }
{
    if place == 0 && (section == SETTINGS || section == QUESTIONS) {
        255
    } else {
        0
    }
}

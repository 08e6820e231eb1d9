// Rows as their bytes, read as typed values.

ghost use Rattle.std.specs.Prelude.{◌≡◌, ℕ, ◌+◌, ◌*◌, ◌%◌, ◌<◌, ◌&&◌, nat_le, List, Option, Result, slice_index_or};
ghost use Rattle.sheet.specs.declared.rows.Malformed.{Malformed};
ghost use Rattle.sheet.specs.Lookup.{there};
ghost use Rattle.sheet.specs.Sections.{shape, shapes};
ghost use Rattle.sheet.specs.Typed.{number, mode_set, zeros, listing, component_entry, element_entry, event_entry, node_entry, flow_entry, connection_entry, transition_entry, setting_entry, question_entry};
ghost use Rattle.std.proofs.Common.{lit<, refl};

use crate::rows::{
    Component, Connection, Direction, Element, Event, Flow, Kind, Malformed, ModeSet, Node,
    Question, Setting, Transition,
};
use crate::sizes::{
    COMPONENT_BYTES, COMPONENTS, CONNECTION_BYTES, CONNECTIONS, ELEMENT_BYTES, ELEMENTS,
    EVENT_BYTES, EVENTS, FLOW_BYTES, FLOWS, MOST_COMPONENTS, MOST_CONNECTIONS, MOST_ELEMENTS,
    MOST_EVENTS, MOST_FLOWS, MOST_NODES, MOST_QUESTIONS, MOST_SETTINGS, MOST_TRANSITIONS,
    NODE_BYTES, NODES, QUESTION_BYTES, QUESTIONS, SETTING_BYTES, SETTINGS, TRANSITION_BYTES,
    TRANSITIONS,
};

// A number of two bytes in two's complement.
fn number_of(low: u8, high: u8) -> i32
    ensures { result ≡ number low high }
{
    i32::from(i16::from_le_bytes([low, high]))
}

// A mode set of two bytes.
fn mode_set_of(low: u8, high: u8) -> ModeSet
    ensures { result ≡ mode_set low high }
{
    u16::from_le_bytes([low, high])
}

// Whether a mode set may stand in a row that is not blank: it lists a mode, and not mode 0.
fn lists_modes(set: ModeSet) -> bool
    ensures { result ≡ listing set }
{
    set != 0 && set % 2 == 0
}

// A typed value of a row of N bytes.
pub trait FromRow<const N: usize>: Copy {
    // What the bytes of a row say.
    ghost entry: { List ℕ → Result (Option Self) Malformed };

    // What a row holds; nothing where it is blank.
    fn from_row(row: &[u8; N]) -> Result<Option<Self>, Malformed>
        ensures { result ≡ entry row.now };
}

// A typed value of a row that stands in a section of the sheet's table.
pub trait SectionRow<const N: usize>: FromRow<N> {
    // The section that its rows stand in: clauses read the ghost member, code the constant.
    const SECTION: usize;

    ghost SECTION: { ℕ };
    // The least and the most rows of that section.
    const LEAST: u8;

    const MOST: u8;

    ghost LEAST: { ℕ };

    ghost MOST: { ℕ };

    // Whether the section may have that many rows.
    fn allows(count: u8) -> bool
        ensures { result ≡ (nat_le LEAST count && nat_le count MOST) }
    {
        Self::LEAST <= count && count <= Self::MOST
    }

    // Laws, since they stand below a function: whoever implements the trait may show them by whatever is known of a type.
    ghost shaped: { slice_index_or shapes SECTION (shape 0 0 0) ≡ shape N LEAST MOST };

    ghost some: { 0 < N };
}

// What row i holds; nothing where it is missing, blank or malformed.
pub fn row_at<const N: usize, R: FromRow<N>>(rows: &[[u8; N]], i: usize) -> Option<R>
    ensures { result ≡ there R.FromRow.entry rows.now i }
{
    R::from_row(rows.get(i)?).unwrap_or(None)
}

impl FromRow<COMPONENT_BYTES> for Component {
    ghost entry = { component_entry };

    fn from_row(row: &[u8; COMPONENT_BYTES]) -> Result<Option<Component>, Malformed> {
        let [modes, start] = *row;
        if 1 <= modes && modes <= 15 && start <= modes {
            Ok(Some(Component { modes, start }))
        } else {
            Err(Malformed)
        }
    }
}

impl SectionRow<COMPONENT_BYTES> for Component {
    const SECTION: usize = COMPONENTS;

    const LEAST: u8 = 1;

    const MOST: u8 = MOST_COMPONENTS;

    ghost SECTION = { 0 };

    ghost LEAST = { 1 };

    ghost MOST = { 16 };

    ghost shaped = { refl };

    ghost some = { lit< tt };
}

impl FromRow<ELEMENT_BYTES> for Element {
    ghost entry = { element_entry };

    fn from_row(row: &[u8; ELEMENT_BYTES]) -> Result<Option<Element>, Malformed> {
        let [kind, component, l0, l1, h0, h1, r0, r1] = *row;
        if let [0, 0, 0, 0, 0, 0, 0, 0] = *row {
            return Ok(None);
        }
        let kind = Kind::try_from(kind)?;
        let lowest = number_of(l0, l1);
        let highest = number_of(h0, h1);
        let rest = number_of(r0, r1);
        if lowest <= rest && rest <= highest {
            Ok(Some(Element {
                kind,
                component,
                lowest,
                highest,
                rest,
            }))
        } else {
            Err(Malformed)
        }
    }
}

impl SectionRow<ELEMENT_BYTES> for Element {
    const SECTION: usize = ELEMENTS;

    const LEAST: u8 = 0;

    const MOST: u8 = MOST_ELEMENTS;

    ghost SECTION = { 1 };

    ghost LEAST = { 0 };

    ghost MOST = { 64 };

    ghost shaped = { refl };

    ghost some = { lit< tt };
}

impl FromRow<EVENT_BYTES> for Event {
    ghost entry = { event_entry };

    fn from_row(row: &[u8; EVENT_BYTES]) -> Result<Option<Event>, Malformed> {
        if let [0, 0] = *row {
            return Ok(None);
        }
        let [direction, component] = *row;
        let direction = Direction::try_from(direction)?;
        Ok(Some(Event {
            direction,
            component,
        }))
    }
}

impl SectionRow<EVENT_BYTES> for Event {
    const SECTION: usize = EVENTS;

    const LEAST: u8 = 0;

    const MOST: u8 = MOST_EVENTS;

    ghost SECTION = { 2 };

    ghost LEAST = { 0 };

    ghost MOST = { 64 };

    ghost shaped = { refl };

    ghost some = { lit< tt };
}

impl FromRow<NODE_BYTES> for Node {
    ghost entry = { node_entry };

    fn from_row(row: &[u8; NODE_BYTES]) -> Result<Option<Node>, Malformed> {
        let [kind, a, b, c] = *row;
        // The kind and the bytes that must be 0 are one table: an enum of kinds would be matched once more.
        let node = match kind {
            0 if a == 0 && b == 0 && c == 0 => return Ok(None),
            1 if c == 0 => Node::Constant(number_of(a, b)),
            2 if b == 0 && c == 0 => Node::Element(a),
            3 if c == 0 => Node::Sum(a, b),
            4 if c == 0 => Node::Difference(a, b),
            16 if a == 0 && b == 0 && c == 0 => Node::True,
            17 if c == 0 => Node::Equal(a, b),
            18 if c == 0 => Node::Less(a, b),
            19 if b == 0 && c == 0 => Node::Not(a),
            20 if c == 0 => Node::And(a, b),
            21 if b >= 1 && c == 0 => Node::InMode(a, b),
            _ => return Err(Malformed),
        };
        Ok(Some(node))
    }
}

impl SectionRow<NODE_BYTES> for Node {
    const SECTION: usize = NODES;

    const LEAST: u8 = 0;

    const MOST: u8 = MOST_NODES;

    ghost SECTION = { 3 };

    ghost LEAST = { 0 };

    ghost MOST = { 128 };

    ghost shaped = { refl };

    ghost some = { lit< tt };
}

impl FromRow<FLOW_BYTES> for Flow {
    ghost entry = { flow_entry };

    fn from_row(row: &[u8; FLOW_BYTES]) -> Result<Option<Flow>, Malformed> {
        if let [0, 0, 0, 0] = *row {
            return Ok(None);
        }
        let [port, node, m0, m1] = *row;
        let modes = mode_set_of(m0, m1);
        if lists_modes(modes) {
            Ok(Some(Flow { port, node, modes }))
        } else {
            Err(Malformed)
        }
    }
}

impl SectionRow<FLOW_BYTES> for Flow {
    const SECTION: usize = FLOWS;

    const LEAST: u8 = 0;

    const MOST: u8 = MOST_FLOWS;

    ghost SECTION = { 4 };

    ghost LEAST = { 0 };

    ghost MOST = { 64 };

    ghost shaped = { refl };

    ghost some = { lit< tt };
}

impl FromRow<CONNECTION_BYTES> for Connection {
    ghost entry = { connection_entry };

    fn from_row(row: &[u8; CONNECTION_BYTES]) -> Result<Option<Connection>, Malformed> {
        if let [0, 0, 0, 0, 0] = *row {
            return Ok(None);
        }
        let [out_event, in_event, owner, m0, m1] = *row;
        let modes = mode_set_of(m0, m1);
        if lists_modes(modes) {
            Ok(Some(Connection {
                out_event,
                in_event,
                owner,
                modes,
            }))
        } else {
            Err(Malformed)
        }
    }
}

impl SectionRow<CONNECTION_BYTES> for Connection {
    const SECTION: usize = CONNECTIONS;

    const LEAST: u8 = 0;

    const MOST: u8 = MOST_CONNECTIONS;

    ghost SECTION = { 5 };

    ghost LEAST = { 0 };

    ghost MOST = { 64 };

    ghost shaped = { refl };

    ghost some = { lit< tt };
}

impl FromRow<TRANSITION_BYTES> for Transition {
    ghost entry = { transition_entry };

    fn from_row(row: &[u8; TRANSITION_BYTES]) -> Result<Option<Transition>, Malformed> {
        if let [0, 0, 0, 0, 0] = *row {
            return Ok(None);
        }
        let [component, from, to, event, guard] = *row;
        if from == 0 {
            return Err(Malformed);
        }
        let event = if event == 255 { None } else { Some(event) };
        Ok(Some(Transition {
            component,
            from,
            to,
            event,
            guard,
        }))
    }
}

impl SectionRow<TRANSITION_BYTES> for Transition {
    const SECTION: usize = TRANSITIONS;

    const LEAST: u8 = 0;

    const MOST: u8 = MOST_TRANSITIONS;

    ghost SECTION = { 6 };

    ghost LEAST = { 0 };

    ghost MOST = { 64 };

    ghost shaped = { refl };

    ghost some = { lit< tt };
}

impl FromRow<SETTING_BYTES> for Setting {
    ghost entry = { setting_entry };

    fn from_row(row: &[u8; SETTING_BYTES]) -> Result<Option<Setting>, Malformed> {
        match *row {
            [255, 0, 0] => Ok(None),
            [transition, element, node] => Ok(Some(Setting {
                transition,
                element,
                node,
            })),
        }
    }
}

impl SectionRow<SETTING_BYTES> for Setting {
    const SECTION: usize = SETTINGS;

    const LEAST: u8 = 0;

    const MOST: u8 = MOST_SETTINGS;

    ghost SECTION = { 7 };

    ghost LEAST = { 0 };

    ghost MOST = { 128 };

    ghost shaped = { refl };

    ghost some = { lit< tt };
}

impl FromRow<QUESTION_BYTES> for Question {
    ghost entry = { question_entry };

    fn from_row(row: &[u8; QUESTION_BYTES]) -> Result<Option<Question>, Malformed> {
        match *row {
            [255] => Ok(None),
            [node] => Ok(Some(Question { node })),
        }
    }
}

impl SectionRow<QUESTION_BYTES> for Question {
    const SECTION: usize = QUESTIONS;

    const LEAST: u8 = 0;

    const MOST: u8 = MOST_QUESTIONS;

    ghost SECTION = { 8 };

    ghost LEAST = { 0 };

    ghost MOST = { 16 };

    ghost shaped = { refl };

    ghost some = { lit< tt };
}

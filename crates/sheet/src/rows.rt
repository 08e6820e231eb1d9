// The rows of a sheet as typed values.
//
// A sheet describes a part of an instrument in nine sections of rows. A row is some bytes; what they say is one of the
// values below. Row numbers and modes are kept as the bytes have them: whether they name anything is another question.

// The bytes are no row of their section, whatever the other rows are.
#[derive(Clone, Copy, PartialEq, Eq, Debug)]
pub struct Malformed;

// Modes of a component: mode m is bit m.
pub type ModeSet = u16;

// A component has the modes 1 to `modes`, and mode 0 for elsewhere.
#[derive(Clone, Copy, PartialEq, Eq, Debug)]
pub struct Component {
    pub modes: u8,
    pub start: u8,
}

// A held element keeps its value until a setting changes it; a port has its value from a flow.
#[derive(Clone, Copy, PartialEq, Eq, Debug)]
pub enum Kind {
    Held,
    Port,
}

// A data element, with the range of its values and the value that it rests at.
#[derive(Clone, Copy, PartialEq, Eq, Debug)]
pub struct Element {
    pub kind: Kind,
    pub component: u8,
    pub lowest: i32,
    pub highest: i32,
    pub rest: i32,
}

// An event goes out of its component or comes in.
#[derive(Clone, Copy, PartialEq, Eq, Debug)]
pub enum Direction {
    Out,
    In,
}

#[derive(Clone, Copy, PartialEq, Eq, Debug)]
pub struct Event {
    pub direction: Direction,
    pub component: u8,
}

// A node is a part of a formula. The first four give a value, the others a truth.
#[derive(Clone, Copy, PartialEq, Eq, Debug)]
pub enum Node {
    Constant(i32),
    Element(u8),
    Sum(u8, u8),
    Difference(u8, u8),
    True,
    Equal(u8, u8),
    Less(u8, u8),
    Not(u8),
    And(u8, u8),
    InMode(u8, u8),
}

// A flow gives a port the value of a node while the port's component is in a listed mode.
#[derive(Clone, Copy, PartialEq, Eq, Debug)]
pub struct Flow {
    pub port: u8,
    pub node: u8,
    pub modes: ModeSet,
}

// A connection carries an out event to an in event while its owner is in a listed mode.
#[derive(Clone, Copy, PartialEq, Eq, Debug)]
pub struct Connection {
    pub out_event: u8,
    pub in_event: u8,
    pub owner: u8,
    pub modes: ModeSet,
}

// A transition takes its component from one mode to another, with an event or with none, where its guard holds.
#[derive(Clone, Copy, PartialEq, Eq, Debug)]
pub struct Transition {
    pub component: u8,
    pub from: u8,
    pub to: u8,
    pub event: Option<u8>,
    pub guard: u8,
}

// A setting gives a held element the value of a node when its transition is taken.
#[derive(Clone, Copy, PartialEq, Eq, Debug)]
pub struct Setting {
    pub transition: u8,
    pub element: u8,
    pub node: u8,
}

// A question asks for the truth of a node.
#[derive(Clone, Copy, PartialEq, Eq, Debug)]
pub struct Question {
    pub node: u8,
}

// What a node may rest on: a node, an element, an element of that number or a higher one, a mode of a component, any mode.
#[derive(Clone, Copy, PartialEq, Eq, Debug)]
pub enum Target {
    Node(u8),
    Element(u8),
    ElementFrom(u8),
    Mode(u8, u8),
    AnyMode,
}

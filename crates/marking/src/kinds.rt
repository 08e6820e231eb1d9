// Items that are marked, and the rules by which marks follow from marks.

use cutting::kinds::Thing;
use sheet::rows::ModeSet;

// What is marked on the way to the kept things: a thing, or a node on which something that remains rests.
#[derive(Clone, Copy)]
pub enum Item {
    Thing(Thing),
    Node(usize),
}

// At most three items.
pub type Items = [Option<Item>; 3];

// Some modes of a component.
#[derive(Clone, Copy)]
pub struct OwnedModes {
    pub component: u8,
    pub modes: ModeSet,
}

// If one of the causes is marked, so are all effects and modes.
#[derive(Clone, Copy)]
pub struct Rule {
    pub causes: Items,
    pub effects: Items,
    pub modes: Option<OwnedModes>,
}

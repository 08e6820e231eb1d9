// Marks of things and nodes.

ghost use Rattle.std.specs.Prelude.{◌≡◌, false};
ghost use Rattle.marking.specs.Items.{place, marked, with_mark};
ghost use Rattle.marking.specs.Rules.{caused, with_modes, with_items, applied, mode_numbers};
ghost use Rattle.marking.specs.Passes.{unmarked as unmarked_in};
ghost use Rattle.closing.specs.Marks.{kept_of, node_kept};

use cutting::kinds::Thing;
use marking::kinds::{Item, Items, OwnedModes, Rule};
use sheet::rows::ModeSet;
use sheet::sizes::{MOST_COMPONENTS, MOST_ELEMENTS, MOST_EVENTS, MOST_NODES};
use view::values::lists_mode;

// The table has a place for each element, then for each event, for each mode of each component, and for each node. Its size
// is fixed, since a cut takes no memory but that of its rig.
const FIRST_EVENT: usize = MOST_ELEMENTS as usize;

const FIRST_MODE: usize = FIRST_EVENT + MOST_EVENTS as usize;

const FIRST_NODE: usize = FIRST_MODE + MODE_NUMBERS as usize * MOST_COMPONENTS as usize;
// The number of places.
const PLACES: usize = FIRST_NODE + MOST_NODES as usize;
// The modes of a component, 0 included.
const MODE_NUMBERS: u8 = 16;

// What is kept: things, and the nodes on which something that remains rests.
#[derive(Drop)]
pub struct Marks {
    table: [bool; PLACES],
}

fn thing_place(thing: Thing) -> Option<usize>
    ensures { result ≡ place (Item.Thing thing) }
{
    match thing {
        Thing::Element(e) => (e < MOST_ELEMENTS).then_some(e as usize),
        Thing::Event(v) => (v < MOST_EVENTS).then_some(FIRST_EVENT + v as usize),
        Thing::Mode(c, m) => (c < MOST_COMPONENTS && (1..MODE_NUMBERS).contains(&m)).then_some(
            FIRST_MODE + (MODE_NUMBERS as usize * c as usize + m as usize),
        ),
    }
}

// The place of an item in the table, if it has one.
fn place_of(item: Item) -> Option<usize>
    ensures { result ≡ place item }
{
    match item {
        Item::Thing(x) => thing_place(x),
        Item::Node(n) => (n < MOST_NODES as usize).then(|| FIRST_NODE + n),
    }
}

impl Marks {
    // Whether the thing is kept.
    pub fn keeps(&self, thing: Thing) -> bool
        ensures { result ≡ kept_of self.now thing }
    {
        self.has(Item::Thing(thing))
    }

    // Whether something that remains rests on the node.
    pub fn keeps_node(&self, n: usize) -> bool
        ensures { result ≡ node_kept self.now n }
    {
        self.has(Item::Node(n))
    }

    // Nothing is marked yet.
    pub(crate) fn none() -> Marks
        ensures { (x : Item) → marked result.table x ≡ false }
    {
        Marks {
            table: [false; PLACES],
        }
    }

    pub(crate) fn has(&self, item: Item) -> bool
        ensures { result ≡ marked self.now.table item }
    {
        place_of(item).is_some_and(|p| self.table[p])
    }

    pub(crate) fn mark(&mut self, item: Item)
        ensures { self.new.table ≡ with_mark self.old.table item }
    {
        if let Some(p) = place_of(item) {
            self.table[p] = true;
        }
    }

    fn has_cause(&self, rule: Rule) -> bool
        ensures { result ≡ caused (marked self.now.table) rule }
    {
        rule.causes.iter().any(|x| x.is_some_and(|x| self.has(x)))
    }

    fn mark_items(&mut self, items: Items)
        ensures { self.new.table ≡ with_items self.old.table items }
    {
        for item in items {
            if let Some(x) = item {
                self.mark(x);
            }
        }
    }

    // Marks the modes of a component that are listed.
    fn mark_modes(&mut self, owned: OwnedModes)
        ensures { self.new.table ≡ with_modes self.old.table owned.component owned.modes mode_numbers }
    {
        for m in 0..MODE_NUMBERS {
            if lists_mode(owned.modes, m) {
                self.mark(Item::Thing(Thing::Mode(owned.component, m)));
            }
        }
    }

    // Marks the effects of a rule, if a cause of it is marked.
    pub(crate) fn apply(&mut self, rule: Rule)
        ensures { self.new.table ≡ applied self.old.table rule }
    {
        if self.has_cause(rule) {
            self.mark_items(rule.effects);
            if let Some(owned) = rule.modes {
                self.mark_modes(owned);
            }
        }
    }

    // How many places are not marked.
    pub(crate) fn unmarked(&self) -> usize
        ensures { result ≡ unmarked_in self.now.table }
    {
        self.table.iter().filter(|m| !**m).count()
    }
}

// The rules of each section's rows: what a row names is there and fits, it does not clash with an earlier row, and it
// rests on nothing forbidden.

ghost use Rattle.std.specs.Prelude.{◌≡◌, ℕ, Bool, List, Option};
ghost use Rattle.layout.specs.Laid.{rows_of};
ghost use Rattle.rules.specs.Walk.{broken, by_reason, by_rule};
ghost use Rattle.sheet.specs.Lookup.{there, is};
ghost use Rattle.sheet.specs.Sections.{rows as rows_in_section};
ghost use Rattle.sheet.specs.Rules.{Checks, lower_value, lower_condition, node_names, flow_names, leads, event_of, settable, flows_clash, settings_clash, clear_of_earlier, component_checks, element_checks, event_checks, node_checks, flow_checks, connection_checks, transition_checks, setting_checks, question_checks};

use crate::names::{has_component, has_mode, has_modes, is_condition_node, is_value_node};
use crate::resting::rests_on;
use layout::rows::Layout;
use layout::section::InLayout;
use sheet::decode::FromRow;
use sheet::refusal::Reason;
use sheet::rows::{
    Component, Connection, Direction, Element, Event, Flow, Kind, Node, Question, Setting, Target,
    Transition,
};

// What a row holds, and the rules that are tried of it.
pub(crate) trait Tried: Copy {
    // The three tests of row i of its section.
    ghost checks: { List (List (List ℕ)) → ℕ → Self → Checks };

    // The first rule that is broken by row i of its section, which holds this.
    fn try_rules(self, sheet: &Layout, i: usize) -> Result<(), Reason>
        ensures { result ≡ by_reason (broken (checks (rows_of sheet.now) i self)) };
}

// Rows of which two can clash.
pub(crate) trait Clashing: Copy {
    ghost clash: { Self → Self → Bool };

    fn clashes(self, later: Self) -> bool
        ensures { result ≡ clash self later };
}

impl Clashing for Flow {
    ghost clash = { flows_clash };

    fn clashes(self, later: Flow) -> bool {
        self.port == later.port && self.modes & later.modes != 0
    }
}

impl Clashing for Setting {
    ghost clash = { settings_clash };

    fn clashes(self, later: Setting) -> bool {
        self.transition == later.transition && self.element == later.element
    }
}

// Refuses by the reason unless the rule is kept.
fn require(kept: bool, reason: Reason) -> Result<(), Reason>
    ensures { result ≡ by_rule kept reason }
{
    if kept { Ok(()) } else { Err(reason) }
}

// Whether row j clashes with x.
fn clashes_with<const N: usize, R: InLayout<N> + Clashing>(sheet: &Layout, j: usize, x: R) -> bool
    ensures { result ≡ is (there R.FromRow.entry (rows_in_section (rows_of sheet.now) R.SectionRow.SECTION) j) (λ y. R.Clashing.clash y x) }
{
    let Some(y) = sheet.row::<N, R>(j) else {
        return false;
    };
    y.clashes(x)
}

// Whether row i, which holds x, clashes with no earlier row. `any` told nothing of a closure that holds a value of a type
// parameter.
fn is_clear_of_earlier<const N: usize, R: InLayout<N> + Clashing>(
    sheet: &Layout,
    i: usize,
    x: R,
) -> bool
    ensures { result ≡ clear_of_earlier R.FromRow.entry R.Clashing.clash (rows_in_section (rows_of sheet.now) R.SectionRow.SECTION) i x }
{
    for j in 0..i {
        if clashes_with(sheet, j, x) {
            return false;
        }
    }
    true
}

impl Tried for Component {
    ghost checks = { component_checks };

    fn try_rules(self, _sheet: &Layout, _i: usize) -> Result<(), Reason> {
        Ok(())
    }
}

impl Tried for Element {
    ghost checks = { element_checks };

    fn try_rules(self, sheet: &Layout, _i: usize) -> Result<(), Reason> {
        require(
            has_component(sheet, self.component),
            Reason::WrongByReference,
        )
    }
}

impl Tried for Event {
    ghost checks = { event_checks };

    fn try_rules(self, sheet: &Layout, _i: usize) -> Result<(), Reason> {
        require(
            has_component(sheet, self.component),
            Reason::WrongByReference,
        )
    }
}

// Whether node a is a value node with a lower number than i. Beside the next one by name: one function for both would take
// the test of the node at each call.
fn is_lower_value(sheet: &Layout, i: usize, a: u8) -> bool
    ensures { result ≡ lower_value (rows_of sheet.now) i a }
{
    usize::from(a) < i && is_value_node(sheet, a)
}

// Whether node a is a condition node with a lower number than i.
fn is_lower_condition(sheet: &Layout, i: usize, a: u8) -> bool
    ensures { result ≡ lower_condition (rows_of sheet.now) i a }
{
    usize::from(a) < i && is_condition_node(sheet, a)
}

// Whether what node i names is there and fits.
fn node_names_right(sheet: &Layout, i: usize, node: Node) -> bool
    ensures { result ≡ node_names (rows_of sheet.now) i node }
{
    match node {
        Node::Constant(_) | Node::True => true,
        Node::Element(e) => sheet.row::<_, Element>(usize::from(e)).is_some(),
        Node::Sum(a, b) | Node::Difference(a, b) | Node::Equal(a, b) | Node::Less(a, b) =>
            is_lower_value(sheet, i, a) && is_lower_value(sheet, i, b),
        Node::Not(a) => is_lower_condition(sheet, i, a),
        Node::And(a, b) => is_lower_condition(sheet, i, a) && is_lower_condition(sheet, i, b),
        Node::InMode(c, m) => has_mode(sheet, c, m),
    }
}

impl Tried for Node {
    ghost checks = { node_checks };

    fn try_rules(self, sheet: &Layout, i: usize) -> Result<(), Reason> {
        require(node_names_right(sheet, i, self), Reason::WrongByReference)
    }
}

// Whether the flow leads from a value node to a port, in modes of the port's component.
fn flow_names_right(sheet: &Layout, flow: Flow) -> bool
    ensures { result ≡ flow_names (rows_of sheet.now) flow }
{
    let Some(port) = sheet.row::<_, Element>(usize::from(flow.port)) else {
        return false;
    };
    port.kind == Kind::Port
        && has_modes(sheet, port.component, flow.modes)
        && is_value_node(sheet, flow.node)
}

impl Tried for Flow {
    ghost checks = { flow_checks };

    fn try_rules(self, sheet: &Layout, i: usize) -> Result<(), Reason> {
        require(flow_names_right(sheet, self), Reason::WrongByReference)?;
        require(is_clear_of_earlier(sheet, i, self), Reason::Clash)?;
        require(
            !rests_on(sheet, Target::ElementFrom(self.port), self.node),
            Reason::ForbiddenResting,
        )
    }
}

// Whether the events are an out event and an in event of different components.
fn are_connected(out_event: Option<Event>, in_event: Option<Event>) -> bool
    ensures { result ≡ leads out_event in_event }
{
    let (Some(x), Some(y)) = (out_event, in_event) else {
        return false;
    };
    x.direction == Direction::Out && y.direction == Direction::In && x.component != y.component
}

impl Tried for Connection {
    ghost checks = { connection_checks };

    fn try_rules(self, sheet: &Layout, _i: usize) -> Result<(), Reason> {
        let out_event = sheet.row(usize::from(self.out_event));
        let in_event = sheet.row(usize::from(self.in_event));
        require(
            are_connected(out_event, in_event) && has_modes(sheet, self.owner, self.modes),
            Reason::WrongByReference,
        )
    }
}

// Whether there is no event, or it is one of component c.
fn is_event_of(sheet: &Layout, c: u8, named: Option<u8>) -> bool
    ensures { result ≡ event_of (rows_of sheet.now) c named }
{
    let Some(v) = named else {
        return true;
    };
    sheet
        .row(usize::from(v))
        .is_some_and(|y: Event| y.component == c)
}

impl Tried for Transition {
    ghost checks = { transition_checks };

    fn try_rules(self, sheet: &Layout, _i: usize) -> Result<(), Reason> {
        require(
            has_mode(sheet, self.component, self.from)
                && has_mode(sheet, self.component, self.to)
                && is_event_of(sheet, self.component, self.event)
                && is_condition_node(sheet, self.guard),
            Reason::WrongByReference,
        )?;
        require(
            !rests_on(sheet, Target::AnyMode, self.guard),
            Reason::ForbiddenResting,
        )
    }
}

// Whether the element is a held one of the transition's component.
fn is_settable(by: Option<Transition>, what: Option<Element>) -> bool
    ensures { result ≡ settable by what }
{
    let (Some(x), Some(y)) = (by, what) else {
        return false;
    };
    y.kind == Kind::Held && y.component == x.component
}

impl Tried for Setting {
    ghost checks = { setting_checks };

    fn try_rules(self, sheet: &Layout, i: usize) -> Result<(), Reason> {
        let by = sheet.row(usize::from(self.transition));
        let what = sheet.row(usize::from(self.element));
        require(
            is_settable(by, what) && is_value_node(sheet, self.node),
            Reason::WrongByReference,
        )?;
        require(is_clear_of_earlier(sheet, i, self), Reason::Clash)
    }
}

impl Tried for Question {
    ghost checks = { question_checks };

    fn try_rules(self, sheet: &Layout, _i: usize) -> Result<(), Reason> {
        require(
            is_condition_node(sheet, self.node),
            Reason::WrongByReference,
        )
    }
}

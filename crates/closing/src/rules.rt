// The rules that rows give.

ghost use Rattle.std.specs.Prelude.{◌≡◌};
ghost use Rattle.std.specs.Option.{option_map};
ghost use Rattle.sheet.specs.Lookup.{node_at, flow_at, setting_at};
ghost use Rattle.marking.specs.Rules.{named_items, node_rule, flow_rule_at, setting_rule_at, connection_rule as rule_of_connection, transition_rule as rule_of_transition, rule_at as the_rule_at};

use cutting::kinds::Thing;
use marking::kinds::{Item, Items, OwnedModes, Rule};
use sheet::rows::{Connection, Element, Flow, Node, Setting, Transition};
use sheet::sizes::{CONNECTIONS, FLOWS, NODES, SETTINGS, TRANSITIONS};
use view::typed::row;
use view::view::View;

// The items that a node names, and the nodes that are its operands.
fn items_named(node: Node) -> Items
    ensures { result ≡ named_items node }
{
    match node {
        Node::Constant(_) | Node::True => [None; 3],
        Node::Element(e) => [Some(Item::Thing(Thing::Element(e))), None, None],
        Node::Sum(a, b)
        | Node::Difference(a, b)
        | Node::Equal(a, b)
        | Node::Less(a, b)
        | Node::And(a, b) => [
            Some(Item::Node(a as usize)),
            Some(Item::Node(b as usize)),
            None,
        ],
        Node::Not(a) => [Some(Item::Node(a as usize)), None, None],
        Node::InMode(c, m) => [Some(Item::Thing(Thing::Mode(c, m))), None, None],
    }
}

// A node leads to what it names.
fn rule_of_node<V: View>(view: &V, n: usize) -> Option<Rule>
    ensures { result ≡ option_map (node_rule n) (node_at (V.View.rows view.now) n) }
{
    let x: Node = row(view, n)?;
    Some(Rule {
        causes: [Some(Item::Node(n)), None, None],
        effects: items_named(x),
        modes: None,
    })
}

// A port leads to the node of its flow and to the flow's modes.
fn rule_of_flow<V: View>(view: &V, i: usize) -> Option<Rule>
    ensures { result ≡ flow_rule_at (V.View.rows view.now) (flow_at (V.View.rows view.now) i) }
{
    let x: Flow = row(view, i)?;
    let port: Element = row(view, usize::from(x.port))?;
    Some(Rule {
        causes: [Some(Item::Thing(Thing::Element(x.port))), None, None],
        effects: [Some(Item::Node(x.node as usize)), None, None],
        modes: Some(OwnedModes {
            component: port.component,
            modes: x.modes,
        }),
    })
}

// Either event of a connection leads to both, and to the connection's modes of its owner.
fn connection_rule(link: Connection) -> Rule
    ensures { result ≡ rule_of_connection link }
{
    let out = Some(Item::Thing(Thing::Event(link.out_event)));
    let into = Some(Item::Thing(Thing::Event(link.in_event)));
    Rule {
        causes: [out, into, None],
        effects: [out, into, None],
        modes: Some(OwnedModes {
            component: link.owner,
            modes: link.modes,
        }),
    }
}

// The from mode of a transition, its to mode and its event lead to its from mode, its event and its guard.
fn transition_rule(y: Transition) -> Rule
    ensures { result ≡ rule_of_transition y }
{
    let from = Some(Item::Thing(Thing::Mode(y.component, y.from)));
    let to = Some(Item::Thing(Thing::Mode(y.component, y.to)));
    let event = y.event.map(|v| Item::Thing(Thing::Event(v)));
    Rule {
        causes: [from, to, event],
        effects: [from, event, Some(Item::Node(y.guard as usize))],
        modes: None,
    }
}

// An element leads to the from mode of a transition that sets it, and to the node that gives it its value.
fn rule_of_setting<V: View>(view: &V, i: usize) -> Option<Rule>
    ensures { result ≡ setting_rule_at (V.View.rows view.now) (setting_at (V.View.rows view.now) i) }
{
    let x: Setting = row(view, i)?;
    let y: Transition = row(view, usize::from(x.transition))?;
    let from = Item::Thing(Thing::Mode(y.component, y.from));
    Some(Rule {
        causes: [Some(Item::Thing(Thing::Element(x.element))), None, None],
        effects: [Some(from), Some(Item::Node(x.node as usize)), None],
        modes: None,
    })
}

// The rule of a row of a section, if there is one. By cases, since the rows of each section have a type of their own.
pub(crate) fn rule_at<V: View>(view: &V, section: usize, i: usize) -> Option<Rule>
    ensures { result ≡ the_rule_at (V.View.rows view.now) section i }
{
    match section {
        NODES => rule_of_node(view, i),
        FLOWS => rule_of_flow(view, i),
        CONNECTIONS => row(view, i).map(connection_rule),
        TRANSITIONS => row(view, i).map(transition_rule),
        SETTINGS => rule_of_setting(view, i),
        _ => None,
    }
}

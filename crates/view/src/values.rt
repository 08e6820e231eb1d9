// The values of elements and nodes in the state that a view shows.

ghost use Rattle.std.specs.Prelude.{◌≡◌, ℕ, cond, length, take, ℤ, pos, slice_index_or};
ghost use Rattle.running.specs.Values.{number_in, truth_in, nothing, evaluated, node_cell, node_over, in_force, feeds, lists, element_cell, values as values_in, node_value};
ghost use Rattle.sheet.specs.Lookup.{flow_at};
ghost use Rattle.sheet.specs.Sections.{rows as rows_in_section, elements, flows};
ghost use Rattle.std.specs.declared.option.Option.TheVariants.{None, Some};

use crate::numbers::{bring_into, difference_of, sum_of};
use crate::typed::row;
use crate::view::View;
use running::kinds::Worth;
use sheet::rows::{Element, Flow, Kind, ModeSet, Node};
use sheet::sizes::{ELEMENTS, FLOWS, MOST_ELEMENTS, MOST_NODES};

// A slot for each element and each node that a sheet can have: tables of fixed size, since no call of a rig allocates.
pub const ELEMENT_SLOTS: usize = MOST_ELEMENTS as usize;

pub const NODE_SLOTS: usize = MOST_NODES as usize;

// What node n gives; the number 0 where the table has none, as in the definition of values.
fn worth_at(table: &[Worth], n: u8) -> Worth
    ensures { result ≡ slice_index_or table.now n nothing }
{
    table
        .get(usize::from(n))
        .copied()
        .unwrap_or(Worth::Number(0))
}

pub(crate) fn number_at(table: &[Worth], n: u8) -> i32
    ensures { result ≡ number_in (slice_index_or table.now n nothing) }
{
    match worth_at(table, n) {
        Worth::Number(z) => z,
        Worth::Truth(_) => 0,
    }
}

pub(crate) fn truth_at(table: &[Worth], n: u8) -> bool
    ensures { result ≡ truth_in (slice_index_or table.now n nothing) }
{
    match worth_at(table, n) {
        Worth::Number(_) => false,
        Worth::Truth(b) => b,
    }
}

// The value of element e; 0 where there is none, as in the definition of values.
pub(crate) fn value_at(values: &[i32], e: usize) -> i32
    ensures { result ≡ slice_index_or values.now e (pos 0) }
{
    values.get(e).copied().unwrap_or(0)
}

// What a node gives, from the values of the elements and what the nodes before it give.
fn evaluate<V: View>(view: &V, values: &[i32], before: &[Worth], node: Node) -> Worth
    ensures { result ≡ evaluated (V.View.state view.now) values.now before.now node }
{
    match node {
        Node::Constant(z) => Worth::Number(z),
        Node::Element(e) => Worth::Number(value_at(values, e as usize)),
        Node::Sum(a, b) => Worth::Number(sum_of(number_at(before, a), number_at(before, b))),
        Node::Difference(a, b) => Worth::Number(difference_of(
            number_at(before, a),
            number_at(before, b),
        )),
        Node::True => Worth::Truth(true),
        Node::Equal(a, b) => Worth::Truth(number_at(before, a) == number_at(before, b)),
        Node::Less(a, b) => Worth::Truth(number_at(before, a) < number_at(before, b)),
        Node::Not(a) => Worth::Truth(!truth_at(before, a)),
        Node::And(a, b) => Worth::Truth(truth_at(before, a) && truth_at(before, b)),
        Node::InMode(c, m) => Worth::Truth(view.mode(c as usize) == m),
    }
}

// What node n gives, from the values of the elements and what the nodes before it give; the number 0 where there is none, as
// in the definition of values.
fn node_worth<V: View>(view: &V, values: &[i32], before: &[Worth], n: usize) -> Worth
    ensures { result ≡ node_cell (V.View.rows view.now) (V.View.state view.now) values.now n before.now }
{
    let Some(node) = row(view, n) else {
        return Worth::Number(0);
    };
    evaluate(view, values, before, node)
}

// What each node gives over some values of the elements: each node once, in rising order.
fn worths<V: View>(view: &V, values: &[i32]) -> [Worth; NODE_SLOTS]
    ensures { (n : ℕ) → slice_index_or result n nothing ≡ node_over (V.View.rows view.now) (V.View.state view.now) values.now n }
{
    let mut table = [Worth::Number(0); NODE_SLOTS];
    // The number is needed: what a node gives is worked out from what the nodes before it give.
    for n in 0..NODE_SLOTS {
        table[n] = node_worth(view, values, &table[0..n], n);
    }
    table
}

// Whether a mode is in the set.
pub fn lists_mode(set: ModeSet, mode: u8) -> bool
    ensures { result ≡ lists set mode }
{
    mode < 16 && (set >> mode) % 2 == 1
}

// Whether the flow leads to the port in the mode.
fn feeds_port(x: &Flow, port: usize, mode: u8) -> bool
    ensures { result ≡ feeds port mode (Some x.now) }
{
    usize::from(x.port) == port && lists_mode(x.modes, mode)
}

// Flow i, where it leads to the port in the mode.
fn flow_to<V: View>(view: &V, i: usize, port: usize, mode: u8) -> Option<Flow>
    ensures { result ≡ cond (feeds port mode (flow_at (V.View.rows view.now) i)) (flow_at (V.View.rows view.now) i) None }
{
    row(view, i).filter(|x| feeds_port(x, port, mode))
}

// The flow to a port that is in force in a mode of its component.
fn flow_in_force<V: View>(view: &V, port: usize, mode: u8) -> Option<Flow>
    ensures { result ≡ in_force (rows_in_section (V.View.rows view.now) flows) port mode }
{
    let count = view.count(FLOWS).unwrap_or(0);
    (0..count).find_map(|i| flow_to(view, i, port, mode))
}

// The value of element e, from the values of the elements before it.
fn element_worth<V: View>(view: &V, before: &[i32], e: usize) -> i32
    ensures { result ≡ element_cell (V.View.rows view.now) (V.View.state view.now) e before.now }
{
    let Some(x) = row::<_, Element, _>(view, e) else {
        return 0;
    };
    if x.kind == Kind::Held {
        return view.held(e);
    }
    let Some(f) = flow_in_force(view, e, view.mode(usize::from(x.component))) else {
        return x.rest;
    };
    let number = number_at(&worths(view, before), f.node);
    bring_into(x.lowest, x.highest, number)
}

// The values of the elements: each once, in rising order.
pub(crate) fn element_values<V: View>(view: &V) -> [i32; ELEMENT_SLOTS]
    ensures { take (length (rows_in_section (V.View.rows view.now) elements)) result ≡ values_in (V.View.rows view.now) (V.View.state view.now) }
{
    let mut table = [0i32; ELEMENT_SLOTS];
    // The number is needed: a value is worked out from the values before it.
    for e in 0..ELEMENT_SLOTS {
        table[e] = element_worth(view, &table[0..e], e);
    }
    table
}

// What each node gives in the state.
pub fn node_values<V: View>(view: &V) -> [Worth; NODE_SLOTS]
    ensures { (n : ℕ) → slice_index_or result n nothing ≡ node_value (V.View.rows view.now) (V.View.state view.now) n }
{
    let values = element_values(view);
    let count = view.count(ELEMENTS).unwrap_or(0);
    worths(view, &values[0..count])
}

// What a row can name: components, modes and nodes.

ghost use Rattle.std.specs.Prelude.{◌≡◌, ℕ, ◌+◌, ◌^◌, ◌≤◌, IfSome};
ghost use Rattle.layout.specs.Laid.{rows_of};
ghost use Rattle.sheet.specs.Lookup.{component_at};
ghost use Rattle.sheet.specs.Rules.{has_component, has_mode, has_modes, gives_value, value_node, condition_node};

use layout::rows::Layout;
use sheet::rows::{Component, ModeSet, Node};

// Beside `row` for the fact that a component has few modes, which a shift needs.
fn component(sheet: &Layout, c: u8) -> Option<Component>
    ensures value { result ≡ component_at (rows_of sheet.now) c }
    ensures few { IfSome result (λ x. x.modes ≤ 15) }
{
    sheet.row(usize::from(c))
}

pub(crate) fn has_component(sheet: &Layout, c: u8) -> bool
    ensures { result ≡ has_component (rows_of sheet.now) c }
{
    component(sheet, c).is_some()
}

// Whether the component has the mode; mode 0 is one of every component.
pub(crate) fn has_mode(sheet: &Layout, c: u8, mode: u8) -> bool
    ensures { result ≡ has_mode (rows_of sheet.now) c mode }
{
    component(sheet, c).is_some_and(|x| mode <= x.modes)
}

// Whether the component has every mode of the set.
pub(crate) fn has_modes(sheet: &Layout, c: u8, set: ModeSet) -> bool
    ensures { result ≡ has_modes (rows_of sheet.now) c set }
{
    let Some(x) = component(sheet, c) else {
        return false;
    };
    u32::from(set) < 1u32 << (x.modes + 1)
}

fn gives_a_value(node: Node) -> bool
    ensures { result ≡ gives_value node }
{
    matches!(
        node,
        Node::Constant(_) | Node::Element(_) | Node::Sum(_, _) | Node::Difference(_, _)
    )
}

// Beside the next one by name: one function for both would take the answer that is wanted at each call.
pub(crate) fn is_value_node(sheet: &Layout, n: u8) -> bool
    ensures { result ≡ value_node (rows_of sheet.now) n }
{
    sheet.row(usize::from(n)).is_some_and(gives_a_value)
}

pub(crate) fn is_condition_node(sheet: &Layout, n: u8) -> bool
    ensures { result ≡ condition_node (rows_of sheet.now) n }
{
    sheet.row(usize::from(n)).is_some_and(|x| !gives_a_value(x))
}

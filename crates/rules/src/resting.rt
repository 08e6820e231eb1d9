// What a node rests on, each node worked out once, in rising order.

ghost use Rattle.std.specs.Prelude.{◌≡◌, ℕ, false, List, slice_index_or};
ghost use Rattle.layout.specs.Laid.{rows_of};
ghost use Rattle.sheet.specs.Resting.{hits, any_marked, operands, mark, marks, rests};
ghost use Rattle.sheet.specs.Sections.{rows as rows_in_section, nodes};

use layout::rows::Layout;
use sheet::rows::{Node, Target};

// More than the largest number of a node that a row can name.
const NODE_NUMBERS: usize = 256;

// Whether node n is the target or names it.
fn is_hit(target: Target, n: usize, node: Node) -> bool
    ensures { result ≡ hits target n node }
{
    match (target, node) {
        (Target::Node(i), _) => n == usize::from(i),
        (Target::Element(e), Node::Element(d)) => d == e,
        (Target::ElementFrom(e), Node::Element(d)) => e <= d,
        (Target::Mode(c, m), Node::InMode(d, k)) => d == c && k == m,
        (Target::AnyMode, Node::InMode(_, _)) => true,
        _ => false,
    }
}

fn is_marked(table: &[bool], n: u8) -> bool
    ensures { result ≡ slice_index_or table.now n false }
{
    table.get(usize::from(n)).copied().unwrap_or(false)
}

// Whether an operand of the node is marked.
fn has_marked_operand(table: &[bool], node: Node) -> bool
    ensures { result ≡ any_marked table.now (operands node) }
{
    match node {
        Node::Sum(a, b)
        | Node::Difference(a, b)
        | Node::Equal(a, b)
        | Node::Less(a, b)
        | Node::And(a, b) => is_marked(table, a) || is_marked(table, b),
        Node::Not(a) => is_marked(table, a),
        Node::Constant(_) | Node::Element(_) | Node::True | Node::InMode(_, _) => false,
    }
}

// The mark of node n, from the marks of the nodes before it.
fn mark_of(sheet: &Layout, target: Target, n: usize, table: &[bool]) -> bool
    ensures { result ≡ mark (rows_in_section (rows_of sheet.now) nodes) target n table.now }
{
    let Some(node) = sheet.row(n) else {
        return false;
    };
    is_hit(target, n, node) || has_marked_operand(table, node)
}

// Whether node n rests on the target.
pub(crate) fn rests_on(sheet: &Layout, target: Target, n: u8) -> bool
    ensures { result ≡ rests (rows_of sheet.now) target n }
{
    // Of fixed size, since a verdict allocates nothing.
    let mut table = [false; NODE_NUMBERS];
    let last = usize::from(n);
    // The number is needed: a mark is worked out from the marks before it.
    for i in 0..last {
        table[i] = mark_of(sheet, target, i, &table[0..i]);
    }
    mark_of(sheet, target, last, &table[0..last])
}

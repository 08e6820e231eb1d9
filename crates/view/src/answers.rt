// What is told of a state: modes, values, and the truth of questions.

ghost use Rattle.std.specs.Prelude.{◌≡◌};
ghost use Rattle.running.specs.States.{mode_of, held_of, start_state};
ghost use Rattle.running.specs.Steps.{answer_of, mode_at, value_at};
ghost use Rattle.sheet.specs.Lookup.{element_at};
ghost use Rattle.view.specs.Checks.{rest_held};

use crate::typed::row;
use crate::values::{element_values, node_values, truth_at, value_at};
use crate::view::View;
use running::kinds::NoQuestion;
use sheet::rows::{Component, Element, Kind, Question};

// The mode of a component, or nothing where there is none.
pub fn mode_told<V: View>(view: &V, c: usize) -> Option<u8>
    ensures { result ≡ mode_at (V.View.rows view.now) (V.View.state view.now) c }
{
    let _x: Component = row(view, c)?;
    Some(view.mode(c))
}

// The value of an element, ports included, or nothing where it is missing or blank.
pub fn value_told<V: View>(view: &V, e: usize) -> Option<i32>
    ensures { result ≡ value_at (V.View.rows view.now) (V.View.state view.now) e }
{
    let _x: Element = row(view, e)?;
    Some(value_at(&element_values(view), e))
}

// The truth of a question, or that it is missing or blank.
pub fn answer_to<V: View>(view: &V, q: usize) -> Result<bool, NoQuestion>
    ensures { result ≡ answer_of (V.View.rows view.now) (V.View.state view.now) q }
{
    let x: Question = row(view, q).ok_or(NoQuestion { question: q })?;
    let table = node_values(view);
    Ok(truth_at(&table, x.node))
}

// The mode of a component at the start; 0 where there is none, as in a state.
pub fn start_mode<V: View>(view: &V, c: usize) -> u8
    ensures { result ≡ mode_of (start_state (V.View.rows view.now)) c }
{
    let Some(x) = row::<_, Component, _>(view, c) else {
        return 0;
    };
    x.start
}

// The rest value of a held element, or nothing where none is held.
pub fn rest_value<V: View>(view: &V, e: usize) -> Option<i32>
    ensures { result ≡ rest_held (element_at (V.View.rows view.now) e) }
{
    let x: Element = row(view, e)?;
    match x.kind {
        Kind::Held => Some(x.rest),
        Kind::Port => None,
    }
}

// The value of a held element at the start; 0 where there is none, as in a state.
pub fn start_value<V: View>(view: &V, e: usize) -> i32
    ensures { result ≡ held_of (start_state (V.View.rows view.now)) e }
{
    // Not by `rest_value` in one line: this function is to show which value of the element it reads, so that an edit can turn it.
    let Some(x) = row::<_, Element, _>(view, e) else {
        return 0;
    };
    match x.kind {
        Kind::Held => x.rest,
        Kind::Port => 0,
    }
}

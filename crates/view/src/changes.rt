// What a step changes.

ghost use Rattle.std.specs.Prelude.{◌≡◌};
ghost use Rattle.running.specs.Steps.{parts, takes_part};
ghost use Rattle.sheet.specs.Lookup.{element_at, setting_at};
ghost use Rattle.view.specs.Checks.{new_value, change_by};

use crate::numbers::bring_into;
use crate::typed::row;
use crate::values::number_at;
use crate::view::View;
use running::kinds::{Step, Worth};
use sheet::rows::{Element, Setting};

// What setting i changes if the step is made: an element, and the value that it gets. `worths` has what each
// node gives.
pub fn setting_change<V: View>(
    view: &V,
    worths: &[Worth],
    step: Step,
    i: usize,
) -> Option<(usize, i32)>
    ensures { result ≡ change_by (V.View.rows view.now) worths.now (parts step) (setting_at (V.View.rows view.now) i) }
{
    let x: Setting = row(view, i)?;
    if !is_part(step, x.transition) {
        return None;
    }
    value_set(view, worths, x)
}

// The element that a setting sets, and its new value.
fn value_set<V: View>(view: &V, worths: &[Worth], x: Setting) -> Option<(usize, i32)>
    ensures { result ≡ new_value worths.now x (element_at (V.View.rows view.now) x.element) }
{
    let element = usize::from(x.element);
    let e: Element = row(view, element)?;
    let v = bring_into(e.lowest, e.highest, number_at(worths, x.node));
    Some((element, v))
}

// Whether the transition takes part in the step.
fn is_part(step: Step, t: u8) -> bool
    ensures { result ≡ takes_part t (parts step) }
{
    let t = usize::from(t);
    match step {
        Step::Alone(u) => u == t,
        Step::Pair(u, h) => u == t || h == t,
    }
}

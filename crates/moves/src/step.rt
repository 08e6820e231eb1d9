// A step made or refused.

ghost use Rattle.std.specs.Prelude.{◌≡◌, ℕ};
ghost use Rattle.running.specs.Steps.{parts, moved_by, moved, step_reply, step_state};
ghost use Rattle.sheet.specs.Lookup.{transition_at, setting_at};
ghost use Rattle.sheet.specs.Sections.{rows as rows_in_section, settings};
ghost use Rattle.view.specs.Checks.{change_by, changed};
ghost use Rattle.moves.specs.Places.{with_modes, with_values};
ghost use Rattle.moves.specs.Settle.{settled_by};

use crate::store::Store;
use running::kinds::{Step, StepRefusal, Worth};
use sheet::rows::Transition;
use sheet::sizes::SETTINGS;
use view::changes::setting_change;
use view::checks::check_step;
use view::typed::row;
use view::values::node_values;
use view::view::View;

// Makes a step that is possible, and refuses any other with the state as it was.
pub fn make_step<S: Store>(store: &mut S, step: Step) -> Result<(), StepRefusal>
    ensures rows { S.View.rows store.new ≡ S.View.rows store.old }
    ensures reply { result ≡ step_reply (S.View.rows store.old) (S.View.state store.old) step }
    ensures state { S.View.state store.new ≡ step_state (S.View.rows store.old) (S.View.state store.old) step }
{
    let worths = node_values(store);
    check_step(store, &worths, step)?;
    settle(store, &worths, step);
    move_parts(store, step);
    Ok(())
}

// Puts the component of a transition into its to mode.
fn take_transition<S: Store>(store: &mut S, t: usize)
    ensures rows { S.View.rows store.new ≡ S.View.rows store.old }
    ensures state { S.View.state store.new ≡ with_modes (S.View.state store.old) (moved_by (transition_at (S.View.rows store.old) t) (S.View.state store.old).modes) }
{
    if let Some(x) = row::<_, Transition, _>(store, t) {
        store.set_mode(usize::from(x.component), x.to);
    }
}

// Puts the components that take part into their to modes.
fn move_parts<S: Store>(store: &mut S, step: Step)
    ensures rows { S.View.rows store.new ≡ S.View.rows store.old }
    ensures state { S.View.state store.new ≡ with_modes (S.View.state store.old) (moved (S.View.rows store.old) (parts step) (S.View.state store.old).modes) }
{
    match step {
        Step::Alone(t) => take_transition(store, t),
        Step::Pair(t, h) => {
            take_transition(store, t);
            take_transition(store, h);
        }
    }
}

// Gives the elements that the step sets their new values. `worths` has what each node gave before it.
fn settle<S: Store>(store: &mut S, worths: &[Worth], step: Step)
    ensures rows { S.View.rows store.new ≡ S.View.rows store.old }
    ensures state { S.View.state store.new ≡ with_values (S.View.state store.old) (settled_by (S.View.rows store.old) worths.now (parts step) (rows_in_section (S.View.rows store.old) settings) (S.View.state store.old).held) }
{
    let count = store.count(SETTINGS).unwrap_or(0);
    for i in 0..count {
        apply_setting(store, worths, step, i);
    }
}

// Gives the element of a setting its new value, if the setting's transition takes part.
fn apply_setting<S: Store>(store: &mut S, worths: &[Worth], step: Step, i: usize)
    ensures rows { S.View.rows store.new ≡ S.View.rows store.old }
    ensures state { S.View.state store.new ≡ with_values (S.View.state store.old) (changed (change_by (S.View.rows store.old) worths.now (parts step) (setting_at (S.View.rows store.old) i)) (S.View.state store.old).held) }
{
    if let Some((e, v)) = setting_change(store, worths, step, i) {
        store.set_value(e, v);
    }
}

// Back to the start.

ghost use Rattle.std.specs.Prelude.{◌≡◌};
ghost use Rattle.running.specs.States.{start_state};
ghost use Rattle.sheet.specs.Lookup.{element_at};
ghost use Rattle.view.specs.Checks.{rest_held};
ghost use Rattle.moves.specs.Places.{with_some_value, at_start_modes, at_start_values};

use crate::store::Store;
use sheet::sizes::{COMPONENTS, ELEMENTS};
use view::answers::{rest_value, start_mode};
use view::view::View;

// Puts each component into its start mode, and gives each held element its rest value.
pub fn go_home<S: Store>(store: &mut S)
    ensures rows { S.View.rows store.new ≡ S.View.rows store.old }
    ensures state { S.View.state store.new ≡ start_state (S.View.rows store.old) }
{
    reset_modes(store);
    reset_values(store);
}

fn reset_modes<S: Store>(store: &mut S)
    ensures rows { S.View.rows store.new ≡ S.View.rows store.old }
    ensures state { S.View.state store.new ≡ at_start_modes (S.View.rows store.old) (S.View.state store.old) }
{
    let count = store.count(COMPONENTS).unwrap_or(0);
    for c in 0..count {
        let mode = start_mode(store, c);
        store.set_mode(c, mode);
    }
}

fn reset_values<S: Store>(store: &mut S)
    ensures rows { S.View.rows store.new ≡ S.View.rows store.old }
    ensures state { S.View.state store.new ≡ at_start_values (S.View.rows store.old) (S.View.state store.old) }
{
    let count = store.count(ELEMENTS).unwrap_or(0);
    for e in 0..count {
        reset_value(store, e);
    }
}

fn reset_value<S: Store>(store: &mut S, e: usize)
    ensures rows { S.View.rows store.new ≡ S.View.rows store.old }
    ensures state { S.View.state store.new ≡ with_some_value (S.View.state store.old) e (rest_held (element_at (S.View.rows store.old) e)) }
{
    if let Some(value) = rest_value(store, e) {
        store.set_value(e, value);
    }
}

// The interface through which a state is changed.

ghost use Rattle.std.specs.Prelude.{◌≡◌, true};
ghost use Rattle.running.specs.States.{with_mode, with_value};
ghost use Rattle.sheet.specs.Rules.{has_mode};
ghost use Rattle.moves.specs.Places.{Placed, can_hold};

use view::view::View;

// A view whose modes and held values can be set.
pub trait Store: View {
    // Puts a component into mode 0 or one of its modes.
    fn set_mode(&mut self, component: usize, mode: u8)
        requires { has_mode (Self.View.rows self.old) component mode ≡ true }
        ensures rows { Self.View.rows self.new ≡ Self.View.rows self.old }
        ensures state { Self.View.state self.new ≡ with_mode (Self.View.state self.old) component mode };

    // Gives a held element a value of its range.
    fn set_value(&mut self, element: usize, value: i32)
        requires { can_hold (Self.View.rows self.old) element value ≡ true }
        ensures rows { Self.View.rows self.new ≡ Self.View.rows self.old }
        ensures state { Self.View.state self.new ≡ with_value (Self.View.state self.old) element value };

    // There is a place for each component and element.
    ghost placed: { (x : Self) → Placed (Self.View.rows x) (Self.View.state x) };
}

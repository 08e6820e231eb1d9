// The interface through which rows and state are read.

ghost use Rattle.std.specs.Prelude.{◌≡◌, ℕ, true, List};
ghost use Rattle.running.specs.States.{State, mode_of, held_of, is_held};
ghost use Rattle.sheet.specs.Accept.{accepted};
ghost use Rattle.sheet.specs.Cells.{count_of, byte_of};

// The rows of an accepted sheet, and modes and values. Sections go by number, as in the calls of a rig: there any number may
// come.
pub trait View {
    // The rows.
    ghost rows: { Self → List (List (List ℕ)) };
    // The state.
    ghost state: { Self → State };

    fn count(&self, section: usize) -> Option<usize>
        ensures { result ≡ count_of (rows self.now) section };

    fn byte(&self, section: usize, row: usize, place: usize) -> Option<u8>
        ensures { result ≡ byte_of (rows self.now) section row place };

    // The mode of a component; 0 where there is none, as in a state.
    fn mode(&self, component: usize) -> u8
        ensures { result ≡ mode_of (state self.now) component };

    // The value of a held element; of another, any.
    fn held(&self, element: usize) -> i32
        ensures { is_held (rows self.now) element ≡ true → result ≡ held_of (state self.now) element };

    // The rows are those of an accepted sheet.
    ghost accepts: { (x : Self) → accepted (rows x) ≡ true };
}

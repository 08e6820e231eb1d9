// The interface of a rig.

ghost use Rattle.std.specs.Prelude.{◌≡◌, ℕ, List};
ghost use Rattle.running.specs.Laws.{MadeWhenPossible, NamesTheFirstCheck};
ghost use Rattle.running.specs.States.{start_state};
ghost use Rattle.running.specs.Steps.{mode_at, value_at, step_reply, step_state};
ghost use Rattle.sheet.specs.Cells.{count_of, byte_of};
ghost use Rattle.rig.specs.Meaning.{Meaning, Sound, Moved};

use running::kinds::{Step, StepRefusal};

// A rig runs a sheet. It means the rows of an accepted sheet and a state of it; every call takes any number, so sections
// too go by number.
pub trait Rig {
    // The rows of its sheet, which no call alters.
    ghost rows: { Self → List (List (List ℕ)) };
    // Everything else that it means: its state.
    ghost means: { Self → Meaning };
    // Its inner tables fit. Whoever makes a rig promises it, and every call keeps it.
    ghost fits: { Self → Type 0 };

    // The number of rows of a section, or nothing where there is no such section.
    fn count(&self, section: usize) -> Option<usize>
        requires { fits self.now }
        ensures { result ≡ count_of (rows self.now) section };

    // One byte of a row, or nothing where there is none.
    fn byte(&self, section: usize, row: usize, place: usize) -> Option<u8>
        requires { fits self.now }
        ensures { result ≡ byte_of (rows self.now) section row place };

    // The mode of a component, or nothing where there is none.
    fn mode(&self, component: usize) -> Option<u8>
        requires { fits self.now }
        ensures { result ≡ mode_at (rows self.now) (means self.now).state component };

    // The value of an element, ports included, or nothing where it is missing or blank.
    fn value(&self, element: usize) -> Option<i32>
        requires { fits self.now }
        ensures { result ≡ value_at (rows self.now) (means self.now).state element };

    // Puts the rig back at the start state of its sheet.
    fn home(&mut self)
        requires { fits self.old }
        ensures still_fits { fits self.new }
        ensures moves { Moved (rows self.old) (rows self.new) (means self.old) (means self.new) (start_state (rows self.old)) };

    // Makes a step that is possible, and refuses any other with the state as it was.
    fn step(&mut self, step: Step) -> Result<(), StepRefusal>
        requires { fits self.old }
        ensures still_fits { fits self.new }
        ensures made_when_possible { MadeWhenPossible (rows self.old) (means self.old).state step result }
        ensures names_the_first_check { NamesTheFirstCheck (rows self.old) (means self.old).state step result }
        ensures reply { result ≡ step_reply (rows self.old) (means self.old).state step }
        ensures moves { Moved (rows self.old) (rows self.new) (means self.old) (means self.new) (step_state (rows self.old) (means self.old).state step) };

    // What fits means an accepted sheet and a state of it.
    ghost sound: { (x : Self) → fits x → Sound (rows x) (means x) };
}

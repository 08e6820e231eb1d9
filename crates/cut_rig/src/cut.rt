// A cut: a rig above a rig, with what some questions need.

ghost use Rattle.std.specs.Prelude.{◌≡◌, ℕ, List};
ghost use Rattle.cut_rig.specs.Tables.{stays_in, kept_in, chosen_by};
ghost use Rattle.running.specs.declared.kinds.StepRefusal.TheVariants.{NoTransition};
ghost use Rattle.running.specs.Steps.{parts, each_part, replied};
ghost use Rattle.sheet.specs.Tries.{must, first_fault};
ghost use Rattle.cut_rig.specs.Cuts.{rows_above, means_above, FitsAbove, MadeAbove};
ghost use Rattle.cutting.specs.Laws.{SmallestIsUnique, CutIsUnique, CutsAreAccepted};
ghost use Rattle.cutting.proofs.AcceptedCuts.{cuts_are_accepted};
ghost use Rattle.cutting.proofs.StatesAgree.{shown_state_of};

use crate::stays::byte_of_blank;
use crate::tables::Tables;
use cutting::kinds::{NoCut, QuestionSet};
use rig::rig::Rig;
use rig::seen::Seen;
use running::kinds::{Step, StepRefusal};
use sheet::sizes::{COMPONENTS, ELEMENTS, TRANSITIONS};
use view::view::View;

// A rig cut to a set of questions. It holds the rig below by value.
#[derive(Drop)]
pub struct Cut<R> {
    below: R,
    tables: Tables,
}

impl<R: Rig> Cut<R> {
    // The cut of a rig for a set of questions. Where there is none, the rig comes back as it was.
    pub fn new(below: R, set: QuestionSet) -> Result<Cut<R>, (R, NoCut)>
        requires { R.Rig.fits below }
        ensures made { MadeAbove R.Rig.rows R.Rig.fits below set result }
        ensures smallest_is_unique { SmallestIsUnique }
        ensures cut_is_unique { CutIsUnique }
        ensures cuts_are_accepted { CutsAreAccepted }
    {
        match Tables::new(&Seen { rig: &below }, set) {
            Ok(tables) => Ok(Cut { below, tables }),
            Err(fault) => Err((below, fault)),
        }
    }

    // The rig below.
    pub fn into_below(self) -> R
        requires { FitsAbove R.Rig.rows R.Rig.fits self }
        ensures below { result ≡ self.below }
        ensures fits { R.Rig.fits result }
    {
        let Cut { below, tables } = self;
        drop(tables);
        below
    }
}

impl<R> Cut<R> {
    // The first transition of the step that was dropped is refused as missing.
    fn check_kept(&self, step: Step) -> Result<(), StepRefusal>
        ensures { result ≡ replied (first_fault (each_part (stays_in self.now.tables 6) NoTransition (parts step))) }
    {
        match step {
            Step::Alone(t) => self.find_transition(t),
            Step::Pair(t, h) => {
                self.find_transition(t)?;
                self.find_transition(h)
            }
        }
    }

    // That a transition stays, or its refusal.
    fn find_transition(&self, t: usize) -> Result<(), StepRefusal>
        ensures { result ≡ replied (must (stays_in self.now.tables 6 t) (NoTransition t)) }
    {
        if self.tables.row_stays(TRANSITIONS, t) {
            Ok(())
        } else {
            Err(StepRefusal::NoTransition(t))
        }
    }
}

impl<R: Rig> Rig for Cut<R> {
    ghost rows = { rows_above R.Rig.rows };

    ghost means = { means_above R.Rig.means };

    ghost fits = { FitsAbove R.Rig.rows R.Rig.fits };

    ghost sound = { λ x f.
        let s = R.Rig.rows x.below in
        let k = kept_in x.tables in
        let below = R.Rig.sound x.below f.below_fits in
        record {
          accepts = cuts_are_accepted s (chosen_by x.tables) k f.tables_fit.keeps.smallest.closed below.accepts;
          state_of = shown_state_of s below.accepts k (chosen_by x.tables) (R.Rig.means x.below).state below.state_of;
        } };

    fn count(&self, section: usize) -> Option<usize> {
        self.below.count(section)
    }

    fn byte(&self, section: usize, row: usize, place: usize) -> Option<u8> {
        let byte = self.below.byte(section, row, place)?;
        if section == COMPONENTS {
            let start = if place == 1 {
                self.tables.shown_mode(row as u8, byte)
            } else {
                byte
            };
            return Some(start);
        }
        if !self.tables.row_stays(section, row) {
            return Some(byte_of_blank(section, place));
        }
        if section == TRANSITIONS && place == 2 {
            let component = self.below.byte(section, row, 0).unwrap_or(0);
            return Some(self.tables.shown_mode(component, byte));
        }
        Some(byte)
    }

    fn mode(&self, component: usize) -> Option<u8> {
        let mode = self.below.mode(component)?;
        Some(self.tables.shown_mode(component as u8, mode))
    }

    fn value(&self, element: usize) -> Option<i32> {
        if !self.tables.row_stays(ELEMENTS, element) {
            return None;
        }
        self.below.value(element)
    }

    fn home(&mut self) {
        self.below.home();
    }

    fn step(&mut self, step: Step) -> Result<(), StepRefusal> {
        self.check_kept(step)?;
        self.below.step(step)
    }
}

// A rig as a view: its rows and its state through its reading calls.

ghost use Rattle.std.specs.Prelude.{◌≡◌};
ghost use Rattle.running.specs.Steps.{value_at};
ghost use Rattle.std.proofs.Math.Logic.{∥∥₁_elim};
ghost use Rattle.std.proofs.Math.Bool.{Bool-set};

use crate::rig::Rig;
use view::view::View;

// A rig, seen through its reading calls. The field says only that a proof exists, since a rig may fit in more than one way.
#[derive(Drop)]
pub struct Seen<'a, R: Rig> {
    pub rig: &'a R,
    ghost fits: { ∥ R.Rig.fits rig.now ∥₁ },
}

impl<'a, R: Rig> Seen<'a, R> {
    // The rig, with the proof that its calls ask for.
    pub fn fitting_rig(&self) -> &R
        ensures rig { result.now ≡ self.now.rig.now }
        ensures fits { R.Rig.fits result.now }
    {
        self.rig
    }

    // The value of an element, as the rig tells it.
    pub fn value(&self, element: usize) -> Option<i32>
        ensures { result ≡ value_at (R.Rig.rows self.now.rig.now) (R.Rig.means self.now.rig.now).state element }
    {
        self.fitting_rig().value(element)
    }
}

impl<'a, R: Rig> View for Seen<'a, R> {
    ghost rows = { λ x. R.Rig.rows x.rig.now };

    ghost state = { λ x. (R.Rig.means x.rig.now).state };

    ghost accepts = { λ x. ∥∥₁_elim x.fits (Bool-set _ _) (λ f. (R.Rig.sound x.rig.now f).accepts) };

    fn count(&self, section: usize) -> Option<usize> {
        self.fitting_rig().count(section)
    }

    fn byte(&self, section: usize, row: usize, place: usize) -> Option<u8> {
        self.fitting_rig().byte(section, row, place)
    }

    fn mode(&self, component: usize) -> u8 {
        self.fitting_rig().mode(component).unwrap_or(0)
    }

    fn held(&self, element: usize) -> i32 {
        self.value(element).unwrap_or(0)
    }
}

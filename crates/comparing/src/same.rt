// Whether two rigs, a pile and a whole, tell the same.

ghost use Rattle.std.specs.Prelude.{◌≡◌, ℕ, Decides};
ghost use Rattle.cutting.specs.Agreement.{IsKeptQuestion, IsKeptTransition, IsKeptElement, KeptStep, SameAnswers};
ghost use Rattle.running.specs.Steps.{answer_of, value_at};

use rig::rig::Rig;
use rig::seen::Seen;
use running::kinds::Step;
use sheet::rows::Transition;
use sheet::sizes::{MOST_ELEMENTS, MOST_QUESTIONS};
use view::answers::answer_to;
use view::typed::row;

// The most questions and elements of a sheet.
const QUESTION_NUMBERS: usize = MOST_QUESTIONS as usize;

const ELEMENT_NUMBERS: usize = MOST_ELEMENTS as usize;

// A pile of cuts and the whole rig with which it is compared. As in `Seen`, the fields say only that proofs exist.
#[derive(Drop)]
pub(crate) struct Pair<'a, P: Rig, W: Rig> {
    pub(crate) pile: &'a P,
    pub(crate) whole: &'a W,
    ghost pile_fits: { ∥ P.Rig.fits pile.now ∥₁ },
    ghost whole_fits: { ∥ W.Rig.fits whole.now ∥₁ },
}

impl<'a, P: Rig, W: Rig> Pair<'a, P, W> {
    // Whether a question has the same answer on both, if the pile kept it.
    pub(crate) fn is_same_answer(&self, q: usize) -> bool
        ensures { Decides result (IsKeptQuestion (P.Rig.rows self.now.pile.now) q → answer_of (W.Rig.rows self.now.whole.now) (W.Rig.means self.now.whole.now).state q ≡ answer_of (P.Rig.rows self.now.pile.now) (P.Rig.means self.now.pile.now).state q) }
    {
        let here = answer_to(&Seen { rig: self.pile }, q);
        here.is_err() || here == answer_to(&Seen { rig: self.whole }, q)
    }

    // Whether an element has the same value on both, if the pile kept it.
    fn is_same_value(&self, e: usize) -> bool
        ensures { Decides result (IsKeptElement (P.Rig.rows self.now.pile.now) e → value_at (W.Rig.rows self.now.whole.now) (W.Rig.means self.now.whole.now).state e ≡ value_at (P.Rig.rows self.now.pile.now) (P.Rig.means self.now.pile.now).state e) }
    {
        let here = Seen { rig: self.pile }.value(e);
        here.is_none() || here == Seen { rig: self.whole }.value(e)
    }

    // Whether every question that the pile kept has the same answer on both. Beside the next one by name: one function for both
    // would take the test and the limit.
    fn are_same_answers(&self) -> bool
        ensures { Decides result ((q : ℕ) → IsKeptQuestion (P.Rig.rows self.now.pile.now) q → answer_of (W.Rig.rows self.now.whole.now) (W.Rig.means self.now.whole.now).state q ≡ answer_of (P.Rig.rows self.now.pile.now) (P.Rig.means self.now.pile.now).state q) }
    {
        (0..QUESTION_NUMBERS).all(|q| self.is_same_answer(q))
    }

    // Whether every element that the pile kept has the same value on both.
    fn are_same_values(&self) -> bool
        ensures { Decides result ((e : ℕ) → IsKeptElement (P.Rig.rows self.now.pile.now) e → value_at (W.Rig.rows self.now.whole.now) (W.Rig.means self.now.whole.now).state e ≡ value_at (P.Rig.rows self.now.pile.now) (P.Rig.means self.now.pile.now).state e) }
    {
        (0..ELEMENT_NUMBERS).all(|e| self.is_same_value(e))
    }

    // Whether both tell the same of every question and element that the pile kept.
    pub(crate) fn tell_the_same(&self) -> bool
        ensures { Decides result (SameAnswers (W.Rig.rows self.now.whole.now) (P.Rig.rows self.now.pile.now) (W.Rig.means self.now.whole.now).state (P.Rig.means self.now.pile.now).state) }
    {
        self.are_same_answers() && self.are_same_values()
    }
}

fn is_kept_transition<P: Rig>(pile: &P, t: usize) -> bool
    requires { P.Rig.fits pile.now }
    ensures { Decides result (IsKeptTransition (P.Rig.rows pile.now) t) }
{
    row::<_, Transition, _>(&Seen { rig: pile }, t).is_some()
}

// Whether the step names only transitions that the pile kept. No method of `Pair`: it is asked where both rigs are lent to be
// changed.
pub(crate) fn is_kept_step<P: Rig>(pile: &P, step: Step) -> bool
    requires { P.Rig.fits pile.now }
    ensures { Decides result (KeptStep (P.Rig.rows pile.now) step) }
{
    match step {
        Step::Alone(t) => is_kept_transition(pile, t),
        Step::Pair(t, h) => is_kept_transition(pile, t) && is_kept_transition(pile, h),
    }
}

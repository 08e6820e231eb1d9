// A list of calls on a pile and on a whole rig, compared.

ghost use Rattle.std.specs.Prelude.{◌≡◌, ℕ, true, Decides};
ghost use Rattle.comparing.specs.Ran.{Called, Ran};
ghost use Rattle.cutting.specs.Agreement.{Pile, SameAnswers, SameReply, Agree};
ghost use Rattle.cutting.specs.Laws.{Alike};
ghost use Rattle.running.specs.States.{start_state};

use crate::same::{Pair, is_kept_step};
use cutting::kinds::RunCall;
use rig::rig::Rig;

// Makes the calls on both rigs, one after the other, and tells whether the two agreed throughout: whether before the
// first call and after each one every question and element that the pile kept was the same on both, and so was each reply
// to a step that names only transitions that the pile kept.
pub fn compare<P: Rig, W: Rig>(pile: &mut P, whole: &mut W, calls: &[RunCall]) -> bool
    requires pile { P.Rig.fits pile.old }
    requires whole { W.Rig.fits whole.old }
    ensures agreed { Decides result (Agree (W.Rig.rows whole.old) (P.Rig.rows pile.old) (W.Rig.means whole.old).state (P.Rig.means pile.old).state calls.now) }
    ensures pile_ran { Ran (P.Rig.fits pile.new) (P.Rig.rows pile.old) (P.Rig.rows pile.new) (P.Rig.means pile.old) (P.Rig.means pile.new) calls.now }
    ensures whole_ran { Ran (W.Rig.fits whole.new) (W.Rig.rows whole.old) (W.Rig.rows whole.new) (W.Rig.means whole.old) (W.Rig.means whole.new) calls.now }
    ensures whole_and_pile_are_alike { Pile (W.Rig.rows whole.old) (P.Rig.rows pile.old) → Alike (W.Rig.rows whole.old) (P.Rig.rows pile.old) }
    ensures agree_from_their_starts { Pile (W.Rig.rows whole.old) (P.Rig.rows pile.old) → (W.Rig.means whole.old).state ≡ start_state (W.Rig.rows whole.old) → (P.Rig.means pile.old).state ≡ start_state (P.Rig.rows pile.old) → result ≡ true }
{
    let mut agreed = true;
    for call in calls {
        agreed &= is_same_turn(pile, whole, *call);
    }
    let last = Pair { pile, whole }.tell_the_same();
    agreed & last
}

// Whether both tell the same before a call, and reply alike to it. Both rigs are lent to be changed: a struct of the two
// would be taken apart for each call, and what fits changes with it.
fn is_same_turn<P: Rig, W: Rig>(pile: &mut P, whole: &mut W, call: RunCall) -> bool
    requires pile { P.Rig.fits pile.old }
    requires whole { W.Rig.fits whole.old }
    ensures alike { Decides result (SameAnswers (W.Rig.rows whole.old) (P.Rig.rows pile.old) (W.Rig.means whole.old).state (P.Rig.means pile.old).state × SameReply (W.Rig.rows whole.old) (P.Rig.rows pile.old) (W.Rig.means whole.old).state (P.Rig.means pile.old).state call) }
    ensures pile_called { Called (P.Rig.fits pile.new) (P.Rig.rows pile.old) (P.Rig.rows pile.new) (P.Rig.means pile.old) (P.Rig.means pile.new) call }
    ensures whole_called { Called (W.Rig.fits whole.new) (W.Rig.rows whole.old) (W.Rig.rows whole.new) (W.Rig.means whole.old) (W.Rig.means whole.new) call }
{
    let told = Pair { pile, whole }.tell_the_same();
    let replied = is_same_call(pile, whole, call);
    told & replied
}

// Makes a call on both, and tells whether both replied alike.
fn is_same_call<P: Rig, W: Rig>(pile: &mut P, whole: &mut W, call: RunCall) -> bool
    requires pile { P.Rig.fits pile.old }
    requires whole { W.Rig.fits whole.old }
    ensures alike { Decides result (SameReply (W.Rig.rows whole.old) (P.Rig.rows pile.old) (W.Rig.means whole.old).state (P.Rig.means pile.old).state call) }
    ensures pile_called { Called (P.Rig.fits pile.new) (P.Rig.rows pile.old) (P.Rig.rows pile.new) (P.Rig.means pile.old) (P.Rig.means pile.new) call }
    ensures whole_called { Called (W.Rig.fits whole.new) (W.Rig.rows whole.old) (W.Rig.rows whole.new) (W.Rig.means whole.old) (W.Rig.means whole.new) call }
{
    match call {
        RunCall::Home => {
            pile.home();
            whole.home();
            true
        }
        RunCall::Step(step) => {
            let kept = is_kept_step(pile, step);
            let here = pile.step(step);
            let there = whole.step(step);
            !kept || here == there
        }
        RunCall::Answer(q) => Pair { pile, whole }.is_same_answer(q),
    }
}

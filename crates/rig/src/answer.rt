// Questions, answered once for every rig.

ghost use Rattle.std.specs.Prelude.{◌≡◌, ℕ};
ghost use Rattle.running.specs.Laws.{ReachedAreStates, ValuesByLaws};
ghost use Rattle.running.specs.Steps.{answer_of};

use crate::rig::Rig;
use crate::seen::Seen;
use running::kinds::NoQuestion;
use view::answers::answer_to;

// The truth of a question in the rig's state, or that the question is missing or blank.
pub fn answer<R: Rig>(rig: &R, q: usize) -> Result<bool, NoQuestion>
    requires { R.Rig.fits rig.now }
    ensures reached_are_states { ReachedAreStates }
    ensures values_by_laws { ValuesByLaws }
    ensures value { result ≡ answer_of (R.Rig.rows rig.now) (R.Rig.means rig.now).state q }
{
    answer_to(&Seen { rig }, q)
}

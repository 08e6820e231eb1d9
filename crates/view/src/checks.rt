// The checks of a step.

ghost use Rattle.std.specs.Prelude.{◌≡◌, ℕ, slice_index_or};
ghost use Rattle.running.specs.Steps.{carries, any_carries, replied, step_reply};
ghost use Rattle.running.specs.Values.{nothing, node_value};
ghost use Rattle.sheet.specs.Lookup.{connection_at, is};
ghost use Rattle.sheet.specs.Sections.{rows as rows_in_section, connections};
ghost use Rattle.view.specs.Checks.{is_in_from_mode, has_true_guard, transition_or_refusal, alone_fault, goes, are_a_pair, is_carried as carried_by, pair_fault};

use crate::typed::row;
use crate::values::{NODE_SLOTS, lists_mode, node_values, truth_at};
use crate::view::View;
use running::kinds::{Step, StepRefusal, Worth};
use sheet::rows::{Connection, Direction, Event, Transition};
use sheet::sizes::CONNECTIONS;

// The reply to a step: made, or the first check that fails. `worths` has what each node gives, and is read where it lies.
pub fn check_step<V: View>(view: &V, worths: &[Worth], step: Step) -> Result<(), StepRefusal>
    requires table { (n : ℕ) → slice_index_or worths.now n nothing ≡ node_value (V.View.rows view.now) (V.View.state view.now) n }
    ensures { result ≡ step_reply (V.View.rows view.now) (V.View.state view.now) step }
{
    Checks { view, worths }.check_step(step)
}

// A view, with what each node gives in its state.
#[derive(Drop)]
pub struct Worked<'a, V: View> {
    pub view: &'a V,
    pub worths: [Worth; NODE_SLOTS],
    ghost worked: { (n : ℕ) → slice_index_or worths n nothing ≡ node_value (V.View.rows view.now) (V.View.state view.now) n },
}

impl<'a, V: View> Worked<'a, V> {
    // Each node is worked out once.
    pub fn new(view: &'a V) -> Worked<'a, V>
        ensures { result.view.now ≡ view.now }
    {
        Worked {
            view,
            worths: node_values(view),
        }
    }

    // The reply to a step: made, or the first check that fails.
    pub fn check_step(&self, step: Step) -> Result<(), StepRefusal>
        ensures { result ≡ step_reply (V.View.rows self.now.view.now) (V.View.state self.now.view.now) step }
    {
        check_step(self.view, &self.worths, step)
    }
}

// A view, with a table of what each node gives in its state, that checks steps.
#[derive(Drop)]
struct Checks<'a, V: View> {
    view: &'a V,
    worths: &'a [Worth],
    ghost worked: { (n : ℕ) → slice_index_or worths.now n nothing ≡ node_value (V.View.rows view.now) (V.View.state view.now) n },
}

impl<'a, V: View> Checks<'a, V> {
    fn check_step(&self, step: Step) -> Result<(), StepRefusal>
        ensures { result ≡ step_reply (V.View.rows self.now.view.now) (V.View.state self.now.view.now) step }
    {
        match step {
            Step::Alone(t) => {
                let x = self.transition(t)?;
                self.check_alone(t, x)
            }
            Step::Pair(t, h) => {
                let x = self.transition(t)?;
                let y = self.transition(h)?;
                self.check_pair(t, h, x, y)
            }
        }
    }

    // A transition, or that it is missing or blank.
    fn transition(&self, t: usize) -> Result<Transition, StepRefusal>
        ensures { result ≡ transition_or_refusal (V.View.rows self.now.view.now) t }
    {
        row(self.view, t).ok_or(StepRefusal::NoTransition(t))
    }

    fn check_alone(&self, t: usize, x: Transition) -> Result<(), StepRefusal>
        ensures { result ≡ replied (alone_fault (V.View.rows self.now.view.now) (V.View.state self.now.view.now) t x) }
    {
        if x.event.is_some() {
            return Err(StepRefusal::NoStep(t));
        }
        if !self.stands_in_from_mode(x) {
            return Err(StepRefusal::OtherMode(t));
        }
        if !self.guard_is_true(x) {
            return Err(StepRefusal::GuardFalse(t));
        }
        Ok(())
    }

    fn check_pair(
        &self,
        t: usize,
        h: usize,
        x: Transition,
        y: Transition,
    ) -> Result<(), StepRefusal>
        ensures { result ≡ replied (pair_fault (V.View.rows self.now.view.now) (V.View.state self.now.view.now) t h x y) }
    {
        if !self.is_a_pair(x, y) {
            return Err(StepRefusal::NoStep(t));
        }
        if !self.stands_in_from_mode(x) {
            return Err(StepRefusal::OtherMode(t));
        }
        if !self.stands_in_from_mode(y) {
            return Err(StepRefusal::OtherMode(h));
        }
        if !self.is_carried(x.event, y.event) {
            return Err(StepRefusal::NotConnected(t));
        }
        if !self.guard_is_true(x) {
            return Err(StepRefusal::GuardFalse(t));
        }
        if !self.guard_is_true(y) {
            return Err(StepRefusal::GuardFalse(h));
        }
        Ok(())
    }

    fn stands_in_from_mode(&self, x: Transition) -> bool
        ensures { result ≡ is_in_from_mode (V.View.state self.now.view.now) x }
    {
        self.view.mode(usize::from(x.component)) == x.from
    }

    fn guard_is_true(&self, x: Transition) -> bool
        ensures { result ≡ has_true_guard (V.View.rows self.now.view.now) (V.View.state self.now.view.now) x }
    {
        truth_at(self.worths, x.guard)
    }

    // Whether there is an event, and it goes that way.
    fn goes(&self, named: Option<u8>, way: Direction) -> bool
        ensures { result ≡ goes (V.View.rows self.now.view.now) way named }
    {
        let Some(v) = named else {
            return false;
        };
        let Some(event) = row::<_, Event, _>(self.view, usize::from(v)) else {
            return false;
        };
        event.direction == way
    }

    // Whether the two are by their make a sender and a hearer.
    fn is_a_pair(&self, x: Transition, y: Transition) -> bool
        ensures { result ≡ are_a_pair (V.View.rows self.now.view.now) x y }
    {
        self.goes(x.event, Direction::Out)
            && self.goes(y.event, Direction::In)
            && x.component != y.component
    }

    // Whether connection i carries the one event to the other.
    fn carries(&self, i: usize, out: u8, into: u8) -> bool
        ensures { result ≡ is (connection_at (V.View.rows self.now.view.now) i) (carries (V.View.state self.now.view.now) out into) }
    {
        let Some(x) = row::<_, Connection, _>(self.view, i) else {
            return false;
        };
        x.out_event == out
            && x.in_event == into
            && lists_mode(x.modes, self.view.mode(usize::from(x.owner)))
    }

    // Whether some connection carries the one event to the other.
    fn any_connection_carries(&self, out: u8, into: u8) -> bool
        ensures { result ≡ any_carries (V.View.state self.now.view.now) out into (rows_in_section (V.View.rows self.now.view.now) connections) }
    {
        let count = self.view.count(CONNECTIONS).unwrap_or(0);
        (0..count).any(|i| self.carries(i, out, into))
    }

    fn is_carried(&self, sent: Option<u8>, heard: Option<u8>) -> bool
        ensures { result ≡ carried_by (V.View.rows self.now.view.now) (V.View.state self.now.view.now) sent heard }
    {
        let (Some(out), Some(into)) = (sent, heard) else {
            return false;
        };
        self.any_connection_carries(out, into)
    }
}

// Calls made on a rig.

ghost use Rattle.std.specs.Prelude.{◌≡◌};
ghost use Rattle.rig.specs.Meaning.{Moved};
ghost use Rattle.session.specs.Performed.{reply_of, state_after, reply_to_line, state_after_line};

use crate::call::Call;
use crate::line::call_of_line;
use crate::reply::Reply;
use rig::answer::answer;
use rig::rig::Rig;
use running::kinds::Step;

// Makes the call that the line asks for on the rig, and gives the reply.
pub fn reply_to_line<R: Rig>(rig: &mut R, line: &[u8]) -> Reply
    requires { R.Rig.fits rig.old }
    ensures still_fits { R.Rig.fits rig.new }
    ensures reply { result ≡ reply_to_line (R.Rig.rows rig.old) (R.Rig.means rig.old).state line.now }
    ensures moves { Moved (R.Rig.rows rig.old) (R.Rig.rows rig.new) (R.Rig.means rig.old) (R.Rig.means rig.new) (state_after_line (R.Rig.rows rig.old) (R.Rig.means rig.old).state line.now) }
{
    match call_of_line(line) {
        Some(call) => perform(rig, call),
        None => Reply::NotACall,
    }
}

fn perform<R: Rig>(rig: &mut R, call: Call) -> Reply
    requires { R.Rig.fits rig.old }
    ensures still_fits { R.Rig.fits rig.new }
    ensures reply { result ≡ reply_of (R.Rig.rows rig.old) (R.Rig.means rig.old).state call }
    ensures moves { Moved (R.Rig.rows rig.old) (R.Rig.rows rig.new) (R.Rig.means rig.old) (R.Rig.means rig.new) (state_after (R.Rig.rows rig.old) (R.Rig.means rig.old).state call) }
{
    match call {
        Call::Alone(t) => Reply::from(rig.step(Step::Alone(t))),
        Call::Pair(t, h) => Reply::from(rig.step(Step::Pair(t, h))),
        Call::Home => {
            rig.home();
            Reply::Made
        }
        Call::Answer(q) => Reply::from(answer(rig, q)),
        Call::Mode(c) => Reply::from(rig.mode(c).map(usize::from)),
        Call::Value(e) => Reply::from(rig.value(e)),
        Call::Count(section) => Reply::from(rig.count(section)),
        Call::Byte(section, row, place) => {
            Reply::from(rig.byte(section, row, place).map(usize::from))
        }
    }
}

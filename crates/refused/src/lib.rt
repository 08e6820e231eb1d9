// The words of a refusal.
#![tactic(auto)]

ghost use Rattle.std.specs.Prelude.{Some};
ghost use Rattle.refused.specs.Line.{refused_at};

use std::fmt;

// A refusal as it is told: its number, and the two numbers that say where. A number, since refusals of several types are
// told so.
#[derive(Clone, Copy, PartialEq, Eq, Debug)]
pub struct Refused {
    pub number: u8,
    pub first: usize,
    pub second: usize,
}

impl fmt::Display for Refused {
    ghost output = { λ r. Some (refused_at r.number r.first r.second) };

    fn fmt<W: fmt::Write>(&self, f: &mut fmt::Formatter<W>) -> fmt::Result {
        let Refused {
            number,
            first,
            second,
        } = *self;
        write!(f, "refused {number} {first} {second}")
    }
}

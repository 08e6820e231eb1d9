// The numbers of kinds and directions, and what it means that a row is malformed.

ghost use Rattle.std.specs.Prelude.{◌≡◌};
ghost use Rattle.sheet.specs.declared.refusal.Reason.TheVariants.{WrongByItself};
ghost use Rattle.sheet.specs.Typed.{kind_numbered, direction_numbered};

use crate::refusal::Reason;
use crate::rows::{Direction, Kind, Malformed};

impl TryFrom<u8> for Kind {
    type Error = Malformed;

    ghost try_from_gives = { λ n r. r ≡ kind_numbered n };

    fn try_from(number: u8) -> Result<Kind, Malformed> {
        match number {
            1 => Ok(Kind::Held),
            2 => Ok(Kind::Port),
            _ => Err(Malformed),
        }
    }
}

impl TryFrom<u8> for Direction {
    type Error = Malformed;

    ghost try_from_gives = { λ n r. r ≡ direction_numbered n };

    fn try_from(number: u8) -> Result<Direction, Malformed> {
        match number {
            1 => Ok(Direction::Out),
            2 => Ok(Direction::In),
            _ => Err(Malformed),
        }
    }
}

impl From<Malformed> for Reason {
    ghost from_gives = { λ _ y. y ≡ WrongByItself };

    fn from(_e: Malformed) -> Reason {
        Reason::WrongByItself
    }
}

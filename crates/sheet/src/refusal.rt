// Why bytes are no sheet.

ghost use Rattle.std.specs.Prelude.{◌≡◌, Some};
ghost use Rattle.sheet.specs.Accept.{number_of};
ghost use Rattle.sheet.specs.Words.{reason_text, refused_as};

use refused::Refused;
use std::fmt;

// The reasons, in the order of their numbers 1 to 7.
#[derive(Clone, Copy, PartialEq, Eq, Debug)]
pub enum Reason {
    EndsEarly,
    LeftOver,
    CountNotAllowed,
    WrongByItself,
    WrongByReference,
    Clash,
    ForbiddenResting,
}

// A refusal names the section and the row that it was found at. Bytes left over are found at section 9, row 0, so the
// section is a number.
#[derive(Clone, Copy, PartialEq, Eq, Debug)]
pub struct Refusal {
    pub reason: Reason,
    pub section: usize,
    pub row: usize,
}

// The number by which a reason is known.
impl From<Reason> for u8 {
    ghost from_gives = { λ y n. n ≡ number_of y };

    fn from(reason: Reason) -> u8 {
        match reason {
            Reason::EndsEarly => 1,
            Reason::LeftOver => 2,
            Reason::CountNotAllowed => 3,
            Reason::WrongByItself => 4,
            Reason::WrongByReference => 5,
            Reason::Clash => 6,
            Reason::ForbiddenResting => 7,
        }
    }
}

impl fmt::Display for Reason {
    ghost output = { λ y. Some (reason_text y) };

    fn fmt<W: fmt::Write>(&self, f: &mut fmt::Formatter<W>) -> fmt::Result {
        f.write_str(match self {
            Reason::EndsEarly => "the bytes end early",
            Reason::LeftOver => "bytes are left over",
            Reason::CountNotAllowed => "the number of rows is not allowed",
            Reason::WrongByItself => "a field is wrong by itself",
            Reason::WrongByReference => "a field is wrong by what it names",
            Reason::Clash => "the row clashes with an earlier one",
            Reason::ForbiddenResting => "a node rests on what it must not",
        })
    }
}

impl From<Refusal> for Refused {
    ghost from_gives = { λ f r. r ≡ refused_as f };

    fn from(f: Refusal) -> Refused {
        Refused {
            number: u8::from(f.reason),
            first: f.section,
            second: f.row,
        }
    }
}

// Why a line gives no case.

ghost use Rattle.std.specs.Prelude.{◌≡◌, Some};
ghost use Rattle.case_table.specs.Faults.{fault_text};
ghost use Rattle.case_table.specs.declared.fault.LineFault.TheVariants.{NoCase, OutOfMemory};

use std::alloc::AllocError;
use std::fmt;
use std::num::ParseIntError;

#[derive(Clone, Copy, PartialEq, Eq, Debug)]
pub enum LineFault {
    // The line does not have the form of a case.
    NoCase,
    OutOfMemory,
}

impl fmt::Display for LineFault {
    ghost output = { λ f. Some (fault_text f) };

    fn fmt<W: fmt::Write>(&self, f: &mut fmt::Formatter<W>) -> fmt::Result {
        f.write_str(match self {
            LineFault::NoCase => "no case",
            LineFault::OutOfMemory => "out of memory",
        })
    }
}

impl From<AllocError> for LineFault {
    ghost from_gives = { λ _ r. r ≡ OutOfMemory };

    fn from(_e: AllocError) -> Self {
        Self::OutOfMemory
    }
}

impl From<ParseIntError> for LineFault {
    ghost from_gives = { λ _ r. r ≡ NoCase };

    fn from(_e: ParseIntError) -> Self {
        Self::NoCase
    }
}

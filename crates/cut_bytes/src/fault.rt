// Why no cut was written: which part met the fault, and that part's fault, whole.

ghost use Rattle.std.specs.Prelude.{◌≡◌};
ghost use Rattle.std.specs.Option.{option_map};
ghost use Rattle.cut_bytes.specs.declared.fault.CutFault.TheVariants.{Reading, Cutting, Writing};

use cutting::kinds::NoCut;
use reader::fault::ReadFault;
use refused::Refused;
use writer::fault::TooShort;

// The numbers that the refusals of cutting and of writing are told by.
const NO_CUT: u8 = 14;

const TOO_SHORT: u8 = 15;

#[derive(Clone, Copy, PartialEq, Eq, Debug)]
pub enum CutFault {
    // The bytes are no sheet, or there is no memory for it.
    Reading(ReadFault),
    // There is no cut of the sheet for the questions.
    Cutting(NoCut),
    // The buffer is too short for the cut.
    Writing(TooShort),
}

impl CutFault {
    ghost use Rattle.cut_bytes.specs.OneCall.{numbers_of};

    // The refusal that the fault is told as. Want of memory is none.
    pub fn refused(self) -> Option<Refused>
        ensures { option_map (λ (r : Refused). (r.number, r.first, r.second)) result ≡ numbers_of self }
    {
        match self {
            CutFault::Reading(ReadFault::Refused(f)) => Some(Refused::from(f)),
            CutFault::Reading(ReadFault::OutOfMemory) => None,
            CutFault::Cutting(f) => Some(Refused {
                number: NO_CUT,
                first: f.question(),
                second: 0,
            }),
            CutFault::Writing(f) => Some(Refused {
                number: TOO_SHORT,
                first: f.needed,
                second: 0,
            }),
        }
    }
}

impl From<ReadFault> for CutFault {
    ghost from_gives = { λ f r. r ≡ Reading f };

    fn from(f: ReadFault) -> CutFault {
        CutFault::Reading(f)
    }
}

impl From<NoCut> for CutFault {
    ghost from_gives = { λ f r. r ≡ Cutting f };

    fn from(f: NoCut) -> CutFault {
        CutFault::Cutting(f)
    }
}

impl From<TooShort> for CutFault {
    ghost from_gives = { λ f r. r ≡ Writing f };

    fn from(f: TooShort) -> CutFault {
        CutFault::Writing(f)
    }
}

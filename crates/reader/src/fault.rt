// Why bytes could not be read.

ghost use Rattle.std.specs.Prelude.{◌≡◌};
ghost use Rattle.reader.specs.declared.fault.ReadFault.TheVariants.{Refused, OutOfMemory};

use sheet::refusal::Refusal;
use std::alloc::AllocError;

#[derive(Clone, Copy, PartialEq, Eq, Debug)]
pub enum ReadFault {
    // The bytes are no sheet.
    Refused(Refusal),
    // The bytes are a sheet, and there is no memory for it.
    OutOfMemory,
}

impl From<Refusal> for ReadFault {
    ghost from_gives = { λ f r. r ≡ Refused f };

    fn from(f: Refusal) -> ReadFault {
        ReadFault::Refused(f)
    }
}

impl From<AllocError> for ReadFault {
    ghost from_gives = { λ _ r. r ≡ OutOfMemory };

    fn from(_e: AllocError) -> ReadFault {
        ReadFault::OutOfMemory
    }
}

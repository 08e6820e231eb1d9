// The reader and the writer tried on a case.

use crate::case::Case;
use crate::verdict::Verdict;
use open_rig::open::OpenRig;
use reader::fault::ReadFault;
use reader::read::{read, verdict};
use rig::rig::Rig;
use std::alloc::{AllocError, Global};
use std::fmt;
use writer::fault::TooShort;
use writer::write::write;

// What the buffers are filled with before a sheet is written to them.
const FILL: u8 = 0xAA;

// By how many bytes the long buffer is longer than the sheet.
const SPARE: usize = 17;

// What comes out otherwise than expected.
#[derive(Clone, Copy, Debug)]
pub(crate) enum Wrong {
    // The verdict is another one.
    Verdict(Verdict),
    // Reading the sheet comes to another verdict.
    Reading(Verdict),
    // Writing to a buffer of so many bytes gives another reply.
    Reply {
        room: usize,
        reply: Result<usize, TooShort>,
    },
    // A buffer of so many bytes is left with other contents.
    Contents {
        room: usize,
    },
    OutOfMemory,
}

impl fmt::Display for Wrong {
    fn fmt<W: fmt::Write>(&self, f: &mut fmt::Formatter<W>) -> fmt::Result {
        match *self {
            Wrong::Verdict(found) => write!(f, "the verdict is {found}"),
            Wrong::Reading(found) => write!(f, "reading says {found}"),
            Wrong::Reply { room, reply } => {
                write!(f, "the reply for a buffer of {room} bytes is {reply:?}")
            }
            Wrong::Contents { room } => write!(
                f,
                "a buffer of {room} bytes is left with other contents"
            ),
            Wrong::OutOfMemory => write!(f, "out of memory"),
        }
    }
}

impl From<AllocError> for Wrong {
    fn from(_e: AllocError) -> Wrong {
        Wrong::OutOfMemory
    }
}

fn try_verdict(case: &Case) -> Result<(), Wrong> {
    let found = Verdict::from(verdict(&case.bytes));
    case.check(found).map_err(Wrong::Verdict)
}

// Whether the buffer begins with these bytes and is as it was behind them.
fn holds(buffer: &[u8], front: &[u8]) -> bool {
    buffer
        .strip_prefix(front)
        .is_some_and(|behind| behind.iter().all(|b| *b == FILL))
}

// Writes the rig's sheet, which was read from these bytes, to a buffer with room for so many bytes.
fn try_write<R: Rig>(heap: Global, rig: &R, bytes: &[u8], room: usize) -> Result<(), Wrong>
    requires { R.Rig.fits rig.now }
{
    let mut buffer = vec![in heap; FILL; room]?;
    let reply = write(rig, &mut buffer);
    let needed = bytes.len();
    let expected = if room < needed {
        Err(TooShort { needed })
    } else {
        Ok(needed)
    };
    if reply != expected {
        return Err(Wrong::Reply { room, reply });
    }
    let front: &[u8] = if reply.is_ok() { bytes } else { &[] };
    if holds(&buffer, front) {
        Ok(())
    } else {
        Err(Wrong::Contents { room })
    }
}

// Writes the sheet to a buffer of its length, to a longer one and to one that is a byte too short.
fn try_writes<R: Rig>(heap: Global, rig: &R, bytes: &[u8]) -> Result<(), Wrong>
    requires { R.Rig.fits rig.now }
{
    let length = bytes.len();
    try_write(heap, rig, bytes, length)?;
    try_write(heap, rig, bytes, length.saturating_add(SPARE))?;
    match length.checked_sub(1) {
        Some(short) => try_write(heap, rig, bytes, short),
        None => Ok(()),
    }
}

// Reads the sheet, and writes it if it is accepted.
fn try_read(heap: Global, case: &Case) -> Result<(), Wrong> {
    let answer = match read(heap, &case.bytes) {
        Ok(sheet) => {
            let rig = OpenRig::new(heap, sheet).map_err(|_| Wrong::OutOfMemory)?;
            try_writes(heap, &rig, &case.bytes)?;
            Ok(())
        }
        Err(ReadFault::Refused(refusal)) => Err(refusal),
        Err(ReadFault::OutOfMemory) => return Err(Wrong::OutOfMemory),
    };
    let found = Verdict::from(answer);
    case.check(found).map_err(Wrong::Reading)
}

// Tries all that a case says.
pub(crate) fn try_case(heap: Global, case: &Case) -> Result<(), Wrong> {
    try_verdict(case)?;
    try_read(heap, case)
}

// The line that opens a sheet.

ghost use Rattle.std.specs.Prelude.{◌≡◌, true, is_some, MatchResult};
ghost use Rattle.opening.specs.Opens.{Opens};
ghost use Rattle.session.specs.Lines.{opened};

use open_rig::open::OpenRig;
use reader::fault::ReadFault;
use reader::read::read;
use session::line::opened_by_line;
use session::reply::Reply;
use std::alloc::{AllocError, Global};

// A rig of the sheet that the line opens, at its start, or the reply to a line that opens none. Memory is wanted only for
// a line that has bytes.
pub fn open_by_line(heap: Global, line: &[u8]) -> Result<Result<OpenRig, Reply>, AllocError>
    ensures { MatchResult result (Opens line.now) (λ _. is_some (opened line.now) ≡ true) }
{
    let Some(bytes) = opened_by_line(heap, line)? else {
        return Ok(Err(Reply::NotACall));
    };
    let sheet = match read(heap, &bytes) {
        Ok(sheet) => sheet,
        Err(ReadFault::Refused(refusal)) => return Ok(Err(Reply::NoSheet(refusal))),
        Err(ReadFault::OutOfMemory) => return Err(AllocError),
    };
    match OpenRig::new(heap, sheet) {
        Ok(rig) => Ok(Ok(rig)),
        Err(_) => Err(AllocError),
    }
}

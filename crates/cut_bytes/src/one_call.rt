// The one-call cut.

ghost use Rattle.std.specs.Prelude.{◌≡◌};
ghost use Rattle.cut_bytes.specs.OneCall.{CutOfSheet, CutOfBytes};

use crate::fault::CutFault;
use cut_rig::cut::Cut;
use cutting::kinds::QuestionSet;
use packed_rig::packed::PackedRig;
use reader::read::read;
use rig::rig::Rig;
use std::alloc::Global;
use writer::write::write;

// The bytes of a sheet cut to some questions, at the front of a buffer, with their length.
pub fn cut_bytes(
    heap: Global,
    bytes: &[u8],
    set: QuestionSet,
    out: &mut [u8],
) -> Result<usize, CutFault>
    ensures { CutOfBytes bytes.now set out.old out.new result }
{
    let sheet = read(heap, bytes)?;
    cut_and_write(PackedRig::new(sheet), set, out)
}

// The sheet of a rig cut to some questions, at the front of a buffer, with its length.
fn cut_and_write<R: Rig + Drop>(rig: R, set: QuestionSet, out: &mut [u8]) -> Result<usize, CutFault>
    requires { R.Rig.fits rig }
    ensures { CutOfSheet (R.Rig.rows rig) set out.old out.new result }
{
    let cut = Cut::new(rig, set).map_err(|(_, fault)| fault)?;
    let length = write(&cut, out)?;
    Ok(length)
}

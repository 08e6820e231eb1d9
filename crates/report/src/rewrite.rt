// A sheet written out again.

ghost use Rattle.std.specs.Prelude.{◌≡◌, true, length};
ghost use Rattle.sheet.specs.Sections.{bytes_of};

use rig::rig::Rig;
use writer::write::write;

// Whether the rig's sheet is written as the bytes that it was read from.
pub(crate) fn is_rewritten<R: Rig>(rig: &R, bytes: &[u8], copy: &mut [u8]) -> bool
    requires fits { R.Rig.fits rig.now }
    requires same { bytes_of (R.Rig.rows rig.now) ≡ bytes.now }
    requires long { length copy.old ≡ length bytes.now }
    ensures { result ≡ true }
{
    match write(rig, copy) {
        Ok(_) => &copy[..] == bytes,
        Err(_) => false,
    }
}

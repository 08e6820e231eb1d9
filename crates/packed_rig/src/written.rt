// A byte string written out.

ghost use Rattle.std.specs.Prelude.{◌≤◌, length};
ghost use Rattle.image.specs.Bits.{number_of, low_bytes};
ghost use Rattle.writer.specs.Written.{Written};

use writer::fault::TooShort;
use writer::front::write_front;

// Writes the first bytes of a byte string to the front of a buffer.
pub(crate) fn write_first(bytes: &[u8], count: usize, out: &mut [u8]) -> Result<usize, TooShort>
    requires { count ≤ length bytes.now }
    ensures { Written (low_bytes count (number_of bytes.now)) out.old out.new result }
{
    write_front(out, &bytes[0..count])
}

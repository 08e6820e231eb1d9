// Bytes written to the front of a buffer.

ghost use Rattle.writer.specs.Written.{Written};

use crate::fault::TooShort;

// Writes the bytes to the front of a buffer, and tells their length; or refuses, with the length needed.
pub fn write_front(out: &mut [u8], bytes: &[u8]) -> Result<usize, TooShort>
    ensures { Written bytes.now out.old out.new result }
{
    let needed = bytes.len();
    if out.len() < needed {
        return Err(TooShort { needed });
    }
    out[..needed].copy_from_slice(bytes);
    Ok(needed)
}

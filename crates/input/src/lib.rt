// Input read into a buffer.
#![tactic(auto)]

ghost use Rattle.std.specs.Prelude.{◌≤◌, ◌<◌, length, IfOk};
ghost use Rattle.std.specs.Io.KnownBytes.{Consumes, IsAtEnd};

use std::io;
use std::io::Read;

// Fills the buffer from the input, and gives the bytes that came. What lies behind is not read.
pub fn read_input<'a, R: Read>(input: &mut R, buffer: &'a mut [u8]) -> io::Result<&'a [u8]>
    ensures room { IfOk result (λ bytes. length bytes.now ≤ length buffer.old) }
    ensures bytes { IfOk result (λ bytes. Consumes (R.remaining input.old) (R.remaining input.new) bytes.now) }
    ensures all { IfOk result (λ bytes. length bytes.now < length buffer.old → IsAtEnd (R.remaining input.new)) }
{
    // Of `read_to_end` nothing is promised here: the bytes that are still to come are known of few readers.
    let mut len = 0;
    while len < buffer.len() {
        let n = input.read(&mut buffer[len..])?;
        if n == 0 {
            break;
        }
        len += n;
    }
    Ok(&buffer[..len])
}

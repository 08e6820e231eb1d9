// Bytes as a table writes them.

ghost use Rattle.std.specs.Prelude.{◌≡◌, ◌↔◌, IfOk, Some, None, Err};
ghost use Rattle.case_table.specs.declared.fault.LineFault.TheVariants.{NoCase};
ghost use Rattle.case_table.specs.Bytes.{bytes_in};

use crate::fault::LineFault;
use session::hex::hex_bytes;
use std::alloc::Global;

// The bytes that two hexadecimal digits each stand for, or none for `-`.
pub fn parse_bytes(heap: Global, text: &str) -> Result<Vec<u8>, LineFault>
    ensures bytes { IfOk result (λ v. bytes_in text.now ≡ Some v.items) }
    ensures no_case { (result ≡ Err NoCase) ↔ (bytes_in text.now ≡ None) }
{
    if text == "-" {
        return Ok(Vec::new(heap));
    }
    hex_bytes(heap, text.as_bytes())?.ok_or(LineFault::NoCase)
}

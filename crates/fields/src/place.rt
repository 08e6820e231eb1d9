// Where each field stands.

ghost use Rattle.std.specs.Prelude.{◌≡◌, ℕ, ◌≤◌, length};
ghost use Rattle.image.specs.Bits.{bytes_for};
ghost use Rattle.image.specs.Reading.{widths, total, place};
ghost use Rattle.reader.specs.Means.{rows_held};

use crate::width::field_bits;
use reader::accepted::AcceptedSheet;
use sheet::sizes::{COMPONENTS, ELEMENTS};

// The bits before a field.
pub(crate) fn bits_before(sheet: &AcceptedSheet, i: usize) -> usize
    requires { i ≤ length (widths (rows_held sheet.now)) }
    ensures { result ≡ place (widths (rows_held sheet.now)) i }
{
    (0..i).map(|k| field_bits(sheet, k) as usize).sum()
}

// The bytes of an image.
pub fn image_length(sheet: &AcceptedSheet) -> usize
    ensures value { result ≡ bytes_for (total (widths (rows_held sheet.now))) }
    ensures few { result ≤ 136 }
{
    let components = sheet.count(COMPONENTS).unwrap_or(0);
    let elements = sheet.count(ELEMENTS).unwrap_or(0);
    bits_before(sheet, components + elements).div_ceil(8)
}

// Fields read and written.

ghost use Rattle.std.specs.Prelude.{◌≡◌, ℕ, ◌+◌, ◌^◌, ◌<◌, ◌≤◌, length, slice_index, slice_set};
ghost use Rattle.image.specs.Bits.{number_of};
ghost use Rattle.image.specs.Reading.{widths, total, place, numbers_in};
ghost use Rattle.reader.specs.Means.{rows_held};

use crate::place::bits_before;
use crate::width::field_bits;
use bits::string::BitField;
use image::sizes::IMAGE_BYTES;
use reader::accepted::AcceptedSheet;

// The bits in which a field stands.
fn field_at(sheet: &AcceptedSheet, i: usize) -> BitField
    requires { i < length (widths (rows_held sheet.now)) }
    ensures at { result.at ≡ place (widths (rows_held sheet.now)) i }
    ensures bits { result.bits ≡ slice_index (widths (rows_held sheet.now)) i }
    ensures inside { result.at + result.bits ≤ 1088 }
{
    BitField {
        at: bits_before(sheet, i),
        bits: field_bits(sheet, i),
    }
}

// The number in a field. That there is a field i is asked by four functions: a struct for it would be made for one call each.
pub fn number_in_field(sheet: &AcceptedSheet, bytes: &[u8; IMAGE_BYTES], i: usize) -> u32
    requires { i < length (widths (rows_held sheet.now)) }
    ensures value { result ≡ slice_index (numbers_in (widths (rows_held sheet.now)) (number_of bytes.now)) i }
    ensures room { result < 2 ^ slice_index (widths (rows_held sheet.now)) i }
{
    field_at(sheet, i).number(bytes)
}

// Puts a number into a field, and leaves the other fields and the spare bits.
pub fn put_in_field(sheet: &AcceptedSheet, bytes: &mut [u8; IMAGE_BYTES], i: usize, number: u32)
    requires inside { i < length (widths (rows_held sheet.now)) }
    requires room { number < 2 ^ slice_index (widths (rows_held sheet.now)) i }
    requires spare { number_of bytes.old < 2 ^ total (widths (rows_held sheet.now)) }
    ensures numbers { numbers_in (widths (rows_held sheet.now)) (number_of bytes.new) ≡ slice_set (numbers_in (widths (rows_held sheet.now)) (number_of bytes.old)) i number }
    ensures still_spare { number_of bytes.new < 2 ^ total (widths (rows_held sheet.now)) }
{
    field_at(sheet, i).put(bytes, number);
}

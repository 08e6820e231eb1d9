// The bits of each field.

ghost use Rattle.std.specs.Prelude.{◌≡◌, ℕ, ◌<◌, ◌≤◌, length, slice_index};
ghost use Rattle.image.specs.Reading.{widths};
ghost use Rattle.reader.specs.Means.{rows_held};
ghost use Rattle.sheet.specs.Lookup.{component_at, element_at};
ghost use Rattle.fields.specs.Held.{bits_of_mode, bits_of_value};

use bits::length::bit_length;
use reader::accepted::AcceptedSheet;
use sheet::rows::{Component, Element, Kind};
use sheet::sizes::COMPONENTS;

// The bits of a component's mode.
fn mode_bits(sheet: &AcceptedSheet, c: usize) -> u32
    ensures { result ≡ bits_of_mode (component_at (rows_held sheet.now) c) }
{
    sheet
        .row(c)
        .map_or(0, |x: Component| bit_length(u32::from(x.modes)))
}

// The bits of an element's value; none unless it is held.
fn value_bits(sheet: &AcceptedSheet, e: usize) -> u32
    ensures { result ≡ bits_of_value (element_at (rows_held sheet.now) e) }
{
    match sheet.row(e) {
        Some(
            Element {
                kind: Kind::Held,
                lowest,
                highest,
                ..
            },
        ) => bit_length(highest.abs_diff(lowest)),
        _ => 0,
    }
}

// The bits of a field: first those of the modes, then those of the values. That there is a field i is asked by four
// functions: a struct for it would be made for one call each.
pub(crate) fn field_bits(sheet: &AcceptedSheet, i: usize) -> u32
    requires { i < length (widths (rows_held sheet.now)) }
    ensures value { result ≡ slice_index (widths (rows_held sheet.now)) i }
    ensures few { result ≤ 16 }
{
    let components = sheet.count(COMPONENTS).unwrap_or(0);
    if i < components {
        mode_bits(sheet, i)
    } else {
        value_bits(sheet, i - components)
    }
}

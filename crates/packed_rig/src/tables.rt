// The tables of a packed rig.

ghost use Rattle.std.specs.Prelude.{◌^◌, ◌<◌};
ghost use Rattle.image.specs.Bits.{number_of};
ghost use Rattle.image.specs.Reading.{widths, total};
ghost use Rattle.reader.specs.Means.{rows_held};

use image::sizes::IMAGE_BYTES;
use reader::accepted::AcceptedSheet;

// A state as a bit string: the image of the state, with 0 in every bit behind it.
#[derive(Drop)]
pub(crate) struct PackedState {
    pub(crate) bytes: [u8; IMAGE_BYTES],
}

// A sheet, and its packed state.
#[derive(Drop)]
pub(crate) struct Tables {
    pub(crate) sheet: AcceptedSheet,
    pub(crate) state: PackedState,
    ghost spare: { number_of state.bytes < 2 ^ total (widths (rows_held sheet)) },
}

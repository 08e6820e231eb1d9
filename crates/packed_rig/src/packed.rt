// The packed rig itself.

ghost use Rattle.std.specs.Prelude.{◌≡◌, ℕ, List};
ghost use Rattle.image.specs.Fields.{image as image_of};
ghost use Rattle.image.specs.Laws.{ImagesReadBack, ImagesTellStates, LengthsBySheets};
ghost use Rattle.reader.specs.Means.{rows_held};
ghost use Rattle.writer.specs.Written.{Written};
ghost use Rattle.packed_rig.specs.Packed.{rows_of, meaning_of, Fits, AtStart};
ghost use Rattle.std.proofs.Common.{rules};

use crate::tables::{PackedState, Tables};
use crate::written::write_first;
use fields::place::image_length;
use image::sizes::IMAGE_BYTES;
use moves::home::go_home;
use moves::step::make_step;
use reader::accepted::AcceptedSheet;
use rig::rig::Rig;
use running::kinds::{Step, StepRefusal};
use view::answers::{mode_told, value_told};
use view::view::View;
use writer::fault::TooShort;

// A rig whose state is a bit string.
#[derive(Drop)]
pub struct PackedRig {
    tables: Tables,
}

impl PackedRig {
    // A rig of the sheet, at its start.
    pub fn new(sheet: AcceptedSheet) -> PackedRig
        ensures { AtStart (rows_held sheet) result }
    {
        let mut tables = Tables {
            sheet,
            state: PackedState {
                bytes: [0; IMAGE_BYTES],
            },
        };
        go_home(&mut tables);
        PackedRig { tables }
    }

    // Writes the image of the rig's state to the front of a buffer, and tells its length; or refuses, with the length
    // needed.
    pub fn image(&self, out: &mut [u8]) -> Result<usize, TooShort>
        requires { Fits self.now }
        ensures written { Written (image_of (rows_of self.now) (meaning_of self.now).state) out.old out.new result }
        ensures images_read_back { ImagesReadBack }
        ensures images_tell_states { ImagesTellStates }
        ensures lengths_by_sheets { LengthsBySheets }
    {
        let length = image_length(&self.tables.sheet);
        write_first(&self.tables.state.bytes, length, out)
    }
}

// Each call is one line over the tables, as in the open rig. A generic rig over tables would stand in a crate of its own,
// where neither rig could have its maker.
impl Rig for PackedRig {
    ghost rows = { rows_of };

    ghost means = { meaning_of };

    ghost fits = { Fits };

    ghost sound = { Prim.search rules };

    fn count(&self, section: usize) -> Option<usize> {
        self.tables.count(section)
    }

    fn byte(&self, section: usize, row: usize, place: usize) -> Option<u8> {
        self.tables.byte(section, row, place)
    }

    fn mode(&self, component: usize) -> Option<u8> {
        mode_told(&self.tables, component)
    }

    fn value(&self, element: usize) -> Option<i32> {
        value_told(&self.tables, element)
    }

    fn home(&mut self) {
        go_home(&mut self.tables);
    }

    fn step(&mut self, step: Step) -> Result<(), StepRefusal> {
        make_step(&mut self.tables, step)
    }
}

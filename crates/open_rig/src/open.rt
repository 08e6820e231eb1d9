// The open rig itself.

ghost use Rattle.std.specs.Prelude.{◌≡◌, ℕ, List};
ghost use Rattle.reader.specs.Means.{rows_held};
ghost use Rattle.open_rig.specs.Open.{rows_of, meaning_of, Fits, MadeOf};
ghost use Rattle.std.proofs.Common.{rules};

use crate::record::{ComponentRecord, ElementRecord};
use crate::tables::Tables;
use moves::home::go_home;
use moves::step::make_step;
use reader::accepted::AcceptedSheet;
use rig::rig::Rig;
use running::kinds::{Step, StepRefusal};
use sheet::sizes::{COMPONENTS, ELEMENTS};
use std::alloc::Global;
use view::answers::{mode_told, value_told};
use view::view::View;

// A rig with a record for each component and one for each element.
#[derive(Drop)]
pub struct OpenRig {
    tables: Tables,
}

impl OpenRig {
    // A rig of the sheet, at its start. Where there is no memory for it, the sheet comes back.
    pub fn new(heap: Global, sheet: AcceptedSheet) -> Result<OpenRig, AcceptedSheet>
        ensures { MadeOf sheet result }
    {
        let components = sheet.count(COMPONENTS).unwrap_or(0);
        let elements = sheet.count(ELEMENTS).unwrap_or(0);
        let Ok(components) = vec![in heap; ComponentRecord { mode: 0 }; components] else {
            return Err(sheet);
        };
        let Ok(elements) = vec![in heap; ElementRecord { value: 0 }; elements] else {
            return Err(sheet);
        };
        let mut tables = Tables {
            sheet,
            components,
            elements,
        };
        go_home(&mut tables);
        Ok(OpenRig { tables })
    }
}

// Each call is the line that it is for any rig with such tables: a trait between would have the same lines.
impl Rig for OpenRig {
    ghost rows = { rows_of };

    ghost means = { meaning_of };

    ghost fits = { Fits };

    ghost sound = { Prim.search rules };

    fn count(&self, section: usize) -> Option<usize> {
        self.tables.count(section)
    }

    fn byte(&self, section: usize, row: usize, place: usize) -> Option<u8> {
        self.tables.byte(section, row, place)
    }

    fn mode(&self, component: usize) -> Option<u8> {
        mode_told(&self.tables, component)
    }

    fn value(&self, element: usize) -> Option<i32> {
        value_told(&self.tables, element)
    }

    fn home(&mut self) {
        go_home(&mut self.tables);
    }

    fn step(&mut self, step: Step) -> Result<(), StepRefusal> {
        make_step(&mut self.tables, step)
    }
}

// Reading and changing the tables.

ghost use Rattle.std.specs.Prelude.{◌≡◌, ℕ, true, List};
ghost use Rattle.running.specs.States.{State};
ghost use Rattle.packed_rig.specs.Tables.{rows_in, state_in};
ghost use Rattle.packed_rig.specs.Places.{placed_bytes};

use crate::tables::Tables;
use fields::field::{number_in_field, put_in_field};
use moves::store::Store;
use sheet::rows::Element;
use sheet::sizes::COMPONENTS;
use view::view::View;

// Both `count` and `byte` are those of the sheet, in each rig that has one; 0 where there is no field, as in a state.
impl View for Tables {
    ghost rows = { rows_in };

    ghost state = { state_in };

    ghost accepts = { λ x. x.sheet.accepted };

    fn count(&self, section: usize) -> Option<usize> {
        self.sheet.count(section)
    }

    fn byte(&self, section: usize, row: usize, place: usize) -> Option<u8> {
        self.sheet.byte(section, row, place)
    }

    fn mode(&self, component: usize) -> u8 {
        let components = self.sheet.count(COMPONENTS).unwrap_or(0);
        if component < components {
            number_in_field(&self.sheet, &self.state.bytes, component) as u8
        } else {
            0
        }
    }

    fn held(&self, element: usize) -> i32 {
        let Some(x) = self.sheet.row::<_, Element>(element) else {
            return 0;
        };
        let components = self.sheet.count(COMPONENTS).unwrap_or(0);
        let number = number_in_field(&self.sheet, &self.state.bytes, components + element);
        x.lowest + number as i32
    }
}

impl Store for Tables {
    ghost placed = { λ x. placed_bytes (rows_in x) x.state.bytes };

    fn set_mode(&mut self, component: usize, mode: u8) {
        put_in_field(
            &self.sheet,
            &mut self.state.bytes,
            component,
            u32::from(mode),
        );
    }

    fn set_value(&mut self, element: usize, value: i32) {
        let Some(x) = self.sheet.row::<_, Element>(element) else {
            return;
        };
        let components = self.sheet.count(COMPONENTS).unwrap_or(0);
        put_in_field(
            &self.sheet,
            &mut self.state.bytes,
            components + element,
            value.abs_diff(x.lowest),
        );
    }
}

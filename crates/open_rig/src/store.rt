// Reading and changing the tables.

ghost use Rattle.std.specs.Prelude.{◌≡◌, ℕ, true, List};
ghost use Rattle.running.specs.States.{State};
ghost use Rattle.open_rig.specs.Tables.{rows_in, state_in};

use crate::tables::Tables;
use moves::store::Store;
use view::view::View;

// Both `count` and `byte` are those of the sheet, in each rig that has one; 0 where there is no record, as in a state.
impl View for Tables {
    ghost rows = { rows_in };

    ghost state = { state_in };

    ghost accepts = { λ x. x.sheet.accepted };

    fn count(&self, section: usize) -> Option<usize> {
        self.sheet.count(section)
    }

    fn byte(&self, section: usize, row: usize, place: usize) -> Option<u8> {
        self.sheet.byte(section, row, place)
    }

    fn mode(&self, component: usize) -> u8 {
        self.components
            .get(component)
            .map(|record| record.mode)
            .unwrap_or(0)
    }

    fn held(&self, element: usize) -> i32 {
        self.elements
            .get(element)
            .map(|record| record.value)
            .unwrap_or(0)
    }
}

impl Store for Tables {
    ghost placed = { λ x. x.placed };

    fn set_mode(&mut self, component: usize, mode: u8) {
        if let Some(record) = self.components.get_mut(component) {
            record.mode = mode;
        }
    }

    fn set_value(&mut self, element: usize, value: i32) {
        if let Some(record) = self.elements.get_mut(element) {
            record.value = value;
        }
    }
}

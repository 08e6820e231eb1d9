// The tables of an open rig.

ghost use Rattle.moves.specs.Places.{Placed};
ghost use Rattle.open_rig.specs.Records.{state_of_records};
ghost use Rattle.reader.specs.Means.{rows_held};

use crate::record::{ComponentRecord, ElementRecord};
use reader::accepted::AcceptedSheet;

// A sheet, with a record for each component and one for each element.
#[derive(Drop)]
pub(crate) struct Tables {
    pub(crate) sheet: AcceptedSheet,
    pub(crate) components: Vec<ComponentRecord>,
    pub(crate) elements: Vec<ElementRecord>,
    ghost placed: { Placed (rows_held sheet) (state_of_records components.items elements.items) },
}

// The verdict on bytes, and the sheet that they are.

ghost use Rattle.std.specs.Prelude.{◌≡◌, ℕ, true, IfOk};
ghost use Rattle.layout.specs.Laid.{rows_of};
ghost use Rattle.sheet.specs.Accept.{accepted as accepts, verdict as verdict_on};
ghost use Rattle.sheet.specs.Laws.{NamesTheFirstFault, AcceptanceIsKeepingTheRules};
ghost use Rattle.reader.specs.Means.{rows_held};
ghost use Rattle.reader.specs.Reads.{Reads, WritesTheSameBytes, KeepsEveryRule};

use crate::accepted::AcceptedSheet;
use crate::fault::ReadFault;
use layout::lay_out;
use layout::rows::Layout;
use rules::walk::try_rows;
use sheet::refusal::Refusal;
use std::alloc::{AllocError, Global};

// The verdict on any bytes: accepted, or refused by the first fault.
pub fn verdict(bytes: &[u8]) -> Result<(), Refusal>
    ensures value { result ≡ verdict_on bytes.now }
    ensures names_the_first_fault { NamesTheFirstFault bytes.now result }
    ensures acceptance_is_keeping_the_rules { AcceptanceIsKeepingTheRules }
{
    let sections = lay_out(bytes)?;
    try_rows(&sections)
}

// The sheet that the bytes are.
pub fn read(heap: Global, bytes: &[u8]) -> Result<AcceptedSheet, ReadFault>
    ensures answer { Reads bytes.now result }
    ensures writes_the_same_bytes { WritesTheSameBytes bytes.now result }
    ensures keeps_every_rule { KeepsEveryRule result }
{
    let layout = lay_out(bytes)?;
    try_rows(&layout)?;
    let sheet = copied(heap, &layout)?;
    Ok(sheet)
}

// The rows of a layout that is accepted, copied.
fn copied(heap: Global, layout: &Layout) -> Result<AcceptedSheet, AllocError>
    requires { accepts (rows_of layout.now) ≡ true }
    ensures { IfOk result (λ s. rows_held s ≡ rows_of layout.now) }
{
    let components = Vec::from_slice(heap, layout.components)?;
    let elements = Vec::from_slice(heap, layout.elements)?;
    let events = Vec::from_slice(heap, layout.events)?;
    let nodes = Vec::from_slice(heap, layout.nodes)?;
    let flows = Vec::from_slice(heap, layout.flows)?;
    let connections = Vec::from_slice(heap, layout.connections)?;
    let transitions = Vec::from_slice(heap, layout.transitions)?;
    let settings = Vec::from_slice(heap, layout.settings)?;
    let questions = Vec::from_slice(heap, layout.questions)?;
    Ok(AcceptedSheet {
        components,
        elements,
        events,
        nodes,
        flows,
        connections,
        transitions,
        settings,
        questions,
    })
}

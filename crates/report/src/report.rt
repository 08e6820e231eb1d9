// The whole of what is said of some bytes.

ghost use Rattle.std.specs.Prelude.{◌≡◌, ◌++◌, length, IfOk, string_bytes, OnOk};
ghost use Rattle.reader.specs.Means.{rows_held};
ghost use Rattle.sheet.specs.Sections.{bytes_of};
ghost use Rattle.report.specs.Text.{refused_text, rewritten_line, contents_text, accepted_text, report_of};

use crate::lines::{add_components, add_counts, add_questions};
use crate::names::name_of_section;
use crate::rewrite::is_rewritten;
use open_rig::open::OpenRig;
use reader::accepted::AcceptedSheet;
use reader::fault::ReadFault;
use reader::read::read;
use refused::Refused;
use rig::rig::Rig;
use sheet::refusal::Refusal;
use std::alloc::{AllocError, Global};

// What is said of the bytes: whether they are accepted, and what is in them or why not.
pub fn report(heap: Global, bytes: &[u8]) -> Result<String, AllocError>
    ensures { IfOk result (λ t. string_bytes t ≡ report_of bytes.now) }
{
    match read(heap, bytes) {
        Ok(sheet) => report_of_sheet(heap, sheet, bytes),
        Err(ReadFault::Refused(f)) => report_of_refusal(heap, f),
        Err(ReadFault::OutOfMemory) => Err(AllocError),
    }
}

fn report_of_refusal(heap: Global, f: Refusal) -> Result<String, AllocError>
    ensures { IfOk result (λ t. string_bytes t ≡ refused_text f) }
{
    let refused = Refused::from(f);
    let Refusal {
        reason,
        section,
        row,
    } = f;
    let name = name_of_section(section);
    format!(in heap; "{refused}\nsection {section} ({name}), row {row}: {reason}\n")
}

// Writes the rig's sheet out again, and adds that the bytes are the same.
fn add_rewriting<R: Rig>(
    text: &mut String,
    heap: Global,
    rig: &R,
    bytes: &[u8],
) -> Result<(), AllocError>
    requires fits { R.Rig.fits rig.now }
    requires same { bytes_of (R.Rig.rows rig.now) ≡ bytes.now }
    ensures { OnOk result (string_bytes text.new ≡ string_bytes text.old ++ rewritten_line (length bytes.now)) }
{
    let n = bytes.len();
    let mut copy = vec![in heap; 0u8; n]?;
    if is_rewritten(rig, bytes, &mut copy) {
        writeln!(text, "written out again: the same {n} bytes")
    } else {
        writeln!(text, "written out again: other bytes")
    }
}

// What is in the sheet, line by line.
fn contents_of_sheet(heap: Global, sheet: &AcceptedSheet) -> Result<String, AllocError>
    ensures { IfOk result (λ t. string_bytes t ≡ contents_text (rows_held sheet.now)) }
{
    let mut text = String::from_str(heap, "accepted\n")?;
    add_counts(&mut text, sheet)?;
    add_components(&mut text, sheet)?;
    add_questions(&mut text, sheet)?;
    Ok(text)
}

fn report_of_sheet(heap: Global, sheet: AcceptedSheet, bytes: &[u8]) -> Result<String, AllocError>
    requires { bytes_of (rows_held sheet) ≡ bytes.now }
    ensures { IfOk result (λ t. string_bytes t ≡ accepted_text (rows_held sheet)) }
{
    let mut text = contents_of_sheet(heap, &sheet)?;
    let Ok(rig) = OpenRig::new(heap, sheet) else {
        return Err(AllocError);
    };
    add_rewriting(&mut text, heap, &rig, bytes)?;
    Ok(text)
}

// What the program writes for its input.

ghost use Rattle.std.specs.Prelude.{◌≡◌, IfOk};
ghost use Rattle.cut_bytes.specs.Reply.{set_in, sheet_in, LineOf, ReplyTo};

use crate::fault::CutFault;
use crate::one_call::cut_bytes;
use cutting::kinds::QuestionSet;
use std::alloc::{AllocError, Global};

// The cut's bytes, or the line of the refusal. The input is a set of questions, two bytes with the low byte first, and
// the bytes of a sheet; under two bytes count as no bytes of a sheet.
pub fn reply_to_input(heap: Global, input: &[u8]) -> Result<Vec<u8>, AllocError>
    ensures { IfOk result (λ v. ReplyTo input.now v.items) }
{
    let sheet = sheet_in(input);
    let mut out = vec![in heap; 0u8; sheet.len()]?;
    match cut_bytes(heap, sheet, set_in(input), &mut out) {
        Ok(_) => Ok(out),
        Err(fault) => line_of_fault(heap, fault),
    }
}

// The line of a fault. Want of memory has none, and stays want of memory.
fn line_of_fault(heap: Global, fault: CutFault) -> Result<Vec<u8>, AllocError>
    ensures { IfOk result (λ v. LineOf fault v.items) }
{
    let Some(refused) = fault.refused() else {
        return Err(AllocError);
    };
    let line = format!(in heap; "{refused}\n")?;
    Ok(line.into_bytes())
}

// The set of questions at the front of the input. A byte that is missing counts as 0.
fn set_in(input: &[u8]) -> QuestionSet
    ensures { result ≡ set_in input.now }
{
    let low = input.first().copied().unwrap_or(0);
    let high = input.get(1).copied().unwrap_or(0);
    u16::from_le_bytes([low, high])
}

// The bytes of the sheet in the input.
fn sheet_in(input: &[u8]) -> &[u8]
    ensures { result.now ≡ sheet_in input.now }
{
    input.get(2..).unwrap_or(&[])
}

// The cases of a table, each a line `NAME SET SHEET REPLY`.

use case_table::fault::LineFault;
use case_table::hex::parse_bytes;
use std::alloc::Global;

#[derive(Drop)]
pub(crate) struct Case<'a> {
    pub(crate) name: &'a str,
    // What the program would read.
    pub(crate) input: Vec<u8>,
    // What it would write.
    pub(crate) expected: Vec<u8>,
}

impl<'a> Case<'a> {
    pub(crate) fn parse(heap: Global, line: &'a str) -> Result<Case<'a>, LineFault> {
        let words: Vec<&'a str> = line.split_whitespace().collect(heap)?;
        let [name, set, sheet, reply @ ..] = words.as_slice() else {
            return Err(LineFault::NoCase);
        };
        Ok(Case {
            name,
            input: parse_input(heap, set, sheet)?,
            expected: parse_reply(heap, reply)?,
        })
    }
}

// The set of questions, low byte first, and the sheet; or the sheet alone where the set is `-`.
fn parse_input(heap: Global, set: &str, sheet: &str) -> Result<Vec<u8>, LineFault> {
    let mut input = Vec::new(heap);
    if set != "-" {
        let set: u16 = set.parse()?;
        input.extend_from_slice(&set.to_le_bytes())?;
    }
    input.extend_from_slice(&parse_bytes(heap, sheet)?)?;
    Ok(input)
}

fn parse_reply(heap: Global, words: &[&str]) -> Result<Vec<u8>, LineFault> {
    match words {
        [cut] => parse_bytes(heap, cut),
        ["refused", number, a, b] => {
            let line = format!(in heap; "refused {number} {a} {b}\n")?;
            Ok(line.into_bytes())
        }
        _ => Err(LineFault::NoCase),
    }
}

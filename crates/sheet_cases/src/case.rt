// The cases of a table, each a line `NAME HEX EXPECTED`.

use crate::verdict::Verdict;
use case_table::fault::LineFault;
use case_table::hex::parse_bytes;
use refused::Refused;
use std::alloc::Global;

#[derive(Drop)]
pub(crate) struct Case<'a> {
    pub(crate) name: &'a str,
    pub(crate) bytes: Vec<u8>,
    pub(crate) expected: Verdict,
}

impl<'a> Case<'a> {
    pub(crate) fn parse(heap: Global, line: &'a str) -> Result<Case<'a>, LineFault> {
        let words: Vec<&'a str> = line.split_whitespace().collect(heap)?;
        let [name, hex, verdict @ ..] = words.as_slice() else {
            return Err(LineFault::NoCase);
        };
        Ok(Case {
            name,
            bytes: parse_bytes(heap, hex)?,
            expected: parse_verdict(verdict)?,
        })
    }

    // That a verdict is the expected one, or the verdict.
    pub(crate) fn check(&self, found: Verdict) -> Result<(), Verdict> {
        if found == self.expected {
            Ok(())
        } else {
            Err(found)
        }
    }
}

fn parse_verdict(words: &[&str]) -> Result<Verdict, LineFault> {
    let verdict = match words {
        ["accepted"] => Ok(()),
        ["refused", number, section, row] => Err(Refused {
            number: number.parse()?,
            first: section.parse()?,
            second: row.parse()?,
        }),
        _ => return Err(LineFault::NoCase),
    };
    Ok(Verdict(verdict))
}

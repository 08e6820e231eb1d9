// Runs the cases of a table on standard input against the reader and the writer of sheets, and prints a line for
// each. A line of the table is blank, a comment that begins with `#`, or a case `NAME HEX EXPECTED`: the bytes in
// hexadecimal, `-` for none, and `accepted` or `refused NUMBER SECTION ROW`. What goes otherwise begins with `WRONG`.
#![tactic(auto)]

mod case;
mod trial;
mod verdict;

use crate::case::Case;
use crate::trial::try_case;
use case_table::tally::try_cases;
use std::alloc::Global;
use std::io;

// Tries the case on a line, prints what comes out, and tells whether that is what the case expects.
fn run_line(rt: &impl Print, heap: Global, line: &str) -> io::Result<bool> {
    let case = match Case::parse(heap, line) {
        Ok(case) => case,
        Err(fault) => {
            println!(rt; "WRONG {fault}: {line}")?;
            return Ok(false);
        }
    };
    let name = case.name;
    let expected = case.expected;
    match try_case(heap, &case) {
        Ok(()) => {
            println!(rt; "{name}: {expected}")?;
            Ok(true)
        }
        Err(wrong) => {
            println!(rt; "WRONG {name}: {expected} is expected, but {wrong}")?;
            Ok(false)
        }
    }
}

fn main(rt: HostRuntime) -> io::Result<()> {
    let heap = rt.alloc();
    let tally = try_cases(
        heap,
        rt.stdin(),
        str::trim,
        |line| run_line(&rt, heap, line),
    )?;
    println!(rt; "{tally}")
}

#[cfg(test)]
mod tests {
    use sheet::decode::SectionRow;
    use sheet::rows::{Component, Flow};
    use std::test::Fail;

    #[test]
    fn sections_have_the_rows_of_the_format(rt: HostRuntime) -> Result<(), Fail> {
        for (count, component, flow) in [
            (0, false, true),
            (1, true, true),
            (16, true, true),
            (17, false, true),
            (64, false, true),
            (65, false, false),
        ] {
            assert_eq!(rt; Component::allows(count), component, "{count} components");
            assert_eq!(rt; Flow::allows(count), flow, "{count} flows");
        }
        Ok(())
    }
}

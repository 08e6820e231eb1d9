// Runs the cases of a table on standard input against the cut in one call, and prints a line for each. A line of the
// table is blank, a comment that begins with `#`, or a case `NAME SET SHEET REPLY`. SET is the set of questions in base
// ten, bit q for question q. SHEET is its bytes in hexadecimal, `-` for none. REPLY is the cut in hexadecimal, or
// `refused NUMBER A B`. Where SET is `-`, the input has no set, and SHEET is all of it. What goes otherwise begins with
// `WRONG`.
#![tactic(auto)]

mod case;
mod trial;

use crate::case::Case;
use crate::trial::differing_reply;
use case_table::tally::try_cases;
use std::alloc::Global;

// Tries the case on a line, prints what comes out, and tells whether that is what the case expects.
fn run_line(rt: &impl Print, heap: Global, line: &str) -> anyhow::Result<bool> {
    let case = match Case::parse(heap, line) {
        Ok(case) => case,
        Err(fault) => {
            println!(rt; "WRONG {fault}: {line}")?;
            return Ok(false);
        }
    };
    let name = case.name;
    match differing_reply(heap, &case)? {
        None => {
            println!(rt; "{name} ok")?;
            Ok(true)
        }
        Some(reply) => {
            println!(rt; "WRONG {name}: the reply is {reply}")?;
            Ok(false)
        }
    }
}

fn main(rt: HostRuntime) -> anyhow::Result<()> {
    let heap = rt.alloc();
    let tally = try_cases(
        heap,
        rt.stdin(),
        str::trim,
        |line| run_line(&rt, heap, line),
    )?;
    println!(rt; "{tally}")?;
    Ok(())
}

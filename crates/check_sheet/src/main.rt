// Reads a sheet from standard input and says whether it is accepted, and what is in it or why not.
#![tactic(auto)]

use input::read_input;
use report::report::report;
use sheet::sizes::INPUT_LIMIT;

fn main(rt: HostRuntime) -> anyhow::Result<()> {
    let mut buffer = [0u8; INPUT_LIMIT];
    let bytes = read_input(&mut rt.stdin(), &mut buffer)?;
    let text = report(rt.alloc(), bytes)?;
    print!(rt; "{text}")?;
    Ok(())
}

// Cuts a sheet to some questions: reads a set of questions, two bytes with the low byte first, and a sheet from standard
// input, and writes the bytes of the cut, or the line of the refusal.
#![tactic(auto)]

use cut_bytes::reply::reply_to_input;
use input::read_input;
use sheet::sizes::INPUT_LIMIT;
use std::io::Write;

fn main(rt: HostRuntime) -> anyhow::Result<()> {
    let mut buffer = [0u8; INPUT_LIMIT];
    let bytes = read_input(&mut rt.stdin(), &mut buffer)?;
    let reply = reply_to_input(rt.alloc(), bytes)?;
    rt.stdout().write_all(&reply)?;
    Ok(())
}

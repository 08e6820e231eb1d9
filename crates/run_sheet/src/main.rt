// Runs a session on a sheet. The first line of standard input is `open` and the sheet in hexadecimal; each further line
// is a call, and its reply is printed as one line. A sheet that is refused gives its refusal, and the session ends.
#![tactic(auto)]

use opening::open::open_by_line;
use rig::rig::Rig;
use session::perform::reply_to_line;
use std::io::{BufRead, BufReader, Lines};

// Replies to each line that is still to come.
fn run<R: Rig, B: BufRead + Drop>(
    rt: &impl Print,
    rig: &mut R,
    lines: Lines<B>,
) -> anyhow::Result<()>
    requires { R.Rig.fits rig.old }
{
    for line in lines {
        let reply = reply_to_line(rig, line?.as_bytes());
        println!(rt; "{reply}")?;
    }
    Ok(())
}

fn main(rt: HostRuntime) -> anyhow::Result<()> {
    let heap = rt.alloc();
    let mut lines = BufReader::new(heap, rt.stdin())?.lines(heap);
    let Some(first) = lines.next() else {
        return Ok(());
    };
    match open_by_line(heap, first?.as_bytes())? {
        Ok(mut rig) => run(&rt, &mut rig, lines)?,
        Err(reply) => println!(rt; "{reply}")?,
    }
    Ok(())
}

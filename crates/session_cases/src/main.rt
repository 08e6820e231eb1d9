// Runs sessions on sheets and compares the replies, one line of standard input for each: `NAME|OPEN|SCRIPT`. OPEN is the
// line that opens a sheet. SCRIPT has `CALL=REPLY`, separated by `;`; where no sheet is opened, it is the reply to OPEN. A
// line that is blank or begins with `#` is passed over. What goes otherwise begins with `WRONG`.
#![tactic(auto)]

use case_table::tally::{Tally, try_cases};
use opening::open::open_by_line;
use rig::rig::Rig;
use session::perform::reply_to_line;
use std::alloc::Global;

// Makes each call of the script, and gives the first one whose reply is not the expected one.
fn first_wrong<'a, R: Rig>(
    heap: Global,
    rig: &mut R,
    script: &'a str,
) -> anyhow::Result<Option<&'a str>>
    requires { R.Rig.fits rig.old }
{
    for part in script.split(';') {
        let Some((call, expected)) = part.split_once('=') else {
            return Ok(Some(part));
        };
        let reply = reply_to_line(rig, call.as_bytes()).to_string(heap)?;
        if reply.as_str() != expected {
            return Ok(Some(part));
        }
    }
    Ok(None)
}

// Opens the sheet and runs the script on it.
fn run_session<'a>(heap: Global, open: &str, script: &'a str) -> anyhow::Result<Option<&'a str>> {
    match open_by_line(heap, open.as_bytes())? {
        Ok(mut rig) => first_wrong(heap, &mut rig, script),
        Err(reply) => {
            let text = reply.to_string(heap)?;
            Ok((text.as_str() != script).then_some(script))
        }
    }
}

// Runs the session of a line, prints what comes out, and tells whether all is as expected.
fn run_line(rt: &impl Print, heap: Global, line: &str) -> anyhow::Result<bool> {
    let parts: Vec<&str> = line.split('|').collect(heap)?;
    let [name, open, script] = parts.as_slice() else {
        println!(rt; "WRONG no case: {line}")?;
        return Ok(false);
    };
    match run_session(heap, open, script)? {
        None => {
            println!(rt; "{name}: as expected")?;
            Ok(true)
        }
        Some(part) => {
            println!(rt; "WRONG {name}: not {part}")?;
            Ok(false)
        }
    }
}

fn main(rt: HostRuntime) -> anyhow::Result<()> {
    let heap = rt.alloc();
    let Tally { tried, wrong, .. } = try_cases(
        heap,
        rt.stdin(),
        |line| line,
        |line| run_line(&rt, heap, line),
    )?;
    println!(rt; "{tried} sessions, {wrong} wrong")?;
    Ok(())
}

#[cfg(test)]
mod tests {
    use opening::open::open_by_line;
    use rig::rig::Rig;
    use rig::seen::Seen;
    use running::kinds::{NoQuestion, StepRefusal};
    use session::reply::{Reply, reply_text};
    use sheet::refusal::{Reason, Refusal};
    use std::test::Fail;

    #[test]
    fn replies_have_their_lines(rt: HostRuntime) -> Result<(), Fail> {
        let no_sheet = Refusal {
            reason: Reason::LeftOver,
            section: 9,
            row: 0,
        };
        let cases = [
            (Reply::Made, "made"),
            (Reply::Refused(StepRefusal::NotConnected(1)), "refused 11 1"),
            (
                Reply::NoQuestion(NoQuestion { question: 5 }),
                "refused 13 5",
            ),
            (Reply::RefusedBy(14, 3), "refused 14 3"),
            (Reply::Truth(true), "true"),
            (Reply::Value(-7), "-7"),
            (Reply::NoSheet(no_sheet), "refused 2 9 0"),
        ];
        for (reply, line) in cases {
            assert_eq!(rt; reply_text(rt.alloc(), reply)?.as_str(), line);
        }
        Ok(())
    }

    // One component with three modes, in mode 2, and a held element of value 5.
    #[test]
    fn a_seen_rig_makes_the_calls_of_a_rig(rt: HostRuntime) -> Result<(), Fail> {
        let line = b"open 01030201010000000900050000000000000000";
        let opened = open_by_line(rt.alloc(), line)?;
        assert!(rt; opened.is_ok(), "the line opens no sheet");
        let Ok(rig) = opened else {
            return Ok(());
        };
        let seen = Seen { rig: &rig };
        assert_eq!(rt; seen.fitting_rig().count(1), Some(1));
        assert_eq!(rt; seen.fitting_rig().byte(0, 0, 1), Some(2));
        assert_eq!(rt; seen.fitting_rig().mode(0), Some(2));
        assert_eq!(rt; seen.fitting_rig().mode(1), None);
        assert_eq!(rt; seen.fitting_rig().value(0), Some(5));
        Ok(())
    }
}

// The cases of a table tried one by one.

ghost use Rattle.std.specs.Prelude.{◌≡◌, ◌≤◌, ◌+◌, ◌-◌, ◌^◌, min, true, false, if◌then◌else◌, Some, Ok, IfOk, ◌++◌, codes, decimal};

use std::alloc::Global;
use std::io::{BufRead, BufReader, Read};
use std::{fmt, io};

// How many cases were tried, and how many of them went wrong.
#[derive(Clone, Copy, PartialEq, Eq, Debug)]
pub struct Tally {
    pub tried: u64,
    pub wrong: u64,
    ghost within: { wrong ≤ tried },
}

impl Tally {
    // Counts one more case.
    fn count(&mut self, is_right: bool)
        ensures tried { self.new.tried ≡ min (self.old.tried + 1) (2 ^ 64 - 1) }
        ensures wrong { self.new.wrong ≡ (if is_right then self.old.wrong else min (self.old.wrong + 1) (2 ^ 64 - 1)) }
    {
        self.tried = self.tried.saturating_add(1);
        if !is_right {
            self.wrong = self.wrong.saturating_add(1);
        }
    }
}

impl fmt::Display for Tally {
    ghost output = { λ t. Some (decimal t.tried ++ (codes " cases, " ++ (decimal t.wrong ++ codes " wrong"))) };

    fn fmt<W: fmt::Write>(&self, f: &mut fmt::Formatter<W>) -> fmt::Result {
        let Tally { tried, wrong, .. } = *self;
        write!(f, "{tried} cases, {wrong} wrong")
    }
}

// Tries each case of a table, and counts them. `part` gives what is read of a line, such as the line without the blanks
// around it; where that is empty or begins with `#`, the line is no case.
pub fn try_cases<T, E, P, F>(heap: Global, table: T, part: P, is_right: F) -> Result<Tally, E>
where
    T: Read + Drop,
    E: From<io::Error>,
    P: Fn(&str) -> &str,
    F: Fn(&str) -> Result<bool, E>,
    requires part { P.IsAlwaysCallable part }
    requires is_right { F.IsAlwaysCallable is_right }
    ensures all_right { ((text : _) → F.post is_right text (Ok false) → ⊥) → IfOk result (λ t. t.wrong ≡ 0) }
    ensures all_wrong { ((text : _) → F.post is_right text (Ok true) → ⊥) → IfOk result (λ t. t.wrong ≡ t.tried) }
{
    let mut tally = Tally { tried: 0, wrong: 0 };
    for line in BufReader::new(heap, table)?.lines(heap) {
        let line = line?;
        let text = part(&line);
        if text.is_empty() || text.starts_with('#') {
            continue;
        }
        tally.count(is_right(text)?);
    }
    Ok(tally)
}

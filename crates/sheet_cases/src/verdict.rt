// Verdicts in the form of the table.

ghost use Rattle.std.specs.Prelude.{◌≡◌, MatchResult, Ok, Err};
ghost use Rattle.sheet.specs.Words.{refused_as};

use refused::Refused;
use sheet::refusal::Refusal;
use std::fmt;

// What a case expects, or what the reader says: accepted, or refused by a number at a section and a row.
#[derive(Clone, Copy, PartialEq, Eq, Debug)]
pub(crate) struct Verdict(pub(crate) Result<(), Refused>);

impl From<Result<(), Refusal>> for Verdict {
    ghost from_gives = { λ answer v. MatchResult answer (λ _. v.0 ≡ Ok tt) (λ f. v.0 ≡ Err (refused_as f)) };

    fn from(answer: Result<(), Refusal>) -> Verdict {
        Verdict(answer.map_err(Refused::from))
    }
}

impl fmt::Display for Verdict {
    fn fmt<W: fmt::Write>(&self, f: &mut fmt::Formatter<W>) -> fmt::Result {
        match self.0 {
            Ok(()) => write!(f, "accepted"),
            Err(refused) => write!(f, "{refused}"),
        }
    }
}

// The rows of a sheet tried in file order, each with its index.

ghost use Rattle.std.specs.Prelude.{◌≡◌, ℕ, List, [], length};
ghost use Rattle.layout.specs.Laid.{rows_of};
ghost use Rattle.sheet.specs.Tries.{first_fault};
ghost use Rattle.sheet.specs.Accept.{sheet_tries, judged};
ghost use Rattle.sheet.specs.Sections.{rows as rows_in_section};
ghost use Rattle.rules.specs.Walk.{by_reason, row_reason, section_verdict, walked};

use crate::checks::Tried;
use layout::rows::Layout;
use layout::section::InLayout;
use sheet::refusal::{Reason, Refusal};
use sheet::rows::{
    Component, Connection, Element, Event, Flow, Node, Question, Setting, Transition,
};

// The first fault of the rows of a sheet, or none.
pub fn try_rows(sheet: &Layout) -> Result<(), Refusal>
    ensures { result ≡ judged tt (first_fault (sheet_tries (rows_of sheet.now))) }
{
    try_sections(sheet)
}

// Tries row i of a section: by itself, by what it names, for a clash, and by what it rests on.
fn try_row<const N: usize, R: InLayout<N> + Tried>(
    sheet: &Layout,
    i: usize,
    row: &[u8; N],
) -> Result<(), Reason>
    ensures { result ≡ by_reason (row_reason (R.Tried.checks (rows_of sheet.now) i) (R.FromRow.entry row.now)) }
{
    let Some(x) = R::from_row(row)? else {
        return Ok(());
    };
    x.try_rules(sheet, i)
}

// Tries the rows of a section, each with its index.
fn try_section<const N: usize, R: InLayout<N> + Tried>(sheet: &Layout) -> Result<(), Refusal>
    ensures { result ≡ section_verdict R.SectionRow.SECTION R.FromRow.entry (R.Tried.checks (rows_of sheet.now)) (rows_in_section (rows_of sheet.now) R.SectionRow.SECTION) }
{
    for (i, row) in R::rows_in(sheet).iter().enumerate() {
        if let Err(reason) = try_row::<N, R>(sheet, i, row) {
            return Err(Refusal {
                reason,
                section: R::SECTION,
                row: i,
            });
        }
    }
    Ok(())
}

// Tries all rows, section by section.
fn try_sections(sheet: &Layout) -> Result<(), Refusal>
    ensures { result ≡ walked (rows_of sheet.now) }
{
    try_section::<_, Component>(sheet)?;
    try_section::<_, Element>(sheet)?;
    try_section::<_, Event>(sheet)?;
    try_section::<_, Node>(sheet)?;
    try_section::<_, Flow>(sheet)?;
    try_section::<_, Connection>(sheet)?;
    try_section::<_, Transition>(sheet)?;
    try_section::<_, Setting>(sheet)?;
    try_section::<_, Question>(sheet)
}

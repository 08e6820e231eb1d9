// Marks added until a pass over the rows adds none.

ghost use Rattle.std.specs.Prelude.{◌≡◌, ℕ, ◌<◌, true, false, Some, MatchResult};
ghost use Rattle.cutting.specs.CutSheet.{cut_fault};
ghost use Rattle.cutting.specs.Kept.{chosen_in};
ghost use Rattle.marking.specs.Passes.{unmarked as unmarked_in, OfSection, EveryRow, Passed, Asked, Settled};
ghost use Rattle.closing.specs.Marks.{KeepsFor};

use crate::marks::Marks;
use crate::rules::rule_at;
use cutting::kinds::{NoCut, QuestionSet};
use marking::kinds::Item;
use sheet::rows::Question;
use sheet::sizes::{MOST_QUESTIONS, NODES, QUESTIONS};
use view::typed::row;
use view::values::lists_mode;
use view::view::View;

// The questions of a set are below this number.
const QUESTION_NUMBERS: usize = MOST_QUESTIONS as usize;

// Whether the question is in the set.
pub fn is_chosen(set: QuestionSet, question: usize) -> bool
    ensures { result ≡ chosen_in set question }
{
    question < QUESTION_NUMBERS && lists_mode(set, question as u8)
}

// The view and the marks go side by side, since the marks are handed out at the end.

// Applies the rules of a section's rows, the highest row first, so that a node comes before its operands.
fn apply_section<V: View>(view: &V, marks: &mut Marks, section: usize)
    requires { section < 9 }
    ensures { Passed (V.View.rows view.now) (OfSection section) marks.old.table marks.new.table }
{
    let count = view.count(section).unwrap_or(0);
    for row in (0..count).rev() {
        if let Some(rule) = rule_at(view, section, row) {
            marks.apply(rule);
        }
    }
}

// Applies the rules of all rows once, and tells whether that marked anything.
fn pass<V: View>(view: &V, marks: &mut Marks) -> bool
    ensures passed { Passed (V.View.rows view.now) EveryRow marks.old.table marks.new.table }
    ensures new { result ≡ true → unmarked_in marks.new.table < unmarked_in marks.old.table }
    ensures same { result ≡ false → marks.new.table ≡ marks.old.table }
{
    let before = marks.unmarked();
    for section in NODES..QUESTIONS {
        apply_section(view, marks, section);
    }
    marks.unmarked() < before
}

// Applies the rules until nothing is left to mark.
fn close<V: View>(view: &V, marks: &mut Marks)
    ensures { Settled (V.View.rows view.now) marks.old.table marks.new.table }
{
    while pass(view, marks) {}
}

// Marks the nodes of the chosen questions, or tells why there is no cut: the set is empty, or the lowest chosen question
// that is missing or blank.
fn mark_questions<V: View>(view: &V, marks: &mut Marks, set: QuestionSet) -> Result<(), NoCut>
    ensures { MatchResult result (λ _. Asked (V.View.rows view.now) set marks.old.table marks.new.table) (λ f. cut_fault (V.View.rows view.now) set ≡ Some f) }
{
    if set == 0 {
        return Err(NoCut::EmptySet);
    }
    for q in 0..QUESTION_NUMBERS {
        if is_chosen(set, q) {
            let x: Question = row(view, q).ok_or(NoCut::NoQuestion(q))?;
            marks.mark(Item::Node(x.node as usize));
        }
    }
    Ok(())
}

// The kept things for a set of questions, and the nodes that remain; or why there is no cut.
pub fn kept_things<V: View>(view: &V, set: QuestionSet) -> Result<Marks, NoCut>
    ensures { MatchResult result (KeepsFor (V.View.rows view.now) set) (λ f. cut_fault (V.View.rows view.now) set ≡ Some f) }
{
    let mut marks = Marks::none();
    mark_questions(view, &mut marks, set)?;
    close(view, &mut marks);
    Ok(marks)
}

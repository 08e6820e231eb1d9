// The lines on what is in a sheet.

ghost use Rattle.std.specs.Prelude.{◌≡◌, ◌++◌, length, string_bytes, OnOk};
ghost use Rattle.reader.specs.Means.{rows_held};
ghost use Rattle.sheet.specs.Sections.{rows, components, questions};
ghost use Rattle.report.specs.Text.{count_line, component_line, question_line, lines};

use crate::names::name_of_section;
use reader::accepted::AcceptedSheet;
use sheet::rows::{Component, Question};
use sheet::sizes::{COMPONENTS, QUESTIONS, SECTIONS};
use std::alloc::AllocError;

// Adds the number of rows of each section.
pub(crate) fn add_counts(text: &mut String, sheet: &AcceptedSheet) -> Result<(), AllocError>
    ensures { OnOk result (string_bytes text.new ≡ string_bytes text.old ++ lines (length (rows_held sheet.now)) (count_line (rows_held sheet.now))) }
{
    for i in 0..SECTIONS {
        let name = name_of_section(i);
        let count = sheet.count(i).unwrap_or(0);
        writeln!(text, "{name}: {count}")?;
    }
    Ok(())
}

// Adds each component.
pub(crate) fn add_components(text: &mut String, sheet: &AcceptedSheet) -> Result<(), AllocError>
    ensures { OnOk result (string_bytes text.new ≡ string_bytes text.old ++ lines (length (rows (rows_held sheet.now) components)) (component_line (rows_held sheet.now))) }
{
    for i in 0..sheet.count(COMPONENTS).unwrap_or(0) {
        if let Some(Component { modes, start }) = sheet.row(i) {
            writeln!(
                text,
                "component {i}: modes 1 to {modes}, starts in mode {start}"
            )?;
        }
    }
    Ok(())
}

// Adds each question.
pub(crate) fn add_questions(text: &mut String, sheet: &AcceptedSheet) -> Result<(), AllocError>
    ensures { OnOk result (string_bytes text.new ≡ string_bytes text.old ++ lines (length (rows (rows_held sheet.now) questions)) (question_line (rows_held sheet.now))) }
{
    for i in 0..sheet.count(QUESTIONS).unwrap_or(0) {
        match sheet.row(i) {
            Some(Question { node }) => writeln!(
                text,
                "question {i} asks whether node {node} holds"
            )?,
            None => writeln!(text, "question {i} is blank")?,
        }
    }
    Ok(())
}

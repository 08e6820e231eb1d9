// The names of sections.

ghost use Rattle.std.specs.Prelude.{◌≡◌};
ghost use Rattle.report.specs.Text.{section_name};

use sheet::sizes::{
    COMPONENTS, CONNECTIONS, ELEMENTS, EVENTS, FLOWS, NODES, QUESTIONS, SETTINGS, TRANSITIONS,
};

// Sections go by their numbers in every public call, and a refusal names the place behind the last one too.
pub(crate) fn name_of_section(section: usize) -> &'static str
    ensures { result.now ≡ section_name section }
{
    match section {
        COMPONENTS => "components",
        ELEMENTS => "data elements",
        EVENTS => "events",
        NODES => "nodes",
        FLOWS => "flows",
        CONNECTIONS => "connections",
        TRANSITIONS => "transitions",
        SETTINGS => "settings",
        QUESTIONS => "questions",
        _ => "behind the last section",
    }
}

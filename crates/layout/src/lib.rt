// Bytes cut into the nine sections of a sheet, without copying them.
#![tactic(auto)]

pub mod rows;
pub mod section;

ghost use Rattle.std.specs.Prelude.{◌≡◌, ℕ, ◌+◌, ◌*◌, ◌<◌, ◌≤◌, true, length};
ghost use Rattle.sheet.specs.Sections.{shape, shapes, bytes as are_bytes};
ghost use Rattle.layout.specs.Laid.{rows_of, LaysOut};
ghost use Rattle.layout.specs.Sections.{section as section_in, sections, Tells};

use rows::Layout;
use sheet::decode::SectionRow;
use sheet::refusal::{Reason, Refusal};
use sheet::rows::{
    Component, Connection, Element, Event, Flow, Node, Question, Setting, Transition,
};
use sheet::sizes::SECTIONS;

// The sections of a sheet where they lie in the bytes, or the first fault of the layout.
pub fn lay_out(bytes: &[u8]) -> Result<Layout<'_>, Refusal>
    ensures answer { LaysOut bytes.now result }
    ensures typed { are_bytes bytes.now ≡ true }
{
    take_sections(bytes)
}

// The rows of a section at the front of the bytes, and the bytes behind it.
fn take_section<const N: usize, R: SectionRow<N>>(
    bytes: &[u8],
) -> Result<(&[[u8; N]], &[u8]), Refusal>
    ensures answer { Tells (λ p. (p.0.now, p.1.now)) (section_in R.SectionRow.SECTION (shape N R.SectionRow.LEAST R.SectionRow.MOST) bytes.now) result }
    ensures typed { are_bytes bytes.now ≡ true }
{
    let section = R::SECTION;
    let Some((count, rest)) = bytes.split_first() else {
        return Err(Refusal {
            reason: Reason::EndsEarly,
            section,
            row: 0,
        });
    };
    if *count < R::LEAST || *count > R::MOST {
        return Err(Refusal {
            reason: Reason::CountNotAllowed,
            section,
            row: 0,
        });
    }
    let count = *count as usize;
    let whole_rows = rest.len() / N;
    if whole_rows < count {
        return Err(Refusal {
            reason: Reason::EndsEarly,
            section,
            row: whole_rows,
        });
    }
    let (own, behind) = rest.split_at(count * N);
    let (rows, _) = own.as_chunks::<N>();
    Ok((rows, behind))
}

// The nine sections, with nothing behind them.
fn take_sections(bytes: &[u8]) -> Result<Layout<'_>, Refusal>
    ensures answer { Tells rows_of (sections 0 shapes bytes.now) result }
    ensures typed { are_bytes bytes.now ≡ true }
{
    let (components, rest) = take_section::<_, Component>(bytes)?;
    let (elements, rest) = take_section::<_, Element>(rest)?;
    let (events, rest) = take_section::<_, Event>(rest)?;
    let (nodes, rest) = take_section::<_, Node>(rest)?;
    let (flows, rest) = take_section::<_, Flow>(rest)?;
    let (connections, rest) = take_section::<_, Connection>(rest)?;
    let (transitions, rest) = take_section::<_, Transition>(rest)?;
    let (settings, rest) = take_section::<_, Setting>(rest)?;
    let (questions, rest) = take_section::<_, Question>(rest)?;
    if !rest.is_empty() {
        return Err(Refusal {
            reason: Reason::LeftOver,
            section: SECTIONS,
            row: 0,
        });
    }
    Ok(Layout {
        components,
        elements,
        events,
        nodes,
        flows,
        connections,
        transitions,
        settings,
        questions,
    })
}

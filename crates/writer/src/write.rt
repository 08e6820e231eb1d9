// The sheet of any rig, section by section, row by row and byte by byte.

ghost use Rattle.std.specs.Prelude.{◌≡◌, ℕ, ◌+◌, ◌*◌, ◌<◌, ◌≤◌, [], length, slice_index_or};
ghost use Rattle.sheet.specs.Sections.{rows, section_bytes, bytes_of};
ghost use Rattle.sheet.specs.Laws.{ReadsBack};
ghost use Rattle.writer.specs.Filled.{Filled};
ghost use Rattle.writer.specs.Written.{Written};

use crate::fault::TooShort;
use crate::filling::Filling;
use rig::rig::Rig;
use rig::seen::Seen;
use sheet::sizes::{
    COMPONENT_BYTES, CONNECTION_BYTES, ELEMENT_BYTES, EVENT_BYTES, FLOW_BYTES, NODE_BYTES,
    QUESTION_BYTES, SECTIONS, SETTING_BYTES, TRANSITION_BYTES,
};
use view::view::View;

// The bytes of a row of each section.
const ROW_BYTES: [usize; SECTIONS] = [
    COMPONENT_BYTES,
    ELEMENT_BYTES,
    EVENT_BYTES,
    NODE_BYTES,
    FLOW_BYTES,
    CONNECTION_BYTES,
    TRANSITION_BYTES,
    SETTING_BYTES,
    QUESTION_BYTES,
];

// The number of rows of a section.
fn row_count<V: View>(view: &V, section: usize) -> usize
    requires { section < 9 }
    ensures value { result ≡ length (rows (V.View.rows view.now) section) }
    ensures few { result ≤ 128 }
{
    view.count(section).unwrap_or(0)
}

// The bytes of a section.
fn section_length<V: View>(view: &V, section: usize) -> usize
    requires { section < 9 }
    ensures value { result ≡ length (section_bytes (rows (V.View.rows view.now) section)) }
    ensures few { result ≤ 1025 }
{
    1 + row_count(view, section) * ROW_BYTES[section]
}

// The bytes of the sheet.
fn sheet_length<V: View>(view: &V) -> usize
    ensures { result ≡ length (bytes_of (V.View.rows view.now)) }
{
    (0..SECTIONS)
        .map(|section| section_length(view, section))
        .sum()
}

impl Filling<'_> {
    // Puts a row behind what is filled. Of the places as a chain with `map_while` no proof was generated.
    fn put_row<V: View>(&mut self, view: &V, section: usize, row: usize)
        requires { self.old.filled + length (slice_index_or (rows (V.View.rows view.now) section) row []) ≤ length self.old.buffer.now }
        ensures { Filled self.old (slice_index_or (rows (V.View.rows view.now) section) row []) self.new }
    {
        for place in 0.. {
            let Some(byte) = view.byte(section, row, place) else {
                return;
            };
            self.put(&[byte]);
        }
    }

    // Puts a section behind what is filled.
    fn put_section<V: View>(&mut self, view: &V, section: usize)
        requires there { section < 9 }
        requires room { self.old.filled + length (section_bytes (rows (V.View.rows view.now) section)) ≤ length self.old.buffer.now }
        ensures { Filled self.old (section_bytes (rows (V.View.rows view.now) section)) self.new }
    {
        let count = row_count(view, section);
        self.put(&[count as u8]);
        for row in 0..count {
            self.put_row(view, section, row);
        }
    }
}

// Writes the rig's sheet to the front of the buffer, and tells its length.
pub fn write<R: Rig>(rig: &R, out: &mut [u8]) -> Result<usize, TooShort>
    requires { R.Rig.fits rig.now }
    ensures written { Written (bytes_of (R.Rig.rows rig.now)) out.old out.new result }
    ensures reads_back { ReadsBack (R.Rig.rows rig.now) }
{
    let view = Seen { rig };
    let needed = sheet_length(&view);
    if out.len() < needed {
        return Err(TooShort { needed });
    }
    let mut filling = Filling {
        buffer: out,
        filled: 0,
    };
    for section in 0..SECTIONS {
        filling.put_section(&view, section);
    }
    Ok(filling.filled)
}

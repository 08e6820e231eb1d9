// Typed rows, read byte by byte through a view.

ghost use Rattle.std.specs.Prelude.{◌≡◌, ℕ};
ghost use Rattle.sheet.specs.Lookup.{there};
ghost use Rattle.sheet.specs.Sections.{rows as rows_in_section};
ghost use Rattle.std.specs.List.{slice_get};

use crate::view::View;
use sheet::decode::SectionRow;

// The bytes of a row, or nothing where there is none.
fn bytes_of<const N: usize, R: SectionRow<N>, V: View>(view: &V, row: usize) -> Option<[u8; N]>
    ensures { result ≡ slice_get (rows_in_section (V.View.rows view.now) R.SectionRow.SECTION) row }
{
    let mut bytes = [0u8; N];
    for (place, byte) in bytes.iter_mut().enumerate() {
        *byte = view.byte(R::SECTION, row, place)?;
    }
    Some(bytes)
}

// What a row holds; nothing where it is missing or blank.
pub fn row<const N: usize, R: SectionRow<N>, V: View>(view: &V, i: usize) -> Option<R>
    ensures { result ≡ there R.FromRow.entry (rows_in_section (V.View.rows view.now) R.SectionRow.SECTION) i }
{
    R::from_row(&bytes_of::<N, R, V>(view, i)?).unwrap_or(None)
}

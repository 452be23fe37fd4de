// The elements of a row, printed.
ghost use Rattle.std.specs.Prelude.{ℕ, ◌+◌, ◌^◌, ◌<◌, length};
ghost use Rattle.format.specs.Elements.{Row, Reads};
ghost use Rattle.element.specs.Cursors.{ahead};
ghost use Rattle.element.specs.Limits.{longest};
ghost use Rattle.text.specs.Texts.{AppendsText};
ghost use Rattle.session.specs.Rows.{row_text};

use element::Cursor;
use std::alloc::AllocError;
use text::append_element;

// The elements ahead, one a line, and those within each below it and one level further in.
pub(crate) fn append_row(
    out: &mut Vec<u8>,
    level: usize,
    cursor: Cursor<'_>,
) -> Result<(), AllocError>
    requires { level + length (ahead cursor) < 2 ^ 64 }
    ensures { (depth : ℕ) (row : Row) → Reads depth longest (ahead cursor.entry) row → AppendsText result out.old.items (row_text level row) out.new.items }
{
    for element in cursor {
        match element.row() {
            None => append_element(out, level, element.tag, Some(element.contents))?,
            Some(row) => {
                append_element(out, level, element.tag, None)?;
                append_row(out, level + 1, row)?;
            }
        }
    }
    Ok(())
}

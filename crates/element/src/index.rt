// Elements noted once, found by their paths.
ghost use Rattle.std.specs.Prelude.{◌≡◌, ℕ, List, [], IfOk, IsOk, option_map};
ghost use Rattle.format.specs.Elements.{Row, empty, Reads};
ghost use Rattle.element.specs.Cursors.{ahead, offset};
ghost use Rattle.element.specs.Judged.{Judged};
ghost use Rattle.element.specs.Limits.{deepest, longest};
ghost use Rattle.element.specs.Indexed.{IndexOf};
ghost use Rattle.element.specs.Located.{Located, Piece};
ghost use Rattle.element.specs.inner.Noted.{Noted};

use crate::judging::{Verdict, judge};
use crate::paths::Span;
use crate::walking::Cursor;
use std::alloc::{AllocError, Global};

// The verdict on some bytes, and where each of their elements stands.
#[derive(Drop)]
pub struct Index {
    verdict: Verdict,
    row: Vec<Entry>,
}

// An element: where it stands, and the elements within it, none if it is primitive.
#[derive(Drop)]
struct Entry {
    span: Span,
    within: Vec<Entry>,
}

// Notes the elements of a row and those within them. Its calls nest as deep as the elements do. Out of memory only if there are bytes.
fn note_row(heap: Global, cursor: Cursor<'_>) -> Result<Vec<Entry>, AllocError>
    ensures quiet { ahead cursor.entry ≡ [] → IsOk result }
    ensures noted { IfOk result (λ entries. (depth : ℕ) (row : Row) → Reads depth longest (ahead cursor.entry) row → Noted row entries.items (offset cursor.entry)) }
{
    let mut entries = Vec::with_capacity(heap, cursor.count())?;
    for element in cursor {
        let within = match element.row() {
            None => Vec::new(heap),
            Some(row) => note_row(heap, row)?,
        };
        let span = Span {
            at: element.at,
            len: element.whole.len(),
        };
        entries.push(Entry { span, within })?;
    }
    Ok(entries)
}

impl Index {
    // Judges the bytes and notes their elements, none if they are malformed. Out of memory only if there are elements to note.
    pub fn new(heap: Global, bytes: &[u8]) -> Result<Index, AllocError>
        ensures quiet { ((row : Row) → Reads deepest longest bytes.now row → row ≡ empty) → IsOk result }
        ensures index { IfOk result (IndexOf bytes.now) }
    {
        let verdict = judge(bytes);
        let row = match verdict {
            Verdict::Well => note_row(heap, Cursor::new(bytes))?,
            Verdict::Ill { .. } => Vec::new(heap),
        };
        Ok(Index { verdict, row })
    }

    // What judging the bytes answered.
    pub fn verdict(&self) -> Verdict
        ensures { (bytes : List ℕ) → IndexOf bytes self.now → Judged bytes result }
    {
        self.verdict
    }

    // Where the element that a path leads to stands, in time that depends on the length of the path alone. None if the bytes are malformed, or the path leads to no element.
    pub fn locate(&self, path: &[u64]) -> Option<Span>
        ensures { (bytes : List ℕ) → IndexOf bytes self.now → Located bytes path.now result }
    {
        let (last, outer) = path.split_last()?;
        let mut row = self.row.as_slice();
        for number in outer {
            row = row.get(*number as usize)?.within.as_slice();
        }
        Some(row.get(*last as usize)?.span)
    }

    // The bytes of the element that a path leads to, where `bytes` are those that the index was made of. Of other bytes nothing is promised.
    pub fn piece<'a>(&self, bytes: &'a [u8], path: &[u64]) -> Option<&'a [u8]>
        ensures { IndexOf bytes.now self.now → Piece bytes.now path.now (option_map (λ part. part.now) result) }
    {
        let Span { at, len } = self.locate(path)?;
        bytes.get(at..)?.get(..len)
    }
}

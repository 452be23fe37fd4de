// Elements: bytes judged, walked along, read byte by byte, searched by paths, and written.
#![tactic(auto)]

ghost use Rattle.format.specs.Viable.{OnePlace};
ghost use Rattle.element.specs.Appended.{AppendedReads};
ghost use Rattle.element.specs.Limits.{deepest, longest};
ghost use Rattle.element.specs.Cursors.{CursorGives};
ghost use Rattle.element.specs.Located.{PieceMeans};

mod index;
mod judging;
mod paths;
mod progress;
mod walking;
mod writing;

pub use index::Index;
pub use judging::{Opening, Reader, Verdict, judge};
pub use paths::{Span, find, locate, piece};
pub use progress::{Progress, Status, ill_place};
pub use walking::{Cursor, Element};
pub use writing::{WriteError, append_constructed, append_primitive};

// Malformed bytes are malformed at exactly one place.
pub fn one_place_stands() -> u8
    ensures { OnePlace deepest longest }
{
    0
}

// The elements that a cursor gives are those of the row, each at its place, and one behind the other they are its bytes.
pub fn cursor_gives_stands() -> u8
    ensures { CursorGives }
{
    0
}

// A piece is the element as it is written, at its place, for every reading of the bytes.
pub fn piece_means_stands() -> u8
    ensures { PieceMeans }
{
    0
}

// Bytes that read as a row read as one element more where an element was appended to them.
pub fn appended_reads_stands() -> u8
    ensures { AppendedReads }
{
    0
}

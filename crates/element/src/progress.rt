// What a reader that takes its bytes one by one keeps between them.
ghost use Rattle.std.specs.Prelude.{◌≤◌};
ghost use Rattle.element.specs.Limits.{deepest};

pub(crate) mod position;
pub(crate) mod stepping;

use position::Position;
pub use stepping::ill_place;

// Rows that can be open at once: the outermost, and one for each level.
pub(crate) const ROWS: usize = Progress::MAX_DEPTH + 1;

// A reader that takes its bytes one by one and allocates nothing: its position within an element, how many levels of constructed elements may open there, and how many bytes each open row still needs, the row in which n levels may open at index n.
#[derive(Clone, Copy)]
pub struct Progress {
    pub(crate) position: Position,
    pub(crate) levels: u8,
    pub(crate) rooms: [usize; ROWS],
    ghost bounded: { levels ≤ deepest },
}

// What is known of the bytes so far.
#[derive(Clone, Copy)]
pub enum Status {
    // They are a row of elements, and could end here.
    Ends,
    // They end within an element.
    Within,
    // They are no row of elements, whatever bytes follow.
    Dead,
}

// Bytes read one by one, and the place where they are malformed.
ghost use Rattle.std.specs.Prelude.{◌≡◌, ℕ, ◌+◌, ◌≤◌, List, [], ◌∷◌, ◌++◌, length, drop};
ghost use Rattle.element.specs.Limits.{deepest};
ghost use Rattle.element.specs.Machine.{state, start, at_position, entered, spent, settled, stepped, full, status_at};
ghost use Rattle.element.specs.Progressed.{Gone, StatusSays, Skipped};
ghost use Rattle.element.specs.IllPlace.{IllPlace};

use crate::judging::Reader;
use crate::progress::position::{Position, taken};
use crate::progress::{Progress, ROWS, Status};

impl Progress {
    // As many levels of constructed elements may open as in a whole row.
    pub const MAX_DEPTH: usize = Reader::MAX_DEPTH;
    // The same as a byte: levels are counted in bytes, which is faster.
    const LEVELS: u8 = Progress::MAX_DEPTH as u8;
    // The outermost row has no end: it needs more than any element takes.
    const ENDLESS: usize = 2 * (Reader::MAX_LENGTH + 1);

    // A reader before the first byte.
    pub fn new() -> Progress
        ensures is { state result ≡ start }
        ensures gone { Gone result [] }
    {
        Progress {
            position: Position::Tag,
            levels: Progress::LEVELS,
            rooms: [Progress::ENDLESS; ROWS],
        }
    }

    // Reads a byte, and answers what is known of the bytes so far.
    pub fn step(&mut self, byte: u8) -> Status
        ensures goes { state self.new ≡ stepped (state self.old) byte }
        ensures gone { (b : List ℕ) → Gone self.old b → Gone self.new (b ++ (byte ∷ [])) }
        ensures says { (b : List ℕ) → Gone self.old b → StatusSays (b ++ (byte ∷ [])) result }
    {
        let room = self.rooms[usize::from(self.levels)];
        let position = self.position.next(room, self.levels, byte);
        self.enter(position);
        self.settle();
        self.status()
    }

    // Goes to a position; behind a header, into the contents if the row has room for them.
    fn enter(&mut self, position: Position)
        ensures { state self.new ≡ entered (at_position (state self.old) position) }
    {
        self.position = position;
        let Position::Header { tag, len } = position else {
            return;
        };
        self.position = Position::Nowhere;
        let room = self.rooms[usize::from(self.levels)];
        let taken = taken(len);
        if room < taken || room == taken + 1 {
            return;
        }
        if tag < Reader::CONSTRUCTED {
            self.position = Position::Contents { left: len };
            self.spend(taken);
            return;
        }
        if len == 1 || self.levels == 0 {
            return;
        }
        self.position = Position::Tag;
        self.spend(taken);
        self.levels -= 1;
        self.rooms[usize::from(self.levels)] = usize::from(len);
    }

    // Gives bytes of the innermost row to an element.
    fn spend(&mut self, taken: usize)
        ensures { state self.new ≡ spent (state self.old) taken }
    {
        if self.levels < Progress::LEVELS {
            let room = &mut self.rooms[usize::from(self.levels)];
            *room = room.saturating_sub(taken);
        }
    }

    // Closes the contents and the rows that have all their bytes.
    fn settle(&mut self)
        ensures { state self.new ≡ settled (state self.old) }
    {
        if let Position::Tag | Position::Contents { left: 0 } = self.position {
            self.position = Position::Tag;
            self.levels = self.innermost();
        }
    }

    // How many levels may open in the innermost row that still needs bytes.
    fn innermost(&self) -> u8
        ensures bounded { result ≤ deepest }
        ensures is { result ≡ self.now.levels + full (drop self.now.levels self.now.rooms) }
    {
        let mut levels = self.levels;
        while levels < Progress::LEVELS && self.rooms[usize::from(levels)] == 0 {
            levels += 1;
        }
        levels
    }

    // What is known of the bytes so far.
    pub fn status(&self) -> Status
        ensures is { result ≡ status_at self.now.levels self.now.position }
        ensures says { (b : List ℕ) → Gone self.now b → StatusSays b result }
    {
        match self.position {
            Position::Nowhere => Status::Dead,
            Position::Tag if self.levels == Progress::LEVELS => Status::Ends,
            _ => Status::Within,
        }
    }

    // Skips the contents of a primitive element, at most `limit` bytes, without reading them; answers how many it skipped.
    pub fn skip(&mut self, limit: usize) -> usize
        ensures { Skipped self.old limit result self.new }
    {
        let position = self.position;
        let Position::Contents { left } = position else {
            return 0;
        };
        let over = left.min(u16::try_from(limit).unwrap_or(u16::MAX));
        if over == 0 {
            return 0;
        }
        self.position = Position::Contents { left: left - over };
        self.settle();
        usize::from(over)
    }
}

// Where malformed bytes are malformed, or none if they are a row.
pub fn ill_place(bytes: &[u8]) -> Option<usize>
    ensures { IllPlace bytes.now result }
{
    let mut reader = Progress::new();
    let mut rest = bytes;
    while let [byte, behind @ ..] = rest {
        if let Status::Dead = reader.step(*byte) {
            return Some(bytes.len() - rest.len());
        }
        let over = reader.skip(behind.len());
        rest = &behind[over..];
    }
    match reader.status() {
        Status::Ends => None,
        _ => Some(bytes.len()),
    }
}

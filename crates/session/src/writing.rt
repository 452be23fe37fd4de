// The answer of a text, written.
ghost use Rattle.std.specs.Prelude.{◌≡◌, ℕ, ◌∷◌, List, true, IfOk, IsOk};
ghost use Rattle.std.specs.Io.KnownBytes.{Keeps};
ghost use Rattle.text.specs.Meaning.{meaning};
ghost use Rattle.session.specs.Answers.{Answered};
ghost use Rattle.session.specs.Writing.{NothingStored, StoresNothing, WritesAnswer};
ghost use Rattle.session.specs.inner.Held.{IndexesOf, KeepsIndexes, SameHeld, held};
ghost use Rattle.session.specs.inner.Passing.{BookOf, Left};
ghost use Rattle.session.specs.inner.Puts.{WritesFront, WritesOne};

use crate::{AnswerError, Book};
use std::alloc::Global;
use std::io::{self, ErrorKind, Write};
use text::Lines;

// How many bytes the buffer for answers has room for from the start.
const ROOM: usize = 4096;

// Writes all of the bytes, by as many writes as the writer needs, also where one is interrupted.
// The loop over `write` says what was written before an error, as `write_all` does not.
fn put<W: Write>(out: &mut W, bytes: &[u8]) -> io::Result<()>
    ensures { WritesFront result bytes.now (W.contents out.old) (W.contents out.new) }
{
    let mut rest = bytes;
    for _ in 0..u64::MAX {
        if rest.is_empty() {
            return Ok(());
        }
        match out.write(rest) {
            Ok(0) => {
                let message = "failed to write whole buffer";
                return Err(io::Error::new(ErrorKind::WriteZero, message));
            }
            Ok(n) => rest = &rest[n..],
            Err(error) if error.kind() == ErrorKind::Interrupted => {}
            Err(error) => return Err(error),
        }
    }
    Err(io::Error::from(ErrorKind::Interrupted))
}

impl Book {
    // Writes the answer to the line whose turn it is; the buffer is cleared first, and is lent so that it is allocated once.
    fn write_answer<W: Write>(
        &mut self,
        heap: Global,
        number: u64,
        line: &[u8],
        passed: usize,
        buffer: &mut Vec<u8>,
        out: &mut W,
    ) -> Result<usize, AnswerError>
        requires indexed { IndexesOf (held self.old).papers self.old.indexes.items }
        requires left { self.old.all_read ≡ true → (rest : List (List ℕ)) × Left (held self.old).papers passed (line.now ∷ rest) }
        ensures quiet { StoresNothing (meaning line.now) → IsOk result × Keeps (W.contents out.old) (W.contents out.new) }
        ensures same { SameHeld self.old self.new }
        ensures indexed { StoresNothing (meaning line.now) → KeepsIndexes self.old self.new }
        ensures written { WritesOne (Answered (held self.old) self.old.numbers.items number (meaning line.now)) result (W.contents out.old) (W.contents out.new) }
        ensures passed { IfOk result (λ p. self.old.all_read ≡ true → (rest : List (List ℕ)) → Left (held self.old).papers passed (line.now ∷ rest) → Left (held self.old).papers p rest) }
    {
        let next = self.answer_line(heap, number, line, passed, buffer)?;
        if !buffer.is_empty() {
            put(out, buffer)?;
        }
        Ok(next)
    }

    // Writes the answers to the lines of the book's text, one after the other.
    fn write_answers<W: Write>(
        &mut self,
        heap: Global,
        text: &[u8],
        out: &mut W,
    ) -> Result<(), AnswerError>
        requires { BookOf text.now self.old }
        ensures quiet { NothingStored text.now → IsOk result × Keeps (W.contents out.old) (W.contents out.new) }
        ensures written { WritesAnswer text.now (W.contents out.old) (W.contents out.new) result }
    {
        // With room from the start the buffer seldom grows, and so seldom comes to stand behind an index in memory.
        let mut buffer = Vec::new(heap);
        buffer.reserve(ROOM).ok();
        let mut passed = 0;
        for (number, line) in Lines::new(text).enumerate() {
            passed = self.write_answer(heap, number as u64, line, passed, &mut buffer, out)?;
        }
        Ok(())
    }
}

// Answers a text of papers, marks and questions, one a line: writes the answers in the order of the lines, each by what the whole text brings. Lines and papers are numbered from 0.
// Errors: out of memory, or the writer failed; neither for a text that brings and asks nothing, whose answer is empty. Then the answers of the first lines have been written, whole, and if the writer failed perhaps a part of the next one. `out` is not flushed.
pub fn answer_text<W: Write>(heap: Global, text: &[u8], out: &mut W) -> Result<(), AnswerError>
    ensures written { WritesAnswer text.now (W.contents out.old) (W.contents out.new) result }
    ensures quiet { NothingStored text.now → IsOk result × Keeps (W.contents out.old) (W.contents out.new) }
{
    let mut book = Book::read(heap, text)?;
    book.write_answers(heap, text, out)
}

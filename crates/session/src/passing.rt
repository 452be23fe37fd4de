// A text's lines answered in turn.
ghost use Rattle.std.specs.Prelude.{[], ◌≡◌, ℕ, ◌∷◌, List, true, IfOk, IsOk};
ghost use Rattle.text.specs.Meaning.{meaning};
ghost use Rattle.session.specs.Answers.{Answered};
ghost use Rattle.session.specs.Writing.{StoresNothing};
ghost use Rattle.session.specs.inner.Held.{IndexesOf, KeepsIndexes, SameHeld, held};
ghost use Rattle.session.specs.inner.Passing.{Left};
ghost use Rattle.session.specs.inner.Puts.{PutsIfOk};

use crate::Book;
use crate::answering::answer_paper;
use std::alloc::{AllocError, Global};
use text::{Head, read_head};

impl Book {
    // The answer to the line whose turn it is, by its number, put behind the bytes; and how many papers have been passed then, which is counted only where all lines that bring something could be read.
    // Where one of them couldn't, they are read again.
    pub(crate) fn answer_turn(
        &mut self,
        heap: Global,
        number: u64,
        line: &[u8],
        passed: usize,
        out: &mut Vec<u8>,
    ) -> Result<usize, AllocError>
        requires indexed { IndexesOf (held self.old).papers self.old.indexes.items }
        requires left { self.old.all_read ≡ true → (rest : List (List ℕ)) × Left (held self.old).papers passed (line.now ∷ rest) }
        ensures quiet { StoresNothing (meaning line.now) → IsOk result }
        ensures same { SameHeld self.old self.new }
        ensures indexed { KeepsIndexes self.old self.new }
        ensures answer { PutsIfOk (Answered (held self.old) self.old.numbers.items number (meaning line.now)) result out.old.items out.new.items }
        ensures passed { IfOk result (λ p. self.old.all_read ≡ true → (rest : List (List ℕ)) → Left (held self.old).papers passed (line.now ∷ rest) → Left (held self.old).papers p rest) }
    {
        if !self.all_read {
            self.answer(heap, number, line, out)?;
            return Ok(passed);
        }
        match read_head(line) {
            Head::Other => {
                self.answer(heap, number, line, out)?;
                Ok(passed)
            }
            Head::Marks => Ok(passed),
            Head::Paper => {
                answer_paper(&self.papers[passed], out)?;
                Ok(passed + 1)
            }
        }
    }

    // The answer to the line whose turn it is, alone in the buffer. Where memory runs out while there are indexes, they are dropped for good, and the line is answered without.
    pub(crate) fn answer_line(
        &mut self,
        heap: Global,
        number: u64,
        line: &[u8],
        passed: usize,
        out: &mut Vec<u8>,
    ) -> Result<usize, AllocError>
        requires indexed { IndexesOf (held self.old).papers self.old.indexes.items }
        requires left { self.old.all_read ≡ true → (rest : List (List ℕ)) × Left (held self.old).papers passed (line.now ∷ rest) }
        ensures quiet { StoresNothing (meaning line.now) → IsOk result }
        ensures same { SameHeld self.old self.new }
        ensures indexed { StoresNothing (meaning line.now) → KeepsIndexes self.old self.new }
        ensures answer { PutsIfOk (Answered (held self.old) self.old.numbers.items number (meaning line.now)) result [] out.new.items }
        ensures passed { IfOk result (λ p. self.old.all_read ≡ true → (rest : List (List ℕ)) → Left (held self.old).papers passed (line.now ∷ rest) → Left (held self.old).papers p rest) }
    {
        out.clear();
        let answered = self.answer_turn(heap, number, line, passed, out);
        if answered.is_ok() || self.indexes.is_empty() {
            return answered;
        }
        self.indexes = Vec::new(heap);
        self.walks = usize::MAX;
        *out = Vec::new(heap);
        self.answer_turn(heap, number, line, passed, out)
    }
}

// A book made of a text.
ghost use Rattle.std.specs.Prelude.{◌≡◌, [], true, ◌&&◌, is_some, IfOk, IsOk, OnOk, Some};
ghost use Rattle.text.specs.Meaning.{meaning, says};
ghost use Rattle.session.specs.Books.{nothing_brought, brings};
ghost use Rattle.session.specs.Writing.{StoresNothing, NothingStored};
ghost use Rattle.session.specs.inner.Held.{AllIndexed, added, held};
ghost use Rattle.session.specs.inner.Passing.{BookOf};

use crate::Book;
use crate::numbering::numbers_of;
use std::alloc::{AllocError, Global};
use text::{Command, Head, LineError, Lines, read_head, read_line};

// How many bytes of papers may be walked through for each byte of a text before elements are noted.
const WALKS: usize = 16;

impl Book {
    // A book of nothing, for a text of some bytes.
    fn new(heap: Global, size: usize) -> Book
        ensures indexed { AllIndexed result }
        ensures no_index { result.indexes.items ≡ [] }
        ensures held { held result ≡ nothing_brought }
        ensures all_read { result.all_read ≡ true }
    {
        Book {
            papers: Vec::new(heap),
            seals: Vec::new(heap),
            trusted: Vec::new(heap),
            numbers: Vec::new(heap),
            all_read: true,
            indexes: Vec::new(heap),
            walks: size.saturating_mul(WALKS),
        }
    }

    // Takes in what a command brings.
    fn note(&mut self, command: Command) -> Result<(), AllocError>
        ensures quiet { StoresNothing (Some (says command)) → IsOk result }
        ensures no_index { self.new.indexes.items ≡ self.old.indexes.items }
        ensures held { OnOk result (held self.new ≡ added (held self.old) (brings (Some (says command)))) }
        ensures all_read { self.new.all_read ≡ self.old.all_read }
    {
        match command {
            Command::Paper(bytes) => Ok(self.papers.push(bytes)?),
            Command::Seals(marks) => self.seals.extend_from_slice(&marks),
            Command::Trusted(marks) => self.trusted.extend_from_slice(&marks),
            Command::Nothing | Command::Piece { .. } | Command::Chain { .. } => Ok(()),
        }
    }

    // Takes in what a line brings, or that it can't be read.
    fn note_line(&mut self, heap: Global, line: &[u8]) -> Result<(), AllocError>
        ensures quiet { StoresNothing (meaning line.now) → IsOk result }
        ensures no_index { self.new.indexes.items ≡ self.old.indexes.items }
        ensures held { OnOk result (held self.new ≡ added (held self.old) (brings (meaning line.now))) }
        ensures all_read { OnOk result (self.new.all_read ≡ (self.old.all_read && is_some (meaning line.now))) }
    {
        match read_line(heap, line) {
            Ok(command) => self.note(command),
            Err(LineError::Unreadable) => {
                self.all_read = false;
                Ok(())
            }
            Err(LineError::Memory(error)) => Err(error),
        }
    }

    // The book of all that a text brings. Lines that begin as ones that bring nothing aren't read.
    pub(crate) fn read(heap: Global, text: &[u8]) -> Result<Book, AllocError>
        ensures read { IfOk result (λ b. BookOf text.now b) }
        ensures quiet { NothingStored text.now → IsOk result }
    {
        let mut book = Book::new(heap, text.len());
        for line in Lines::new(text) {
            if read_head(line) != Head::Other {
                book.note_line(heap, line)?;
            }
        }
        book.numbers = numbers_of(heap, &book.papers)?;
        Ok(book)
    }
}

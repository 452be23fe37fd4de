// The answers to lines.
ghost use Rattle.std.specs.Prelude.{◌≡◌, ◌<◌, ℕ, length, IsOk, Some};
ghost use Rattle.chain.specs.Inputs.{input_of};
ghost use Rattle.chain.specs.Rejections.{rejection_number};
ghost use Rattle.text.specs.Texts.{AppendsText, rejection_text};
ghost use Rattle.text.specs.Meaning.{meaning, says};
ghost use Rattle.session.specs.Answers.{lent, brought_input, PaperAnswer, PieceAnswer, ChainAnswer, Answered};
ghost use Rattle.session.specs.Writing.{StoresNothing};
ghost use Rattle.session.specs.inner.Held.{IndexesOf, KeepsIndexes, SameHeld, held};
ghost use Rattle.session.specs.inner.Puts.{Puts, PutsIfOk};

use crate::Book;
use crate::rows::append_row;
use chain::{MOST, PoolInput, Rejection};
use element::{Cursor, Verdict, judge};
use shortest::{find_chain, rejection_place};
use std::alloc::{AllocError, Global};
use text::{
    Command, LineError, append_bytes, append_chain, append_ill, append_none, append_rejection,
    append_unreadable, read_line,
};

// The elements of a paper, or the place at which its bytes are malformed.
pub(crate) fn answer_paper(bytes: &[u8], out: &mut Vec<u8>) -> Result<(), AllocError>
    ensures { Puts (PaperAnswer bytes.now) result out.old.items out.new.items }
{
    match judge(bytes) {
        Verdict::Well => append_row(out, 0, Cursor::new(bytes)),
        Verdict::Ill { at } => append_ill(out, at as u64),
    }
}

// A rejection and its place.
fn reject(out: &mut Vec<u8>, why: Rejection, place: u64) -> Result<(), AllocError>
    ensures { AppendsText result out.old.items (rejection_text (rejection_number why) place) out.new.items }
{
    append_rejection(out, u64::from(why.number()), place)
}

impl Book {
    // The element of a paper by a path, `none`, or the rejection if there is no such paper.
    fn answer_piece(
        &mut self,
        heap: Global,
        paper: u64,
        path: &[u64],
        out: &mut Vec<u8>,
    ) -> Result<(), AllocError>
        requires { IndexesOf (held self.old).papers self.old.indexes.items }
        ensures same { SameHeld self.old self.new }
        ensures indexed { KeepsIndexes self.old self.new }
        ensures answer { Puts (PieceAnswer (held self.old).papers paper path.now) result out.old.items out.new.items }
    {
        let place = paper as usize;
        if place >= self.papers.len() {
            return reject(out, Rejection::Unknown, paper);
        }
        self.prepare(heap, place);
        match self.piece(place, path) {
            Some(part) => append_bytes(out, part),
            None => append_none(out),
        }
    }

    // The papers and marks as the input of a pool.
    fn input(&self) -> PoolInput<'_>
        ensures { input_of result ≡ brought_input (held self.now) self.now.numbers.items }
    {
        PoolInput {
            count: self.papers.len() as u64,
            certificates: &self.numbers,
            signatures: &self.seals,
            anchors: &self.trusted,
        }
    }

    // A shortest chain, or that there is none, or the rejection of the question.
    fn write_chain(
        &self,
        first: u64,
        day: u64,
        buffer: &mut [u16],
        out: &mut Vec<u8>,
    ) -> Result<(), AllocError>
        requires { length buffer.old ≡ lent (held self.now) }
        ensures { Puts (ChainAnswer (held self.now) self.now.numbers.items first day) result out.old.items out.new.items }
    {
        let input = self.input();
        match find_chain(input, day, first, buffer) {
            Ok(Some(count)) => append_chain(out, &buffer[..count]),
            Ok(None) => append_none(out),
            Err(why) => {
                let size = buffer.len() as u64;
                reject(out, why, rejection_place(why, input, first, size))
            }
        }
    }

    // The answer to a question about a chain, for which an output buffer is lent.
    fn answer_chain(&self, first: u64, day: u64, out: &mut Vec<u8>) -> Result<(), AllocError>
        ensures { Puts (ChainAnswer (held self.now) self.now.numbers.items first day) result out.old.items out.new.items }
    {
        let mut buffer = [0u16; MOST];
        let size = self.papers.len().min(MOST);
        self.write_chain(first, day, &mut buffer[..size], out)
    }

    // The answer to a line that says a command, put behind the bytes.
    fn answer_command(
        &mut self,
        heap: Global,
        command: Command,
        out: &mut Vec<u8>,
    ) -> Result<(), AllocError>
        requires { IndexesOf (held self.old).papers self.old.indexes.items }
        ensures quiet { StoresNothing (Some (says command)) → IsOk result }
        ensures same { SameHeld self.old self.new }
        ensures indexed { KeepsIndexes self.old self.new }
        ensures answer { (n : ℕ) → Puts (Answered (held self.old) self.old.numbers.items n (Some (says command))) result out.old.items out.new.items }
    {
        match command {
            Command::Nothing | Command::Seals(_) | Command::Trusted(_) => Ok(()),
            Command::Paper(bytes) => answer_paper(&bytes, out),
            Command::Piece { paper, path } => self.answer_piece(heap, paper, &path, out),
            Command::Chain { first, day } => self.answer_chain(first, day, out),
        }
    }

    // The answer to a line by its number, put behind the bytes.
    pub(crate) fn answer(
        &mut self,
        heap: Global,
        number: u64,
        line: &[u8],
        out: &mut Vec<u8>,
    ) -> Result<(), AllocError>
        requires { IndexesOf (held self.old).papers self.old.indexes.items }
        ensures quiet { StoresNothing (meaning line.now) → IsOk result }
        ensures same { SameHeld self.old self.new }
        ensures indexed { KeepsIndexes self.old self.new }
        ensures answer { PutsIfOk (Answered (held self.old) self.old.numbers.items number (meaning line.now)) result out.old.items out.new.items }
    {
        match read_line(heap, line) {
            Ok(command) => self.answer_command(heap, command, out),
            Err(LineError::Unreadable) => append_unreadable(out, number),
            Err(LineError::Memory(error)) => Err(error),
        }
    }
}

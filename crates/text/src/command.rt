// Lines read as commands.
ghost use Rattle.std.specs.Prelude.{◌≡◌, ◌<◌, length, Some};
ghost use Rattle.std.specs.Option.{option_map};
ghost use Rattle.text.specs.Heads.{head_by, head_of, words_head};
ghost use Rattle.text.specs.Meaning.{Meaning, meaning, says};
ghost use Rattle.text.specs.inner.Saying.{key_of, only_number, day_of, chain_of, piece_of, words_say};
ghost use Rattle.text.specs.Reading.{ReadsAs, StoresWords};
ghost use Rattle.text.specs.Tokens.{words as words_of};

use crate::error::LineError;
use crate::figures::{parse_number, read_bytes, read_marks, read_numbers};
use crate::tokens::Words;
use std::alloc::Global;

// What a line says; the lines stand in docs/FORMAT.md. Papers are counted from 0; numbers of papers, indices and days are below 2^64.
#[derive(Drop)]
pub enum Command {
    // A blank line or a comment.
    Nothing,
    // The bytes of a permit.
    Paper(Vec<u8>),
    // Signature marks, below 256.
    Seals(Vec<u8>),
    // Anchor marks, below 256.
    Trusted(Vec<u8>),
    // The element of a paper by a path of indices.
    Piece { paper: u64, path: Vec<u64> },
    // A shortest chain from a paper on a day.
    Chain { first: u64, day: u64 },
}

// What a line brings if it can be read, by its first word: a paper, marks, or nothing.
#[derive(Clone, Copy, PartialEq, Eq, Debug)]
pub enum Head {
    Paper,
    Marks,
    Other,
}

// What a line is about, by its first word.
#[derive(Clone, Copy)]
enum Key {
    Comment,
    Paper,
    Seals,
    Trusted,
    Piece,
    Chain,
    Other,
}

// What the line that begins with a word is about.
fn read_key(word: &[u8]) -> Key
    ensures { result ≡ key_of word.now }
{
    match word {
        [b'#', ..] => Key::Comment,
        b"paper" => Key::Paper,
        b"seals" => Key::Seals,
        b"trusted" => Key::Trusted,
        b"piece" => Key::Piece,
        b"chain" => Key::Chain,
        _ => Key::Other,
    }
}

// A number as the only word left.
fn read_last(mut words: Words<'_>) -> Option<u64>
    ensures { result ≡ only_number (words_of words.entry.rest.now) }
{
    let word = words.next()?;
    match words.next() {
        Some(_) => None,
        None => parse_number(word),
    }
}

// The word `day` and a number.
fn read_day(mut words: Words<'_>) -> Option<u64>
    ensures { result ≡ day_of (words_of words.entry.rest.now) }
{
    match words.next()? {
        b"day" => read_last(words),
        _ => None,
    }
}

// The words behind `chain`.
fn read_chain(mut words: Words<'_>) -> Option<Command>
    ensures { option_map says result ≡ chain_of (words_of words.entry.rest.now) }
{
    let first = parse_number(words.next()?)?;
    let day = read_day(words)?;
    Some(Command::Chain { first, day })
}

// The words behind `piece`.
fn read_piece(heap: Global, mut words: Words<'_>) -> Result<Command, LineError>
    ensures { ReadsAs says result (piece_of (words_of words.entry.rest.now)) (1 < length (words_of words.entry.rest.now)) }
{
    let word = words.next().ok_or(LineError::Unreadable)?;
    let paper = parse_number(word).ok_or(LineError::Unreadable)?;
    let path = read_numbers(heap, words)?;
    Ok(Command::Piece { paper, path })
}

// The command that words are.
fn read_words(heap: Global, mut words: Words<'_>) -> Result<Command, LineError>
    ensures { ReadsAs says result (words_say (words_of words.entry.rest.now)) (StoresWords (words_of words.entry.rest.now)) }
{
    let Some(word) = words.next() else {
        return Ok(Command::Nothing);
    };
    match read_key(word) {
        Key::Comment => Ok(Command::Nothing),
        Key::Paper => Ok(Command::Paper(read_bytes(heap, words)?)),
        Key::Seals => Ok(Command::Seals(read_marks(heap, words)?)),
        Key::Trusted => Ok(Command::Trusted(read_marks(heap, words)?)),
        Key::Piece => read_piece(heap, words),
        Key::Chain => read_chain(words).ok_or(LineError::Unreadable),
        Key::Other => Err(LineError::Unreadable),
    }
}

// The command that a line is: `Unreadable` if it is none, `Memory` if its bytes, marks or path can't be stored.
// A line that can't be read may fail by `Memory` before that is found, if it begins as one to be stored.
pub fn read_line(heap: Global, line: &[u8]) -> Result<Command, LineError>
    ensures { ReadsAs says result (meaning line.now) (StoresWords (words_of line.now)) }
{
    read_words(heap, Words::new(line))
}

// What the lines that begin with a word bring.
fn word_head(word: &[u8]) -> Head
    ensures { result ≡ head_by word.now }
{
    match word {
        b"paper" => Head::Paper,
        b"seals" | b"trusted" => Head::Marks,
        _ => Head::Other,
    }
}

// What a line brings if it can be read, told from its first word alone.
pub fn read_head(line: &[u8]) -> Head
    ensures words { result ≡ words_head (words_of line.now) }
    ensures said { (m : Meaning) → meaning line.now ≡ Some m → result ≡ head_of m }
{
    match Words::new(line).next() {
        Some(word) => word_head(word),
        None => Head::Other,
    }
}

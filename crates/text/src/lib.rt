// Lines of text read into commands, and the lines of the answers.
#![tactic(auto)]

ghost use Rattle.text.specs.Promise.{AnswersStand, DigitsStand, FiguresStand, LinesStand, MeaningStand, WordsStand};

mod answers;
mod command;
mod error;
mod figures;
mod tokens;

pub use answers::{
    append_bytes, append_chain, append_element, append_ill, append_none, append_rejection,
    append_unreadable,
};
pub use command::{Command, Head, read_head, read_line};
pub use error::LineError;
pub use tokens::{Lines, Words};

// A text's lines are what its line feeds cut it into, and no others.
pub fn lines_stands() -> u8
    ensures { LinesStand }
{
    0
}

// A line's words are what stands between its blanks, and no others.
pub fn words_stands() -> u8
    ensures { WordsStand }
{
    0
}

// Words of decimal digits, and no others, are numbers; words of pairs of digits of base sixteen, and no others, are bytes.
pub fn digits_stands() -> u8
    ensures { DigitsStand }
{
    0
}

// A line says what the grammar has, and is unreadable if that has nothing.
pub fn meaning_stands() -> u8
    ensures { MeaningStand }
{
    0
}

// Printed numbers and bytes are read back.
pub fn figures_stands() -> u8
    ensures { FiguresStand }
{
    0
}

// Different lines of an answer print differently, and a line's text tells where it ends.
pub fn answers_stands() -> u8
    ensures { AnswersStand }
{
    0
}

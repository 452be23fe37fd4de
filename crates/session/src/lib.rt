// The answer of a text of papers, marks and questions.
#![tactic(auto)]

mod answering;
mod error;
mod indexing;
mod numbering;
mod passing;
mod promise;
mod reading;
mod rows;
mod writing;

use element::Index;
pub use error::AnswerError;
pub use promise::{
    each_line_stands, more_brought_stands, more_text_stands, no_permit_stands,
    other_numbers_stands, pool_of_papers_stands, row_text_stands,
};
pub use writing::answer_text;

// All that a text brings: papers, signature marks, anchor marks.
// `numbers` has six numbers for each of the leading papers that are permits, as the input of a pool has them.
// `indexes` has the index of a paper at its place once the elements are noted; behind its end stands none.
// `all_read` is whether each line that begins as one that brings something could be read.
// `walks` is how many bytes of papers may still be walked through in search of elements before a paper's elements are noted. At first it is a multiple of the size of the text.
#[derive(Drop)]
struct Book {
    papers: Vec<Vec<u8>>,
    seals: Vec<u8>,
    trusted: Vec<u8>,
    numbers: Vec<u32>,
    all_read: bool,
    indexes: Vec<Option<Box<Index>>>,
    walks: usize,
}

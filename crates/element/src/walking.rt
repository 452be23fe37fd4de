// A row of elements, walked along one by one.
ghost use Rattle.std.specs.Prelude.{◌≡◌, ◌+◌, ◌^◌, ◌<◌, ◌≤◌, length, ◌==◌};
ghost use Rattle.std.specs.Iterator.{at_most};
ghost use Rattle.format.specs.Elements.{framed};
ghost use Rattle.element.specs.Limits.{longest};

use crate::judging::{Opening, Reader};

// The bytes of a row that are still to be read, and where they begin in the bytes that were lent to `new`.
#[derive(Clone, Copy)]
pub struct Cursor<'a> {
    rest: &'a [u8],
    at: usize,
    ghost fits: { at + length rest.now < 2 ^ 64 },
}

// An element: its tag, its contents, all its bytes, and where both begin in the bytes that were lent to `Cursor::new`. The contents of a constructed element need not be a row.
#[derive(Clone, Copy)]
pub struct Element<'a> {
    pub tag: u8,
    pub contents: &'a [u8],
    pub whole: &'a [u8],
    pub at: usize,
    pub contents_at: usize,
    pub ghost is: { whole.now ≡ framed tag contents.now },
    pub ghost short: { length contents.now ≤ longest },
    pub ghost within: { contents_at + length contents.now ≡ at + length whole.now },
    pub ghost fits: { at + length whole.now < 2 ^ 64 },
}

impl<'a> Cursor<'a> {
    ghost use Rattle.element.specs.Cursors.{ahead, offset};

    // A cursor before the first element of a row.
    pub fn new(bytes: &'a [u8]) -> Cursor<'a>
        ensures rest { ahead result ≡ bytes.now }
        ensures place { offset result ≡ 0 }
    {
        Cursor { rest: bytes, at: 0 }
    }

    // Whether no bytes of the row are left.
    pub fn is_empty(&self) -> bool
        ensures { result ≡ (length (ahead self.now) == 0) }
    {
        self.rest.is_empty()
    }
}

impl<'a> Element<'a> {
    ghost use Rattle.element.specs.Cursors.{RowOf, ahead, offset};

    // A cursor before the first byte of the contents, also of a primitive element's, which need not be a row.
    pub fn inside(&self) -> Cursor<'a>
        ensures rest { ahead result ≡ self.now.contents.now }
        ensures place { offset result ≡ self.now.contents_at }
    {
        Cursor {
            rest: self.contents,
            at: self.contents_at,
        }
    }

    // A cursor before the first element within, if the element is constructed.
    pub fn row(&self) -> Option<Cursor<'a>>
        ensures { RowOf self.now result }
    {
        if self.tag < Reader::CONSTRUCTED {
            return None;
        }
        Some(self.inside())
    }
}

impl<'a> Iterator for Cursor<'a> {
    ghost use Rattle.element.specs.Cursors.{NextElement, ahead};

    type Item = Element<'a>;

    ghost next_gives = { NextElement };

    ghost remaining = { λ c. at_most (length (ahead c)) };

    // The next element of the row, or none if no element stands at the front; the cursor then stays.
    fn next(&mut self) -> Option<Element<'a>> {
        let Opening {
            tag,
            contents,
            behind,
        } = Reader::open(self.rest)?;
        let at = self.at;
        let whole = &self.rest[..self.rest.len() - behind.len()];
        self.rest = behind;
        self.at += whole.len();
        Some(Element {
            tag,
            contents,
            whole,
            at,
            contents_at: self.at - contents.len(),
        })
    }
}

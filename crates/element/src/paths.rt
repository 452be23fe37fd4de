// Elements found by their paths.
// A path is a row of indices from 0: the first says which element of the row, the next which one within it, and so on.
ghost use Rattle.std.specs.Prelude.{option_map};
ghost use Rattle.element.specs.Found.{Found, bytes_of};
ghost use Rattle.element.specs.Located.{IsPart, Located, Piece};

use crate::judging::{Verdict, judge};
use crate::walking::{Cursor, Element};

// Where an element begins in the bytes, and how many bytes it takes.
#[derive(Clone, Copy)]
pub struct Span {
    pub at: usize,
    pub len: usize,
}

// The element that a path leads to. None if the bytes are malformed, or the path leads to no element.
pub fn find<'a>(bytes: &'a [u8], path: &[u64]) -> Option<Element<'a>>
    ensures found { Found bytes.now path.now result }
    ensures part { IsPart bytes.now path.now (bytes_of result) }
{
    let Verdict::Well = judge(bytes) else {
        return None;
    };
    let (last, outer) = path.split_last()?;
    let mut cursor = Cursor::new(bytes);
    for number in outer {
        cursor = cursor.nth(*number as usize)?.row()?;
    }
    cursor.nth(*last as usize)
}

// Where the element that a path leads to stands. None if the bytes are malformed, or the path leads to no element.
pub fn locate(bytes: &[u8], path: &[u64]) -> Option<Span>
    ensures { Located bytes.now path.now result }
{
    let element = find(bytes, path)?;
    Some(Span {
        at: element.at,
        len: element.whole.len(),
    })
}

// The bytes of the element that a path leads to, tag and length included. None if the bytes are malformed, or the path leads to no element.
pub fn piece<'a>(bytes: &'a [u8], path: &[u64]) -> Option<&'a [u8]>
    ensures { Piece bytes.now path.now (option_map (λ part. part.now) result) }
{
    find(bytes, path).map(|element| element.whole)
}

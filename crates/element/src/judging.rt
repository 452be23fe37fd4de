// Bytes judged: whether they are a row of elements.
ghost use Rattle.format.specs.Elements.{Readable};
ghost use Rattle.element.specs.Judged.{Judged};
ghost use Rattle.element.specs.Limits.{longest};
ghost use Rattle.element.specs.Openings.{FrontElement};
ghost use Rattle.element.specs.inner.Rests.{Decides, Leaves};

use crate::progress::stepping::ill_place;
use length::Length;

// What `judge` answers.
#[derive(Clone, Copy, PartialEq, Eq, Debug)]
pub enum Verdict {
    // The bytes are a row of elements.
    Well,
    // The bytes before `at` could begin a row, and with the byte there they cannot. Where only the end comes too soon, `at` is the number of bytes.
    Ill { at: usize },
}

// The first element of some bytes, and the bytes behind it.
#[derive(Clone, Copy)]
pub struct Opening<'a> {
    pub tag: u8,
    pub contents: &'a [u8],
    pub behind: &'a [u8],
}

// The bytes of a row that are still to be read, and how many levels of constructed elements may open in it.
#[derive(Clone, Copy)]
struct Rest<'a> {
    bytes: &'a [u8],
    depth: usize,
}

// Whether the bytes are a row of elements. Malformed ones are read again, byte by byte, for the place.
pub fn judge(bytes: &[u8]) -> Verdict
    ensures { Judged bytes.now result }
{
    if Reader::row(bytes, Reader::MAX_DEPTH) {
        return Verdict::Well;
    }
    // `None` cannot come: both readers accept the same bytes.
    ill_place(bytes).map_or(Verdict::Well, |at| Verdict::Ill { at })
}

// The limits of the format, and the reader that keeps them.
pub struct Reader;

impl Reader {
    // Constructed elements stand within one another at most this deep.
    pub const MAX_DEPTH: usize = 8;
    // Contents have at most this many bytes.
    pub const MAX_LENGTH: usize = 65_535;
    // Tags from this one on are of constructed elements.
    pub const CONSTRUCTED: u8 = 128;
    // The shortest element is a tag and a length of one byte.
    const SHORTEST: usize = 2;

    // The element at the front of the bytes, or none if no element stands there.
    pub fn open<'a>(bytes: &'a [u8]) -> Option<Opening<'a>>
        ensures { FrontElement bytes.now result }
    {
        // One test covers the tag and the first byte of the length.
        let [tag, _, ..] = bytes else {
            return None;
        };
        let Length { value, size } = Length::read(&bytes[1..])?;
        let (contents, behind) = bytes[1 + size..].split_at_checked(value)?;
        Some(Opening {
            tag: *tag,
            contents,
            behind,
        })
    }

    // Whether the bytes are a row of elements in which at most `depth` levels of constructed elements open. Its calls nest no deeper than that.
    #[cycle(row_element)]
    pub fn row(bytes: &[u8], depth: usize) -> bool
        ensures { Readable depth longest bytes.now result }
    {
        let mut rest = Rest { bytes, depth };
        while rest.bytes.len() >= Reader::SHORTEST {
            let Some(next) = Reader::element(rest.bytes, rest.depth) else {
                return false;
            };
            rest = next;
        }
        rest.bytes.is_empty()
    }

    // Passes over elements with short lengths that need no call: primitive ones, and into a constructed one that is the last of its row. What is left decides.
    fn past_short(bytes: &[u8], depth: usize) -> Rest<'_>
        ensures { Decides depth bytes.now result }
    {
        let mut rest = Rest { bytes, depth };
        while let [tag, size, behind @ ..] = rest.bytes {
            if *size >= Length::SHORT {
                return rest;
            }
            let Some((_, after)) = behind.split_at_checked(usize::from(*size)) else {
                return rest;
            };
            if *tag < Reader::CONSTRUCTED {
                rest.bytes = after;
            } else if rest.depth > 0 && after.is_empty() {
                rest = Rest {
                    bytes: behind,
                    depth: rest.depth - 1,
                };
            } else {
                return rest;
            }
        }
        rest
    }

    // Reads the first element, and answers what is left to read: the bytes behind it or, if it is constructed and the last, its contents, which then need no call.
    #[cycle(row_element)]
    fn element<'a>(bytes: &'a [u8], depth: usize) -> Option<Rest<'a>>
        ensures { Leaves depth bytes.now result }
    {
        let Opening {
            tag,
            contents,
            behind,
        } = Reader::open(bytes)?;
        let after = Rest {
            bytes: behind,
            depth,
        };
        if tag < Reader::CONSTRUCTED {
            return Some(after);
        }
        if depth == 0 {
            return None;
        }
        if behind.is_empty() {
            return Some(Rest {
                bytes: contents,
                depth: depth - 1,
            });
        }
        let inner = Reader::past_short(contents, depth - 1);
        if inner.bytes.is_empty() {
            return Some(after);
        }
        if !Reader::row(inner.bytes, inner.depth) {
            return None;
        }
        Some(after)
    }
}

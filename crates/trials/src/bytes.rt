// Strings of bytes: what is said of them, against a plain reader.
use crate::draws::Draws;
use crate::tally::Tally;
use element::{Verdict, judge, piece};

// The most bytes of a short string.
const LONGEST: usize = 12;

// Bytes drawn for each string, whose first ones it is: the same number for a short one.
const ROOM: usize = 300;

// The most elements of a deep string, each but the last around the next.
const DEEPEST: u8 = 12;

// The bytes of which strings are made, the common ones several times.
const LETTERS: [u8; 16] = [0, 0, 0, 0, 0, 1, 1, 2, 2, 3, 5, 127, 128, 129, 130, 200];

// The greatest depth of constructed elements, written here apart from the crate that is tried.
const LEVELS: usize = 8;

// Tags from this one on are of constructed elements; lengths below it take one byte.
const HIGH: u8 = 128;

// The element at the front of bytes, and what stands behind it.
#[derive(Clone, Copy)]
struct Front<'a> {
    tag: u8,
    contents: &'a [u8],
    behind: &'a [u8],
}

// The contents' length written at the front of the bytes, and the bytes behind it.
fn length(bytes: &[u8]) -> Option<(usize, &[u8])> {
    match bytes {
        [first, behind @ ..] if *first < HIGH => Some((usize::from(*first), behind)),
        [129, size, behind @ ..] if *size >= HIGH => Some((usize::from(*size), behind)),
        [130, high, low, behind @ ..] if *high > 0 => {
            Some((usize::from(u16::from_be_bytes([*high, *low])), behind))
        }
        _ => None,
    }
}

// The element at the front of the bytes.
fn split_front(bytes: &[u8]) -> Option<Front<'_>> {
    let (tag, rest) = bytes.split_first()?;
    let (size, rest) = length(rest)?;
    let (contents, behind) = rest.split_at_checked(size)?;
    Some(Front {
        tag: *tag,
        contents,
        behind,
    })
}

// Whether the bytes are a row in which `levels` levels of constructed elements may open.
fn is_row(bytes: &[u8], levels: usize) -> bool {
    let mut rest = bytes;
    // Each element takes a byte at least.
    for _ in bytes {
        let Some(element) = split_front(rest) else {
            break;
        };
        if element.tag >= HIGH && (levels == 0 || !is_row(element.contents, levels - 1)) {
            return false;
        }
        rest = element.behind;
    }
    rest.is_empty()
}

// Whether what is said of the bytes is what the plain reader says.
fn agrees(bytes: &[u8], well: bool) -> bool {
    let judged = match judge(bytes) {
        Verdict::Well => well,
        Verdict::Ill { at } => !well && at <= bytes.len(),
    };
    judged && piece(bytes, &[0]).is_some() == (well && !bytes.is_empty())
}

// A byte drawn of those of which strings are made.
fn draw_letter(draws: &mut Draws) -> u8 {
    LETTERS[usize::from(draws.below(16))]
}

// A short string drawn, with bytes not used behind it, and its size.
pub(crate) fn draw_short(draws: &mut Draws) -> ([u8; ROOM], usize) {
    let mut drawn = [0; ROOM];
    for byte in &mut drawn[..LONGEST] {
        *byte = draw_letter(draws);
    }
    (drawn, usize::from(draws.below(13)))
}

// A string drawn that begins with a length of two or three bytes, and its size; behind the length all bytes are 0.
pub(crate) fn draw_long(draws: &mut Draws) -> ([u8; ROOM], usize) {
    let mut drawn = [0; ROOM];
    drawn[0] = draw_letter(draws);
    if draws.below(2) == 0 {
        drawn[1] = 129;
        drawn[2] = draws.below(40) + 120;
    } else {
        drawn[1] = 130;
        drawn[2] = draws.below(2);
        drawn[3] = draws.below(20);
    }
    (drawn, usize::from(draws.below(181)) + 120)
}

// A string drawn of elements each around the next, and its size; a few of them are primitive.
pub(crate) fn draw_deep(draws: &mut Draws) -> ([u8; ROOM], usize) {
    let elements = draws.below(DEEPEST) + 1;
    let mut drawn = [0; ROOM];
    for (around, header) in (1..=DEEPEST).zip(drawn.chunks_exact_mut(2)) {
        if let [tag, size] = header {
            if draws.below(16) > 0 {
                *tag = HIGH;
            }
            *size = 2 * (elements.saturating_sub(around) % DEEPEST);
        }
    }
    (drawn, 2 * usize::from(elements))
}

// Draws strings and tries them.
pub(crate) fn try_strings<D: FnMut(&mut Draws) -> ([u8; ROOM], usize)>(
    draws: &mut Draws,
    many: usize,
    mut draw: D,
) -> Tally
    requires { D.IsAlwaysCallable draw }
{
    let mut tally = Tally::default();
    for _ in 0..many {
        let (drawn, size) = draw(draws);
        let string = &drawn[..size.min(ROOM)];
        let well = is_row(string, LEVELS);
        tally.add(well, agrees(string, well));
    }
    tally
}

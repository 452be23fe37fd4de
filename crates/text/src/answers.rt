// The lines of answers, appended to a vector of bytes.
// On an error, which is out of memory, a front of the line may stand behind the vector's old bytes.
ghost use Rattle.std.specs.Prelude.{◌≡◌, ◌<◌, ◌∷◌, ◌++◌, ℕ, List, decimal};
ghost use Rattle.std.specs.Char.{digit_char};
ghost use Rattle.std.specs.Option.{option_map};
ghost use Rattle.text.specs.Texts.{line_feed, hex_text, space_before, spaced, indent, chain_text, none_text, rejection_text, unreadable_text, ill_text, bytes_text, element_text, AppendsText};

use itoa::Buffer;
use std::alloc::AllocError;

// The number of the rejection of a line that can't be read. 1 to 4 are those of the crate `chain`.
const UNREADABLE: u64 = 5;

// A number in a row: a `u16` prints in base ten, a `u8` as two digits of base sixteen.
trait Figure: Copy {
    // What a number prints as.
    ghost text: { Self → List ℕ };

    // Appends its text.
    fn push(self, out: &mut Vec<u8>) -> Result<(), AllocError>
        ensures { AppendsText result out.old.items (text self) out.new.items };
}

// Appends a text as it stands.
fn push_text(out: &mut Vec<u8>, text: &[u8]) -> Result<(), AllocError>
    ensures { AppendsText result out.old.items text.now out.new.items }
{
    out.extend_from_slice(text)
}

// Appends the end of a line.
fn end_line(out: &mut Vec<u8>) -> Result<(), AllocError>
    ensures { AppendsText result out.old.items line_feed out.new.items }
{
    push_text(out, b"\n")
}

// Appends a number in base ten.
fn push_decimal(out: &mut Vec<u8>, n: u64) -> Result<(), AllocError>
    ensures { AppendsText result out.old.items (decimal n) out.new.items }
{
    push_text(out, Buffer::new().format(n).as_bytes())
}

// Appends a text and then a number.
fn push_number(out: &mut Vec<u8>, before: &[u8], n: u64) -> Result<(), AllocError>
    ensures { AppendsText result out.old.items (before.now ++ decimal n) out.new.items }
{
    push_text(out, before)?;
    push_decimal(out, n)
}

// The ASCII digit of base sixteen, in lower case.
fn hex_char(d: u8) -> u8
    requires { d < 16 }
    ensures { result ≡ digit_char d }
{
    char::from_digit(u32::from(d), 16).unwrap() as u8
}

impl Figure for u16 {
    ghost text = { decimal };

    fn push(self, out: &mut Vec<u8>) -> Result<(), AllocError> {
        push_decimal(out, u64::from(self))
    }
}

impl Figure for u8 {
    ghost text = { hex_text };

    fn push(self, out: &mut Vec<u8>) -> Result<(), AllocError> {
        push_text(out, &[hex_char(self / 16), hex_char(self % 16)])
    }
}

// Appends a space and a number.
fn push_next<F: Figure>(out: &mut Vec<u8>, figure: F) -> Result<(), AllocError>
    ensures { AppendsText result out.old.items (space_before F.text figure) out.new.items }
{
    push_text(out, b" ")?;
    figure.push(out)
}

// Appends a line of numbers, one space between them.
fn push_figures<F: Figure>(out: &mut Vec<u8>, first: F, rest: &[F]) -> Result<(), AllocError>
    ensures { AppendsText result out.old.items (spaced F.text (first ∷ rest.now) ++ line_feed) out.new.items }
{
    first.push(out)?;
    for figure in rest {
        push_next(out, *figure)?;
    }
    end_line(out)
}

// Appends a line of numbers, which is empty if the row is.
fn append_figures<F: Figure>(out: &mut Vec<u8>, row: &[F]) -> Result<(), AllocError>
    ensures { AppendsText result out.old.items (spaced F.text row.now ++ line_feed) out.new.items }
{
    match row {
        [] => end_line(out),
        [first, rest @ ..] => push_figures(out, *first, rest),
    }
}

// Appends two spaces for each level. A loop, since twice the level may overflow a `usize`.
fn push_indent(out: &mut Vec<u8>, level: usize) -> Result<(), AllocError>
    ensures { AppendsText result out.old.items (indent level) out.new.items }
{
    for _ in 0..level {
        push_text(out, b"  ")?;
    }
    Ok(())
}

// `0 2 3`: the indices of a chain's papers, the holder's first.
pub fn append_chain(out: &mut Vec<u8>, row: &[u16]) -> Result<(), AllocError>
    ensures { AppendsText result out.old.items (chain_text row.now) out.new.items }
{
    append_figures(out, row)
}

// `02 00`: bytes in base sixteen.
pub fn append_bytes(out: &mut Vec<u8>, bytes: &[u8]) -> Result<(), AllocError>
    ensures { AppendsText result out.old.items (bytes_text bytes.now) out.new.items }
{
    append_figures(out, bytes)
}

// `  01 41`: an element's tag and contents in base sixteen, two spaces further in for each level.
// A constructed element has no contents here: its elements follow on lines of their own.
pub fn append_element(
    out: &mut Vec<u8>,
    level: usize,
    tag: u8,
    contents: Option<&[u8]>,
) -> Result<(), AllocError>
    ensures { AppendsText result out.old.items (element_text level tag (option_map (λ c. c.now) contents.entry)) out.new.items }
{
    push_indent(out, level)?;
    push_figures(out, tag, contents.unwrap_or(&[]))
}

// `none`: there is nothing of what was asked.
pub fn append_none(out: &mut Vec<u8>) -> Result<(), AllocError>
    ensures { AppendsText result out.old.items none_text out.new.items }
{
    push_text(out, b"none\n")
}

// `ill at 17`: the place where bytes are malformed; docs/FORMAT.md says which that is.
pub fn append_ill(out: &mut Vec<u8>, at: u64) -> Result<(), AllocError>
    ensures { AppendsText result out.old.items (ill_text at) out.new.items }
{
    push_number(out, b"ill at ", at)?;
    end_line(out)
}

// `refused 3 at 7`: the number of a rejection and its place, by docs/FORMAT.md.
pub fn append_rejection(out: &mut Vec<u8>, number: u64, place: u64) -> Result<(), AllocError>
    ensures { AppendsText result out.old.items (rejection_text number place) out.new.items }
{
    push_number(out, b"refused ", number)?;
    push_number(out, b" at ", place)?;
    end_line(out)
}

// `refused 5 at 7`: a line that can't be read, by its index from 0.
pub fn append_unreadable(out: &mut Vec<u8>, line: u64) -> Result<(), AllocError>
    ensures { AppendsText result out.old.items (unreadable_text line) out.new.items }
{
    append_rejection(out, UNREADABLE, line)
}

// The words of a line and the lines of a text.
ghost use Rattle.std.specs.Prelude.{◌≡◌, ℕ, Bool, length, ◌<◌, ◌∷◌, IfNone, IfSome, []};
ghost use Rattle.std.specs.Fn.{ComputesKey};
ghost use Rattle.std.specs.Iterator.{at_most, YieldsFirstRef};
ghost use Rattle.text.specs.Tokens.{blank, line_end, segments, words, lines};

// The words of a line that are still to come; blanks are space, tab and carriage return.
#[derive(Drop)]
pub struct Words<'a> {
    rest: &'a [u8],
}

// The lines of a text that are still to come, without their line feeds. Unlike a word, a line may be empty.
#[derive(Drop)]
pub struct Lines<'a> {
    rest: &'a [u8],
}

// Whether a byte is a blank.
fn is_blank(b: &u8) -> bool
    ensures { result ≡ blank b.now }
{
    matches!(*b, b' ' | b'\t' | b'\r')
}

// Whether a byte ends a line.
fn is_line_end(b: &u8) -> bool
    ensures { result ≡ line_end b.now }
{
    *b == b'\n'
}

// The first segment of some bytes and the rest behind its end; `None` if there are no bytes.
fn cut<'a, F: Fn(&u8) -> bool>(bytes: &'a [u8], ends: F) -> Option<(&'a [u8], &'a [u8])>
    requires { F.IsAlwaysCallable ends }
    ensures none { IfNone result (bytes.now ≡ []) }
    ensures shorter { IfSome result (λ r. length r.1.now < length bytes.now) }
    ensures first { (p : ℕ → Bool) → ComputesKey F.FnMut p ends → IfSome result (λ r. segments p bytes.now ≡ r.0.now ∷ segments p r.1.now) }
{
    if bytes.is_empty() {
        return None;
    }
    match bytes.iter().position(ends) {
        Some(n) => Some((&bytes[..n], &bytes[n + 1..])),
        None => Some((bytes, &[])),
    }
}

impl<'a> Words<'a> {
    // All words of a line.
    pub fn new(line: &'a [u8]) -> Words<'a>
        ensures { result.rest.now ≡ line.now }
    {
        Words { rest: line }
    }
}

// Each word in turn.
impl<'a> Iterator for Words<'a> {
    type Item = &'a [u8];

    ghost next_gives = { YieldsFirstRef (λ s. words s.rest.now) };

    ghost remaining = { λ s. at_most (length s.rest.now) };

    fn next(&mut self) -> Option<&'a [u8]> {
        while let Some((word, behind)) = cut(self.rest, is_blank) {
            self.rest = behind;
            if !word.is_empty() {
                return Some(word);
            }
        }
        None
    }
}

impl<'a> Lines<'a> {
    // All lines of a text.
    pub fn new(text: &'a [u8]) -> Lines<'a>
        ensures { result.rest.now ≡ text.now }
    {
        Lines { rest: text }
    }
}

// Each line in turn.
impl<'a> Iterator for Lines<'a> {
    type Item = &'a [u8];

    ghost next_gives = { YieldsFirstRef (λ s. lines s.rest.now) };

    ghost remaining = { λ s. at_most (length s.rest.now) };

    fn next(&mut self) -> Option<&'a [u8]> {
        let (line, rest) = cut(self.rest, is_line_end)?;
        self.rest = rest;
        Some(line)
    }
}

// Numbers and bytes read from words.
ghost use Rattle.std.specs.Prelude.{◌≡◌, ◌++◌, ◌<◌, ℕ, List, Option, Some, IfSome, vec_items, length};
ghost use Rattle.std.specs.Option.{option_map};
ghost use Rattle.std.specs.Fn.{FnReturnsAt};
ghost use Rattle.text.specs.inner.Figures.{below, with_digit, number, hex_digit, hex_pair, word_bytes, bytes_of, numbers, all_of};
ghost use Rattle.text.specs.Meaning.{mark_limit, number_limit};
ghost use Rattle.text.specs.Reading.{ReadsAs};
ghost use Rattle.text.specs.Tokens.{words as words_of};

use crate::error::LineError;
use crate::tokens::Words;
use std::alloc::Global;

// A number with one more digit at its end, if that is below 2^64.
fn push_digit(n: u64, b: u8) -> Option<u64>
    ensures { result ≡ below number_limit (with_digit (Some n) b) }
{
    let digit = char::from(b).to_digit(10)?;
    n.checked_mul(10)?.checked_add(u64::from(digit))
}

// A word as a number in base ten, below 2^64.
pub(crate) fn parse_number(word: &[u8]) -> Option<u64>
    ensures { result ≡ number number_limit word.now }
{
    if word.is_empty() {
        return None;
    }
    let mut n = 0;
    for b in word {
        n = push_digit(n, *b)?;
    }
    Some(n)
}

// A word as a mark, a number below 256.
pub(crate) fn parse_mark(word: &[u8]) -> Option<u8>
    ensures { result ≡ number mark_limit word.now }
{
    u8::try_from(parse_number(word)?).ok()
}

// The value of a digit of base sixteen, in either case.
fn hex_value(b: u8) -> Option<u32>
    ensures value { result ≡ hex_digit b }
    ensures small { IfSome result (λ d. d < 16) }
{
    char::from(b).to_digit(16)
}

// The byte that two digits of base sixteen write.
fn hex_byte(high: u8, low: u8) -> Option<u8>
    ensures { result ≡ hex_pair high low }
{
    let h = hex_value(high)?;
    let l = hex_value(low)?;
    u8::try_from(h * 16 + l).ok()
}

// Appends the bytes that a word writes.
fn push_bytes(out: &mut Vec<u8>, word: &[u8]) -> Result<(), LineError>
    ensures { ReadsAs (λ _. out.new.items) result (option_map (λ bs. out.old.items ++ bs) (word_bytes word.now)) (0 < length word.now) }
{
    for pair in word.chunks(2) {
        let [high, low] = pair else {
            return Err(LineError::Unreadable);
        };
        out.push(hex_byte(*high, *low).ok_or(LineError::Unreadable)?)?;
    }
    Ok(())
}

// The bytes that the words left write.
pub(crate) fn read_bytes(heap: Global, words: Words<'_>) -> Result<Vec<u8>, LineError>
    ensures { ReadsAs vec_items result (bytes_of (words_of words.entry.rest.now)) (0 < length (words_of words.entry.rest.now)) }
{
    let mut out = Vec::new(heap);
    for word in words {
        push_bytes(&mut out, word)?;
    }
    Ok(out)
}

// The values of the words left, each read by `parse`.
fn read_all<T: Drop, F: Fn(&[u8]) -> Option<T>>(
    heap: Global,
    words: Words<'_>,
    parse: F,
) -> Result<Vec<T>, LineError>
    requires { F.IsAlwaysCallable parse }
    ensures { (p : List ℕ → Option T) → ((w : List ℕ) (r : Option T) → FnReturnsAt F.Fn parse w r → r ≡ p w) → ReadsAs vec_items result (all_of p (words_of words.entry.rest.now)) (0 < length (words_of words.entry.rest.now)) }
{
    let mut out = Vec::new(heap);
    for word in words {
        out.push(parse(word).ok_or(LineError::Unreadable)?)?;
    }
    Ok(out)
}

// The words left as marks.
pub(crate) fn read_marks(heap: Global, words: Words<'_>) -> Result<Vec<u8>, LineError>
    ensures { ReadsAs vec_items result (numbers mark_limit (words_of words.entry.rest.now)) (0 < length (words_of words.entry.rest.now)) }
{
    read_all(heap, words, parse_mark)
}

// The words left as numbers.
pub(crate) fn read_numbers(heap: Global, words: Words<'_>) -> Result<Vec<u64>, LineError>
    ensures { ReadsAs vec_items result (numbers number_limit (words_of words.entry.rest.now)) (0 < length (words_of words.entry.rest.now)) }
{
    read_all(heap, words, parse_number)
}

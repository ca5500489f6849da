//! The parts of a line, read from the front of bytes.

ghost use Rattle.std.specs.Prelude.{◌≡◌, ◌≢◌, ℕ, ◌++◌, ◌^◌, ◌<◌, List, MatchOption, decimal};
ghost use Rattle.std.specs.List.{prefix_len};
ghost use Rattle.axe_report.specs.Fronts.{is_digit, is_no_separator, Stops};

use itoa::Buffer;
use std::str;

/// Whether a byte is a decimal digit.
fn is_digit(byte: u8) -> bool
    ensures { result ≡ is_digit byte }
{
    byte.is_ascii_digit()
}

/// How many digits stand at the front.
pub(crate) fn digits_len(text: &[u8]) -> usize
    ensures { result ≡ prefix_len is_digit text.now }
{
    for (index, byte) in text.iter().enumerate() {
        if !is_digit(*byte) {
            return index;
        }
    }
    text.len()
}

/// Whether a byte is neither a space nor a line feed.
fn is_no_separator(byte: u8) -> bool
    ensures { result ≡ is_no_separator byte }
{
    byte != b' ' && byte != b'\n'
}

/// How many bytes stand at the front before a space or a line feed.
pub(crate) fn word_len(text: &[u8]) -> usize
    ensures { result ≡ prefix_len is_no_separator text.now }
{
    for (index, byte) in text.iter().enumerate() {
        if !is_no_separator(*byte) {
            return index;
        }
    }
    text.len()
}

/// The number of which this is the decimal spelling.
fn number_of(digits: &[u8]) -> Option<u64>
    ensures { MatchOption result ((n : ℕ) → n < 2 ^ 64 → digits.now ≢ decimal n) (λ n. digits.now ≡ decimal n) }
{
    let Ok(text) = str::from_utf8(digits) else {
        return None;
    };
    let Ok(number) = text.parse::<u64>() else {
        return None;
    };
    if Buffer::new().format(number).as_bytes() != digits {
        return None;
    }
    Some(number)
}

/// The number at the front, and what follows it.
fn number(text: &[u8]) -> Option<(u64, &[u8])>
    ensures { MatchOption result
        ((n : ℕ) (rest : List ℕ) → n < 2 ^ 64 → Stops is_digit rest → text.now ≢ decimal n ++ rest)
        (λ found. (text.now ≡ decimal found.0 ++ found.1.now) × Stops is_digit found.1.now) }
{
    let (digits, rest) = text.split_at(digits_len(text));
    let Some(number) = number_of(digits) else {
        return None;
    };
    Some((number, rest))
}

/// The number after a word at the front, and what follows it.
pub(crate) fn setting<'a>(text: &'a [u8], word: &[u8]) -> Option<(u64, &'a [u8])>
    ensures { MatchOption result
        ((n : ℕ) (rest : List ℕ) → n < 2 ^ 64 → Stops is_digit rest → text.now ≢ word.now ++ (decimal n ++ rest))
        (λ found. (text.now ≡ word.now ++ (decimal found.0 ++ found.1.now)) × Stops is_digit found.1.now) }
{
    let Some(rest) = after(text, word) else {
        return None;
    };
    number(rest)
}

/// What follows a word at the front.
pub(crate) fn after<'a>(text: &'a [u8], word: &[u8]) -> Option<&'a [u8]>
    ensures { MatchOption result ((rest : List ℕ) → text.now ≢ word.now ++ rest) (λ rest.
        text.now ≡ word.now ++ rest.now) }
{
    text.strip_prefix(word)
}

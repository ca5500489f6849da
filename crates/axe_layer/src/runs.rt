//! Digits at indices of which some follow one another. Words of bits tell which: bit e tells whether index e is
//! followed by the next number.
ghost use Rattle.std.specs.Int.{bit_at};
ghost use Rattle.std.specs.Prelude.{ℕ, ◌≡◌, ◌↔◌, ◌+◌, ◌-◌, ◌/◌, ◌<◌, ◌≤◌, length, map, slice_index, All};
ghost use Rattle.axe_lane.specs.Words.{bit_of};
ghost use Rattle.axe_layer.specs.Runs.{AreFollowed};

use crate::parts::{lowest, with_bit, word_from};
use axe_lane::WORD;

/// Makes words those that tell which indices are followed by the next number, as far as the words go. The bits from
/// that of the last index on tell nothing.
pub fn mark_followed(words: &mut [u64], indices: &[usize])
    ensures long { length words.new ≡ length words.old }
    ensures followed { AreFollowed indices.now words.new }
    ensures all { (e : ℕ) → e + 1 < length indices.now → e / 64 < length words.old →
        slice_index indices.now (e + 1) ≡ slice_index indices.now e + 1 → bit_of words.new e ≡ 1 }
{
    let count = indices.len().div_ceil(WORD).min(words.len());
    for at in 0..count {
        words[at] = followed_from(indices, at * WORD);
    }
}

/// The word that tells which of the indices from one of their places on are followed by the next number.
fn followed_from(indices: &[usize], from: usize) -> u64
    requires { from < length indices.now }
    ensures { (i : ℕ) → i < 64 → from + i + 1 < length indices.now →
        (bit_at result i ≡ 1) ↔ (slice_index indices.now (from + i + 1) ≡ slice_index indices.now (from + i) + 1) }
{
    let end = (indices.len() - 1).min(from + WORD);
    let mut word = 0;
    for at in from..end {
        if indices[at + 1].checked_sub(indices[at]) == Some(1) {
            word = with_bit(word, at - from, 1);
        }
    }
    word
}

/// How many indices follow one another from a place of a word on, which tells this: one, and one more for each bit that
/// is 1 from there on.
#[inline]
fn run_length(followed: u64, place: usize) -> usize
    requires { place < 64 }
    ensures some { 1 ≤ result }
    ensures run { (i : ℕ) → i + 1 < result → place + i < 64 → bit_at followed (place + i) ≡ 1 }
    ensures whole { place + result ≤ 64 → bit_at followed (place + result - 1) ≡ 0 }
{
    1 + (followed >> place).trailing_ones() as usize
}

/// The word of the digits at the indices that a list has from one of its places on, as many as a word holds; where
/// there is no index, the digit is 0. A bit of `followed` that is 1 tells that the index at its place, counted from the
/// first of these, is followed by the next number, so that digits at consecutive indices are taken at once.
pub(crate) fn gathered(words: &[u64], indices: &[usize], from: usize, followed: u64) -> u64
    requires from { from ≤ length indices.now }
    requires within { All (λ index. index / 64 < length words.now) indices.now }
    requires followed { (i : ℕ) → i < 64 → from + i + 1 < length indices.now → bit_at followed i ≡ 1 →
        slice_index indices.now (from + i + 1) ≡ slice_index indices.now (from + i) + 1 }
    ensures { (i : ℕ) → i < 64 → bit_at result i ≡ slice_index (map (bit_of words.now) indices.now) (from + i) }
{
    let end = indices.len().min(from + WORD);
    let mut word = 0;
    let mut at = from;
    while at < end {
        let count = run_length(followed, at - from).min(end - at);
        word |= digits_from(words, indices[at], count) << (at - from);
        at += count;
    }
    word
}

/// The word of so many digits from an index on, as far as a word holds them; the others are 0.
#[inline]
fn digits_from(words: &[u64], from: usize, count: usize) -> u64
    requires { from / 64 < length words.now }
    ensures taken { (i : ℕ) → i < 64 → i < count → bit_at result i ≡ bit_of words.now (from + i) }
    ensures cleared { (i : ℕ) → i < 64 → count ≤ i → bit_at result i ≡ 0 }
{
    if count == 1 {
        words[from / WORD] >> (from % WORD) & 1
    } else {
        lowest(word_from(words, from), count)
    }
}

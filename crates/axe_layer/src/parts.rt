//! Digits modulo 2 of a list of words, as words of their own.
ghost use Rattle.std.specs.Int.{bit_at};
ghost use Rattle.std.specs.Prelude.{ℕ, ◌≡◌, ◌≢◌, ◌+◌, ◌*◌, ◌/◌, ◌^◌, ◌<◌, ◌≤◌, length, map, slice_index, All};
ghost use Rattle.axe_lane.specs.Words.{bit_of};

use axe_lane::{WORD, add_bits};

/// The word of the digits from an index on; a digit that lies beyond the words is 0.
#[inline]
pub fn word_from(words: &[u64], from: usize) -> u64
    requires { from / 64 < length words.now }
    ensures { (i : ℕ) → i < 64 → bit_at result i ≡ bit_of words.now (from + i) }
{
    let (word, place) = (from / WORD, from % WORD);
    let low = words[word] >> place;
    if place > 0 && word + 1 < words.len() {
        low | words[word + 1] << (WORD - place)
    } else {
        low
    }
}

/// A word of which so many of the lowest digits stay, and the others become 0.
pub fn lowest(word: u64, count: usize) -> u64
    ensures kept { (i : ℕ) → i < 64 → i < count → bit_at result i ≡ bit_at word i }
    ensures cleared { (i : ℕ) → i < 64 → count ≤ i → bit_at result i ≡ 0 }
{
    if count < WORD {
        word & ((1 << count) - 1)
    } else {
        word
    }
}

/// Writes the lowest digits of a word into a list, as many as the list has numbers.
pub(crate) fn spread(word: u64, numbers: &mut [u8])
    requires { length numbers.old ≤ 64 }
    ensures long { length numbers.new ≡ length numbers.old }
    ensures digits { (i : ℕ) → i < length numbers.old → slice_index numbers.new i ≡ bit_at word i }
{
    numbers.fill(0);
    add_spread(word, 1, numbers);
}

/// Adds a multiple of the lowest digits of a word to the numbers of a list, each digit to the number at its place.
pub(crate) fn add_spread(word: u64, factor: u8, numbers: &mut [u8])
    requires short { length numbers.old ≤ 64 }
    requires small { (i : ℕ) → i < length numbers.old → slice_index numbers.old i + factor * bit_at word i < 256 }
    ensures long { length numbers.new ≡ length numbers.old }
    ensures sums { (i : ℕ) → i < length numbers.old →
        slice_index numbers.new i ≡ slice_index numbers.old i + factor * bit_at word i }
{
    if numbers.len() == WORD {
        add_bits(numbers, word, factor);
        return;
    }
    for at in 0..numbers.len() {
        numbers[at] += factor * (word >> at & 1) as u8;
    }
}

/// A word with another bit at a place, counted from the lowest.
pub(crate) fn with_bit(word: u64, place: usize, bit: u8) -> u64
    requires place { place < 64 }
    requires bit { bit < 2 }
    ensures fits { result < 2 ^ 64 }
    ensures changed { bit_at result place ≡ bit }
    ensures kept { (i : ℕ) → i < 64 → i ≢ place → bit_at result i ≡ bit_at word i }
{
    if bit == 0 {
        word & !(1 << place)
    } else {
        word | 1 << place
    }
}

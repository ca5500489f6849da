//! Layers of bits: digits modulo 2 in a list of words, 64 in each, digit e being bit e mod 64 of word e / 64. A plane
//! modulo 2 is one layer, and a plane modulo 3 has two.
ghost use Rattle.std.specs.Int.{bit_at};
ghost use Rattle.std.specs.Prelude.{ℕ, ◌≡◌, ◌≢◌, ◌+◌, ◌*◌, ◌/◌, ◌^◌, ◌<◌, ◌≤◌, length, map};
ghost use Rattle.std.specs.Prelude.{slice_index, slice_set, All, MatchOption};
ghost use Rattle.axe_algebra.specs.Digits.{number_with_digits};
ghost use Rattle.axe_algebra.specs.Lists.{listed};
ghost use Rattle.axe_lane.specs.Entries.{AreZerosBetween, IsNextNonzero};
ghost use Rattle.axe_lane.specs.Words.{bit_of};
ghost use Rattle.axe_layer.specs.Bits.{bits, HoldsBits};
ghost use Rattle.axe_layer.specs.Digits.{AreSmallSums, digits_at, numbers_with_multiple};
ghost use Rattle.axe_layer.specs.Digits.{number_from, numbers_from, number_bound};
ghost use Rattle.axe_layer.specs.Packed.{pieces_in_base};
ghost use Rattle.axe_layer.specs.Runs.{AreFollowed};

use crate::base_three::in_base_three;
use crate::packed::numbers_of_pieces;
use crate::parts::{add_spread, lowest, spread, with_bit, word_from};
use crate::runs::gathered;
use axe_lane::{WORD, bits_of_bytes, first_set};

/// Makes words, as many as the digits take, the layer of the bits that numbers have at a place, the lowest being at 0.
pub fn fill_with_bits(words: &mut [u64], numbers: &[u8], place: u8)
    requires long { length words.old ≡ (length numbers.now + 63) / 64 }
    requires place { place < 8 }
    ensures holds { HoldsBits (length numbers.now) words.new }
    ensures digits { bits (length numbers.now) words.new ≡ digits_at 2 place numbers.now }
{
    for at in 0..words.len() {
        words[at] = word_of(numbers, at * WORD, place);
    }
}

/// Makes words, as many as the digits take, the layer of the digits that another layer has at these indices, in their
/// order. Indices are counted from 0. Where bit e of `followed` is 1, index e is followed by the next number, so that
/// digits at consecutive indices are taken at once; a bit that is 0 or missing tells nothing.
pub fn fill_with_selected(words: &mut [u64], layer: &[u64], indices: &[usize], followed: &[u64])
    requires long { length words.old ≡ (length indices.now + 63) / 64 }
    requires within { All (λ index. index / 64 < length layer.now) indices.now }
    requires followed { AreFollowed indices.now followed.now }
    ensures holds { HoldsBits (length indices.now) words.new }
    ensures digits { bits (length indices.now) words.new ≡ map (bit_of layer.now) indices.now }
{
    for at in 0..words.len() {
        words[at] = gathered(layer, indices, at * WORD, word_at(followed, at));
    }
}

/// The word of a list at an index, or 0 where there is none.
#[inline]
fn word_at(words: &[u64], index: usize) -> u64
    ensures { result ≡ slice_index words.now index }
{
    if index < words.len() { words[index] } else { 0 }
}

/// Makes words, as many as the digits take, the layer of the `len` digits that another layer has from an index on,
/// counted from 0.
pub fn fill_with_part(words: &mut [u64], layer: &[u64], start: usize, len: usize)
    requires long { length words.old ≡ (len + 63) / 64 }
    requires within { start + len ≤ 64 * length layer.now }
    requires counted { start + len < 2 ^ 64 }
    ensures holds { HoldsBits len words.new }
    ensures digits { bits len words.new ≡ listed len (λ j. bit_of layer.now (start + j)) }
{
    for at in 0..words.len() {
        let before = at * WORD;
        words[at] = lowest(word_from(layer, start + before), len - before);
    }
}

/// Writes the digits of a layer into a list of as many numbers.
pub fn copy_digits(words: &[u64], numbers: &mut [u8])
    requires { length words.now ≡ (length numbers.old + 63) / 64 }
    ensures { numbers.new ≡ bits (length numbers.old) words.now }
{
    for at in 0..words.len() {
        let from = at * WORD;
        let count = WORD.min(numbers.len() - from);
        spread(words[at], &mut numbers[from..from + count]);
    }
}

/// Adds a multiple of each digit of a layer of `len` digits to the number at its index.
pub fn add_digits(words: &[u64], len: usize, factor: u8, numbers: &mut [u8])
    requires long { length words.now ≡ (len + 63) / 64 }
    requires fits { len ≤ length numbers.old }
    requires small { AreSmallSums numbers.old factor (bits len words.now) }
    ensures { numbers.new ≡ numbers_with_multiple numbers.old factor (bits len words.now) }
{
    for at in 0..words.len() {
        let from = at * WORD;
        let count = WORD.min(len - from);
        add_spread(words[at], factor, &mut numbers[from..from + count]);
    }
}

/// The digit of a layer at an index, counted from 0.
#[inline]
pub fn bit_in(words: &[u64], index: usize) -> u8
    requires { index / 64 < length words.now }
    ensures bit { result ≡ bit_of words.now index }
    ensures small { result < 2 }
{
    ((words[index / WORD] >> (index % WORD)) & 1) as u8
}

/// Makes a digit of a layer the one at an index, counted from 0; all others stay, whatever the length of the layer.
pub fn set_bit(words: &mut [u64], index: usize, digit: u8)
    requires index { index / 64 < length words.old }
    requires digit { digit < 2 }
    ensures holds { (n : ℕ) → index < n → HoldsBits n words.old → HoldsBits n words.new }
    ensures digits { (n : ℕ) → index < n → bits n words.new ≡ slice_set (bits n words.old) index digit }
{
    let word = index / WORD;
    words[word] = with_bit(words[word], index % WORD, digit);
}

/// The number whose digits in a base up to 9, most significant first, are up to eight of those of a layer of `len`
/// digits from an index on, counted from 0: `size` of them or those that there are.
#[inline]
pub fn number_in(words: &[u64], len: usize, base: usize, size: usize, at: usize) -> usize
    requires long { length words.now ≡ (len + 63) / 64 }
    requires base { base ≤ 9 }
    requires short { size ≤ 8 }
    requires counted { at + size < 2 ^ 64 }
    ensures value { result ≡ number_from base size at (bits len words.now) }
    ensures small { result < number_bound }
{
    if at >= len {
        return 0;
    }
    let count = size.min(len - at);
    number_of_bits(word_from(words, at), base, count)
}

/// Four numbers in a base up to 9, the digits of each being up to eight of those of a layer of `len` digits, most
/// significant first: those of the pieces of `size` digits one after another from an index on, counted from 0, as far
/// as the layer goes. In base 2 all four are read at once where there are so many digits.
#[inline]
pub fn numbers_in(words: &[u64], len: usize, base: usize, size: usize, at: usize) -> [usize; 4]
    requires long { length words.now ≡ (len + 63) / 64 }
    requires base { base ≤ 9 }
    requires short { size ≤ 8 }
    requires counted { at + 4 * size < 2 ^ 64 }
    ensures value { result ≡ numbers_from base size at (bits len words.now) }
    ensures small { (i : ℕ) → slice_index result i < number_bound }
{
    if base == 2 && at < len && 4 * size <= len - at {
        return numbers_of_pieces(word_from(words, at), size);
    }
    numbers_by_digits(words, len, base, size, at)
}

/// The numbers that [`numbers_in`] gives, digit by digit, but in base 3 by those in base 2 where there are more than two
/// digits. The size is a constant wherever it is up to four, as it is most, so that no digit is counted. It stands apart
/// so that they are read in few steps in base 2.
#[inline(never)]
pub fn numbers_by_digits(
    words: &[u64],
    len: usize,
    base: usize,
    size: usize,
    at: usize,
) -> [usize; 4]
    requires long { length words.now ≡ (len + 63) / 64 }
    requires base { base ≤ 9 }
    requires short { size ≤ 8 }
    requires counted { at + 4 * size < 2 ^ 64 }
    ensures value { result ≡ numbers_from base size at (bits len words.now) }
    ensures small { (i : ℕ) → slice_index result i < number_bound }
{
    if at >= len || len - at < 4 * size {
        return numbers_one_by_one(words, len, base, size, at);
    }
    let word = word_from(words, at);
    if base == 3 && size > 2 {
        return numbers_in_base_three(word, size);
    }
    match size {
        1 => numbers_of_word(word, base, 1),
        2 => numbers_of_word(word, base, 2),
        3 => numbers_of_word(word, base, 3),
        4 => numbers_of_word(word, base, 4),
        _ => numbers_one_by_one(words, len, base, size, at),
    }
}

/// The numbers that [`numbers_in`] gives, each of which is read alone: where the layer ends, and of many digits.
#[inline(never)]
fn numbers_one_by_one(words: &[u64], len: usize, base: usize, size: usize, at: usize) -> [usize; 4]
    requires long { length words.now ≡ (len + 63) / 64 }
    requires base { base ≤ 9 }
    requires short { size ≤ 8 }
    requires counted { at + 4 * size < 2 ^ 64 }
    ensures value { result ≡ numbers_from base size at (bits len words.now) }
    ensures small { (i : ℕ) → slice_index result i < number_bound }
{
    [
        number_in(words, len, base, size, at),
        number_in(words, len, base, size, at + size),
        number_in(words, len, base, size, at + 2 * size),
        number_in(words, len, base, size, at + 3 * size),
    ]
}

/// Four numbers in base 3 of the pieces of up to eight bits of a word, by those in base 2. It stands apart so that
/// smaller pieces are read in few steps.
#[inline(never)]
fn numbers_in_base_three(word: u64, size: usize) -> [usize; 4]
    requires { size ≤ 8 }
    ensures value { result ≡ pieces_in_base 3 word size }
    ensures small { (i : ℕ) → slice_index result i < number_bound }
{
    let pieces = numbers_of_pieces(word, size);
    [
        in_base_three(pieces[0]),
        in_base_three(pieces[1]),
        in_base_three(pieces[2]),
        in_base_three(pieces[3]),
    ]
}

/// Four numbers in a base up to 9 of the pieces of up to eight bits of a word, one after another from the lowest bit
/// on.
#[inline(always)]
fn numbers_of_word(word: u64, base: usize, size: usize) -> [usize; 4]
    requires base { base ≤ 9 }
    requires short { size ≤ 8 }
    ensures value { result ≡ pieces_in_base base word size }
    ensures small { (i : ℕ) → slice_index result i < number_bound }
{
    [
        number_of_bits(word, base, size),
        number_of_bits(word >> size, base, size),
        number_of_bits(word >> (2 * size), base, size),
        number_of_bits(word >> (3 * size), base, size),
    ]
}

/// The index of the first digit other than 0 from an index on, both counted from 0, or `None` where every digit from
/// there on and before an end is 0, whatever the length of the layer. The words past that of the end are not looked at,
/// so a digit past the end may be found or not.
#[inline]
pub fn next_in(words: &[u64], start: usize, end: usize) -> Option<usize>
    requires within { end ≤ 64 * length words.now }
    requires counted { 64 * length words.now ≤ 2 ^ 64 }
    ensures { (n : ℕ) → HoldsBits n words.now →
        MatchOption result (AreZerosBetween (bits n words.now) start end) (IsNextNonzero (bits n words.now) start) }
{
    if start >= end {
        return None;
    }
    let (word, place) = (start / WORD, start % WORD);
    let rest = words[word] >> place;
    if rest != 0 {
        return Some(start + rest.trailing_zeros() as usize);
    }
    let after = word + 1;
    match first_set(&words[after..end.div_ceil(WORD)]) {
        Some(index) => Some(after * WORD + index),
        None => None,
    }
}

/// The number whose digits in a base up to 9, most significant first, are up to eight of the bits of a word, from the
/// lowest on. The first four are read without a loop, since most numbers have no more.
#[inline(always)]
fn number_of_bits(word: u64, base: usize, count: usize) -> usize
    requires base { base ≤ 9 }
    requires short { count ≤ 8 }
    ensures value { result ≡ number_with_digits base (listed count (bit_at word)) }
    ensures small { result < number_bound }
{
    let first = (word & 1) as usize;
    let second = (word >> 1 & 1) as usize;
    let third = (word >> 2 & 1) as usize;
    let fourth = (word >> 3 & 1) as usize;
    match count {
        0 => 0,
        1 => first,
        2 => first * base + second,
        3 => (first * base + second) * base + third,
        _ => {
            let mut number = ((first * base + second) * base + third) * base + fourth;
            for place in 4..count {
                number = number * base + (word >> place & 1) as usize;
            }
            number
        }
    }
}

/// The word of the bits at a place of the numbers from an index on, as many as a word holds; where there is no number,
/// the bit is 0.
fn word_of(numbers: &[u8], from: usize, place: u8) -> u64
    requires from { from ≤ length numbers.now }
    requires place { place < 8 }
    ensures { (i : ℕ) → i < 64 → bit_at result i ≡ bit_at (slice_index numbers.now (from + i)) place }
{
    if numbers.len() - from >= WORD {
        return bits_of_bytes(numbers, from, place);
    }
    let mut word = 0;
    for at in from..numbers.len() {
        word = with_bit(word, at - from, numbers[at] >> place & 1);
    }
    word
}

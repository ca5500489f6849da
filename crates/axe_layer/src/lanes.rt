//! The numbers of four pieces of a layer in one word, each in a lane of 16 bits.
ghost use Rattle.std.specs.Int.{bit_at};
ghost use Rattle.std.specs.Prelude.{ℕ, [], ◌∷◌, ◌≡◌, ◌+◌, ◌*◌, ◌^◌, ◌<◌, ◌≤◌, length};
ghost use Rattle.axe_layer.specs.Bits.{bits};
ghost use Rattle.axe_layer.specs.Digits.{numbers_from};
ghost use Rattle.axe_layer.specs.Lanes.{in_lanes};

use crate::parts::word_from;

/// A 1 in each lane.
const ONES: u64 = 0x0001_0001_0001_0001;

/// The sum of the powers of 2 by which bit i of a word, for each i below 4, gets to the place 16 i.
const FROM_EACH: u64 = 1 + (1 << 15) + (1 << 30) + (1 << 45);

/// The sum of the powers of 2 by which bit 2 i of a word, for each i below 4, gets to the place 16 i.
const FROM_EVEN: u64 = 1 + (1 << 14) + (1 << 28) + (1 << 42);

/// Four numbers in a base up to 9, each in a lane of its own, the digits of each being one or two of those of a layer,
/// most significant first: those of the pieces of `size` digits one after another from an index on, counted from 0.
/// All four are made at once.
#[inline(always)]
pub fn packed_numbers(words: &[u64], base: u64, size: usize, at: usize) -> u64
    requires base { base ≤ 9 }
    requires some { 1 ≤ size }
    requires few { size ≤ 2 }
    requires within { at + 4 * size ≤ 64 * length words.now }
    ensures value { (n : ℕ) → at + 4 * size ≤ n → result ≡ in_lanes (numbers_from base size at (bits n words.now)) }
    ensures small { result < 2 ^ 52 }
{
    let word = word_from(words, at);
    let single = size == 1;
    if single {
        return bits_in_lanes(word);
    }
    even_bits_in_lanes(word) * base + even_bits_in_lanes(word >> 1)
}

/// The lowest four bits of a word, each in a lane of its own.
#[inline(always)]
fn bits_in_lanes(word: u64) -> u64
    ensures { result ≡ in_lanes (bit_at word 0 ∷ bit_at word 1 ∷ bit_at word 2 ∷ bit_at word 3 ∷ []) }
{
    (word % 16 * FROM_EACH) & ONES
}

/// The first four bits of a word at even places, each in a lane of its own.
#[inline(always)]
fn even_bits_in_lanes(word: u64) -> u64
    ensures { result ≡ in_lanes (bit_at word 0 ∷ bit_at word 2 ∷ bit_at word 4 ∷ bit_at word 6 ∷ []) }
{
    ((word % 256 & 0x55) * FROM_EVEN) & ONES
}

//! The words of the bits of a plane's digits, 64 digits at a time.
ghost use Rattle.std.specs.Prelude.{ℕ, ◌≡◌, ◌+◌, ◌*◌, ◌<◌, ◌≤◌, length, slice_index};
ghost use Rattle.axe_plane.specs.NumberWords.{number_of_words};
ghost use Rattle.axe_plane.specs.Planes.{digits_of};

use crate::{BytePlane, Plane};
use axe_lane::{WORD, bits_of_bytes};

impl Plane {
    /// The three words of bits at an index of the plane, counted from 0: bit i of the first, of the second and of the
    /// third, counted from the lowest, are those of the digit 64 times the index plus i, the lowest first, and 0 where
    /// there is no digit.
    #[inline(always)]
    pub fn number_words(&self, at: usize) -> [u64; 3]
        ensures { (i : ℕ) → i < 64 → number_of_words result i ≡ slice_index (digits_of self.now) (at * 64 + i) }
    {
        match self {
            Plane::Bits(plane) => [plane.word(at), 0, 0],
            Plane::Trits(plane) => {
                let words = plane.digit_words(at);
                [words[0], words[1], 0]
            }
            Plane::Bytes(plane) => plane.bit_words(at),
        }
    }
}

impl BytePlane {
    /// The three words of bits at an index of the plane, as [`Plane::number_words`] gives them.
    #[inline(never)]
    pub fn bit_words(&self, at: usize) -> [u64; 3]
        ensures { (i : ℕ) → i < 64 → number_of_words result i ≡ slice_index self.now.digits (at * 64 + i) }
    {
        if at >= self.len().div_ceil(WORD) {
            return [0, 0, 0];
        }
        let rest = &self.bytes()[at * WORD..];
        if rest.len() >= WORD {
            return words_of_block(rest);
        }
        words_of_block(&filled_block(rest))
    }
}

/// Fewer than 64 bytes, and zeros after them.
#[inline(always)]
fn filled_block(bytes: &[u8]) -> [u8; WORD]
    requires { length bytes.now < WORD }
    ensures long { length result ≡ WORD }
    ensures first { (i : ℕ) → i < 64 → slice_index result i ≡ slice_index bytes.now i }
{
    let mut block = [0; WORD];
    block[..bytes.len()].copy_from_slice(bytes);
    block
}

/// The three words of the bits that the first 64 bytes, each below 8, have.
#[inline(always)]
fn words_of_block(bytes: &[u8]) -> [u64; 3]
    requires room { WORD ≤ length bytes.now }
    requires small { (i : ℕ) → i < 64 → slice_index bytes.now i < 8 }
    ensures { (i : ℕ) → i < 64 → number_of_words result i ≡ slice_index bytes.now i }
{
    let (ones, twos) = (bits_of_bytes(bytes, 0, 0), bits_of_bytes(bytes, 0, 1));
    [ones, twos, bits_of_bytes(bytes, 0, 2)]
}

//! Blocks of 64 by 64 digits modulo 2, a word for each row.
ghost use Rattle.std.specs.Int.{bit_at};
ghost use Rattle.std.specs.Prelude.{ℕ, ◌≡◌, ◌≢◌, ◌+◌, ◌*◌, ◌/◌, ◌<◌, slice_index};

use crate::packed::WORD_BYTES;
use axe_lane::{WORD, bits_of_bytes};

/// The transpose of a block of 64 by 64 bits: bit j of word i is bit i of word j of the block, where bits are counted
/// from the lowest.
pub fn transposed_block(block: &[u64; WORD]) -> [u64; WORD]
    ensures { (i j : ℕ) → i < 64 → j < 64 → bit_at (slice_index result i) j ≡ bit_at (slice_index block.now j) i }
{
    let mut transposed = [0; WORD];
    for at in 0..WORD_BYTES {
        put_words_of_bytes(&mut transposed, at, &bytes_of_words(block, at));
    }
    transposed
}

/// The bytes that words have at an index, counted from the lowest.
#[inline]
fn bytes_of_words(words: &[u64; WORD], at: usize) -> [u8; WORD]
    requires { at < 8 }
    ensures { (i k : ℕ) → i < 64 → k < 8 →
        bit_at (slice_index result i) k ≡ bit_at (slice_index words.now i) (at * 8 + k) }
{
    let mut bytes = [0; WORD];
    for index in 0..WORD {
        bytes[index] = (words[index] >> (at * 8) & 0xff) as u8;
    }
    bytes
}

/// Makes the bits that bytes have at each of their places the words from 8 times an index on: bit i of word k of these
/// is bit k of byte i. All other words stay.
#[inline]
fn put_words_of_bytes(words: &mut [u64; WORD], at: usize, bytes: &[u8; WORD])
    requires { at < 8 }
    ensures written { (k i : ℕ) → k < 8 → i < 64 →
        bit_at (slice_index words.new (at * 8 + k)) i ≡ bit_at (slice_index bytes.now i) k }
    ensures kept { (j : ℕ) → j / 8 ≢ at → slice_index words.new j ≡ slice_index words.old j }
{
    for place in 0..8 {
        words[at * 8 + usize::from(place)] = bits_of_bytes(bytes, 0, place);
    }
}

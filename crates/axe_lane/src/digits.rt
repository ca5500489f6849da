//! Kernels on bytes that hold digits, as numbers or as the characters that spell them.
ghost use Rattle.std.specs.Int.{bit_at};
ghost use Rattle.std.specs.Prelude.{ℕ, ◌≡◌, ◌+◌, ◌*◌, ◌%◌, ◌<◌, ◌≤◌, length, map, drop, slice_index};
ghost use Rattle.std.specs.List.{prefix_len};
ghost use Rattle.std.specs.Simd.Lanes.{chunk, put_chunk};
ghost use Rattle.axe_lane.specs.Runs.{is_within};

use crate::words::WORD;
use std::simd::prelude::*;

/// How many bytes a block has: one vector.
const BLOCK: usize = 16;

/// The byte of a word that has the bit at an index.
const BYTE_OF_BIT: [usize; WORD] = [
    0, 0, 0, 0, 0, 0, 0, 0, 1, 1, 1, 1, 1, 1, 1, 1, 2, 2, 2, 2, 2, 2, 2, 2, 3, 3, 3, 3, 3, 3, 3, 3,
    4, 4, 4, 4, 4, 4, 4, 4, 5, 5, 5, 5, 5, 5, 5, 5, 6, 6, 6, 6, 6, 6, 6, 6, 7, 7, 7, 7, 7, 7, 7, 7,
];

/// The bit at an index of a word, in the byte that has it.
const BIT_IN_BYTE: [u8; WORD] = [
    1, 2, 4, 8, 16, 32, 64, 128, 1, 2, 4, 8, 16, 32, 64, 128, 1, 2, 4, 8, 16, 32, 64, 128, 1, 2, 4,
    8, 16, 32, 64, 128, 1, 2, 4, 8, 16, 32, 64, 128, 1, 2, 4, 8, 16, 32, 64, 128, 1, 2, 4, 8, 16,
    32, 64, 128, 1, 2, 4, 8, 16, 32, 64, 128,
];

/// Adds a multiple of each bit of a word to one of 64 bytes, that of bit i to byte i, modulo 256.
#[inline]
pub fn add_bits(bytes: &mut [u8], word: u64, factor: u8)
    requires { length bytes.old ≡ 64 }
    ensures long { length bytes.new ≡ length bytes.old }
    ensures sums { (i : ℕ) → i < 64 →
        slice_index bytes.new i ≡ (slice_index bytes.old i + factor * bit_at word i) % 256 }
{
    let bit = u8x64::from_array(BIT_IN_BYTE);
    let around = u8x8::from_array(word.to_le_bytes()).swizzle(BYTE_OF_BIT);
    let is_set = (around & bit).simd_eq(bit);
    let multiples = is_set.select(u8x64::splat(factor), u8x64::splat(0));
    let sums = u8x64::from_slice(bytes) + multiples;
    sums.copy_to_slice(bytes);
}

/// Adds a number to each byte, modulo 256.
pub fn add_to_each(bytes: &mut [u8], number: u8)
    ensures { bytes.new ≡ map (λ byte. (byte + number) % 256) bytes.old }
{
    let whole = bytes.len() / BLOCK;
    for block in 0..whole {
        add_to_block(bytes, number, block * BLOCK);
    }
    for at in whole * BLOCK..bytes.len() {
        bytes[at] = bytes[at].wrapping_add(number);
    }
}

/// The index at which bytes that are at least `low`, and less by `count` or more, end from an index on.
pub fn end_of_run(bytes: &[u8], start: usize, low: u8, count: u8) -> usize
    requires within { start ≤ length bytes.now }
    requires fits { low + count ≤ 256 }
    ensures { result ≡ start + prefix_len (is_within low count) (drop start bytes.now) }
{
    let whole = (bytes.len() - start) / BLOCK;
    for block in 0..whole {
        let at = start + block * BLOCK;
        let run = run_in_block(bytes, at, low, count);
        if run < BLOCK {
            return at + run;
        }
    }
    for at in start + whole * BLOCK..bytes.len() {
        if bytes[at].wrapping_sub(low) >= count {
            return at;
        }
    }
    bytes.len()
}

/// Adds a number to each byte of the block from an index on, modulo 256.
#[inline(always)]
fn add_to_block(bytes: &mut [u8], number: u8, at: usize)
    requires { at + BLOCK ≤ length bytes.old }
    ensures { bytes.new ≡ put_chunk at bytes.old (map (λ byte. (byte + number) % 256) (chunk at BLOCK bytes.old)) }
{
    let sums = u8x16::from_slice(&bytes[at..]) + u8x16::splat(number);
    sums.copy_to_slice(&mut bytes[at..]);
}

/// How many bytes of the block from an index on come before the first that is below `low`, or not less than `count`
/// above it.
#[inline(always)]
fn run_in_block(bytes: &[u8], at: usize, low: u8, count: u8) -> usize
    requires room { at + BLOCK ≤ length bytes.now }
    requires fits { low + count ≤ 256 }
    ensures { result ≡ prefix_len (is_within low count) (chunk at BLOCK bytes.now) }
{
    let above = u8x16::from_slice(&bytes[at..]) - u8x16::splat(low);
    let outside = above.simd_ge(u8x16::splat(count)).to_bitmask();
    if outside == 0 {
        BLOCK
    } else {
        outside.trailing_zeros() as usize
    }
}

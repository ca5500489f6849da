//! Words of bits that bytes have at one place, and of the places where bytes are other than 0.
ghost use Rattle.std.specs.Int.{bit_at};
ghost use Rattle.std.specs.Prelude.{ℕ, ◌≡◌, ◌↔◌, ◌+◌, ◌^◌, ◌<◌, ◌≤◌, length, slice_index};

use crate::words::WORD;
use std::simd::prelude::*;

/// The word of the bits that the 64 bytes from an index on have at a place: its bit i is that of the byte at that index
/// plus i.
#[inline]
pub fn bits_of_bytes(bytes: &[u8], at: usize, place: u8) -> u64
    requires room { at + 64 ≤ length bytes.now }
    requires place { place < 8 }
    ensures { (i : ℕ) → i < 64 → bit_at result i ≡ bit_at (slice_index bytes.now (at + i)) place }
{
    let bit = u8x64::splat(1 << place);
    (u8x64::from_slice(&bytes[at..]) & bit)
        .simd_eq(bit)
        .to_bitmask()
}

/// The word of the places where the bytes from an index on, 64 of them or those that there are, are other than 0: its
/// bit i is 0 exactly where the byte at that index plus i is 0 or missing.
pub fn support_of_bytes(bytes: &[u8], at: usize) -> u64
    requires { at ≤ length bytes.now }
    ensures { (i : ℕ) → i < 64 → (bit_at result i ≡ 0) ↔ (slice_index bytes.now (at + i) ≡ 0) }
{
    let rest = &bytes[at..];
    if rest.len() >= WORD {
        return support_of_block(rest);
    }
    support_of_block(&filled_block(rest))
}

/// Fewer than 64 bytes, and zeros after them.
#[inline(always)]
fn filled_block(bytes: &[u8]) -> [u8; WORD]
    requires { length bytes.now < WORD }
    ensures long { length result ≡ WORD }
    ensures first { (i : ℕ) → i < 64 → slice_index result i ≡ slice_index bytes.now i }
{
    let mut block = [0; WORD];
    block[..bytes.len()].copy_from_slice(bytes);
    block
}

/// The word of the places where the first 64 bytes are other than 0.
#[inline(always)]
fn support_of_block(bytes: &[u8]) -> u64
    requires { WORD ≤ length bytes.now }
    ensures { (i : ℕ) → i < 64 → (bit_at result i ≡ 0) ↔ (slice_index bytes.now i ≡ 0) }
{
    u8x64::from_slice(bytes)
        .simd_ne(u8x64::splat(0))
        .to_bitmask()
}

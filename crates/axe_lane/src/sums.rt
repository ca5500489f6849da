//! Kernels on bytes that are sums of entries over a field of prime order 5 or 7 whose remainders are not taken yet.
ghost use Rattle.std.specs.Prelude.{ℕ, ◌≡◌, ◌⊎◌, ◌+◌, ◌*◌, ◌%◌, ◌<◌, ◌≤◌, length, map, slice_index};
ghost use Rattle.std.specs.Simd.Lanes.{chunk, put_chunk};
ghost use Rattle.axe_lane.specs.Bytes.{lazy_sum, lazy_sum_with_four, sum_modulo, sum_with_four_multiples};
ghost use Rattle.axe_lane.specs.Bytes.{sum_with_multiple_modulo, AreDigits};

use crate::bytes::{reduced, times};
use std::simd::prelude::*;

/// How many bytes a block has: one vector.
const BLOCK: usize = 32;

/// Adds four lists of bytes to a fifth, in one pass: each byte of `dst` becomes the sum of itself and the bytes of the
/// four at the same index, modulo 256.
pub fn add4_wrapping(dst: &mut [u8], a: &[u8], b: &[u8], c: &[u8], d: &[u8])
    requires a_fits { length a.now ≡ length dst.old }
    requires b_fits { length b.now ≡ length dst.old }
    requires c_fits { length c.now ≡ length dst.old }
    requires d_fits { length d.now ≡ length dst.old }
    ensures { dst.new ≡ sum_modulo 256 (sum_modulo 256 (sum_modulo 256 (sum_modulo 256 dst.old a.now) b.now) c.now) d.now }
{
    if dst.len() < BLOCK {
        add4_one_by_one(dst, a, b, c, d);
        return;
    }
    let end = dst.len() - BLOCK;
    // The last block may overlap with the one before it: it is summed first and put last.
    let last = sum4_of(dst, a, b, c, d, end);
    let whole = (dst.len() - 1) / BLOCK;
    for block in 0..whole {
        add4_block(dst, a, b, c, d, block * BLOCK);
    }
    last.copy_to_slice(&mut dst[end..]);
}

/// Makes each byte its remainder modulo p, a number from 4 to 7.
pub fn reduce_bytes(bytes: &mut [u8], p: u8)
    requires large { 4 ≤ p }
    requires small { p ≤ 7 }
    ensures { bytes.new ≡ map (λ byte. byte % p) bytes.old }
{
    if bytes.len() < BLOCK {
        reduce_one_by_one(bytes, p);
        return;
    }
    let end = bytes.len() - BLOCK;
    // The last block may overlap with the one before it: its remainders are taken first and put last.
    let last = remainders(u8x32::from_slice(&bytes[end..]), p);
    let whole = (bytes.len() - 1) / BLOCK;
    for block in 0..whole {
        reduce_block(bytes, p, block * BLOCK);
    }
    last.copy_to_slice(&mut bytes[end..]);
}

/// Adds a multiple of a row over the field of 5 or 7 elements to a list of sums, bytes below 16 p that stand for their
/// remainders modulo p: these become d + m s modulo p, where s is the byte of `src` at the same index. The sums stay
/// below 16 p: no remainder is taken, but 16 p is taken away where it can be.
pub fn add_multiple_to_sums(dst: &mut [u8], src: &[u8], m: u8, p: u8)
    requires prime { (p ≡ 5) ⊎ (p ≡ 7) }
    requires factor { m < p }
    requires fits { length src.now ≡ length dst.old }
    requires dst_below { AreDigits (16 * p) dst.old }
    requires src_below { AreDigits p src.now }
    ensures sum { map (λ byte. byte % p) dst.new ≡ sum_with_multiple_modulo p (map (λ byte. byte % p) dst.old) m src.now }
    ensures below { AreDigits (16 * p) dst.new }
{
    match p {
        5 => add_multiple::<5>(dst, src, m),
        _ => add_multiple::<7>(dst, src, m),
    }
}

/// Adds multiples of four rows over the field of 5 or 7 elements to a list of sums, in one pass where a row has a block:
/// bytes below 16 p stand for their remainders modulo p, as in [`add_multiple_to_sums`].
pub fn add4_multiples_to_sums(
    dst: &mut [u8],
    a: &[u8],
    b: &[u8],
    c: &[u8],
    d: &[u8],
    factors: [u8; 4],
    p: u8,
)
    requires prime { (p ≡ 5) ⊎ (p ≡ 7) }
    requires factors { (i : ℕ) → i < 4 → slice_index factors i < p }
    requires a_fits { length a.now ≡ length dst.old }
    requires b_fits { length b.now ≡ length dst.old }
    requires c_fits { length c.now ≡ length dst.old }
    requires d_fits { length d.now ≡ length dst.old }
    requires dst_below { AreDigits (16 * p) dst.old }
    requires a_below { AreDigits p a.now }
    requires b_below { AreDigits p b.now }
    requires c_below { AreDigits p c.now }
    requires d_below { AreDigits p d.now }
    ensures sum { map (λ byte. byte % p) dst.new
        ≡ sum_with_four_multiples p factors (map (λ byte. byte % p) dst.old) a.now b.now c.now d.now }
    ensures below { AreDigits (16 * p) dst.new }
{
    match p {
        5 => add_four_multiples::<5>(dst, a, b, c, d, factors),
        _ => add_four_multiples::<7>(dst, a, b, c, d, factors),
    }
}

/// Adds four lists of bytes to a fifth, as [`add4_wrapping`] does, byte by byte.
fn add4_one_by_one(dst: &mut [u8], a: &[u8], b: &[u8], c: &[u8], d: &[u8])
    requires a_fits { length a.now ≡ length dst.old }
    requires b_fits { length b.now ≡ length dst.old }
    requires c_fits { length c.now ≡ length dst.old }
    requires d_fits { length d.now ≡ length dst.old }
    ensures { dst.new ≡ sum_modulo 256 (sum_modulo 256 (sum_modulo 256 (sum_modulo 256 dst.old a.now) b.now) c.now) d.now }
{
    for at in 0..dst.len() {
        let four = a[at]
            .wrapping_add(b[at])
            .wrapping_add(c[at])
            .wrapping_add(d[at]);
        dst[at] = dst[at].wrapping_add(four);
    }
}

/// The block of a sum of five lists from an index on.
#[inline(always)]
fn add4_block(dst: &mut [u8], a: &[u8], b: &[u8], c: &[u8], d: &[u8], at: usize)
    requires dst_has_block { at + BLOCK ≤ length dst.old }
    requires a_has_block { at + BLOCK ≤ length a.now }
    requires b_has_block { at + BLOCK ≤ length b.now }
    requires c_has_block { at + BLOCK ≤ length c.now }
    requires d_has_block { at + BLOCK ≤ length d.now }
    ensures { dst.new ≡ put_chunk at dst.old (sum_modulo 256 (chunk at BLOCK dst.old)
        (sum_modulo 256 (sum_modulo 256 (sum_modulo 256 (chunk at BLOCK a.now) (chunk at BLOCK b.now))
        (chunk at BLOCK c.now)) (chunk at BLOCK d.now))) }
{
    let sum = sum4_of(dst, a, b, c, d, at);
    sum.copy_to_slice(&mut dst[at..]);
}

/// The sum of the blocks of five lists from an index on.
#[inline(always)]
fn sum4_of(dst: &[u8], a: &[u8], b: &[u8], c: &[u8], d: &[u8], at: usize) -> u8x32
    requires dst_has_block { at + BLOCK ≤ length dst.now }
    requires a_has_block { at + BLOCK ≤ length a.now }
    requires b_has_block { at + BLOCK ≤ length b.now }
    requires c_has_block { at + BLOCK ≤ length c.now }
    requires d_has_block { at + BLOCK ≤ length d.now }
    ensures { result ≡ sum_modulo 256 (chunk at BLOCK dst.now)
        (sum_modulo 256 (sum_modulo 256 (sum_modulo 256 (chunk at BLOCK a.now) (chunk at BLOCK b.now))
        (chunk at BLOCK c.now)) (chunk at BLOCK d.now)) }
{
    let two = u8x32::from_slice(&a[at..]) + u8x32::from_slice(&b[at..]);
    let four = two + u8x32::from_slice(&c[at..]) + u8x32::from_slice(&d[at..]);
    u8x32::from_slice(&dst[at..]) + four
}

/// Makes each byte its remainder, as [`reduce_bytes`] does, byte by byte.
fn reduce_one_by_one(bytes: &mut [u8], p: u8)
    requires large { 4 ≤ p }
    ensures { bytes.new ≡ map (λ byte. byte % p) bytes.old }
{
    for at in 0..bytes.len() {
        bytes[at] %= p;
    }
}

/// The block of remainders from an index on.
#[inline(always)]
fn reduce_block(bytes: &mut [u8], p: u8, at: usize)
    requires large { 4 ≤ p }
    requires small { p ≤ 7 }
    requires has_block { at + BLOCK ≤ length bytes.old }
    ensures { bytes.new ≡ put_chunk at bytes.old (map (λ byte. byte % p) (chunk at BLOCK bytes.old)) }
{
    let block = remainders(u8x32::from_slice(&bytes[at..]), p);
    block.copy_to_slice(&mut bytes[at..]);
}

/// The remainder of each lane. A byte is below 64 p, so that 32 p, 16 p and so on to p are taken away where they can
/// be.
#[inline(always)]
fn remainders(v: u8x32, p: u8) -> u8x32
    requires large { 4 ≤ p }
    requires small { p ≤ 7 }
    ensures { result ≡ map (λ byte. byte % p) v }
{
    let below_eight = reduced(reduced(reduced(v, 32 * p), 16 * p), 8 * p);
    reduced(reduced(reduced(below_eight, 4 * p), 2 * p), p)
}

/// Adds a multiple of a row to sums modulo `P`, 5 or 7: block by block, where there is one, and else byte by byte. The
/// last block may overlap with the one before it: it is summed first and put last.
#[inline(always)]
fn add_multiple<const P: u8>(dst: &mut [u8], src: &[u8], m: u8)
    requires prime { (P ≡ 5) ⊎ (P ≡ 7) }
    requires factor { m < P }
    requires fits { length src.now ≡ length dst.old }
    requires dst_below { AreDigits (16 * P) dst.old }
    requires src_below { AreDigits P src.now }
    ensures { dst.new ≡ lazy_sum P dst.old m src.now }
{
    if dst.len() < BLOCK {
        add_multiple_one_by_one::<P>(dst, src, m);
        return;
    }
    let end = dst.len() - BLOCK;
    let last = sum_of::<P>(
        u8x32::from_slice(&dst[end..]),
        u8x32::from_slice(&src[end..]),
        m,
    );
    let whole = (dst.len() - 1) / BLOCK;
    for block in 0..whole {
        add_block::<P>(dst, src, m, block * BLOCK);
    }
    last.copy_to_slice(&mut dst[end..]);
}

/// Adds a multiple of a row to sums modulo `P`, byte by byte.
fn add_multiple_one_by_one<const P: u8>(dst: &mut [u8], src: &[u8], m: u8)
    requires prime { (P ≡ 5) ⊎ (P ≡ 7) }
    requires factor { m < P }
    requires fits { length src.now ≡ length dst.old }
    requires dst_below { AreDigits (16 * P) dst.old }
    requires src_below { AreDigits P src.now }
    ensures { dst.new ≡ lazy_sum P dst.old m src.now }
{
    for at in 0..dst.len() {
        let sum = dst[at] + m * src[at];
        dst[at] = if sum < 16 * P { sum } else { sum - 16 * P };
    }
}

/// The block of sums with a multiple from an index on.
#[inline(always)]
fn add_block<const P: u8>(dst: &mut [u8], src: &[u8], m: u8, at: usize)
    requires prime { (P ≡ 5) ⊎ (P ≡ 7) }
    requires factor { m < P }
    requires dst_has_block { at + BLOCK ≤ length dst.old }
    requires src_has_block { at + BLOCK ≤ length src.now }
    requires dst_below { AreDigits (16 * P) dst.old }
    requires src_below { AreDigits P src.now }
    ensures { dst.new ≡ put_chunk at dst.old (lazy_sum P (chunk at BLOCK dst.old) m (chunk at BLOCK src.now)) }
{
    let sum = sum_of::<P>(
        u8x32::from_slice(&dst[at..]),
        u8x32::from_slice(&src[at..]),
        m,
    );
    sum.copy_to_slice(&mut dst[at..]);
}

/// d + m s for the lanes d and s of two vectors, less 16 P where it is not below that. A lane before is at most
/// 16 P - 1 + (P - 1) (P - 1), which is below 32 P, and a byte.
#[inline(always)]
fn sum_of<const P: u8>(d: u8x32, s: u8x32, m: u8) -> u8x32
    requires prime { (P ≡ 5) ⊎ (P ≡ 7) }
    requires factor { m < P }
    requires d_below { AreDigits (16 * P) d }
    requires s_below { AreDigits P s }
    ensures { result ≡ lazy_sum P d m s }
{
    reduced(d + times(s, m), 16 * P)
}

/// Adds multiples of four rows to sums modulo `P`, 5 or 7: block by block, where there is one, and else one row after
/// another. The last block may overlap with the one before it: it is summed first and put last.
fn add_four_multiples<const P: u8>(
    dst: &mut [u8],
    a: &[u8],
    b: &[u8],
    c: &[u8],
    d: &[u8],
    factors: [u8; 4],
)
    requires prime { (P ≡ 5) ⊎ (P ≡ 7) }
    requires factors { (i : ℕ) → i < 4 → slice_index factors i < P }
    requires a_fits { length a.now ≡ length dst.old }
    requires b_fits { length b.now ≡ length dst.old }
    requires c_fits { length c.now ≡ length dst.old }
    requires d_fits { length d.now ≡ length dst.old }
    requires dst_below { AreDigits (16 * P) dst.old }
    requires a_below { AreDigits P a.now }
    requires b_below { AreDigits P b.now }
    requires c_below { AreDigits P c.now }
    requires d_below { AreDigits P d.now }
    ensures sum { map (λ byte. byte % P) dst.new
        ≡ sum_with_four_multiples P factors (map (λ byte. byte % P) dst.old) a.now b.now c.now d.now }
    ensures below { AreDigits (16 * P) dst.new }
{
    if dst.len() < BLOCK {
        add_multiple_one_by_one::<P>(dst, a, factors[0]);
        add_multiple_one_by_one::<P>(dst, b, factors[1]);
        add_multiple_one_by_one::<P>(dst, c, factors[2]);
        add_multiple_one_by_one::<P>(dst, d, factors[3]);
        return;
    }
    let end = dst.len() - BLOCK;
    let last = sum_with_four::<P>(dst, a, b, c, d, factors, end);
    let whole = (dst.len() - 1) / BLOCK;
    for block in 0..whole {
        add_four_to_block::<P>(dst, a, b, c, d, factors, block * BLOCK);
    }
    last.copy_to_slice(&mut dst[end..]);
}

/// The block of sums with multiples of four rows from an index on.
#[inline(always)]
fn add_four_to_block<const P: u8>(
    dst: &mut [u8],
    a: &[u8],
    b: &[u8],
    c: &[u8],
    d: &[u8],
    factors: [u8; 4],
    at: usize,
)
    requires prime { (P ≡ 5) ⊎ (P ≡ 7) }
    requires factors { (i : ℕ) → i < 4 → slice_index factors i < P }
    requires dst_has_block { at + BLOCK ≤ length dst.old }
    requires a_has_block { at + BLOCK ≤ length a.now }
    requires b_has_block { at + BLOCK ≤ length b.now }
    requires c_has_block { at + BLOCK ≤ length c.now }
    requires d_has_block { at + BLOCK ≤ length d.now }
    requires dst_below { AreDigits (16 * P) dst.old }
    requires a_below { AreDigits P a.now }
    requires b_below { AreDigits P b.now }
    requires c_below { AreDigits P c.now }
    requires d_below { AreDigits P d.now }
    ensures { dst.new ≡ put_chunk at dst.old (lazy_sum_with_four P factors (chunk at BLOCK dst.old)
        (chunk at BLOCK a.now) (chunk at BLOCK b.now) (chunk at BLOCK c.now) (chunk at BLOCK d.now)) }
{
    let sum = sum_with_four::<P>(dst, a, b, c, d, factors, at);
    sum.copy_to_slice(&mut dst[at..]);
}

/// The sums of the block of a list of sums from an index on and multiples of the blocks of four rows. A lane before is
/// at most 16 P - 1 + 4 (P - 1) (P - 1), which is below 48 P, and a byte: so 16 P is taken away twice where it can be.
#[inline(always)]
fn sum_with_four<const P: u8>(
    dst: &[u8],
    a: &[u8],
    b: &[u8],
    c: &[u8],
    d: &[u8],
    factors: [u8; 4],
    at: usize,
) -> u8x32
    requires prime { (P ≡ 5) ⊎ (P ≡ 7) }
    requires factors { (i : ℕ) → i < 4 → slice_index factors i < P }
    requires dst_has_block { at + BLOCK ≤ length dst.now }
    requires a_has_block { at + BLOCK ≤ length a.now }
    requires b_has_block { at + BLOCK ≤ length b.now }
    requires c_has_block { at + BLOCK ≤ length c.now }
    requires d_has_block { at + BLOCK ≤ length d.now }
    requires dst_below { AreDigits (16 * P) dst.now }
    requires a_below { AreDigits P a.now }
    requires b_below { AreDigits P b.now }
    requires c_below { AreDigits P c.now }
    requires d_below { AreDigits P d.now }
    ensures { result ≡ lazy_sum_with_four P factors (chunk at BLOCK dst.now)
        (chunk at BLOCK a.now) (chunk at BLOCK b.now) (chunk at BLOCK c.now) (chunk at BLOCK d.now) }
{
    let a = times(u8x32::from_slice(&a[at..]), factors[0]);
    let b = times(u8x32::from_slice(&b[at..]), factors[1]);
    let c = times(u8x32::from_slice(&c[at..]), factors[2]);
    let d = times(u8x32::from_slice(&d[at..]), factors[3]);
    let sum = u8x32::from_slice(&dst[at..]) + (a + b + c + d);
    reduced(reduced(sum, 16 * P), 16 * P)
}

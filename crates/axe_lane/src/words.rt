//! Kernels on 64-bit words.
ghost use Rattle.std.specs.Prelude.{◌≡◌, ◌↔◌, ◌+◌, ◌*◌, ◌%◌, ◌^◌, ◌<◌, ◌≤◌, bit_and, bit_xor, length, All, IsTrue};
ghost use Rattle.std.specs.Prelude.{MatchOption, slice_index, slice_set};
ghost use Rattle.std.specs.Simd.Lanes.{chunk, put_chunk, zip2};
ghost use Rattle.axe_lane.specs.Entries.{AreZerosBefore, HasNonzero, IsFirstNonzero};
ghost use Rattle.axe_lane.specs.Words.{common_bits, xor_of_words, HasNoSetBitBefore, IsFirstSetBit};
ghost use Rattle.axe_lane.specs.Words.{mask_of, masked_sum_of_two, masked_sum_of_three, masks_of};
ghost use Rattle.axe_lane.specs.Multiples.{to_constant_of_two, to_linear_of_two};
ghost use Rattle.axe_lane.specs.Multiples.{to_constant_of_three, to_linear_of_three, to_quadratic_of_three};

use std::simd::prelude::*;

/// How many bits a word has.
pub const WORD: usize = 64;

/// How many words a block has: one vector.
const BLOCK: usize = 8;

/// How many words a block of a sum has. Rows of few words are summed most, and what is left after its blocks is at most
/// a pair and a word.
const SUM_BLOCK: usize = 4;

/// How many words a pair has.
const PAIR: usize = 2;

/// Makes each word of `dst` its exclusive or with the word of `src` at the same index: the sum of two rows over the
/// field of order 2.
pub fn xor_into(dst: &mut [u64], src: &[u64])
    requires { length src.now ≡ length dst.old }
    ensures { dst.new ≡ xor_of_words dst.old src.now }
{
    let whole = dst.len() / SUM_BLOCK;
    for block in 0..whole {
        xor_block(dst, src, block * SUM_BLOCK);
    }
    let rest = whole * SUM_BLOCK;
    match dst.len() - rest {
        0 => {}
        1 => dst[rest] ^= src[rest],
        2 => xor_pair(dst, src, rest),
        _ => {
            xor_pair(dst, src, rest);
            dst[rest + 2] ^= src[rest + 2];
        }
    }
}

/// Makes each word of `dst` the exclusive or of the words of two lists at the same index: the sum of two rows over the
/// field of order 2, put elsewhere in one pass.
pub fn put_xor(dst: &mut [u64], a: &[u64], b: &[u64])
    requires a_fits { length a.now ≡ length dst.old }
    requires b_fits { length b.now ≡ length dst.old }
    ensures { dst.new ≡ xor_of_words a.now b.now }
{
    let whole = dst.len() / SUM_BLOCK;
    for block in 0..whole {
        put_xor_block(dst, a, b, block * SUM_BLOCK);
    }
    for at in whole * SUM_BLOCK..dst.len() {
        dst[at] = a[at] ^ b[at];
    }
}

/// Adds four rows over the field of order 2 to a fifth, in one pass: each word of `dst` becomes its exclusive or with
/// the words of the four at the same index.
pub fn xor4_into(dst: &mut [u64], a: &[u64], b: &[u64], c: &[u64], d: &[u64])
    requires a_fits { length a.now ≡ length dst.old }
    requires b_fits { length b.now ≡ length dst.old }
    requires c_fits { length c.now ≡ length dst.old }
    requires d_fits { length d.now ≡ length dst.old }
    ensures { dst.new ≡ xor_of_words (xor_of_words (xor_of_words (xor_of_words dst.old a.now) b.now) c.now) d.now }
{
    let whole = dst.len() / SUM_BLOCK;
    for block in 0..whole {
        xor4_block(dst, a, b, c, d, block * SUM_BLOCK);
    }
    let rest = whole * SUM_BLOCK;
    match dst.len() - rest {
        0 => {}
        1 => xor4_word(dst, a, b, c, d, rest),
        2 => xor4_pair(dst, a, b, c, d, rest),
        _ => {
            xor4_pair(dst, a, b, c, d, rest);
            xor4_word(dst, a, b, c, d, rest + 2);
        }
    }
}

/// Adds combinations of two rows over the field of order 2 to each of two others, in one pass: each word of `first`
/// becomes its exclusive or with those bits of the words of `a` and `b` at the same index that the masks for it have,
/// and each word of `second` by its own masks.
#[inline(always)]
fn xor_masked_into_two(
    first: &mut [u64],
    second: &mut [u64],
    to_first: [u64; 2],
    to_second: [u64; 2],
    a: &[u64],
    b: &[u64],
)
    requires second_fits { length second.old ≡ length first.old }
    requires a_fits { length a.now ≡ length first.old }
    requires b_fits { length b.now ≡ length first.old }
    ensures first { first.new ≡ xor_of_words first.old (masked_sum_of_two to_first a.now b.now) }
    ensures second { second.new ≡ xor_of_words second.old (masked_sum_of_two to_second a.now b.now) }
{
    let whole = first.len() / PAIR;
    for pair in 0..whole {
        let at = pair * PAIR;
        let (a, b) = (u64x2::from_slice(&a[at..]), u64x2::from_slice(&b[at..]));
        xor_masked_pair_of_two(first, to_first, a, b, at);
        xor_masked_pair_of_two(second, to_second, a, b, at);
    }
    let rest = whole * PAIR;
    if rest < first.len() {
        let (a, b) = (a[rest], b[rest]);
        xor_masked_word_of_two(first, to_first, a, b, rest);
        xor_masked_word_of_two(second, to_second, a, b, rest);
    }
}

/// Adds combinations of three rows over the field of order 2 to each of three others, in one pass, as
/// [`xor_masked_into_two`] does.
#[inline(always)]
fn xor_masked_into_three(
    first: &mut [u64],
    second: &mut [u64],
    third: &mut [u64],
    to_first: [u64; 3],
    to_second: [u64; 3],
    to_third: [u64; 3],
    a: &[u64],
    b: &[u64],
    c: &[u64],
)
    requires second_fits { length second.old ≡ length first.old }
    requires third_fits { length third.old ≡ length first.old }
    requires a_fits { length a.now ≡ length first.old }
    requires b_fits { length b.now ≡ length first.old }
    requires c_fits { length c.now ≡ length first.old }
    ensures first { first.new ≡ xor_of_words first.old (masked_sum_of_three to_first a.now b.now c.now) }
    ensures second { second.new ≡ xor_of_words second.old (masked_sum_of_three to_second a.now b.now c.now) }
    ensures third { third.new ≡ xor_of_words third.old (masked_sum_of_three to_third a.now b.now c.now) }
{
    let whole = first.len() / PAIR;
    for pair in 0..whole {
        let at = pair * PAIR;
        let (a, b) = (u64x2::from_slice(&a[at..]), u64x2::from_slice(&b[at..]));
        let c = u64x2::from_slice(&c[at..]);
        xor_masked_pair_of_three(first, to_first, a, b, c, at);
        xor_masked_pair_of_three(second, to_second, a, b, c, at);
        xor_masked_pair_of_three(third, to_third, a, b, c, at);
    }
    let rest = whole * PAIR;
    if rest < first.len() {
        let (a, b, c) = (a[rest], b[rest], c[rest]);
        xor_masked_word_of_three(first, to_first, a, b, c, rest);
        xor_masked_word_of_three(second, to_second, a, b, c, rest);
        xor_masked_word_of_three(third, to_third, a, b, c, rest);
    }
}

/// Adds to a row over the field of order 4 the multiple by p + q x of another, in one pass, where x^2 is x + 1: to its
/// constant coefficients, `first`, and to its linear ones, `second`, where `a` and `b` are those of the other row. The
/// masks are made of the factor's digits, so that no branch depends on the factor.
#[inline]
pub fn xor_multiple_over_four(
    first: &mut [u64],
    second: &mut [u64],
    p: u8,
    q: u8,
    a: &[u64],
    b: &[u64],
)
    requires p { p < 2 }
    requires q { q < 2 }
    requires second_fits { length second.old ≡ length first.old }
    requires a_fits { length a.now ≡ length first.old }
    requires b_fits { length b.now ≡ length first.old }
    ensures constant { first.new
        ≡ xor_of_words first.old (masked_sum_of_two (masks_of (to_constant_of_two p q)) a.now b.now) }
    ensures linear { second.new
        ≡ xor_of_words second.old (masked_sum_of_two (masks_of (to_linear_of_two 2 p q)) a.now b.now) }
{
    let (p, q) = (mask_of(p), mask_of(q));
    xor_masked_into_two(first, second, [p, q], [q, p ^ q], a, b);
}

/// Adds to a row over the field of order 8 the multiple by p + q x + r x^2 of another, in one pass, where x^3 is x + 1,
/// as [`xor_multiple_over_four`] does over that of order 4.
#[inline]
pub fn xor_multiple_over_eight(
    first: &mut [u64],
    second: &mut [u64],
    third: &mut [u64],
    p: u8,
    q: u8,
    r: u8,
    a: &[u64],
    b: &[u64],
    c: &[u64],
)
    requires p { p < 2 }
    requires q { q < 2 }
    requires r { r < 2 }
    requires second_fits { length second.old ≡ length first.old }
    requires third_fits { length third.old ≡ length first.old }
    requires a_fits { length a.now ≡ length first.old }
    requires b_fits { length b.now ≡ length first.old }
    requires c_fits { length c.now ≡ length first.old }
    ensures constant { first.new
        ≡ xor_of_words first.old (masked_sum_of_three (masks_of (to_constant_of_three p q r)) a.now b.now c.now) }
    ensures linear { second.new
        ≡ xor_of_words second.old (masked_sum_of_three (masks_of (to_linear_of_three p q r)) a.now b.now c.now) }
    ensures quadratic { third.new
        ≡ xor_of_words third.old (masked_sum_of_three (masks_of (to_quadratic_of_three p q r)) a.now b.now c.now) }
{
    let (p, q, r) = (mask_of(p), mask_of(q), mask_of(r));
    let (to_first, to_second, to_third) = ([p, r, q], [q, p ^ r, q ^ r], [r, q, p ^ r]);
    xor_masked_into_three(first, second, third, to_first, to_second, to_third, a, b, c);
}

/// Whether some word is other than zero: some bit is set.
pub fn any_nonzero(words: &[u64]) -> bool
    ensures { IsTrue result ↔ HasNonzero words.now }
{
    first_nonzero_word(words).is_some()
}

/// The least index of a set bit, or `None` where no bit is set that has a `usize` as its index: none at all in a list
/// of up to 2^58 words. Bit i of the list is bit i mod 64 of word i / 64. It stands apart so that a search that ends in
/// its first word is short.
#[inline(never)]
pub fn first_set(words: &[u64]) -> Option<usize>
    ensures { MatchOption result (HasNoSetBitBefore words.now (2 ^ 64)) (IsFirstSetBit words.now) }
{
    let at = first_nonzero_word(words)?;
    let before = at.checked_mul(WORD)?;
    Some(before + words[at].trailing_zeros() as usize)
}

/// The parity of the number of bits that are set in both lists at the same index: the dot product of two rows over the
/// field of order 2.
pub fn parity_and(a: &[u64], b: &[u64]) -> u8
    requires { length b.now ≡ length a.now }
    ensures { result ≡ common_bits a.now b.now % 2 }
{
    let whole = a.len() / BLOCK;
    let mut sums = u64x8::splat(0);
    for block in 0..whole {
        sums = with_common_bits(sums, a, b, block * BLOCK);
    }
    let mut sum = sums.reduce_xor();
    for at in whole * BLOCK..a.len() {
        sum ^= a[at] & b[at];
    }
    (sum.count_ones() % 2) as u8
}

/// The word of which all bits are a digit modulo 2: zeros for 0, and ones for 1.
#[inline(always)]
fn mask_of(digit: u8) -> u64
    requires { digit < 2 }
    ensures { result ≡ mask_of digit }
{
    u64::from(digit).wrapping_neg()
}

/// Adds those bits of two pairs of words that the masks have to the pair of a row from an index on.
#[inline(always)]
fn xor_masked_pair_of_two(words: &mut [u64], masks: [u64; 2], a: u64x2, b: u64x2, at: usize)
    requires { at + PAIR ≤ length words.old }
    ensures { words.new ≡ put_chunk at words.old (zip2 bit_xor (chunk at PAIR words.old) (masked_sum_of_two masks a b)) }
{
    let more = (a & u64x2::splat(masks[0])) ^ (b & u64x2::splat(masks[1]));
    let sum = u64x2::from_slice(&words[at..]) ^ more;
    sum.copy_to_slice(&mut words[at..]);
}

/// Adds those bits of two words that the masks have to the word of a row at an index.
#[inline(always)]
fn xor_masked_word_of_two(words: &mut [u64], masks: [u64; 2], a: u64, b: u64, at: usize)
    requires { at < length words.old }
    ensures { words.new ≡ slice_set words.old at (bit_xor (slice_index words.old at)
        (bit_xor (bit_and a (slice_index masks 0)) (bit_and b (slice_index masks 1)))) }
{
    words[at] ^= (a & masks[0]) ^ (b & masks[1]);
}

/// Adds those bits of three pairs of words that the masks have to the pair of a row from an index on.
#[inline(always)]
fn xor_masked_pair_of_three(
    words: &mut [u64],
    masks: [u64; 3],
    a: u64x2,
    b: u64x2,
    c: u64x2,
    at: usize,
)
    requires { at + PAIR ≤ length words.old }
    ensures { words.new
        ≡ put_chunk at words.old (zip2 bit_xor (chunk at PAIR words.old) (masked_sum_of_three masks a b c)) }
{
    let two = (a & u64x2::splat(masks[0])) ^ (b & u64x2::splat(masks[1]));
    let more = two ^ (c & u64x2::splat(masks[2]));
    let sum = u64x2::from_slice(&words[at..]) ^ more;
    sum.copy_to_slice(&mut words[at..]);
}

/// Adds those bits of three words that the masks have to the word of a row at an index.
#[inline(always)]
fn xor_masked_word_of_three(words: &mut [u64], masks: [u64; 3], a: u64, b: u64, c: u64, at: usize)
    requires { at < length words.old }
    ensures { words.new ≡ slice_set words.old at (bit_xor (slice_index words.old at)
        (bit_xor (bit_xor (bit_and a (slice_index masks 0)) (bit_and b (slice_index masks 1)))
        (bit_and c (slice_index masks 2)))) }
{
    words[at] ^= (a & masks[0]) ^ (b & masks[1]) ^ (c & masks[2]);
}

/// The block of a sum from an index on.
#[inline(always)]
fn xor_block(dst: &mut [u64], src: &[u64], at: usize)
    requires dst_has_block { at + SUM_BLOCK ≤ length dst.old }
    requires src_has_block { at + SUM_BLOCK ≤ length src.now }
    ensures { dst.new ≡ put_chunk at dst.old (zip2 bit_xor (chunk at SUM_BLOCK dst.old) (chunk at SUM_BLOCK src.now)) }
{
    let sum = u64x4::from_slice(&dst[at..]) ^ u64x4::from_slice(&src[at..]);
    sum.copy_to_slice(&mut dst[at..]);
}

/// The block of a sum that is put elsewhere, from an index on.
#[inline(always)]
fn put_xor_block(dst: &mut [u64], a: &[u64], b: &[u64], at: usize)
    requires dst_has_block { at + SUM_BLOCK ≤ length dst.old }
    requires a_has_block { at + SUM_BLOCK ≤ length a.now }
    requires b_has_block { at + SUM_BLOCK ≤ length b.now }
    ensures { dst.new ≡ put_chunk at dst.old (zip2 bit_xor (chunk at SUM_BLOCK a.now) (chunk at SUM_BLOCK b.now)) }
{
    let sum = u64x4::from_slice(&a[at..]) ^ u64x4::from_slice(&b[at..]);
    sum.copy_to_slice(&mut dst[at..]);
}

/// The pair of words of a sum from an index on.
#[inline(always)]
fn xor_pair(dst: &mut [u64], src: &[u64], at: usize)
    requires dst_has_pair { at + 2 ≤ length dst.old }
    requires src_has_pair { at + 2 ≤ length src.now }
    ensures { dst.new ≡ put_chunk at dst.old (zip2 bit_xor (chunk at 2 dst.old) (chunk at 2 src.now)) }
{
    let sum = u64x2::from_slice(&dst[at..]) ^ u64x2::from_slice(&src[at..]);
    sum.copy_to_slice(&mut dst[at..]);
}

/// The block of a sum of five rows from an index on.
#[inline(always)]
fn xor4_block(dst: &mut [u64], a: &[u64], b: &[u64], c: &[u64], d: &[u64], at: usize)
    requires dst_has_block { at + SUM_BLOCK ≤ length dst.old }
    requires a_has_block { at + SUM_BLOCK ≤ length a.now }
    requires b_has_block { at + SUM_BLOCK ≤ length b.now }
    requires c_has_block { at + SUM_BLOCK ≤ length c.now }
    requires d_has_block { at + SUM_BLOCK ≤ length d.now }
    ensures { dst.new ≡ put_chunk at dst.old (zip2 bit_xor (chunk at SUM_BLOCK dst.old)
        (zip2 bit_xor (zip2 bit_xor (zip2 bit_xor (chunk at SUM_BLOCK a.now) (chunk at SUM_BLOCK b.now))
        (chunk at SUM_BLOCK c.now)) (chunk at SUM_BLOCK d.now))) }
{
    let two = u64x4::from_slice(&a[at..]) ^ u64x4::from_slice(&b[at..]);
    let four = two ^ u64x4::from_slice(&c[at..]) ^ u64x4::from_slice(&d[at..]);
    let sum = u64x4::from_slice(&dst[at..]) ^ four;
    sum.copy_to_slice(&mut dst[at..]);
}

/// The pair of words of a sum of five rows from an index on.
#[inline(always)]
fn xor4_pair(dst: &mut [u64], a: &[u64], b: &[u64], c: &[u64], d: &[u64], at: usize)
    requires dst_has_pair { at + 2 ≤ length dst.old }
    requires a_has_pair { at + 2 ≤ length a.now }
    requires b_has_pair { at + 2 ≤ length b.now }
    requires c_has_pair { at + 2 ≤ length c.now }
    requires d_has_pair { at + 2 ≤ length d.now }
    ensures { dst.new ≡ put_chunk at dst.old (zip2 bit_xor (chunk at 2 dst.old)
        (zip2 bit_xor (zip2 bit_xor (zip2 bit_xor (chunk at 2 a.now) (chunk at 2 b.now))
        (chunk at 2 c.now)) (chunk at 2 d.now))) }
{
    let two = u64x2::from_slice(&a[at..]) ^ u64x2::from_slice(&b[at..]);
    let four = two ^ u64x2::from_slice(&c[at..]) ^ u64x2::from_slice(&d[at..]);
    let sum = u64x2::from_slice(&dst[at..]) ^ four;
    sum.copy_to_slice(&mut dst[at..]);
}

/// The word of a sum of five rows at an index.
#[inline(always)]
fn xor4_word(dst: &mut [u64], a: &[u64], b: &[u64], c: &[u64], d: &[u64], at: usize)
    requires dst_has_word { at < length dst.old }
    requires a_has_word { at < length a.now }
    requires b_has_word { at < length b.now }
    requires c_has_word { at < length c.now }
    requires d_has_word { at < length d.now }
    ensures { dst.new ≡ slice_set dst.old at (bit_xor (slice_index dst.old at)
        (bit_xor (bit_xor (bit_xor (slice_index a.now at) (slice_index b.now at)) (slice_index c.now at))
        (slice_index d.now at))) }
{
    dst[at] ^= a[at] ^ b[at] ^ c[at] ^ d[at];
}

/// The exclusive or of lanes and of the bits that the block from an index on has in both lists.
#[inline(always)]
fn with_common_bits(sums: u64x8, a: &[u64], b: &[u64], at: usize) -> u64x8
    requires a_has_block { at + BLOCK ≤ length a.now }
    requires b_has_block { at + BLOCK ≤ length b.now }
    ensures { result ≡ zip2 bit_xor sums (zip2 bit_and (chunk at BLOCK a.now) (chunk at BLOCK b.now)) }
{
    sums ^ (u64x8::from_slice(&a[at..]) & u64x8::from_slice(&b[at..]))
}

/// The index of the first word other than zero.
fn first_nonzero_word(words: &[u64]) -> Option<usize>
    ensures { MatchOption result (All (λ word. word ≡ 0) words.now) (IsFirstNonzero words.now) }
{
    for at in zero_words(words)..words.len() {
        if words[at] != 0 {
            return Some(at);
        }
    }
    None
}

/// How many words the whole blocks of zeros at the start have.
#[inline(always)]
fn zero_words(words: &[u64]) -> usize
    ensures within { result ≤ length words.now }
    ensures zeros { AreZerosBefore words.now result }
{
    let whole = words.len() / BLOCK;
    for block in 0..whole {
        let is_zero = is_zero_block(words, block * BLOCK);
        if !is_zero {
            return block * BLOCK;
        }
    }
    whole * BLOCK
}

/// Whether a block from an index on has only zeros.
#[inline(always)]
fn is_zero_block(words: &[u64], at: usize) -> bool
    requires { at + BLOCK ≤ length words.now }
    ensures { IsTrue result → AreZerosBefore (chunk at BLOCK words.now) BLOCK }
{
    u64x8::from_slice(&words[at..]).reduce_or() == 0
}

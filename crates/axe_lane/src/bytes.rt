//! Kernels on bytes that are entries over a prime field.
ghost use Rattle.std.specs.Prelude.{ℕ, ◌≡◌, ◌+◌, ◌*◌, ◌%◌, ◌^◌, ◌<◌, ◌≤◌, length, map, slice_index, All, IsTrue};
ghost use Rattle.std.specs.Prelude.{MatchOption};
ghost use Rattle.std.specs.Simd.Lanes.{chunk, products, put_chunk, sum_l};
ghost use Rattle.axe_lane.specs.Bytes.{AreDigits, IsSmallPrime, less_where_not_below, multiple_modulo, sum_modulo};
ghost use Rattle.axe_lane.specs.Bytes.{sum_of_products, sum_with_four_multiples, sum_with_multiple_modulo};
ghost use Rattle.axe_lane.specs.Entries.{AreZerosBefore, IsFirstNonzero};

use std::simd::prelude::*;

/// How many bytes a block has: one vector.
const BLOCK: usize = 32;

/// How many bytes are multiplied at once, since their products take more room.
const HALF_BLOCK: usize = 16;

/// Adds a multiple of a row to another over the field of a prime order p: each byte d of `dst` becomes d + m s modulo
/// p, where s is the byte of `src` at the same index.
pub fn add_scaled_bytes(dst: &mut [u8], src: &[u8], m: u8, p: u8)
    requires prime { IsSmallPrime p }
    requires factor { m < p }
    requires fits { length src.now ≡ length dst.old }
    requires dst_below { AreDigits p dst.old }
    requires src_below { AreDigits p src.now }
    ensures sum { dst.new ≡ sum_with_multiple_modulo p dst.old m src.now }
    ensures below { AreDigits p dst.new }
{
    match p {
        2 => add_multiple::<2>(dst, src, m),
        3 => add_multiple::<3>(dst, src, m),
        5 => add_multiple::<5>(dst, src, m),
        _ => add_multiple::<7>(dst, src, m),
    }
}

/// Adds four rows over the field of a prime order p to a fifth, in one pass: each byte of `dst` becomes the sum of
/// itself and the bytes of the four at the same index, modulo p.
pub fn add4_bytes(dst: &mut [u8], a: &[u8], b: &[u8], c: &[u8], d: &[u8], p: u8)
    requires prime { IsSmallPrime p }
    requires a_fits { length a.now ≡ length dst.old }
    requires b_fits { length b.now ≡ length dst.old }
    requires c_fits { length c.now ≡ length dst.old }
    requires d_fits { length d.now ≡ length dst.old }
    requires dst_below { AreDigits p dst.old }
    requires a_below { AreDigits p a.now }
    requires b_below { AreDigits p b.now }
    requires c_below { AreDigits p c.now }
    requires d_below { AreDigits p d.now }
    ensures sum { dst.new ≡ sum_modulo p (sum_modulo p (sum_modulo p (sum_modulo p dst.old a.now) b.now) c.now) d.now }
    ensures below { AreDigits p dst.new }
{
    if dst.len() < BLOCK {
        add4_one_by_one(dst, a, b, c, d, p);
        return;
    }
    let end = dst.len() - BLOCK;
    // The last block may overlap with the one before it: it is summed first and put last.
    let last = sum4_of(dst, a, b, c, d, p, end);
    let whole = (dst.len() - 1) / BLOCK;
    for block in 0..whole {
        add4_block(dst, a, b, c, d, p, block * BLOCK);
    }
    last.copy_to_slice(&mut dst[end..]);
}

/// Adds multiples of four rows over the field of a prime order p to a fifth, in one pass where a row has a block: each
/// byte of `dst` becomes the sum of itself and the multiples of the bytes of the four at the same index, modulo p.
pub fn add4_scaled_bytes(
    dst: &mut [u8],
    a: &[u8],
    b: &[u8],
    c: &[u8],
    d: &[u8],
    factors: [u8; 4],
    p: u8,
)
    requires prime { IsSmallPrime p }
    requires factors { (i : ℕ) → i < 4 → slice_index factors i < p }
    requires a_fits { length a.now ≡ length dst.old }
    requires b_fits { length b.now ≡ length dst.old }
    requires c_fits { length c.now ≡ length dst.old }
    requires d_fits { length d.now ≡ length dst.old }
    requires dst_below { AreDigits p dst.old }
    requires a_below { AreDigits p a.now }
    requires b_below { AreDigits p b.now }
    requires c_below { AreDigits p c.now }
    requires d_below { AreDigits p d.now }
    ensures sum { dst.new ≡ sum_with_multiple_modulo p (sum_with_multiple_modulo p (sum_with_multiple_modulo p
        (sum_with_multiple_modulo p dst.old (slice_index factors 0) a.now) (slice_index factors 1) b.now)
        (slice_index factors 2) c.now) (slice_index factors 3) d.now }
    ensures below { AreDigits p dst.new }
{
    match p {
        2 => add_four_multiples::<2>(dst, a, b, c, d, factors),
        3 => add_four_multiples::<3>(dst, a, b, c, d, factors),
        5 => add_four_multiples::<5>(dst, a, b, c, d, factors),
        _ => add_four_multiples::<7>(dst, a, b, c, d, factors),
    }
}

/// Multiplies a row by a number over the field of a prime order p: each byte d becomes m d modulo p.
pub fn scale_bytes(dst: &mut [u8], m: u8, p: u8)
    requires prime { IsSmallPrime p }
    requires factor { m < p }
    requires dst_below { AreDigits p dst.old }
    ensures multiple { dst.new ≡ multiple_modulo p m dst.old }
    ensures below { AreDigits p dst.new }
{
    if m == 1 {
        return;
    }
    match p {
        2 => scale::<2>(dst, m),
        3 => scale::<3>(dst, m),
        5 => scale::<5>(dst, m),
        _ => scale::<7>(dst, m),
    }
}

/// The least index of a byte other than zero, or `None` where every byte is zero.
pub fn first_byte(bytes: &[u8]) -> Option<usize>
    ensures { MatchOption result (All (λ byte. byte ≡ 0) bytes.now) (IsFirstNonzero bytes.now) }
{
    for at in zero_bytes(bytes)..bytes.len() {
        if bytes[at] != 0 {
            return Some(at);
        }
    }
    None
}

/// The sum of the products of bytes at one index, modulo p: the dot product of two rows over the field of order p.
pub fn dot_bytes(a: &[u8], b: &[u8], p: u8) -> u8
    requires prime { IsSmallPrime p }
    requires fits { length b.now ≡ length a.now }
    requires short { length a.now ≤ 4096 }
    ensures { result ≡ sum_of_products a.now b.now % p }
{
    let whole = a.len() / HALF_BLOCK;
    let mut sums = u32x16::splat(0);
    for block in 0..whole {
        sums = with_products(sums, a, b, block * HALF_BLOCK);
    }
    let mut sum = sums.strict_reduce_sum();
    for at in whole * HALF_BLOCK..a.len() {
        sum += a[at] as u32 * b[at] as u32;
    }
    (sum % p as u32) as u8
}

/// Adds m times another row over the field of order `P`: block by block, where there is one. The last block ends with
/// the row, so that it may overlap with the one before it: it is summed first and put last.
fn add_multiple<const P: u8>(dst: &mut [u8], src: &[u8], m: u8)
    requires prime { IsSmallPrime P }
    requires factor { m < P }
    requires fits { length src.now ≡ length dst.old }
    requires dst_below { AreDigits P dst.old }
    requires src_below { AreDigits P src.now }
    ensures { dst.new ≡ sum_with_multiple_modulo P dst.old m src.now }
{
    if dst.len() < BLOCK {
        add_multiple_one_by_one::<P>(dst, src, m);
        return;
    }
    let end = dst.len() - BLOCK;
    let last = sum_of::<P>(
        u8x32::from_slice(&dst[end..]),
        u8x32::from_slice(&src[end..]),
        m,
    );
    let whole = (dst.len() - 1) / BLOCK;
    for block in 0..whole {
        add_block::<P>(dst, src, m, block * BLOCK);
    }
    last.copy_to_slice(&mut dst[end..]);
}

/// Adds m times another row over the field of order `P`, byte by byte.
fn add_multiple_one_by_one<const P: u8>(dst: &mut [u8], src: &[u8], m: u8)
    requires prime { IsSmallPrime P }
    requires factor { m < P }
    requires fits { length src.now ≡ length dst.old }
    requires dst_below { AreDigits P dst.old }
    requires src_below { AreDigits P src.now }
    ensures { dst.new ≡ sum_with_multiple_modulo P dst.old m src.now }
{
    for at in 0..dst.len() {
        dst[at] = (dst[at] + m * src[at]) % P;
    }
}

/// Multiplies a row by m over the field of order `P`: whole blocks by vectors, and then the bytes that are left one by
/// one.
fn scale<const P: u8>(dst: &mut [u8], m: u8)
    requires prime { IsSmallPrime P }
    requires factor { m < P }
    requires dst_below { AreDigits P dst.old }
    ensures { dst.new ≡ multiple_modulo P m dst.old }
{
    let whole = dst.len() / BLOCK;
    for block in 0..whole {
        scale_block::<P>(dst, m, block * BLOCK);
    }
    for at in whole * BLOCK..dst.len() {
        dst[at] = m * dst[at] % P;
    }
}

/// The block of a sum from an index on.
#[inline(always)]
fn add_block<const P: u8>(dst: &mut [u8], src: &[u8], m: u8, at: usize)
    requires prime { IsSmallPrime P }
    requires factor { m < P }
    requires dst_has_block { at + BLOCK ≤ length dst.old }
    requires src_has_block { at + BLOCK ≤ length src.now }
    requires dst_below { AreDigits P dst.old }
    requires src_below { AreDigits P src.now }
    ensures { dst.new ≡ put_chunk at dst.old
        (sum_with_multiple_modulo P (chunk at BLOCK dst.old) m (chunk at BLOCK src.now)) }
{
    let sum = sum_of::<P>(
        u8x32::from_slice(&dst[at..]),
        u8x32::from_slice(&src[at..]),
        m,
    );
    sum.copy_to_slice(&mut dst[at..]);
}

/// Adds four rows over the field of a prime order p to a fifth, as [`add4_bytes`] does, byte by byte.
fn add4_one_by_one(dst: &mut [u8], a: &[u8], b: &[u8], c: &[u8], d: &[u8], p: u8)
    requires prime { IsSmallPrime p }
    requires a_fits { length a.now ≡ length dst.old }
    requires b_fits { length b.now ≡ length dst.old }
    requires c_fits { length c.now ≡ length dst.old }
    requires d_fits { length d.now ≡ length dst.old }
    requires dst_below { AreDigits p dst.old }
    requires a_below { AreDigits p a.now }
    requires b_below { AreDigits p b.now }
    requires c_below { AreDigits p c.now }
    requires d_below { AreDigits p d.now }
    ensures sum { dst.new ≡ sum_modulo p (sum_modulo p (sum_modulo p (sum_modulo p dst.old a.now) b.now) c.now) d.now }
    ensures below { AreDigits p dst.new }
{
    for at in 0..dst.len() {
        dst[at] = reduced_byte(dst[at] + a[at] + b[at] + c[at] + d[at], p);
    }
}

/// The block of a sum of five rows from an index on.
#[inline(always)]
fn add4_block(dst: &mut [u8], a: &[u8], b: &[u8], c: &[u8], d: &[u8], p: u8, at: usize)
    requires prime { IsSmallPrime p }
    requires dst_has_block { at + BLOCK ≤ length dst.old }
    requires a_has_block { at + BLOCK ≤ length a.now }
    requires b_has_block { at + BLOCK ≤ length b.now }
    requires c_has_block { at + BLOCK ≤ length c.now }
    requires d_has_block { at + BLOCK ≤ length d.now }
    requires dst_below { AreDigits p dst.old }
    requires a_below { AreDigits p a.now }
    requires b_below { AreDigits p b.now }
    requires c_below { AreDigits p c.now }
    requires d_below { AreDigits p d.now }
    ensures { dst.new ≡ put_chunk at dst.old (sum_modulo p (chunk at BLOCK dst.old)
        (sum_modulo p (sum_modulo p (sum_modulo p (chunk at BLOCK a.now) (chunk at BLOCK b.now))
        (chunk at BLOCK c.now)) (chunk at BLOCK d.now))) }
{
    let sum = sum4_of(dst, a, b, c, d, p, at);
    sum.copy_to_slice(&mut dst[at..]);
}

/// The sum of the blocks of five rows from an index on.
#[inline(always)]
fn sum4_of(dst: &[u8], a: &[u8], b: &[u8], c: &[u8], d: &[u8], p: u8, at: usize) -> u8x32
    requires prime { IsSmallPrime p }
    requires dst_has_block { at + BLOCK ≤ length dst.now }
    requires a_has_block { at + BLOCK ≤ length a.now }
    requires b_has_block { at + BLOCK ≤ length b.now }
    requires c_has_block { at + BLOCK ≤ length c.now }
    requires d_has_block { at + BLOCK ≤ length d.now }
    requires dst_below { AreDigits p dst.now }
    requires a_below { AreDigits p a.now }
    requires b_below { AreDigits p b.now }
    requires c_below { AreDigits p c.now }
    requires d_below { AreDigits p d.now }
    ensures { result ≡ sum_modulo p (chunk at BLOCK dst.now)
        (sum_modulo p (sum_modulo p (sum_modulo p (chunk at BLOCK a.now) (chunk at BLOCK b.now))
        (chunk at BLOCK c.now)) (chunk at BLOCK d.now)) }
{
    let two = u8x32::from_slice(&a[at..]) + u8x32::from_slice(&b[at..]);
    let four = two + u8x32::from_slice(&c[at..]) + u8x32::from_slice(&d[at..]);
    let sum = u8x32::from_slice(&dst[at..]) + four;
    reduced(reduced(reduced(sum, 4 * p), 2 * p), p)
}

/// Adds multiples of four other rows over the field of order `P`: block by block, where there is one, and else one row
/// after another. The last block may overlap with the one before it: it is summed first and put last.
fn add_four_multiples<const P: u8>(
    dst: &mut [u8],
    a: &[u8],
    b: &[u8],
    c: &[u8],
    d: &[u8],
    factors: [u8; 4],
)
    requires prime { IsSmallPrime P }
    requires factors { (i : ℕ) → i < 4 → slice_index factors i < P }
    requires a_fits { length a.now ≡ length dst.old }
    requires b_fits { length b.now ≡ length dst.old }
    requires c_fits { length c.now ≡ length dst.old }
    requires d_fits { length d.now ≡ length dst.old }
    requires dst_below { AreDigits P dst.old }
    requires a_below { AreDigits P a.now }
    requires b_below { AreDigits P b.now }
    requires c_below { AreDigits P c.now }
    requires d_below { AreDigits P d.now }
    ensures { dst.new ≡ sum_with_four_multiples P factors dst.old a.now b.now c.now d.now }
{
    if dst.len() < BLOCK {
        add_multiple_one_by_one::<P>(dst, a, factors[0]);
        add_multiple_one_by_one::<P>(dst, b, factors[1]);
        add_multiple_one_by_one::<P>(dst, c, factors[2]);
        add_multiple_one_by_one::<P>(dst, d, factors[3]);
        return;
    }
    let end = dst.len() - BLOCK;
    let last = sum_with_four::<P>(dst, a, b, c, d, factors, end);
    let whole = (dst.len() - 1) / BLOCK;
    for block in 0..whole {
        add_four_to_block::<P>(dst, a, b, c, d, factors, block * BLOCK);
    }
    last.copy_to_slice(&mut dst[end..]);
}

/// The block of a sum with multiples of four rows from an index on.
#[inline(always)]
fn add_four_to_block<const P: u8>(
    dst: &mut [u8],
    a: &[u8],
    b: &[u8],
    c: &[u8],
    d: &[u8],
    factors: [u8; 4],
    at: usize,
)
    requires prime { IsSmallPrime P }
    requires factors { (i : ℕ) → i < 4 → slice_index factors i < P }
    requires dst_has_block { at + BLOCK ≤ length dst.old }
    requires a_has_block { at + BLOCK ≤ length a.now }
    requires b_has_block { at + BLOCK ≤ length b.now }
    requires c_has_block { at + BLOCK ≤ length c.now }
    requires d_has_block { at + BLOCK ≤ length d.now }
    requires dst_below { AreDigits P dst.old }
    requires a_below { AreDigits P a.now }
    requires b_below { AreDigits P b.now }
    requires c_below { AreDigits P c.now }
    requires d_below { AreDigits P d.now }
    ensures { dst.new ≡ put_chunk at dst.old (sum_with_four_multiples P factors (chunk at BLOCK dst.old)
        (chunk at BLOCK a.now) (chunk at BLOCK b.now) (chunk at BLOCK c.now) (chunk at BLOCK d.now)) }
{
    let sum = sum_with_four::<P>(dst, a, b, c, d, factors, at);
    sum.copy_to_slice(&mut dst[at..]);
}

/// The sum of the block of a row from an index on and multiples of the blocks of four others. A sum before its
/// reduction is at most 4 (P - 1) (P - 1) + P - 1, which is below 32 P, and a byte.
#[inline(always)]
fn sum_with_four<const P: u8>(
    dst: &[u8],
    a: &[u8],
    b: &[u8],
    c: &[u8],
    d: &[u8],
    factors: [u8; 4],
    at: usize,
) -> u8x32
    requires prime { IsSmallPrime P }
    requires factors { (i : ℕ) → i < 4 → slice_index factors i < P }
    requires dst_has_block { at + BLOCK ≤ length dst.now }
    requires a_has_block { at + BLOCK ≤ length a.now }
    requires b_has_block { at + BLOCK ≤ length b.now }
    requires c_has_block { at + BLOCK ≤ length c.now }
    requires d_has_block { at + BLOCK ≤ length d.now }
    requires dst_below { AreDigits P dst.now }
    requires a_below { AreDigits P a.now }
    requires b_below { AreDigits P b.now }
    requires c_below { AreDigits P c.now }
    requires d_below { AreDigits P d.now }
    ensures { result ≡ sum_with_four_multiples P factors (chunk at BLOCK dst.now)
        (chunk at BLOCK a.now) (chunk at BLOCK b.now) (chunk at BLOCK c.now) (chunk at BLOCK d.now) }
{
    let a = times(u8x32::from_slice(&a[at..]), factors[0]);
    let b = times(u8x32::from_slice(&b[at..]), factors[1]);
    let c = times(u8x32::from_slice(&c[at..]), factors[2]);
    let d = times(u8x32::from_slice(&d[at..]), factors[3]);
    let sum = reduced(u8x32::from_slice(&dst[at..]) + (a + b + c + d), 16 * P);
    reduced(reduced(reduced(reduced(sum, 8 * P), 4 * P), 2 * P), P)
}

/// A sum of five bytes below a prime p modulo p: it is below 8 p.
#[inline(always)]
fn reduced_byte(sum: u8, p: u8) -> u8
    requires prime { IsSmallPrime p }
    requires below { sum < 8 * p }
    ensures { result ≡ sum % p }
{
    let once = if sum < 4 * p { sum } else { sum - 4 * p };
    let twice = if once < 2 * p { once } else { once - 2 * p };
    if twice < p { twice } else { twice - p }
}

/// The block of a multiple from an index on.
#[inline(always)]
fn scale_block<const P: u8>(dst: &mut [u8], m: u8, at: usize)
    requires prime { IsSmallPrime P }
    requires factor { m < P }
    requires dst_has_block { at + BLOCK ≤ length dst.old }
    requires dst_below { AreDigits P dst.old }
    ensures { dst.new ≡ put_chunk at dst.old (multiple_modulo P m (chunk at BLOCK dst.old)) }
{
    let product = sum_of::<P>(u8x32::splat(0), u8x32::from_slice(&dst[at..]), m);
    product.copy_to_slice(&mut dst[at..]);
}

/// d + m s modulo P for the lanes d and s of two vectors. A sum before its reduction is at most P (P - 1), which is
/// below 8 P.
#[inline(always)]
fn sum_of<const P: u8>(d: u8x32, s: u8x32, m: u8) -> u8x32
    requires prime { IsSmallPrime P }
    requires factor { m < P }
    requires d_below { AreDigits P d }
    requires s_below { AreDigits P s }
    ensures { result ≡ sum_with_multiple_modulo P d m s }
{
    let sum = d + times(s, m);
    reduced(reduced(reduced(sum, 4 * P), 2 * P), P)
}

/// m times each lane. Two bytes are multiplied as one number of 16 bits: as both products are bytes, nothing of the
/// lower one is carried into the higher one.
#[inline(always)]
pub(crate) fn times(v: u8x32, m: u8) -> u8x32
    requires { All (λ x. m * x < 256) v }
    ensures { result ≡ map (λ x. m * x) v }
{
    let pairs = u16x16::from_le_bytes(v);
    (pairs * u16x16::splat(u16::from(m))).to_le_bytes()
}

/// Each lane less a number where it is not below it: the difference wraps where it is, and is then the greater one.
#[inline(always)]
pub(crate) fn reduced(v: u8x32, by: u8) -> u8x32
    ensures { result ≡ map (less_where_not_below by) v }
{
    v.simd_min(v - u8x32::splat(by))
}

/// Lanes plus the products of the block from an index on. Sums of 32 bits hold 4,096 products of any bytes.
#[inline(always)]
fn with_products(sums: u32x16, a: &[u8], b: &[u8], at: usize) -> u32x16
    requires a_has_block { at + HALF_BLOCK ≤ length a.now }
    requires b_has_block { at + HALF_BLOCK ≤ length b.now }
    requires fits { sum_l sums + 65025 * HALF_BLOCK < 2 ^ 32 }
    ensures { sum_l result ≡ sum_l sums + sum_l (products (chunk at HALF_BLOCK a.now) (chunk at HALF_BLOCK b.now)) }
{
    let left = u8x16::from_slice(&a[at..]).cast::<u32>();
    let right = u8x16::from_slice(&b[at..]).cast::<u32>();
    sums.strict_add(left.strict_mul(right))
}

/// How many bytes the whole blocks of zeros at the start have.
#[inline(always)]
fn zero_bytes(bytes: &[u8]) -> usize
    ensures within { result ≤ length bytes.now }
    ensures zeros { AreZerosBefore bytes.now result }
{
    let whole = bytes.len() / BLOCK;
    for block in 0..whole {
        let is_zero = is_zero_block(bytes, block * BLOCK);
        if !is_zero {
            return block * BLOCK;
        }
    }
    whole * BLOCK
}

/// Whether a block from an index on has only zeros.
#[inline(always)]
fn is_zero_block(bytes: &[u8], at: usize) -> bool
    requires { at + BLOCK ≤ length bytes.now }
    ensures { IsTrue result → AreZerosBefore (chunk at BLOCK bytes.now) BLOCK }
{
    u8x32::from_slice(&bytes[at..]).reduce_or() == 0
}

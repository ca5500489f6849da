//! Kernels on words and on bytes, at lengths around those of whole vectors, beside sums that are made entry by entry.
ghost use Rattle.std.specs.Prelude.{◌≡◌, length};
ghost use Rattle.axe_lane.specs.Bytes.{AreDigits, IsSmallPrime};

use axe_lane::{
    add_scaled_bytes, add4_bytes, add4_wrapping, any_nonzero, bits_of_bytes, dot_bytes, first_byte,
    first_set, parity_and, put_xor, reduce_bytes, scale_bytes, xor_into, xor4_into,
};
use std::process::Abort;

/// Lengths around those of whole vectors of words and of bytes.
pub(crate) const LENGTHS: [usize; 16] = [
    0, 1, 7, 8, 9, 31, 32, 33, 63, 64, 65, 127, 128, 129, 2047, 2048,
];

/// The greatest of them.
pub(crate) const MOST: usize = 2048;

/// The primes, each with every number below it.
const FACTORS: [(u8, u8); 17] = [
    (2, 0),
    (2, 1),
    (3, 0),
    (3, 1),
    (3, 2),
    (5, 0),
    (5, 1),
    (5, 2),
    (5, 3),
    (5, 4),
    (7, 0),
    (7, 1),
    (7, 2),
    (7, 3),
    (7, 4),
    (7, 5),
    (7, 6),
];

/// Bytes below a number that follow no simple pattern.
fn bytes_below(p: u8, step: u8) -> [u8; MOST] {
    let mut bytes = [0; MOST];
    let mut state = step;
    for byte in &mut bytes {
        state = state.wrapping_mul(5).wrapping_add(step);
        *byte = state.checked_rem(p).unwrap_or(0);
    }
    bytes
}

/// Words whose bits follow no simple pattern.
fn words_of(step: u64) -> [u64; MOST] {
    let mut words = [0; MOST];
    let mut state = step;
    for word in &mut words {
        state = state.wrapping_mul(6364136223846793005).wrapping_add(step);
        *word = state;
    }
    words
}

/// Asserts that a number is one of the primes.
fn assert_prime(rt: &impl Abort, p: u8)
    ensures { IsSmallPrime p }
{
    assert!(rt; p == 2 || p == 3 || p == 5 || p == 7);
}

/// Asserts that there are so many bytes, each below a number.
fn assert_bytes(rt: &impl Abort, bytes: &[u8], len: usize, p: u8)
    ensures length { length bytes.now ≡ len }
    ensures below { AreDigits p bytes.now }
{
    assert!(rt; bytes.len() == len);
    assert!(rt; bytes.iter().all(|&byte| byte < p));
}

/// Adds a multiple of bytes to others.
fn adds(rt: &impl Abort, dst: &mut [u8], src: &[u8], m: u8, p: u8) {
    let len = dst.len();
    assert_prime(rt, p);
    assert_bytes(rt, dst, len, p);
    assert_bytes(rt, src, len, p);
    assert!(rt; m < p);
    add_scaled_bytes(dst, src, m, p);
}

fn scales(rt: &impl Abort, dst: &mut [u8], m: u8, p: u8) {
    assert_prime(rt, p);
    assert_bytes(rt, dst, dst.len(), p);
    assert!(rt; m < p);
    scale_bytes(dst, m, p);
}

/// d + m s modulo p.
fn sum_of(d: u8, m: u8, s: u8, p: u8) -> Option<u32> {
    u32::from(m)
        .wrapping_mul(u32::from(s))
        .wrapping_add(u32::from(d))
        .checked_rem(u32::from(p))
}

/// Whether sums and multiples of rows of so many bytes are made entry by entry.
fn bytes_are_combined(rt: &impl Abort, len: usize, m: u8, p: u8) -> bool {
    assert!(rt; len <= MOST);
    let (left, right) = (bytes_below(p, 3), bytes_below(p, 11));
    let (mut sum, mut multiple) = (left, left);
    adds(rt, &mut sum[..len], &right[..len], m, p);
    scales(rt, &mut multiple[..len], m, p);
    let mut is_right = true;
    for at in 0..len {
        is_right = is_right
            && sum_of(left[at], m, right[at], p) == Some(u32::from(sum[at]))
            && sum_of(0, m, left[at], p) == Some(u32::from(multiple[at]));
    }
    is_right
}

/// Whether the product of rows of so many bytes is the sum of products.
fn bytes_are_multiplied(rt: &impl Abort, len: usize, p: u8) -> bool {
    assert!(rt; len <= MOST);
    let (left, right) = (bytes_below(p, 3), bytes_below(p, 11));
    assert_prime(rt, p);
    let product = dot_bytes(&left[..len], &right[..len], p);
    let mut total = 0u32;
    for at in 0..len {
        total = total.wrapping_add(u32::from(left[at]).wrapping_mul(u32::from(right[at])));
    }
    total.checked_rem(u32::from(p)) == Some(u32::from(product))
}

/// Whether sums and products of rows of so many words are made word by word.
fn words_are_combined(rt: &impl Abort, len: usize) -> bool {
    assert!(rt; len <= MOST);
    let (left, right) = (words_of(3), words_of(11));
    let (mut sum, mut put) = (left, words_of(29));
    xor_into(&mut sum[..len], &right[..len]);
    put_xor(&mut put[..len], &left[..len], &right[..len]);
    let parity = parity_and(&left[..len], &right[..len]);
    let mut is_right = true;
    let mut common = 0u32;
    for at in 0..len {
        is_right = is_right && sum[at] == left[at] ^ right[at] && put[at] == sum[at];
        common = common.wrapping_add((left[at] & right[at]).count_ones());
    }
    is_right && u32::from(parity) == common % 2
}

/// Adds four rows of bytes to a fifth.
fn adds_four(rt: &impl Abort, dst: &mut [u8], a: &[u8], b: &[u8], c: &[u8], d: &[u8], p: u8) {
    let len = dst.len();
    assert_prime(rt, p);
    assert_bytes(rt, dst, len, p);
    assert_bytes(rt, a, len, p);
    assert_bytes(rt, b, len, p);
    assert_bytes(rt, c, len, p);
    assert_bytes(rt, d, len, p);
    add4_bytes(dst, a, b, c, d, p);
}

/// Whether sums of five rows of so many bytes are made entry by entry.
fn five_rows_of_bytes_are_summed(rt: &impl Abort, len: usize, p: u8) -> bool {
    assert!(rt; len <= MOST);
    let (a, b) = (bytes_below(p, 3), bytes_below(p, 7));
    let (c, d) = (bytes_below(p, 11), bytes_below(p, 13));
    let old = bytes_below(p, 29);
    let mut sum = old;
    adds_four(
        rt,
        &mut sum[..len],
        &a[..len],
        &b[..len],
        &c[..len],
        &d[..len],
        p,
    );
    let mut is_right = true;
    for at in 0..len {
        let total = u32::from(old[at])
            .wrapping_add(u32::from(a[at]))
            .wrapping_add(u32::from(b[at]))
            .wrapping_add(u32::from(c[at]))
            .wrapping_add(u32::from(d[at]));
        is_right = is_right && total.checked_rem(u32::from(p)) == Some(u32::from(sum[at]));
    }
    is_right
}

/// Whether sums of five lists of so many bytes are made byte by byte, modulo 256, and then their remainders taken.
fn sums_leave_their_remainders(rt: &impl Abort, len: usize, p: u8) -> bool {
    assert!(rt; len <= MOST && 4 <= p && p <= 7);
    let (a, b, c, d) = (
        bytes_below(251, 3),
        bytes_below(251, 7),
        bytes_below(251, 11),
        bytes_below(251, 13),
    );
    let old = bytes_below(251, 29);
    let mut sum = old;
    add4_wrapping(&mut sum[..len], &a[..len], &b[..len], &c[..len], &d[..len]);
    let mut rest = sum;
    reduce_bytes(&mut rest[..len], p);
    let mut is_right = true;
    for at in 0..len {
        let four = a[at]
            .wrapping_add(b[at])
            .wrapping_add(c[at])
            .wrapping_add(d[at]);
        let total = old[at].wrapping_add(four);
        is_right = is_right && sum[at] == total && total.checked_rem(p) == Some(rest[at]);
    }
    is_right
}

/// Whether sums of five rows of so many words are made word by word.
fn five_rows_of_words_are_summed(rt: &impl Abort, len: usize) -> bool {
    assert!(rt; len <= MOST);
    let (a, b, c, d) = (words_of(3), words_of(7), words_of(11), words_of(13));
    let old = words_of(29);
    let mut sum = old;
    xor4_into(&mut sum[..len], &a[..len], &b[..len], &c[..len], &d[..len]);
    let mut is_right = true;
    for at in 0..len {
        is_right = is_right && sum[at] == old[at] ^ a[at] ^ b[at] ^ c[at] ^ d[at];
    }
    is_right
}

/// Whether the bits that 64 bytes from an index on have at a place are taken one by one.
fn bits_are_taken(rt: &impl Abort, bytes: &[u8], at: usize, place: u8) -> bool {
    assert!(rt; bytes.len() >= 64);
    assert!(rt; at <= bytes.len() - 64);
    assert!(rt; place < 8);
    let mut word = bits_of_bytes(bytes, at, place);
    let mut is_right = true;
    for byte in &bytes[at..at + 64] {
        is_right = is_right && word % 2 == u64::from(*byte >> place & 1);
        word /= 2;
    }
    is_right
}

/// Whether the bits of the first and of the last 64 of so many bytes are taken one by one, at each place.
fn bits_are_taken_at_each_place(rt: &impl Abort, len: usize) -> bool {
    let bytes = bytes_below(255, 3);
    assert!(rt; len >= 64);
    assert!(rt; len <= MOST);
    let mut is_right = true;
    for place in 0..8 {
        is_right = is_right
            && bits_are_taken(rt, &bytes[..len], 0, place)
            && bits_are_taken(rt, &bytes[..len], len - 64, place);
    }
    is_right
}

/// Whether the first bit that is set and the first byte that is not zero are those at these indices, or there is none.
fn are_found(
    rt: &impl Abort,
    words: &[u64],
    bytes: &[u8],
    bit: Option<usize>,
    byte: Option<usize>,
) -> bool {
    assert!(rt; words.len() <= MOST);
    any_nonzero(words) == bit.is_some() && first_set(words) == bit && first_byte(bytes) == byte
}

/// Whether the last of zeros is found where it alone is made another number, and nothing before that.
fn last_is_found(rt: &impl Abort, words: &mut [u64], bytes: &mut [u8]) -> bool {
    let len = words.len();
    assert!(rt; len <= MOST);
    assert!(rt; bytes.len() == len);
    let is_none_found = are_found(rt, words, bytes, None, None);
    if len == 0 {
        return is_none_found;
    }
    words[len - 1] = 1 << 63;
    bytes[len - 1] = 1;
    is_none_found && are_found(rt, words, bytes, Some(len * 64 - 1), Some(len - 1))
}

#[test]
fn bytes_are_summed_and_scaled_at_each_length(rt: HostRuntime) {
    for len in LENGTHS {
        for (p, m) in FACTORS {
            assert!(rt; bytes_are_combined(&rt, len, m, p), "{len} {m} {p}");
        }
    }
}

#[test]
fn products_are_sums_at_each_length(rt: HostRuntime) {
    for len in LENGTHS {
        assert!(rt; words_are_combined(&rt, len), "{len}");
        for p in [2, 3, 5, 7] {
            assert!(rt; bytes_are_multiplied(&rt, len, p), "{len} {p}");
        }
    }
}

#[test]
fn five_rows_are_summed_at_each_length(rt: HostRuntime) {
    for len in LENGTHS {
        assert!(rt; five_rows_of_words_are_summed(&rt, len), "{len}");
        for p in [2, 3, 5, 7] {
            assert!(rt; five_rows_of_bytes_are_summed(&rt, len, p), "{len} {p}");
        }
        for p in [5, 7] {
            assert!(rt; sums_leave_their_remainders(&rt, len, p), "{len} {p}");
        }
    }
}

#[test]
fn bits_are_taken_at_each_length(rt: HostRuntime) {
    for len in LENGTHS {
        if len >= 64 {
            assert!(rt; bits_are_taken_at_each_place(&rt, len), "{len}");
        }
    }
}

#[test]
fn the_last_entry_is_found_at_each_length(rt: HostRuntime) {
    for len in LENGTHS {
        let (mut words, mut bytes) = ([0u64; MOST], [0u8; MOST]);
        assert!(rt; len <= MOST);
        assert!(rt;
            last_is_found(&rt, &mut words[..len], &mut bytes[..len]),
            "{len}"
        );
    }
}

/// 6 + 6 times 6 is 42, which is 0 modulo 7.
#[test]
fn forty_two_is_zero_modulo_seven(rt: HostRuntime) {
    let mut sum = [6, 6];
    add_scaled_bytes(&mut sum, &[6, 6], 6, 7);
    assert_eq!(rt; sum, [0, 0]);
}

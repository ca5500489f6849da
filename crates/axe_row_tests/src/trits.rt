//! Kernels on rows over the field of order 3, at lengths around those of whole vectors, beside sums that are made entry
//! by entry.
ghost use Rattle.std.specs.Prelude.{◌<◌};
ghost use Rattle.axe_lane.specs.Trits.{AreTrits, AreTritsOf};

use crate::lanes::{LENGTHS, MOST};
use axe_lane::{add_trits, add4_trits, dot_trits};
use std::process::Abort;

/// A row of words whose entries follow no simple pattern: the words of its ones, and those of its twos.
fn row_of_words(step: u64) -> ([u64; MOST], [u64; MOST]) {
    let (mut ones, mut twos) = ([0; MOST], [0; MOST]);
    let mut state = step;
    for at in 0..MOST {
        let before = state;
        state = state.wrapping_mul(6364136223846793005).wrapping_add(step);
        let (first, second) = (state ^ state >> 31, before ^ state >> 23);
        ones[at] = first & !second;
        twos[at] = second & !first;
    }
    (ones, twos)
}

/// Asserts that words are those of the ones and of the twos of a row.
fn assert_trits(rt: &impl Abort, ones: &[u64], twos: &[u64])
    ensures { AreTrits ones.now twos.now }
{
    assert!(rt; twos.len() == ones.len());
    for at in 0..ones.len() {
        assert!(rt; ones[at] & twos[at] == 0);
    }
}

fn adds(rt: &impl Abort, ones: &mut [u64], twos: &mut [u64], more_ones: &[u64], more_twos: &[u64]) {
    assert!(rt; more_ones.len() == ones.len());
    assert_trits(rt, ones, twos);
    assert_trits(rt, more_ones, more_twos);
    add_trits(ones, twos, more_ones, more_twos);
}

/// Asserts that a row has so many words of ones, and as many of twos.
fn assert_trits_of(rt: &impl Abort, count: usize, row: (&[u64], &[u64]))
    ensures { AreTritsOf count row.entry.0.now row.entry.1.now }
{
    assert!(rt; row.0.len() == count);
    assert_trits(rt, row.0, row.1);
}

fn adds_four(
    rt: &impl Abort,
    ones: &mut [u64],
    twos: &mut [u64],
    a: (&[u64], &[u64]),
    b: (&[u64], &[u64]),
    c: (&[u64], &[u64]),
    d: (&[u64], &[u64]),
) {
    assert_trits(rt, ones, twos);
    assert_trits_of(rt, ones.len(), a);
    assert_trits_of(rt, ones.len(), b);
    assert_trits_of(rt, ones.len(), c);
    assert_trits_of(rt, ones.len(), d);
    add4_trits(ones, twos, a, b, c, d);
}

fn multiplies(
    rt: &impl Abort,
    ones: &[u64],
    twos: &[u64],
    other_ones: &[u64],
    other_twos: &[u64],
) -> u8 {
    assert!(rt; twos.len() == ones.len());
    assert!(rt; other_ones.len() == ones.len());
    assert!(rt; other_twos.len() == ones.len());
    dot_trits(ones, twos, other_ones, other_twos)
}

/// The entry at a place of a word of ones and one of twos.
fn entry_at(words: (u64, u64), place: u32) -> u64
    requires { place < 64 }
{
    let (ones, twos) = words;
    (ones >> place & 1).wrapping_add((twos >> place & 1).wrapping_mul(2))
}

/// Whether the entries of words are the sums of those of two others.
fn are_sums(words: (u64, u64), left: (u64, u64), right: (u64, u64)) -> bool {
    let mut is_right = true;
    for place in 0..64 {
        let sum = entry_at(left, place).wrapping_add(entry_at(right, place));
        is_right = is_right && entry_at(words, place) == sum % 3;
    }
    is_right
}

/// Whether the entries of words are the sums of those of five others.
fn are_sums_of_five(words: (u64, u64), rows: [(u64, u64); 5]) -> bool {
    let mut is_right = true;
    for place in 0..64 {
        let mut sum = 0u64;
        for row in rows {
            sum = sum.wrapping_add(entry_at(row, place));
        }
        is_right = is_right && entry_at(words, place) == sum % 3;
    }
    is_right
}

/// The sum of the products of the entries of words, as a number.
fn sum_of_products(left: (u64, u64), right: (u64, u64)) -> u64 {
    let mut sum = 0u64;
    for place in 0..64 {
        sum = sum.wrapping_add(entry_at(left, place).wrapping_mul(entry_at(right, place)));
    }
    sum
}

/// Whether sums and products of rows of so many words are made entry by entry.
fn rows_are_combined(rt: &impl Abort, len: usize) -> bool {
    assert!(rt; len <= MOST);
    let (ones, twos) = row_of_words(3);
    let (more_ones, more_twos) = row_of_words(11);
    let (mut sum_ones, mut sum_twos) = (ones, twos);
    adds(
        rt,
        &mut sum_ones[..len],
        &mut sum_twos[..len],
        &more_ones[..len],
        &more_twos[..len],
    );
    let product = multiplies(
        rt,
        &ones[..len],
        &twos[..len],
        &more_ones[..len],
        &more_twos[..len],
    );
    let mut is_right = true;
    let mut total = 0u64;
    for at in 0..len {
        let (left, right) = ((ones[at], twos[at]), (more_ones[at], more_twos[at]));
        is_right = is_right && are_sums((sum_ones[at], sum_twos[at]), left, right);
        total = total.wrapping_add(sum_of_products(left, right));
    }
    is_right && u64::from(product) == total % 3
}

/// Whether sums of five rows of so many words are made entry by entry.
fn five_rows_are_summed(rt: &impl Abort, len: usize) -> bool {
    assert!(rt; len <= MOST);
    let (ones, twos) = row_of_words(3);
    let (a, b) = (row_of_words(11), row_of_words(13));
    let (c, d) = (row_of_words(29), row_of_words(31));
    let (mut sum_ones, mut sum_twos) = (ones, twos);
    adds_four(
        rt,
        &mut sum_ones[..len],
        &mut sum_twos[..len],
        (&a.0[..len], &a.1[..len]),
        (&b.0[..len], &b.1[..len]),
        (&c.0[..len], &c.1[..len]),
        (&d.0[..len], &d.1[..len]),
    );
    let mut is_right = true;
    for at in 0..len {
        let rows = [
            (ones[at], twos[at]),
            (a.0[at], a.1[at]),
            (b.0[at], b.1[at]),
            (c.0[at], c.1[at]),
            (d.0[at], d.1[at]),
        ];
        is_right = is_right && are_sums_of_five((sum_ones[at], sum_twos[at]), rows);
    }
    is_right
}

#[test]
fn five_rows_are_summed_at_each_length(rt: HostRuntime) {
    for len in LENGTHS {
        assert!(rt; five_rows_are_summed(&rt, len), "{len}");
    }
}

#[test]
fn rows_are_summed_and_multiplied_at_each_length(rt: HostRuntime) {
    for len in LENGTHS {
        assert!(rt; rows_are_combined(&rt, len), "{len}");
    }
}

/// The entries 0, 1, 2 three times over, and then 0, 0, 0, 1, 1, 1, 2, 2, 2: their sums are 0, 1, 2, 1, 2, 0, 2, 0, 1.
#[test]
fn each_two_entries_have_a_sum(rt: HostRuntime) {
    let (mut ones, mut twos) = ([0b010010010; 9], [0b100100100; 9]);
    adds(
        &rt,
        &mut ones,
        &mut twos,
        &[0b000111000; 9],
        &[0b111000000; 9],
    );
    assert_eq!(rt; ones, [0b100001010; 9]);
    assert_eq!(rt; twos, [0b001010100; 9]);
}

/// A row of 577 twos times itself is 577 times 4, which is 1 modulo 3.
#[test]
fn twos_times_twos_are_ones(rt: HostRuntime) {
    let (ones, mut twos) = ([0; 10], [u64::MAX; 10]);
    twos[9] = 1;
    let product = multiplies(&rt, &ones, &twos, &ones, &twos);
    assert_eq!(rt; product, 1);
}

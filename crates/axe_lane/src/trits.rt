//! Kernels on rows over the field of order 3, each of which is two lists of 64-bit words: an entry is 1 where its bit
//! is set in the first, 2 where it is set in the second, and else 0.
ghost use Rattle.std.specs.Prelude.{◌≡◌, ◌+◌, ◌*◌, ◌%◌, ◌<◌, ◌≤◌, length, slice_index};
ghost use Rattle.axe_lane.specs.Trits.{common_trits, AreTrits, HasSumBetween, IsTritSum};
ghost use Rattle.axe_lane.specs.Trits.{sum_of_five, sum_of_three, sum_of_words, word_at, AreMadeBetween};
ghost use Rattle.axe_lane.specs.Trits.{ones_of_sums, twos_of_sums, AreTritsOf, HaveWords};
ghost use Rattle.axe_lane.specs.Trits.{multiple_layer, HasMultiplesOfTwo, IsTritSumOfFive};
ghost use Rattle.std.specs.Simd.Lanes.{chunk, put_chunk};

use std::simd::prelude::*;

/// How many words a block has: one vector. Rows of few words are added most, and what is left after the blocks is at
/// most a pair and a word.
const BLOCK: usize = 4;

/// How many words a pair has.
const PAIR: usize = 2;

/// Adds a row over the field of order 3 to another one of its length.
pub fn add_trits(ones: &mut [u64], twos: &mut [u64], more_ones: &[u64], more_twos: &[u64])
    requires fits { length more_ones.now ≡ length ones.old }
    requires row { AreTrits ones.old twos.old }
    requires more { AreTrits more_ones.now more_twos.now }
    ensures { IsTritSum ones.old twos.old more_ones.now more_twos.now ones.new twos.new }
{
    let whole = ones.len() / BLOCK;
    for block in 0..whole {
        add_block(ones, twos, more_ones, more_twos, block * BLOCK);
    }
    let rest = whole * BLOCK;
    match ones.len() - rest {
        0 => {}
        1 => add_word(ones, twos, more_ones, more_twos, rest),
        2 => add_pair(ones, twos, more_ones, more_twos, rest),
        _ => {
            add_pair(ones, twos, more_ones, more_twos, rest);
            add_word(ones, twos, more_ones, more_twos, rest + PAIR);
        }
    }
}

/// Adds four rows over the field of order 3 to a fifth of their length, in one pass: each word is read and written once.
/// A row that is added is its ones and its twos.
pub fn add4_trits(
    ones: &mut [u64],
    twos: &mut [u64],
    a: (&[u64], &[u64]),
    b: (&[u64], &[u64]),
    c: (&[u64], &[u64]),
    d: (&[u64], &[u64]),
)
    requires row { AreTrits ones.old twos.old }
    requires a { AreTritsOf (length ones.old) a.0.now a.1.now }
    requires b { AreTritsOf (length ones.old) b.0.now b.1.now }
    requires c { AreTritsOf (length ones.old) c.0.now c.1.now }
    requires d { AreTritsOf (length ones.old) d.0.now d.1.now }
    ensures { IsTritSumOfFive ones.old twos.old a.entry.0.now a.entry.1.now b.entry.0.now b.entry.1.now
        c.entry.0.now c.entry.1.now d.entry.0.now d.entry.1.now ones.new twos.new }
{
    let whole = ones.len() / PAIR;
    for pair in 0..whole {
        add4_pair(ones, twos, a, b, c, d, pair * PAIR);
    }
    let rest = whole * PAIR;
    if rest < ones.len() {
        add4_word(ones, twos, a, b, c, d, rest);
    }
}

/// Adds to each of two rows over the field of order 3 a combination of two others, in one pass: the constant and the
/// linear coefficients of the multiple by p + q x of the row over the field of order 9 with these coefficients, where
/// x^2 is x + 1.
#[inline(always)]
pub fn add_multiple_over_nine(
    ones: &mut [u64],
    twos: &mut [u64],
    linear_ones: &mut [u64],
    linear_twos: &mut [u64],
    p: u8,
    q: u8,
    a: (&[u64], &[u64]),
    b: (&[u64], &[u64]),
)
    requires p { p < 3 }
    requires q { q < 3 }
    requires row { AreTrits ones.old twos.old }
    requires linear { AreTritsOf (length ones.old) linear_ones.old linear_twos.old }
    requires a { AreTritsOf (length ones.old) a.0.now a.1.now }
    requires b { AreTritsOf (length ones.old) b.0.now b.1.now }
    ensures constant { HasMultiplesOfTwo p q ones.old twos.old a.entry.0.now a.entry.1.now b.entry.0.now b.entry.1.now
        ones.new twos.new }
    ensures linear { HasMultiplesOfTwo q ((p + q) % 3) linear_ones.old linear_twos.old a.entry.0.now a.entry.1.now
        b.entry.0.now b.entry.1.now linear_ones.new linear_twos.new }
{
    let (o, t, lo, lt) = (ones, twos, linear_ones, linear_twos);
    // An element is told by its number. Either it or its negative is monic, or it is 0; and a row's negative is the row
    // with its words exchanged. So there are four loops, and not nine, in each function that this one becomes part of.
    let (minus_a, minus_b) = ((a.1, a.0), (b.1, b.0));
    let (monic, a, b) = match p + 3 * q {
        0 => (0, a, b),
        1 => (1, a, b),
        2 => (1, minus_a, minus_b),
        3 => (3, a, b),
        4 => (4, a, b),
        5 => (5, a, b),
        6 => (3, minus_a, minus_b),
        7 => (5, minus_a, minus_b),
        _ => (4, minus_a, minus_b),
    };
    match monic {
        0 => {}
        1 => add_multiples::<1, 0, 0, 1>(o, t, lo, lt, a, b),
        3 => add_multiples::<0, 1, 1, 1>(o, t, lo, lt, a, b),
        4 => add_multiples::<1, 1, 1, 2>(o, t, lo, lt, a, b),
        _ => add_multiples::<2, 1, 1, 0>(o, t, lo, lt, a, b),
    }
}

/// Adds multiples of two rows over the field of order 3 to each of two others, in one pass: by P and Q to the first,
/// and by R and S to the second.
#[inline(always)]
fn add_multiples<const P: u8, const Q: u8, const R: u8, const S: u8>(
    ones: &mut [u64],
    twos: &mut [u64],
    second_ones: &mut [u64],
    second_twos: &mut [u64],
    a: (&[u64], &[u64]),
    b: (&[u64], &[u64]),
)
    requires p { P < 3 }
    requires q { Q < 3 }
    requires r { R < 3 }
    requires s { S < 3 }
    requires row { AreTrits ones.old twos.old }
    requires second { AreTritsOf (length ones.old) second_ones.old second_twos.old }
    requires a { AreTritsOf (length ones.old) a.0.now a.1.now }
    requires b { AreTritsOf (length ones.old) b.0.now b.1.now }
    ensures first { HasMultiplesOfTwo P Q ones.old twos.old a.entry.0.now a.entry.1.now b.entry.0.now b.entry.1.now
        ones.new twos.new }
    ensures second { HasMultiplesOfTwo R S second_ones.old second_twos.old a.entry.0.now a.entry.1.now
        b.entry.0.now b.entry.1.now second_ones.new second_twos.new }
{
    let whole = ones.len() / PAIR;
    for pair in 0..whole {
        let at = pair * PAIR;
        let (p, q) = (multiple_of_pair::<P>(a, at), multiple_of_pair::<Q>(b, at));
        let (r, s) = (multiple_of_pair::<R>(a, at), multiple_of_pair::<S>(b, at));
        add_pairs(ones, twos, p, q, at);
        add_pairs(second_ones, second_twos, r, s, at);
    }
    let rest = whole * PAIR;
    if rest < ones.len() {
        let (p, q) = (
            multiple_of_word::<P>(a, rest),
            multiple_of_word::<Q>(b, rest),
        );
        let (r, s) = (
            multiple_of_word::<R>(a, rest),
            multiple_of_word::<S>(b, rest),
        );
        add_words(ones, twos, p, q, rest);
        add_words(second_ones, second_twos, r, s, rest);
    }
}

/// The dot product of two rows over the field of order 3 of one length.
pub fn dot_trits(ones: &[u64], twos: &[u64], other_ones: &[u64], other_twos: &[u64]) -> u8
    requires twos { length twos.now ≡ length ones.now }
    requires other_ones { length other_ones.now ≡ length ones.now }
    requires other_twos { length other_twos.now ≡ length ones.now }
    ensures { result ≡ common_trits ones.now twos.now other_ones.now other_twos.now % 3 }
{
    let mut sum = 0;
    for at in 0..ones.len() {
        let (one, two) = (ones[at], twos[at]);
        let same = (one & other_ones[at]).count_ones() + (two & other_twos[at]).count_ones();
        let crossed = (one & other_twos[at]).count_ones() + (two & other_ones[at]).count_ones();
        sum = (sum + same + 2 * crossed) % 3;
    }
    sum as u8
}

/// Adds the block of a row from an index on to that of another one.
#[inline(always)]
fn add_block(ones: &mut [u64], twos: &mut [u64], more_ones: &[u64], more_twos: &[u64], at: usize)
    requires ones_has_block { at + BLOCK ≤ length ones.old }
    requires twos_has_block { at + BLOCK ≤ length twos.old }
    requires more_ones_has_block { at + BLOCK ≤ length more_ones.now }
    requires more_twos_has_block { at + BLOCK ≤ length more_twos.now }
    ensures { HasSumBetween at (at + BLOCK) ones.old twos.old more_ones.now more_twos.now ones.new twos.new }
{
    let one = u64x4::from_slice(&ones[at..]);
    let two = u64x4::from_slice(&twos[at..]);
    let more_one = u64x4::from_slice(&more_ones[at..]);
    let more_two = u64x4::from_slice(&more_twos[at..]);
    let turned = (one | more_two) ^ (two | more_one);
    let new_ones = turned ^ (two | more_two);
    let new_twos = turned ^ (one | more_one);
    new_ones.copy_to_slice(&mut ones[at..]);
    new_twos.copy_to_slice(&mut twos[at..]);
}

/// Adds the pair of words of a row from an index on to that of another one.
#[inline(always)]
fn add_pair(ones: &mut [u64], twos: &mut [u64], more_ones: &[u64], more_twos: &[u64], at: usize)
    requires ones_has_pair { at + PAIR ≤ length ones.old }
    requires twos_has_pair { at + PAIR ≤ length twos.old }
    requires more_ones_has_pair { at + PAIR ≤ length more_ones.now }
    requires more_twos_has_pair { at + PAIR ≤ length more_twos.now }
    ensures { HasSumBetween at (at + PAIR) ones.old twos.old more_ones.now more_twos.now ones.new twos.new }
{
    let one = u64x2::from_slice(&ones[at..]);
    let two = u64x2::from_slice(&twos[at..]);
    let more_one = u64x2::from_slice(&more_ones[at..]);
    let more_two = u64x2::from_slice(&more_twos[at..]);
    let turned = (one | more_two) ^ (two | more_one);
    (turned ^ (two | more_two)).copy_to_slice(&mut ones[at..]);
    (turned ^ (one | more_one)).copy_to_slice(&mut twos[at..]);
}

/// Adds the word of a row at an index to that of another one.
#[inline(always)]
fn add_word(ones: &mut [u64], twos: &mut [u64], more_ones: &[u64], more_twos: &[u64], at: usize)
    requires ones_has_word { at < length ones.old }
    requires twos_has_word { at < length twos.old }
    requires more_ones_has_word { at < length more_ones.now }
    requires more_twos_has_word { at < length more_twos.now }
    ensures { HasSumBetween at (at + 1) ones.old twos.old more_ones.now more_twos.now ones.new twos.new }
{
    let (one, two) = (ones[at], twos[at]);
    let turned = (one | more_twos[at]) ^ (two | more_ones[at]);
    ones[at] = turned ^ (two | more_twos[at]);
    twos[at] = turned ^ (one | more_ones[at]);
}

/// Adds two pairs of words to that of a row from an index on.
#[inline(always)]
fn add_pairs(ones: &mut [u64], twos: &mut [u64], a: (u64x2, u64x2), b: (u64x2, u64x2), at: usize)
    requires row { HaveWords (at + PAIR) ones.old twos.old }
    ensures ones { ones.new ≡ put_chunk at ones.old (ones_of_sums
        (ones_of_sums (chunk at PAIR ones.old) (chunk at PAIR twos.old) a.0 a.1)
        (twos_of_sums (chunk at PAIR ones.old) (chunk at PAIR twos.old) a.0 a.1) b.0 b.1) }
    ensures twos { twos.new ≡ put_chunk at twos.old (twos_of_sums
        (ones_of_sums (chunk at PAIR ones.old) (chunk at PAIR twos.old) a.0 a.1)
        (twos_of_sums (chunk at PAIR ones.old) (chunk at PAIR twos.old) a.0 a.1) b.0 b.1) }
{
    let one = u64x2::from_slice(&ones[at..]);
    let two = u64x2::from_slice(&twos[at..]);
    let turned = (one | a.1) ^ (two | a.0);
    let (one, two) = (turned ^ (two | a.1), turned ^ (one | a.0));
    let turned = (one | b.1) ^ (two | b.0);
    (turned ^ (two | b.1)).copy_to_slice(&mut ones[at..]);
    (turned ^ (one | b.0)).copy_to_slice(&mut twos[at..]);
}

/// The multiple by M of the pair of words of a row from an index on: twice an entry is the entry with its words
/// exchanged.
#[inline(always)]
fn multiple_of_pair<const M: u8>(row: (&[u64], &[u64]), at: usize) -> (u64x2, u64x2)
    requires row { HaveWords (at + PAIR) row.0.now row.1.now }
    requires factor { M < 3 }
    ensures ones { result.0 ≡ multiple_layer M (chunk at PAIR row.entry.0.now) (chunk at PAIR row.entry.1.now) }
    ensures twos { result.1 ≡ multiple_layer M (chunk at PAIR row.entry.1.now) (chunk at PAIR row.entry.0.now) }
{
    let one = u64x2::from_slice(&row.0[at..]);
    let two = u64x2::from_slice(&row.1[at..]);
    match M {
        0 => (u64x2::splat(0), u64x2::splat(0)),
        1 => (one, two),
        _ => (two, one),
    }
}

/// The multiple by M of the words of a row at an index.
#[inline(always)]
fn multiple_of_word<const M: u8>(row: (&[u64], &[u64]), at: usize) -> (u64, u64)
    requires row { HaveWords (at + 1) row.0.now row.1.now }
    requires factor { M < 3 }
    ensures ones { result.0 ≡ slice_index (multiple_layer M row.entry.0.now row.entry.1.now) at }
    ensures twos { result.1 ≡ slice_index (multiple_layer M row.entry.1.now row.entry.0.now) at }
{
    match M {
        0 => (0, 0),
        1 => (row.0[at], row.1[at]),
        _ => (row.1[at], row.0[at]),
    }
}

/// Adds two words of entries to that of a row at an index.
#[inline(always)]
fn add_words(ones: &mut [u64], twos: &mut [u64], a: (u64, u64), b: (u64, u64), at: usize)
    requires row { HaveWords (at + 1) ones.old twos.old }
    ensures { AreMadeBetween at (at + 1) (λ k. sum_of_three (word_at ones.old twos.old k)
        (record { ones = a.0; twos = a.1 }) (record { ones = b.0; twos = b.1 })) ones.old twos.old ones.new twos.new }
{
    let (one, two) = (ones[at], twos[at]);
    let turned = (one | a.1) ^ (two | a.0);
    let (one, two) = (turned ^ (two | a.1), turned ^ (one | a.0));
    let turned = (one | b.1) ^ (two | b.0);
    ones[at] = turned ^ (two | b.1);
    twos[at] = turned ^ (one | b.0);
}

/// The sum of a pair of words and that of a row from an index on.
#[inline(always)]
fn with_pair(pair: (u64x2, u64x2), more: (&[u64], &[u64]), at: usize) -> (u64x2, u64x2)
    requires more { HaveWords (at + PAIR) more.0.now more.1.now }
    ensures ones { result.0 ≡ ones_of_sums pair.0 pair.1
        (chunk at PAIR more.entry.0.now) (chunk at PAIR more.entry.1.now) }
    ensures twos { result.1 ≡ twos_of_sums pair.0 pair.1
        (chunk at PAIR more.entry.0.now) (chunk at PAIR more.entry.1.now) }
{
    let (one, two) = pair;
    let more_one = u64x2::from_slice(&more.0[at..]);
    let more_two = u64x2::from_slice(&more.1[at..]);
    let turned = (one | more_two) ^ (two | more_one);
    (turned ^ (two | more_two), turned ^ (one | more_one))
}

/// Adds the pairs of words of four rows from an index on to that of a fifth.
#[inline(always)]
fn add4_pair(
    ones: &mut [u64],
    twos: &mut [u64],
    a: (&[u64], &[u64]),
    b: (&[u64], &[u64]),
    c: (&[u64], &[u64]),
    d: (&[u64], &[u64]),
    at: usize,
)
    requires row { HaveWords (at + PAIR) ones.old twos.old }
    requires a { HaveWords (at + PAIR) a.0.now a.1.now }
    requires b { HaveWords (at + PAIR) b.0.now b.1.now }
    requires c { HaveWords (at + PAIR) c.0.now c.1.now }
    requires d { HaveWords (at + PAIR) d.0.now d.1.now }
    ensures { AreMadeBetween at (at + PAIR) (λ k. sum_of_five (word_at ones.old twos.old k)
        (word_at a.entry.0.now a.entry.1.now k) (word_at b.entry.0.now b.entry.1.now k)
        (word_at c.entry.0.now c.entry.1.now k) (word_at d.entry.0.now d.entry.1.now k))
        ones.old twos.old ones.new twos.new }
{
    let row = (
        u64x2::from_slice(&ones[at..]),
        u64x2::from_slice(&twos[at..]),
    );
    let two = with_pair(row, a, at);
    let three = with_pair(two, b, at);
    let four = with_pair(three, c, at);
    let five = with_pair(four, d, at);
    five.0.copy_to_slice(&mut ones[at..]);
    five.1.copy_to_slice(&mut twos[at..]);
}

/// Adds the words of four rows at an index to that of a fifth.
#[inline(always)]
fn add4_word(
    ones: &mut [u64],
    twos: &mut [u64],
    a: (&[u64], &[u64]),
    b: (&[u64], &[u64]),
    c: (&[u64], &[u64]),
    d: (&[u64], &[u64]),
    at: usize,
)
    requires row { HaveWords (at + 1) ones.old twos.old }
    requires a { HaveWords (at + 1) a.0.now a.1.now }
    requires b { HaveWords (at + 1) b.0.now b.1.now }
    requires c { HaveWords (at + 1) c.0.now c.1.now }
    requires d { HaveWords (at + 1) d.0.now d.1.now }
    ensures { AreMadeBetween at (at + 1) (λ k. sum_of_five (word_at ones.old twos.old k)
        (word_at a.entry.0.now a.entry.1.now k) (word_at b.entry.0.now b.entry.1.now k)
        (word_at c.entry.0.now c.entry.1.now k) (word_at d.entry.0.now d.entry.1.now k))
        ones.old twos.old ones.new twos.new }
{
    let two = with_word((ones[at], twos[at]), a, at);
    let three = with_word(two, b, at);
    let four = with_word(three, c, at);
    let five = with_word(four, d, at);
    ones[at] = five.0;
    twos[at] = five.1;
}

/// The sum of a word and that of a row at an index.
#[inline(always)]
fn with_word(word: (u64, u64), more: (&[u64], &[u64]), at: usize) -> (u64, u64)
    requires more { HaveWords (at + 1) more.0.now more.1.now }
    ensures { record { ones = result.0; twos = result.1 }
        ≡ sum_of_words (record { ones = word.0; twos = word.1 }) (word_at more.entry.0.now more.entry.1.now at) }
{
    let (one, two) = word;
    let (more_one, more_two) = (more.0[at], more.1[at]);
    let turned = (one | more_two) ^ (two | more_one);
    (turned ^ (two | more_two), turned ^ (one | more_one))
}

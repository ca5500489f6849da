//! Blocks of 64 entries of rows over fields of characteristic 2 and 3.
ghost use Rattle.std.specs.Int.{bit_at};
ghost use Rattle.std.specs.Prelude.{ℕ, ◌≡◌, ◌≢◌, ◌+◌, ◌*◌, ◌%◌, ◌/◌, ◌<◌, ◌≤◌, ◌||◌, List, IfSome, cond, eqb, replicate, slice_index};
ghost use Rattle.axe_field.specs.Order.{IsElement, Order, order_number, prime_of};
ghost use Rattle.axe_layer.specs.Words.{digit_of_words};
ghost use Rattle.axe_plane.specs.Planes.{digits_of, prime_of_plane};
ghost use Rattle.axe_row.specs.BitBlocks.{bits_after, bits_of_word, elements_of_block, weight_of};
ghost use Rattle.axe_row.specs.BitBlocks.{IsBlock, IsBlockOf, IsBlockWithMultiple, IsNextOfBlock};
ghost use Rattle.axe_row.specs.EntryWords.{IsWeight};
ghost use Rattle.axe_row.specs.Rows.{IsRow};

use crate::Row;
use crate::found::{entry_of_bits, words_of_trits};
use axe_lane::{xor_multiple_over_eight, xor_multiple_over_four};
use axe_layer::next_in_word;
use axe_plane::Plane;

/// The 64 entries that stand in one word of the planes of a row over a field of characteristic 2 or 3, by four words of
/// bits: an entry's number is `low` plus `weight` times `high`, each of these two having two of the bits. Over fields of
/// characteristic 2 the weight is 4, and these are the coefficients of 1, x and x^2, one bit each; over those of
/// characteristic 3 it is 3, and these are the coefficients of 1 and x. A walk over a row that changes at each step keeps
/// them in registers, and changes them as the row changes.
#[derive(Drop, Clone, Copy)]
pub struct BitBlock {
    pub(crate) ones: u64,
    pub(crate) twos: u64,
    pub(crate) high_ones: u64,
    pub(crate) high_twos: u64,
}

impl Row {
    /// The block of the entries in the word at an index of the row, counted from 0: those from 64 times the index on,
    /// and 0 where there is none. Over a field of another characteristic than 2 and 3 it is of no use.
    #[inline(always)]
    pub fn bit_block(&self, at: usize) -> BitBlock
        ensures block { IsBlockOf self.now at result }
        ensures well_formed { IsRow self.now }
    {
        let constant = words_of_plane(&self.constant, at);
        let Some(higher) = &self.higher else {
            return BitBlock::of_words(constant, [0, 0]);
        };
        let linear = words_of_plane(&higher.linear, at);
        let nine = self.field.order() == 9;
        if nine {
            return BitBlock::of_words(constant, linear);
        }
        let quadratic = words_of_plane(&higher.quadratic, at);
        BitBlock::of_words([constant[0], linear[0]], [quadratic[0], 0])
    }
}

impl BitBlock {
    /// The block of zeros.
    #[inline(always)]
    pub fn zeros() -> BitBlock
        ensures { (o : Order) → IsBlock o (replicate 64 0) result }
    {
        BitBlock::of_words([0, 0], [0, 0])
    }

    /// The block that has these words.
    #[inline(always)]
    fn of_words(low: [u64; 2], high: [u64; 2]) -> BitBlock
        ensures { result ≡ record {
          ones = slice_index low 0;
          twos = slice_index low 1;
          high_ones = slice_index high 0;
          high_twos = slice_index high 1;
        } }
    {
        BitBlock {
            ones: low[0],
            twos: low[1],
            high_ones: high[0],
            high_twos: high[1],
        }
    }

    /// The place of the first entry other than 0 among those where a word has a 1, counted from 0, and that entry, over a
    /// field of Q elements; `None` where every one of these is 0. The word keeps the ones after that place alone.
    #[inline(always)]
    pub fn next_within<const Q: u8>(&self, places: &mut u64) -> Option<(usize, u8)>
        ensures found { IsNextOfBlock Q self.now places.old result }
        ensures rest { IfSome result (λ found. bits_of_word places.new ≡ bits_after places.old found.0) }
    {
        let support = self.ones | self.twos | self.high_ones | self.high_twos;
        let Some(place) = next_in_word(support & *places, 0) else {
            return None;
        };
        *places &= u64::MAX - 1 << place;
        Some((place, self.entry::<Q>(place)))
    }

    /// The entry at a place, over a field of Q elements.
    #[inline(always)]
    fn entry<const Q: u8>(&self, place: usize) -> u8
        requires { place < 64 }
        ensures { (o : Order) → order_number o ≡ Q → prime_of o ≤ 3 →
            result ≡ slice_index (elements_of_block o self.now) place }
    {
        let low = entry_of_bits(self.ones, self.twos, 0, place);
        let high = entry_of_bits(self.high_ones, self.high_twos, 0, place);
        low + weight_of_size::<Q>() * high
    }

    /// The bits of the places whose entry is an element other than 0, over a field of Q elements.
    #[inline(always)]
    pub fn places_of<const Q: u8>(&self, element: u8) -> u64
        ensures { (o : Order) → order_number o ≡ Q → prime_of o ≤ 3 → IsElement o element →
            (entries : List ℕ) → IsBlock o entries self.now → (i : ℕ) → i < 64 →
            bit_at result i ≡ cond (eqb (slice_index entries i) element) 1 0 }
    {
        let weight = weight_of_size::<Q>();
        let (low, high) = (element % weight, element / weight);
        places_of_bit(self.ones, low % 2)
            & places_of_bit(self.twos, low / 2)
            & places_of_bit(self.high_ones, high % 2)
            & places_of_bit(self.high_twos, high / 2)
    }

    /// Adds a multiple of another block over a field of Q elements, of characteristic 2 or 3: each entry d becomes
    /// d + c s, where c is the scalar, which is not 0, and s the other block's entry.
    #[inline(always)]
    pub fn add_scaled_in<const Q: u8>(&mut self, scalar: u8, other: &BitBlock)
        requires nonzero { scalar ≢ 0 }
        ensures sum { IsBlockWithMultiple Q scalar self.old other.now self.new }
    {
        if Q == 3 || Q == 9 {
            self.add_trits_in::<Q>(scalar, other);
        } else {
            self.add_bits_in::<Q>(scalar, other);
        }
    }

    /// What [`BitBlock::add_scaled_in`] does over a field of characteristic 2.
    #[inline(always)]
    fn add_bits_in<const Q: u8>(&mut self, scalar: u8, other: &BitBlock)
        requires nonzero { scalar ≢ 0 }
        requires even { (o : Order) → order_number o ≡ Q → prime_of o ≤ 3 → prime_of o ≡ 2 }
        ensures sum { IsBlockWithMultiple Q scalar self.old other.now self.new }
    {
        let (x, y, z) = (self.ones, self.twos, self.high_ones);
        let (a, b, c) = (other.ones, other.twos, other.high_ones);
        if Q == 2 {
            self.ones = x ^ a;
            return;
        }
        let (p, q, r) = (scalar % 2, scalar / 2 % 2, scalar / 4 % 2);
        let (mut constant, mut linear, mut quadratic) = ([x], [y], [z]);
        if Q == 4 {
            xor_multiple_over_four(&mut constant, &mut linear, p, q, &[a], &[b]);
            self.ones = constant[0];
            self.twos = linear[0];
            return;
        }
        xor_multiple_over_eight(
            &mut constant,
            &mut linear,
            &mut quadratic,
            p,
            q,
            r,
            &[a],
            &[b],
            &[c],
        );
        self.ones = constant[0];
        self.twos = linear[0];
        self.high_ones = quadratic[0];
    }

    /// What [`BitBlock::add_scaled_in`] does over a field of characteristic 3.
    #[inline(always)]
    fn add_trits_in<const Q: u8>(&mut self, scalar: u8, other: &BitBlock)
        requires nonzero { scalar ≢ 0 }
        requires odd { (o : Order) → order_number o ≡ Q → prime_of o ≤ 3 → prime_of o ≡ 3 }
        ensures sum { IsBlockWithMultiple Q scalar self.old other.now self.new }
    {
        let (low, high) = ([self.ones, self.twos], [self.high_ones, self.high_twos]);
        let constant = [other.ones, other.twos];
        if Q == 3 {
            let multiple = if scalar == 2 {
                negative_trits(constant)
            } else {
                constant
            };
            *self = BitBlock::of_words(sum_of_trits(low, multiple), high);
            return;
        }
        let linear = [other.high_ones, other.high_twos];
        let (constant, linear) = multiple_over_nine(scalar, constant, linear);
        *self = BitBlock::of_words(sum_of_trits(low, constant), sum_of_trits(high, linear));
    }
}

/// What the higher one of the two numbers of an entry counts, over a field of Q elements.
#[inline(always)]
fn weight_of_size<const Q: u8>() -> u8
    ensures weight { (o : Order) → order_number o ≡ Q → prime_of o ≤ 3 → result ≡ weight_of o }
    ensures either { IsWeight result }
{
    if Q == 3 || Q == 9 {
        return 3;
    }
    4
}

/// The bits of the places at which a word has a bit.
#[inline(always)]
fn places_of_bit(word: u64, bit: u8) -> u64
    ensures { bit < 2 → (i : ℕ) → i < 64 → bit_at result i ≡ cond (eqb (bit_at word i) bit) 1 0 }
{
    if bit == 1 { word } else { !word }
}

/// The words of the coefficients of 1 and x modulo 3 of a multiple over nine elements, by those of what is multiplied.
/// The scalar is not 0.
#[inline(always)]
fn multiple_over_nine(scalar: u8, constant: [u64; 2], linear: [u64; 2]) -> ([u64; 2], [u64; 2])
    requires nonzero { scalar ≢ 0 }
    ensures constant { (i : ℕ) → i < 64 → scalar < 9 → digit_of_words constant i < 3 → digit_of_words linear i < 3 →
        digit_of_words result.0 i
        ≡ (scalar % 3 * digit_of_words constant i + scalar / 3 * digit_of_words linear i) % 3 }
    ensures linear { (i : ℕ) → i < 64 → scalar < 9 → digit_of_words constant i < 3 → digit_of_words linear i < 3 →
        digit_of_words result.1 i
        ≡ (scalar / 3 * digit_of_words constant i + (scalar % 3 + scalar / 3) * digit_of_words linear i) % 3 }
{
    // Each scalar is one of 1, x, 1 + x, 1 + 2 x or a negative of these; x^2 is x + 1.
    let (a, b) = with_sign(is_negative(scalar), constant, linear);
    match scalar {
        1 | 2 => (a, b),
        3 | 6 => (b, sum_of_trits(a, b)),
        4 | 8 => (sum_of_trits(a, b), sum_of_trits(a, negative_trits(b))),
        _ => (sum_of_trits(a, negative_trits(b)), negative_trits(a)),
    }
}

/// Whether a scalar over nine elements is the negative of 1, x, 1 + x or 1 + 2 x.
#[inline(always)]
fn is_negative(scalar: u8) -> bool
    ensures { result ≡ (eqb scalar 2 || (eqb scalar 5 || (eqb scalar 6 || eqb scalar 8))) }
{
    scalar == 2 || scalar == 5 || scalar == 6 || scalar == 8
}

/// Two pairs of words, or the words of the negatives modulo 3 of their digits.
#[inline(always)]
fn with_sign(negative: bool, constant: [u64; 2], linear: [u64; 2]) -> ([u64; 2], [u64; 2])
    ensures constant { (i : ℕ) → i < 64 → digit_of_words constant i < 3 →
        digit_of_words result.0 i ≡ cond negative 2 1 * digit_of_words constant i % 3 }
    ensures linear { (i : ℕ) → i < 64 → digit_of_words linear i < 3 →
        digit_of_words result.1 i ≡ cond negative 2 1 * digit_of_words linear i % 3 }
{
    if negative {
        (negative_trits(constant), negative_trits(linear))
    } else {
        (constant, linear)
    }
}

/// The words of the sums modulo 3 of the digits of two pairs of words: of the ones, and of the twos.
#[inline(always)]
fn sum_of_trits(first: [u64; 2], second: [u64; 2]) -> [u64; 2]
    ensures { (i : ℕ) → i < 64 → digit_of_words first i < 3 → digit_of_words second i < 3 →
        digit_of_words result i ≡ (digit_of_words first i + digit_of_words second i) % 3 }
{
    let unequal = (first[0] | second[1]) ^ (first[1] | second[0]);
    [
        (first[1] | second[1]) ^ unequal,
        (first[0] | second[0]) ^ unequal,
    ]
}

/// The words of the negatives modulo 3 of the digits of a pair of words.
#[inline(always)]
fn negative_trits(words: [u64; 2]) -> [u64; 2]
    ensures { (i : ℕ) → i < 64 → digit_of_words words i < 3 → digit_of_words result i ≡ 2 * digit_of_words words i % 3 }
{
    [words[1], words[0]]
}

/// The words of the digits at an index of a plane modulo 2 or 3: of the ones, and of the twos; and 0 of any other.
#[inline(always)]
fn words_of_plane(plane: &Plane, at: usize) -> [u64; 2]
    ensures { prime_of_plane plane.now ≤ 3 → (i : ℕ) → i < 64 →
        digit_of_words result i ≡ slice_index (digits_of plane.now) (at * 64 + i) }
{
    match plane {
        Plane::Bits(plane) => [plane.word(at), 0],
        Plane::Trits(plane) => words_of_trits(plane, at),
        _ => [0, 0],
    }
}

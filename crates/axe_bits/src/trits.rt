//! Planes of digits modulo 3, in two layers of bits.
ghost use Rattle.std.specs.Prelude.{ℕ, ◌≡◌, ◌+◌, ◌*◌, ◌/◌, ◌%◌, ◌^◌, ◌<◌, ◌≤◌, ◌↔◌, IsTrue, IfOk, length, map};
ghost use Rattle.std.specs.Prelude.{replicate, slice_index, slice_set, All, MatchOption};
ghost use Rattle.axe_algebra.specs.Lists.{listed};
ghost use Rattle.axe_lane.specs.Bytes.{multiple_modulo, sum_of_products, AreDigits};
ghost use Rattle.axe_lane.specs.Entries.{IsFirstNonzero, AreZerosBefore, AreZerosFrom, IsNextNonzero};
ghost use Rattle.axe_layer.specs.Bits.{bits};
ghost use Rattle.axe_lane.specs.Trits.{AreTrits, AreTritsOf, HasMultiplesOfTwo, IsTritSum, IsTritSumOfFive};
ghost use Rattle.axe_bits.specs.Trits.{trits, first_half, second_half, AreZeroLayersBefore, HoldLayers};
ghost use Rattle.axe_lane.specs.Multiples.{to_constant_of_two, to_linear_of_two};
ghost use Rattle.axe_bits.specs.Combinations.{digits_with_two};
ghost use Rattle.axe_layer.specs.Digits.{digits_with_four, digits_with_multiple};
ghost use Rattle.axe_layer.specs.Digits.{AreSmallSums, numbers_with_multiple, numbers_from, number_bound};
ghost use Rattle.axe_layer.specs.Lanes.{in_lanes};
ghost use Rattle.axe_layer.specs.Runs.{AreFollowed};

use axe_lane::{WORD, add_multiple_over_nine, add_trits, add4_trits, any_nonzero, dot_trits};
use axe_layer::{
    add_digits, bit_in, copy_digits, fill_with_bits, fill_with_part, fill_with_selected,
    next_in_word, numbers_by_digits, packed_numbers, set_bit,
};
use std::alloc::{AllocError, Global};
use std::marker::Model;

mod words;

/// A list of digits modulo 3, in two layers of as many bits: digit e is 1 where the layer of ones has a bit at e, 2
/// where the layer of twos has one, and else 0. No place has a bit in both. The words of the ones come first, and after
/// them as many of the twos; the bits from the length on are 0.
#[derive(Drop)]
pub struct TritPlane {
    len: usize,
    words: Vec<u64>,
}

impl Model for TritPlane {
    ghost use Rattle.std.specs.Prelude.{ℕ, List};
    ghost use Rattle.axe_layer.specs.Bits.{bits};
    ghost use Rattle.axe_bits.specs.Trits.{trits, first_half, second_half, HoldLayers};

    ghost Value = { List ℕ };

    ghost view = { λ a. trits (bits a.len (first_half a.words.items)) (bits a.len (second_half a.words.items)) };

    ghost invariant = { λ a. HoldLayers a.len (first_half a.words.items) (second_half a.words.items) };
}

impl TritPlane {
    /// The plane of `len` zeros.
    pub fn zero(alloc: Global, len: usize) -> Result<TritPlane, AllocError>
        ensures { IfOk result (λ plane. plane ≡ replicate len 0) }
    {
        let words = vec![in alloc; 0; 2 * len.div_ceil(WORD)]?;
        Ok(TritPlane { len, words })
    }

    /// The plane of these digits.
    pub fn of_digits(alloc: Global, digits: &[u8]) -> Result<TritPlane, AllocError>
        requires { AreDigits 3 digits.now }
        ensures { IfOk result (λ plane. plane ≡ digits.now) }
    {
        let len = digits.len();
        let width = len.div_ceil(WORD);
        let mut words = vec![in alloc; 0; 2 * width]?;
        let (ones, twos) = words.split_at_mut(width);
        fill_with_bits(ones, digits, 0);
        fill_with_bits(twos, digits, 1);
        Ok(TritPlane { len, words })
    }

    /// How many digits the plane has.
    pub fn len(&self) -> usize
        ensures count { result ≡ length self.now }
        ensures digits { AreDigits 3 self.now }
    {
        self.len
    }

    /// The digit at an index, counted from 0, and 0 from the length on.
    #[inline]
    pub fn get(&self, index: usize) -> u8
        ensures { result ≡ slice_index self.now index }
    {
        if index >= self.len {
            return 0;
        }
        let (ones, twos) = self.layers();
        bit_in(ones, index) + 2 * bit_in(twos, index)
    }

    /// Four numbers in a base up to 9, the digits of each being up to eight of the plane's, most significant first:
    /// those of the pieces of `size` digits one after another from an index on, as far as the plane goes.
    #[inline]
    pub fn numbers_from(&self, base: usize, size: usize, at: usize) -> [usize; 4]
        requires base { base ≤ 9 }
        requires short { size ≤ 8 }
        requires counted { at + 4 * size < 2 ^ 64 }
        ensures value { result ≡ numbers_from base size at self.now }
        ensures small { (i : ℕ) → slice_index result i < number_bound }
    {
        let (ones, twos) = self.layers();
        let ones = numbers_by_digits(ones, self.len, base, size, at);
        let twos = numbers_by_digits(twos, self.len, base, size, at);
        [
            ones[0] + 2 * twos[0],
            ones[1] + 2 * twos[1],
            ones[2] + 2 * twos[2],
            ones[3] + 2 * twos[3],
        ]
    }

    /// Four numbers in a base up to 9, each in a lane of 16 bits of a word, the digits of each being one or two of the
    /// plane's, most significant first: those of the pieces of `size` digits one after another from an index on.
    #[inline(always)]
    pub fn packed_numbers(&self, base: u64, size: usize, at: usize) -> u64
        requires base { base ≤ 9 }
        requires some { 1 ≤ size }
        requires few { size ≤ 2 }
        requires within { at + 4 * size ≤ length self.now }
        ensures value { result ≡ in_lanes (numbers_from base size at self.now) }
        ensures small { result < 2 ^ 54 }
    {
        let (ones, twos) = self.layers();
        packed_numbers(ones, base, size, at) + 2 * packed_numbers(twos, base, size, at)
    }

    /// Makes a digit the one at an index; all others stay. From the length on there is none to be changed.
    pub fn set(&mut self, index: usize, digit: u8)
        requires { digit < 3 }
        ensures { self.new ≡ slice_set self.old index digit }
    {
        if index < self.len {
            let width = self.words.len() / 2;
            let (ones, twos) = self.words.split_at_mut(width);
            set_bit(ones, index, digit % 2);
            set_bit(twos, index, digit / 2);
        }
    }

    /// The same plane a second time.
    pub fn copy(&self, alloc: Global) -> Result<TritPlane, AllocError>
        ensures { IfOk result (λ plane. plane ≡ self.now) }
    {
        let words = Vec::from_slice(alloc, &self.words)?;
        Ok(TritPlane {
            len: self.len,
            words,
        })
    }

    /// The plane of the digits at these indices, in their order. Where bit e of `followed` is 1, index e is followed by
    /// the next number, so that digits at consecutive indices are taken at once; a bit that is 0 or missing tells
    /// nothing.
    pub fn select(
        &self,
        alloc: Global,
        indices: &[usize],
        followed: &[u64],
    ) -> Result<TritPlane, AllocError>
        requires within { All (λ index. index < length self.now) indices.now }
        requires followed { AreFollowed indices.now followed.now }
        ensures { IfOk result (λ plane. plane ≡ map (slice_index self.now) indices.now) }
    {
        let len = indices.len();
        let width = len.div_ceil(WORD);
        let mut words = vec![in alloc; 0; 2 * width]?;
        let (own_ones, own_twos) = self.layers();
        let (ones, twos) = words.split_at_mut(width);
        fill_with_selected(ones, own_ones, indices, followed);
        fill_with_selected(twos, own_twos, indices, followed);
        Ok(TritPlane { len, words })
    }

    /// The plane of the `len` digits from an index on.
    pub fn part(&self, alloc: Global, start: usize, len: usize) -> Result<TritPlane, AllocError>
        requires { start + len ≤ length self.now }
        ensures { IfOk result (λ plane. plane ≡ listed len (λ j. slice_index self.now (start + j))) }
    {
        let width = len.div_ceil(WORD);
        let mut words = vec![in alloc; 0; 2 * width]?;
        let (own_ones, own_twos) = self.layers();
        let (ones, twos) = words.split_at_mut(width);
        fill_with_part(ones, own_ones, start, len);
        fill_with_part(twos, own_twos, start, len);
        Ok(TritPlane { len, words })
    }

    /// Writes the digits into a list of the plane's length.
    pub fn copy_to(&self, numbers: &mut [u8])
        requires { length numbers.old ≡ length self.now }
        ensures { numbers.new ≡ self.now }
    {
        let (ones, twos) = self.layers();
        copy_digits(ones, numbers);
        add_digits(twos, self.len, 2, numbers);
    }

    /// Adds a multiple of each digit to the number at its index.
    pub fn add_to(&self, factor: u8, numbers: &mut [u8])
        requires fits { length self.now ≤ length numbers.old }
        requires small { AreSmallSums numbers.old factor self.now }
        ensures { numbers.new ≡ numbers_with_multiple numbers.old factor self.now }
    {
        let (ones, twos) = self.layers();
        add_digits(ones, self.len, factor, numbers);
        add_digits(twos, self.len, factor, numbers);
        add_digits(twos, self.len, factor, numbers);
    }

    /// Adds a multiple of another plane of the same length: each digit d becomes d + m s modulo 3, where s is the
    /// other plane's digit.
    #[inline]
    pub fn add_scaled(&mut self, factor: u8, other: &TritPlane)
        requires factor { factor < 3 }
        requires fits { length other.now ≡ length self.old }
        ensures { self.new ≡ digits_with_multiple 3 self.old factor other.now }
    {
        self.add_scaled_from(0, factor, other);
    }

    /// Adds a multiple of another plane of the same length, whose digits before an index are 0, as
    /// [`TritPlane::add_scaled`] does. The words before those of the index are not looked at.
    #[inline]
    pub fn add_scaled_from(&mut self, start: usize, factor: u8, other: &TritPlane)
        requires within { start ≤ length self.old }
        requires factor { factor < 3 }
        requires fits { length other.now ≡ length self.old }
        requires zeros { AreZerosBefore other.now start }
        ensures { self.new ≡ digits_with_multiple 3 self.old factor other.now }
    {
        // `len` is called for what it ensures beside the number: that the digits are below 3.
        prove!(start <= self.len());
        if factor != 0 {
            let (ones, twos) = other.multiple_layers(factor);
            self.add_layers(start, 1, ones, twos);
        }
    }

    /// Adds to a row over the field of order 9 the multiple by p + q x of another of its length, where x^2 is x + 1: to
    /// the planes of its coefficients of 1 and of x, by those of the other row, `a` and `b`. Digits of `a` and `b`
    /// before an index are 0, and the words before that of the index are not looked at.
    ///
    /// It is one function for all callers: its loops are too large for a copy of them in each, and here a call takes few
    /// arguments.
    #[inline(never)]
    pub fn add_multiple_of_two(
        first: &mut TritPlane,
        second: &mut TritPlane,
        start: usize,
        p: u8,
        q: u8,
        a: &TritPlane,
        b: &TritPlane,
    )
        requires within { start ≤ length first.old }
        requires p { p < 3 }
        requires q { q < 3 }
        requires second_fits { length second.old ≡ length first.old }
        requires a_fits { length a.now ≡ length first.old }
        requires b_fits { length b.now ≡ length first.old }
        requires a_zeros { AreZerosBefore a.now start }
        requires b_zeros { AreZerosBefore b.now start }
        ensures first { first.new ≡ digits_with_two 3 first.old (to_constant_of_two p q) a.now b.now }
        ensures second { second.new ≡ digits_with_two 3 second.old (to_linear_of_two 3 p q) a.now b.now }
    {
        let from = start / WORD;
        let (a, b) = (a.layers(), b.layers());
        add_to_two_halves(&mut first.words, &mut second.words, from, p, q, a, b);
    }

    /// Adds a multiple of the digits that two layers of as many bits hold, which are 0 before an index. Twice a digit
    /// is the digit with its layers exchanged.
    #[inline]
    pub(crate) fn add_layers(&mut self, start: usize, factor: u8, ones: &[u64], twos: &[u64])
        requires within { start ≤ length self.old }
        requires factor { factor < 3 }
        requires layers { HoldLayers (length self.old) ones.now twos.now }
        requires zeros { AreZerosBefore
            (trits (bits (length self.old) ones.now) (bits (length self.old) twos.now)) start }
        ensures { self.new ≡ digits_with_multiple 3 self.old factor
            (trits (bits (length self.old) ones.now) (bits (length self.old) twos.now)) }
    {
        let first = start / WORD;
        match factor {
            0 => {}
            1 => add_to_halves(&mut self.words, first, ones, twos),
            _ => add_to_halves(&mut self.words, first, twos, ones),
        }
    }

    /// Adds the digits that the layers of each of four planes of the same length hold, in one pass.
    #[inline]
    pub fn add_four(
        &mut self,
        a: (&[u64], &[u64]),
        b: (&[u64], &[u64]),
        c: (&[u64], &[u64]),
        d: (&[u64], &[u64]),
    )
        requires a { HoldLayers (length self.old) a.0.now a.1.now }
        requires b { HoldLayers (length self.old) b.0.now b.1.now }
        requires c { HoldLayers (length self.old) c.0.now c.1.now }
        requires d { HoldLayers (length self.old) d.0.now d.1.now }
        ensures { self.new ≡ digits_with_four 3 self.old
            (trits (bits (length self.old) a.entry.0.now) (bits (length self.old) a.entry.1.now))
            (trits (bits (length self.old) b.entry.0.now) (bits (length self.old) b.entry.1.now))
            (trits (bits (length self.old) c.entry.0.now) (bits (length self.old) c.entry.1.now))
            (trits (bits (length self.old) d.entry.0.now) (bits (length self.old) d.entry.1.now)) }
    {
        add_four_to_halves(&mut self.words, a, b, c, d);
    }

    /// The words of the two layers, those of the ones first.
    #[inline]
    pub fn layers(&self) -> (&[u64], &[u64])
        ensures holds { HoldLayers (length self.now) result.0.now result.1.now }
        ensures digits { trits (bits (length self.now) result.0.now) (bits (length self.now) result.1.now) ≡ self.now }
    {
        self.words.split_at(self.words.len() / 2)
    }

    /// The layers of the multiple of the plane by 1 or 2, as [`TritPlane::layers`] gives those of the plane: twice a digit is
    /// the digit with its layers exchanged. They are found without a branch on the factor, which nothing could foresee.
    #[inline(always)]
    pub fn multiple_layers(&self, factor: u8) -> (&[u64], &[u64])
        requires some { 0 < factor }
        requires factor { factor < 3 }
        ensures holds { HoldLayers (length self.now) result.0.now result.1.now }
        ensures digits { trits (bits (length self.now) result.0.now) (bits (length self.now) result.1.now)
            ≡ multiple_modulo 3 factor self.now }
    {
        let first = usize::from(factor - 1);
        (half_of(&self.words, first), half_of(&self.words, 1 - first))
    }

    /// Multiplies each digit by a factor modulo 3.
    pub fn scale(&mut self, factor: u8)
        requires { factor < 3 }
        ensures { self.new ≡ multiple_modulo 3 factor self.old }
    {
        match factor {
            0 => self.words.fill(0),
            1 => {}
            _ => {
                let width = self.words.len() / 2;
                let (ones, twos) = self.words.split_at_mut(width);
                ones.swap_with_slice(twos);
            }
        }
    }

    /// The sum modulo 3 of the products of digits at one index, for another plane of the same length.
    pub fn dot(&self, other: &TritPlane) -> u8
        requires { length other.now ≡ length self.now }
        ensures { result ≡ sum_of_products self.now other.now % 3 }
    {
        let (ones, twos) = self.layers();
        let (other_ones, other_twos) = other.layers();
        dot_trits(ones, twos, other_ones, other_twos)
    }

    /// The index of the first digit other than 0, or `None` where every digit is 0.
    pub fn first_nonzero(&self) -> Option<usize>
        ensures { MatchOption result (All (λ digit. digit ≡ 0) self.now) (IsFirstNonzero self.now) }
    {
        self.next_nonzero(0)
    }

    /// The index of the first digit other than 0 from an index on, or `None` where every digit from there on is 0. It
    /// stands apart so that the search in any plane is short where it is asked most, modulo 2.
    #[inline(never)]
    pub fn next_nonzero(&self, start: usize) -> Option<usize>
        ensures { MatchOption result (AreZerosFrom self.now start) (IsNextNonzero self.now start) }
    {
        for at in start / WORD..self.len.div_ceil(WORD) {
            let word = self.support_word(at);
            if let Some(index) = next_in_word(word, start.max(at * WORD)) {
                return Some(index);
            }
        }
        None
    }

    /// Whether every digit is 0.
    pub fn is_zero(&self) -> bool
        ensures { IsTrue result ↔ All (λ digit. digit ≡ 0) self.now }
    {
        !any_nonzero(&self.words)
    }

    /// Whether two planes are equal.
    pub fn same(&self, other: &TritPlane) -> bool
        ensures { IsTrue result ↔ (self.now ≡ other.now) }
    {
        self.len == other.len && self.words == other.words
    }
}

/// Adds the digits modulo 3 that two layers hold, which are 0 in the words before the first that is given, to those of
/// the two halves of a list of words: each digit becomes the sum modulo 3.
#[inline]
fn add_to_halves(words: &mut [u64], first: usize, ones: &[u64], twos: &[u64])
    requires fits { 2 * length ones.now ≡ length words.old }
    requires within { first ≤ length ones.now }
    requires row { AreTrits (first_half words.old) (second_half words.old) }
    requires more { AreTrits ones.now twos.now }
    requires zero_ones { AreZerosBefore ones.now first }
    requires zero_twos { AreZerosBefore twos.now first }
    ensures long { length words.new ≡ length words.old }
    ensures sum { IsTritSum (first_half words.old) (second_half words.old) ones.now twos.now
        (first_half words.new) (second_half words.new) }
{
    let width = words.len() / 2;
    let (own_ones, own_twos) = words.split_at_mut(width);
    add_trits(
        &mut own_ones[first..],
        &mut own_twos[first..],
        &ones[first..],
        &twos[first..],
    );
}

/// One of the two halves of a list of words, 0 being the first and 1 the second. No branch depends on which one it is.
#[inline(always)]
fn half_of(words: &[u64], which: usize) -> &[u64]
    requires halves { 2 * (length words.now / 2) ≡ length words.now }
    requires which { which < 2 }
    ensures first { which ≡ 0 → result.now ≡ first_half words.now }
    ensures second { which ≡ 1 → result.now ≡ second_half words.now }
{
    let width = words.len() / 2;
    let start = which * width;
    &words[start..start + width]
}

/// Adds four rows over the field of order 3 to the one of which the two halves of a list of words are the ones and the
/// twos.
#[inline]
fn add_four_to_halves(
    words: &mut [u64],
    a: (&[u64], &[u64]),
    b: (&[u64], &[u64]),
    c: (&[u64], &[u64]),
    d: (&[u64], &[u64]),
)
    requires row { AreTrits (first_half words.old) (second_half words.old) }
    requires a { AreTritsOf (length words.old / 2) a.0.now a.1.now }
    requires b { AreTritsOf (length words.old / 2) b.0.now b.1.now }
    requires c { AreTritsOf (length words.old / 2) c.0.now c.1.now }
    requires d { AreTritsOf (length words.old / 2) d.0.now d.1.now }
    ensures long { length words.new ≡ length words.old }
    ensures sum { IsTritSumOfFive (first_half words.old) (second_half words.old) a.entry.0.now a.entry.1.now
        b.entry.0.now b.entry.1.now c.entry.0.now c.entry.1.now d.entry.0.now d.entry.1.now
        (first_half words.new) (second_half words.new) }
{
    let width = words.len() / 2;
    let (own_ones, own_twos) = words.split_at_mut(width);
    add4_trits(own_ones, own_twos, a, b, c, d);
}

/// Adds the multiple by p + q x of a row over the field of order 9, whose coefficients are 0 in the words before the
/// first that is given, to one of which the halves of two lists of words are the coefficients.
#[inline(always)]
fn add_to_two_halves(
    constant: &mut [u64],
    linear: &mut [u64],
    first: usize,
    p: u8,
    q: u8,
    a: (&[u64], &[u64]),
    b: (&[u64], &[u64]),
)
    requires p { p < 3 }
    requires q { q < 3 }
    requires within { first ≤ length constant.old / 2 }
    requires fits { length linear.old ≡ length constant.old }
    requires constant { AreTrits (first_half constant.old) (second_half constant.old) }
    requires linear { AreTrits (first_half linear.old) (second_half linear.old) }
    requires a { AreTritsOf (length constant.old / 2) a.0.now a.1.now }
    requires b { AreTritsOf (length constant.old / 2) b.0.now b.1.now }
    requires a_zeros { AreZeroLayersBefore a.0.now a.1.now first }
    requires b_zeros { AreZeroLayersBefore b.0.now b.1.now first }
    ensures constant_long { length constant.new ≡ length constant.old }
    ensures linear_long { length linear.new ≡ length linear.old }
    ensures constant { HasMultiplesOfTwo p q (first_half constant.old) (second_half constant.old) a.entry.0.now
        a.entry.1.now b.entry.0.now b.entry.1.now (first_half constant.new) (second_half constant.new) }
    ensures linear { HasMultiplesOfTwo q ((p + q) % 3) (first_half linear.old) (second_half linear.old) a.entry.0.now
        a.entry.1.now b.entry.0.now b.entry.1.now (first_half linear.new) (second_half linear.new) }
{
    let width = constant.len() / 2;
    let (ones, twos) = constant.split_at_mut(width);
    let (linear_ones, linear_twos) = linear.split_at_mut(width);
    add_multiple_over_nine(
        &mut ones[first..],
        &mut twos[first..],
        &mut linear_ones[first..],
        &mut linear_twos[first..],
        p,
        q,
        (&a.0[first..], &a.1[first..]),
        (&b.0[first..], &b.1[first..]),
    );
}

//! Planes of digits modulo 2.
ghost use Rattle.std.specs.Prelude.{ℕ, ◌≡◌, ◌+◌, ◌*◌, ◌/◌, ◌^◌, ◌%◌, ◌<◌, ◌≤◌, ◌↔◌, IsTrue, IfOk, length, map};
ghost use Rattle.std.specs.Prelude.{[], replicate, slice_index, slice_index_or, slice_set, All, MatchOption};
ghost use Rattle.axe_algebra.specs.Lists.{listed};
ghost use Rattle.axe_lane.specs.Bytes.{multiple_modulo, sum_of_products, AreDigits};
ghost use Rattle.axe_lane.specs.Entries.{IsFirstNonzero, AreZerosBefore, AreZerosFrom, IsNextNonzero};
ghost use Rattle.axe_layer.specs.Bits.{bits, HoldsBits};
ghost use Rattle.axe_layer.specs.Digits.{digits_at, digits_with_four, digits_with_multiple};
ghost use Rattle.axe_layer.specs.Digits.{AreSmallSums, numbers_with_multiple};
ghost use Rattle.axe_layer.specs.Digits.{number_from, numbers_from, number_bound};
ghost use Rattle.axe_layer.specs.Lanes.{in_lanes};
ghost use Rattle.axe_lane.specs.Multiples.{to_constant_of_two, to_linear_of_two};
ghost use Rattle.axe_lane.specs.Multiples.{to_constant_of_three, to_linear_of_three, to_quadratic_of_three};
ghost use Rattle.axe_bits.specs.Combinations.{digits_with_two, digits_with_multiples, HasEntryOf};
ghost use Rattle.axe_layer.specs.Packed.{packed_bit};
ghost use Rattle.axe_layer.specs.Runs.{AreFollowed};

use crate::BitTable;
use axe_lane::{
    WORD, any_nonzero, first_set, parity_and, xor_into, xor_multiple_over_eight,
    xor_multiple_over_four, xor4_into,
};
use axe_layer::{
    WORD_BYTES, add_digits, bit_in, copy_digits, fill_with_bits, fill_with_part,
    fill_with_selected, lowest, next_in, number_in, numbers_in, packed_numbers, packed_word,
    piece_number, set_bit, word_from, word_of_packed,
};
use std::alloc::{AllocError, Global};
use std::marker::Model;

mod words;

/// A list of digits modulo 2, one in each bit: digit e is bit e mod 64 of word e / 64. The bits from its length on are
/// 0.
#[derive(Drop)]
pub struct BitPlane {
    len: usize,
    words: Vec<u64>,
}

impl Model for BitPlane {
    ghost use Rattle.std.specs.Prelude.{ℕ, List};
    ghost use Rattle.axe_layer.specs.Bits.{bits, HoldsBits};

    ghost Value = { List ℕ };

    ghost view = { λ a. bits a.len a.words.items };

    ghost invariant = { λ a. HoldsBits a.len a.words.items };
}

impl BitPlane {
    /// The plane of `len` zeros.
    pub fn zero(alloc: Global, len: usize) -> Result<BitPlane, AllocError>
        ensures { IfOk result (λ plane. plane ≡ replicate len 0) }
    {
        let words = vec![in alloc; 0; len.div_ceil(WORD)]?;
        Ok(BitPlane { len, words })
    }

    /// The plane of the bits that numbers have at a place, counted from the lowest.
    pub fn of_numbers(alloc: Global, numbers: &[u8], place: u8) -> Result<BitPlane, AllocError>
        requires { place < 8 }
        ensures { IfOk result (λ plane. plane ≡ digits_at 2 place numbers.now) }
    {
        let len = numbers.len();
        let mut words = vec![in alloc; 0; len.div_ceil(WORD)]?;
        fill_with_bits(&mut words, numbers, place);
        Ok(BitPlane { len, words })
    }

    /// The plane of the first `len` digits that bytes hold, eight to a byte, the first of a byte being its most
    /// significant bit.
    pub fn of_packed(alloc: Global, bytes: &[u8], len: usize) -> Result<BitPlane, AllocError>
        requires { len ≤ 8 * length bytes.now }
        ensures { IfOk result (λ plane. plane ≡ listed len (packed_bit bytes.now)) }
    {
        let mut words = vec![in alloc; 0; len.div_ceil(WORD)]?;
        for at in 0..words.len() {
            let word = word_of_packed(&bytes[at * WORD_BYTES..]);
            words[at] = lowest(word, len - at * WORD);
        }
        Ok(BitPlane { len, words })
    }

    /// How many digits the plane has.
    pub fn len(&self) -> usize
        ensures count { result ≡ length self.now }
        ensures digits { AreDigits 2 self.now }
    {
        self.len
    }

    /// The digit at an index, counted from 0, and 0 from the length on.
    #[inline]
    pub fn get(&self, index: usize) -> u8
        ensures { result ≡ slice_index self.now index }
    {
        if index < self.len {
            bit_in(&self.words, index)
        } else {
            0
        }
    }

    /// The number whose digits in a base up to 9, most significant first, are up to eight of the plane's digits from an
    /// index on: `size` of them or those that there are.
    #[inline]
    pub fn number_from(&self, base: usize, size: usize, at: usize) -> usize
        requires base { base ≤ 9 }
        requires short { size ≤ 8 }
        requires counted { at + size < 2 ^ 64 }
        ensures value { result ≡ number_from base size at self.now }
        ensures small { result < number_bound }
    {
        number_in(&self.words, self.len, base, size, at)
    }

    /// Four numbers in a base up to 9, the digits of each being up to eight of the plane's, most significant first:
    /// those of the pieces of `size` digits one after another from an index on, as far as the plane goes.
    #[inline]
    pub fn numbers_from(&self, base: usize, size: usize, at: usize) -> [usize; 4]
        requires base { base ≤ 9 }
        requires short { size ≤ 8 }
        requires counted { at + 4 * size < 2 ^ 64 }
        ensures value { result ≡ numbers_from base size at self.now }
        ensures small { (i : ℕ) → slice_index result i < number_bound }
    {
        numbers_in(&self.words, self.len, base, size, at)
    }

    /// Four numbers in a base up to 9, each in a lane of 16 bits of a word, the digits of each being one or two of the
    /// plane's, most significant first: those of the pieces of `size` digits one after another from an index on.
    #[inline(always)]
    pub fn packed_numbers(&self, base: u64, size: usize, at: usize) -> u64
        requires base { base ≤ 9 }
        requires some { 1 ≤ size }
        requires few { size ≤ 2 }
        requires within { at + 4 * size ≤ length self.now }
        ensures value { result ≡ in_lanes (numbers_from base size at self.now) }
        ensures small { result < 2 ^ 52 }
    {
        packed_numbers(&self.words, base, size, at)
    }

    /// Makes a digit the one at an index; all others stay. From the length on there is none to be changed.
    pub fn set(&mut self, index: usize, digit: u8)
        requires { digit < 2 }
        ensures { self.new ≡ slice_set self.old index digit }
    {
        if index < self.len {
            set_bit(&mut self.words, index, digit);
        }
    }

    /// The same plane a second time.
    pub fn copy(&self, alloc: Global) -> Result<BitPlane, AllocError>
        ensures { IfOk result (λ plane. plane ≡ self.now) }
    {
        let words = Vec::from_slice(alloc, &self.words)?;
        Ok(BitPlane {
            len: self.len,
            words,
        })
    }

    /// The plane of the digits at these indices, in their order. Where bit e of `followed` is 1, index e is followed by
    /// the next number, so that digits at consecutive indices are taken at once; a bit that is 0 or missing tells
    /// nothing.
    pub fn select(
        &self,
        alloc: Global,
        indices: &[usize],
        followed: &[u64],
    ) -> Result<BitPlane, AllocError>
        requires within { All (λ index. index < length self.now) indices.now }
        requires followed { AreFollowed indices.now followed.now }
        ensures { IfOk result (λ plane. plane ≡ map (slice_index self.now) indices.now) }
    {
        let len = indices.len();
        let mut words = vec![in alloc; 0; len.div_ceil(WORD)]?;
        fill_with_selected(&mut words, &self.words, indices, followed);
        Ok(BitPlane { len, words })
    }

    /// The plane of the `len` digits from an index on.
    pub fn part(&self, alloc: Global, start: usize, len: usize) -> Result<BitPlane, AllocError>
        requires { start + len ≤ length self.now }
        ensures { IfOk result (λ plane. plane ≡ listed len (λ j. slice_index self.now (start + j))) }
    {
        let mut words = vec![in alloc; 0; len.div_ceil(WORD)]?;
        fill_with_part(&mut words, &self.words, start, len);
        Ok(BitPlane { len, words })
    }

    /// Writes the digits into a list of the plane's length.
    pub fn copy_to(&self, numbers: &mut [u8])
        requires { length numbers.old ≡ length self.now }
        ensures { numbers.new ≡ self.now }
    {
        copy_digits(&self.words, numbers);
    }

    /// Writes the digits into the bytes that they take, eight to a byte, the first of a byte being its most significant
    /// bit. The bits after the last digit become 0.
    pub fn copy_packed(&self, bytes: &mut [u8])
        requires { length bytes.old ≡ (length self.now + 7) / 8 }
        ensures long { length bytes.new ≡ length bytes.old }
        ensures digits { (e : ℕ) → packed_bit bytes.new e ≡ slice_index self.now e }
    {
        for at in 0..self.words.len() {
            let from = at * WORD_BYTES;
            let count = WORD_BYTES.min(bytes.len() - from);
            let packed = packed_word(self.words[at]);
            bytes[from..from + count].copy_from_slice(&packed[..count]);
        }
    }

    /// Adds a multiple of each digit to the number at its index.
    pub fn add_to(&self, factor: u8, numbers: &mut [u8])
        requires fits { length self.now ≤ length numbers.old }
        requires small { AreSmallSums numbers.old factor self.now }
        ensures { numbers.new ≡ numbers_with_multiple numbers.old factor self.now }
    {
        add_digits(&self.words, self.len, factor, numbers);
    }

    /// Adds another plane of the same length: each digit becomes its sum with the other's modulo 2.
    pub fn add(&mut self, other: &BitPlane)
        requires { length other.now ≡ length self.old }
        ensures { self.new ≡ digits_with_multiple 2 self.old 1 other.now }
    {
        self.add_from(0, other);
    }

    /// Adds another plane of the same length, whose digits before an index are 0, as [`BitPlane::add`] does. The words
    /// before that of the index are not looked at.
    #[inline]
    pub fn add_from(&mut self, start: usize, other: &BitPlane)
        requires fits { length other.now ≡ length self.old }
        requires within { start ≤ length self.old }
        requires zeros { AreZerosBefore other.now start }
        ensures { self.new ≡ digits_with_multiple 2 self.old 1 other.now }
    {
        let first = start / WORD;
        xor_into(&mut self.words[first..], &other.words[first..]);
    }

    /// Adds to a row over the field of order 4 the multiple by p + q x of another of its length, where x^2 is x + 1: to
    /// the planes of its coefficients of 1 and of x, by those of the other row, `a` and `b`. Digits of `a` and `b`
    /// before an index are 0, and the words before that of the index are not looked at.
    #[inline(always)]
    pub fn add_multiple_of_two(
        first: &mut BitPlane,
        second: &mut BitPlane,
        start: usize,
        p: u8,
        q: u8,
        a: &BitPlane,
        b: &BitPlane,
    )
        requires within { start ≤ length first.old }
        requires p { p < 2 }
        requires q { q < 2 }
        requires second_fits { length second.old ≡ length first.old }
        requires a_fits { length a.now ≡ length first.old }
        requires b_fits { length b.now ≡ length first.old }
        requires a_zeros { AreZerosBefore a.now start }
        requires b_zeros { AreZerosBefore b.now start }
        ensures first { first.new ≡ digits_with_two 2 first.old (to_constant_of_two p q) a.now b.now }
        ensures second { second.new ≡ digits_with_two 2 second.old (to_linear_of_two 2 p q) a.now b.now }
    {
        let from = start / WORD;
        xor_multiple_over_four(
            &mut first.words[from..],
            &mut second.words[from..],
            p,
            q,
            &a.words[from..],
            &b.words[from..],
        );
    }

    /// Adds to a row over the field of order 8 the multiple by p + q x + r x^2 of another of its length, where x^3 is
    /// x + 1, as [`BitPlane::add_multiple_of_two`] does over that of order 4.
    #[inline(always)]
    pub fn add_multiple_of_three(
        first: &mut BitPlane,
        second: &mut BitPlane,
        third: &mut BitPlane,
        start: usize,
        p: u8,
        q: u8,
        r: u8,
        a: &BitPlane,
        b: &BitPlane,
        c: &BitPlane,
    )
        requires within { start ≤ length first.old }
        requires p { p < 2 }
        requires q { q < 2 }
        requires r { r < 2 }
        requires second_fits { length second.old ≡ length first.old }
        requires third_fits { length third.old ≡ length first.old }
        requires a_fits { length a.now ≡ length first.old }
        requires b_fits { length b.now ≡ length first.old }
        requires c_fits { length c.now ≡ length first.old }
        requires a_zeros { AreZerosBefore a.now start }
        requires b_zeros { AreZerosBefore b.now start }
        requires c_zeros { AreZerosBefore c.now start }
        ensures first { first.new
            ≡ digits_with_multiples 2 first.old (to_constant_of_three p q r) a.now b.now c.now }
        ensures second { second.new
            ≡ digits_with_multiples 2 second.old (to_linear_of_three p q r) a.now b.now c.now }
        ensures third { third.new
            ≡ digits_with_multiples 2 third.old (to_quadratic_of_three p q r) a.now b.now c.now }
    {
        let from = start / WORD;
        xor_multiple_over_eight(
            &mut first.words[from..],
            &mut second.words[from..],
            &mut third.words[from..],
            p,
            q,
            r,
            &a.words[from..],
            &b.words[from..],
            &c.words[from..],
        );
    }

    /// The words of the plane.
    #[inline]
    pub fn words(&self) -> &[u64]
        ensures holds { HoldsBits (length self.now) result.now }
        ensures digits { bits (length self.now) result.now ≡ self.now }
    {
        &self.words
    }

    /// Adds the digits that the words of a plane of the same length hold.
    #[inline]
    pub fn add_words(&mut self, words: &[u64])
        requires { HoldsBits (length self.old) words.now }
        ensures { self.new ≡ digits_with_multiple 2 self.old 1 (bits (length self.old) words.now) }
    {
        xor_into(&mut self.words, words);
    }

    /// Adds the digits that the words of each of four planes of the same length hold.
    #[inline]
    pub fn add_four(&mut self, a: &[u64], b: &[u64], c: &[u64], d: &[u64])
        requires a { HoldsBits (length self.old) a.now }
        requires b { HoldsBits (length self.old) b.now }
        requires c { HoldsBits (length self.old) c.now }
        requires d { HoldsBits (length self.old) d.now }
        ensures { self.new ≡ digits_with_four 2 self.old (bits (length self.old) a.now) (bits (length self.old) b.now)
            (bits (length self.old) c.now) (bits (length self.old) d.now) }
    {
        xor4_into(&mut self.words, a, b, c, d);
    }

    /// Adds, for each of four pieces of another plane, the entry of a table whose number has the piece's digits in base
    /// 2, most significant first: the pieces have `size` digits each, and stand one after another from an index on. The
    /// tables' entries have this plane's length.
    #[inline(always)]
    pub fn add_pieces(
        &mut self,
        of: &BitPlane,
        size: usize,
        at: usize,
        a: &BitTable,
        b: &BitTable,
        c: &BitTable,
        d: &BitTable,
    )
        requires some { 1 ≤ size }
        requires short { size ≤ 8 }
        requires within { at + 4 * size ≤ length of.now }
        requires a { HasEntryOf (length self.old) a.now (number_from 2 size at of.now) }
        requires b { HasEntryOf (length self.old) b.now (number_from 2 size (at + size) of.now) }
        requires c { HasEntryOf (length self.old) c.now (number_from 2 size (at + 2 * size) of.now) }
        requires d { HasEntryOf (length self.old) d.now (number_from 2 size (at + 3 * size) of.now) }
        ensures { self.new ≡ digits_with_four 2 self.old
            (slice_index_or a.now (number_from 2 size at of.now) [])
            (slice_index_or b.now (number_from 2 size (at + size) of.now) [])
            (slice_index_or c.now (number_from 2 size (at + 2 * size) of.now) [])
            (slice_index_or d.now (number_from 2 size (at + 3 * size) of.now) []) }
    {
        let word = word_from(&of.words, at);
        let a = a.entry(piece_number(word, 0, size));
        let b = b.entry(piece_number(word, size, size));
        let c = c.entry(piece_number(word, 2 * size, size));
        let d = d.entry(piece_number(word, 3 * size, size));
        self.add_four(a, b, c, d);
    }

    /// Multiplies each digit by a factor modulo 2: the factor 0 makes zeros, and 1 changes nothing.
    pub fn scale(&mut self, factor: u8)
        requires { factor < 2 }
        ensures { self.new ≡ multiple_modulo 2 factor self.old }
    {
        if factor == 0 {
            self.words.fill(0);
        }
    }

    /// The sum modulo 2 of the products of digits at one index, for another plane of the same length.
    pub fn dot(&self, other: &BitPlane) -> u8
        requires { length other.now ≡ length self.now }
        ensures { result ≡ sum_of_products self.now other.now % 2 }
    {
        parity_and(&self.words, &other.words)
    }

    /// The index of the first digit other than 0, or `None` where every digit is 0.
    pub fn first_nonzero(&self) -> Option<usize>
        ensures { MatchOption result (All (λ digit. digit ≡ 0) self.now) (IsFirstNonzero self.now) }
    {
        first_set(&self.words)
    }

    /// The index of the first digit other than 0 from an index on, or `None` where every digit from there on is 0.
    #[inline]
    pub fn next_nonzero(&self, start: usize) -> Option<usize>
        ensures { MatchOption result (AreZerosFrom self.now start) (IsNextNonzero self.now start) }
    {
        next_in(&self.words, start, self.len)
    }

    /// Whether every digit is 0.
    pub fn is_zero(&self) -> bool
        ensures { IsTrue result ↔ All (λ digit. digit ≡ 0) self.now }
    {
        !any_nonzero(&self.words)
    }

    /// Whether two planes are equal.
    pub fn same(&self, other: &BitPlane) -> bool
        ensures { IsTrue result ↔ (self.now ≡ other.now) }
    {
        self.len == other.len && self.words == other.words
    }
}

//! Planes of digits modulo 5 or 7.
ghost use Rattle.std.specs.Prelude.{ℕ, map, replicate, slice_index, slice_set, All, MatchOption, ◌≡◌, ◌+◌, ◌/◌, ◌%◌};
ghost use Rattle.std.specs.Prelude.{◌<◌, ◌≤◌, ◌↔◌, IsTrue, IfOk, length, ◌*◌, ◌^◌};
ghost use Rattle.axe_algebra.specs.Lists.{listed};
ghost use Rattle.axe_lane.specs.Bytes.{multiple_modulo, sum_of_products, AreDigits};
ghost use Rattle.axe_lane.specs.Entries.{IsFirstNonzero, AreZerosBefore, AreZerosFrom, IsNextNonzero};
ghost use Rattle.axe_layer.specs.Digits.{digits_at, digits_with_four, digits_with_multiple, AreSmallSums};
ghost use Rattle.axe_layer.specs.Digits.{numbers_with_multiple, number_from, numbers_from, number_bound};
ghost use Rattle.axe_plane.specs.Planes.{negative_modulo};
ghost use Rattle.axe_plane.specs.Primes.{byte_prime, ByteDigits};
ghost use Rattle.axe_plane.specs.Sums.{placed};

use crate::primes::BytePrime;
use axe_lane::{
    add_scaled_bytes, add4_bytes, add4_scaled_bytes, dot_bytes, first_byte, scale_bytes,
};
use std::alloc::{AllocError, Global};
use std::marker::Model;
pub use sums::ByteSums;

mod sums;

/// How many bytes a piece of a dot product has at most.
const PIECE: usize = 4096;

/// A list of digits modulo 5 or 7, a byte for each.
#[derive(Drop)]
pub struct BytePlane {
    prime: BytePrime,
    bytes: Vec<u8>,
}

impl Model for BytePlane {
    ghost use Rattle.axe_lane.specs.Bytes.{AreDigits};
    ghost use Rattle.axe_plane.specs.Primes.{byte_prime, ByteDigits};

    ghost Value = { ByteDigits };

    ghost view = { λ a. record { prime = a.prime; digits = a.bytes.items } };

    ghost invariant = { λ a. AreDigits (byte_prime a.prime) a.bytes.items };
}

impl BytePlane {
    /// The plane of `len` zeros.
    pub fn zero(alloc: Global, prime: BytePrime, len: usize) -> Result<BytePlane, AllocError>
        ensures { IfOk result (λ plane. plane ≡ record { prime = prime; digits = replicate len 0 }) }
    {
        let bytes = vec![in alloc; 0; len]?;
        Ok(BytePlane { prime, bytes })
    }

    /// The plane of the digits that numbers have at a place, 0 or 1, in base the prime.
    pub fn of_numbers(
        alloc: Global,
        prime: BytePrime,
        numbers: &[u8],
        place: u8,
    ) -> Result<BytePlane, AllocError>
        requires { place < 2 }
        ensures { IfOk result (λ plane. plane ≡ record {
          prime = prime;
          digits = digits_at (byte_prime prime) place numbers.now;
        }) }
    {
        let mut bytes = Vec::from_slice(alloc, numbers)?;
        match (prime, place) {
            (BytePrime::Five, 0) => reduce::<1, 5>(&mut bytes),
            (BytePrime::Five, _) => reduce::<5, 5>(&mut bytes),
            (BytePrime::Seven, 0) => reduce::<1, 7>(&mut bytes),
            (BytePrime::Seven, _) => reduce::<7, 7>(&mut bytes),
        }
        Ok(BytePlane { prime, bytes })
    }

    /// How many digits the plane has.
    pub fn len(&self) -> usize
        ensures count { result ≡ length self.now.digits }
        ensures digits { AreDigits (byte_prime self.now.prime) self.now.digits }
    {
        self.bytes.len()
    }

    /// The digit at an index, counted from 0, and 0 from the length on.
    pub fn get(&self, index: usize) -> u8
        ensures { result ≡ slice_index self.now.digits index }
    {
        if index < self.bytes.len() {
            self.bytes[index]
        } else {
            0
        }
    }

    /// The number whose digits in a base up to 9, most significant first, are up to eight of the plane's digits from an
    /// index on: `size` of them or those that there are. Up to three, as pieces have, are read without a loop.
    #[inline]
    pub fn number_from(&self, base: usize, size: usize, at: usize) -> usize
        requires base { base ≤ 9 }
        requires short { size ≤ 8 }
        requires counted { at + size < 2 ^ 64 }
        ensures value { result ≡ number_from base size at self.now.digits }
        ensures small { result < number_bound }
    {
        let whole = at + size <= self.len();
        match size {
            1 if whole => usize::from(self.get(at)),
            2 if whole => self.number_of_two(base, at),
            3 if whole => self.number_of_three(base, at),
            _ => self.number_by_digits(base, size, at),
        }
    }

    /// Four such numbers, of the pieces of `size` digits one after another from an index on. Where the plane has all digits
    /// of pieces of two or three, it is asked once for all four.
    #[inline]
    pub(crate) fn numbers_from(&self, base: usize, size: usize, at: usize) -> [usize; 4]
        requires base { base ≤ 9 }
        requires short { size ≤ 8 }
        requires counted { at + 4 * size < 2 ^ 64 }
        ensures value { result ≡ numbers_from base size at self.now.digits }
        ensures small { (i : ℕ) → slice_index result i < number_bound }
    {
        let whole = at + 4 * size <= self.len();
        match size {
            2 if whole => [
                self.number_of_two(base, at),
                self.number_of_two(base, at + 2),
                self.number_of_two(base, at + 4),
                self.number_of_two(base, at + 6),
            ],
            3 if whole => [
                self.number_of_three(base, at),
                self.number_of_three(base, at + 3),
                self.number_of_three(base, at + 6),
                self.number_of_three(base, at + 9),
            ],
            _ => [
                self.number_from(base, size, at),
                self.number_from(base, size, at + size),
                self.number_from(base, size, at + 2 * size),
                self.number_from(base, size, at + 3 * size),
            ],
        }
    }

    /// What [`BytePlane::number_from`] gives, of two digits.
    #[inline(always)]
    fn number_of_two(&self, base: usize, at: usize) -> usize
        requires base { base ≤ 9 }
        requires counted { at + 2 < 2 ^ 64 }
        requires within { at + 2 ≤ length self.now.digits }
        ensures value { result ≡ number_from base 2 at self.now.digits }
        ensures small { result < number_bound }
    {
        usize::from(self.digit_at(at)) * base + usize::from(self.digit_at(at + 1))
    }

    /// What [`BytePlane::number_from`] gives, of three digits.
    #[inline(always)]
    fn number_of_three(&self, base: usize, at: usize) -> usize
        requires base { base ≤ 9 }
        requires counted { at + 3 < 2 ^ 64 }
        requires within { at + 3 ≤ length self.now.digits }
        ensures value { result ≡ number_from base 3 at self.now.digits }
        ensures small { result < number_bound }
    {
        let front = usize::from(self.digit_at(at)) * base + usize::from(self.digit_at(at + 1));
        front * base + usize::from(self.digit_at(at + 2))
    }

    /// The digit at an index that the plane has.
    #[inline(always)]
    fn digit_at(&self, index: usize) -> u8
        requires { index < length self.now.digits }
        ensures { result ≡ slice_index self.now.digits index }
    {
        self.bytes[index]
    }

    /// What [`BytePlane::number_from`] gives, of any number of digits, one after another.
    #[inline(never)]
    fn number_by_digits(&self, base: usize, size: usize, at: usize) -> usize
        requires base { base ≤ 9 }
        requires short { size ≤ 8 }
        requires counted { at + size < 2 ^ 64 }
        ensures value { result ≡ number_from base size at self.now.digits }
        ensures small { result < number_bound }
    {
        let mut number = 0;
        for index in at..self.bytes.len().min(at + size) {
            number = number * base + usize::from(self.get(index));
        }
        number
    }

    /// Makes a digit the one at an index; all others stay. From the length on there is none to be changed.
    pub fn set(&mut self, index: usize, digit: u8)
        requires { digit < byte_prime self.old.prime }
        ensures { self.new ≡ record { prime = self.old.prime; digits = slice_set self.old.digits index digit } }
    {
        if index < self.bytes.len() {
            self.bytes[index] = digit;
        }
    }

    /// The same plane a second time.
    pub fn copy(&self, alloc: Global) -> Result<BytePlane, AllocError>
        ensures { IfOk result (λ plane. plane ≡ self.now) }
    {
        let bytes = Vec::from_slice(alloc, &self.bytes)?;
        Ok(BytePlane {
            prime: self.prime,
            bytes,
        })
    }

    /// The plane of the digits at these indices, in their order.
    pub fn select(&self, alloc: Global, indices: &[usize]) -> Result<BytePlane, AllocError>
        requires { All (λ index. index < length self.now.digits) indices.now }
        ensures { IfOk result (λ plane. plane ≡ record {
          prime = self.now.prime;
          digits = map (slice_index self.now.digits) indices.now;
        }) }
    {
        let mut bytes = vec![in alloc; 0; indices.len()]?;
        for at in 0..bytes.len() {
            bytes[at] = self.bytes[indices[at]];
        }
        Ok(BytePlane {
            prime: self.prime,
            bytes,
        })
    }

    /// The plane of the `len` digits from an index on.
    pub fn part(&self, alloc: Global, start: usize, len: usize) -> Result<BytePlane, AllocError>
        requires { start + len ≤ length self.now.digits }
        ensures { IfOk result (λ plane. plane ≡ record {
          prime = self.now.prime;
          digits = listed len (λ j. slice_index self.now.digits (start + j));
        }) }
    {
        let bytes = Vec::from_slice(alloc, &self.bytes[start..start + len])?;
        Ok(BytePlane {
            prime: self.prime,
            bytes,
        })
    }

    /// Writes the digits into a list of the plane's length.
    pub fn copy_to(&self, numbers: &mut [u8])
        requires { length numbers.old ≡ length self.now.digits }
        ensures { numbers.new ≡ self.now.digits }
    {
        numbers.copy_from_slice(&self.bytes);
    }

    /// Adds a multiple of each digit to the number at its index.
    pub fn add_to(&self, factor: u8, numbers: &mut [u8])
        requires fits { length self.now.digits ≤ length numbers.old }
        requires small { AreSmallSums numbers.old factor self.now.digits }
        ensures { numbers.new ≡ numbers_with_multiple numbers.old factor self.now.digits }
    {
        for at in 0..self.bytes.len() {
            numbers[at] += factor * self.bytes[at];
        }
    }

    /// Adds a multiple of another plane modulo the same prime and of the same length.
    pub fn add_scaled(&mut self, factor: u8, other: &BytePlane)
        requires prime { other.now.prime ≡ self.old.prime }
        requires factor { factor < byte_prime self.old.prime }
        requires fits { length other.now.digits ≡ length self.old.digits }
        ensures { self.new ≡ record {
          prime = self.old.prime;
          digits = digits_with_multiple (byte_prime self.old.prime) self.old.digits factor other.now.digits;
        } }
    {
        self.add_scaled_from(0, factor, other);
    }

    /// Adds a multiple of another plane modulo the same prime and of the same length, whose digits before an index are
    /// 0, as [`BytePlane::add_scaled`] does. The digits before the index are not looked at.
    pub fn add_scaled_from(&mut self, start: usize, factor: u8, other: &BytePlane)
        requires within { start ≤ length self.old.digits }
        requires prime { other.now.prime ≡ self.old.prime }
        requires factor { factor < byte_prime self.old.prime }
        requires fits { length other.now.digits ≡ length self.old.digits }
        requires zeros { AreZerosBefore other.now.digits start }
        ensures { self.new ≡ record {
          prime = self.old.prime;
          digits = digits_with_multiple (byte_prime self.old.prime) self.old.digits factor other.now.digits;
        } }
    {
        let prime = self.prime.number();
        add_scaled_bytes(
            &mut self.bytes[start..],
            &other.bytes[start..],
            factor,
            prime,
        );
    }

    /// Adds the multiple of another plane modulo the same prime and of the same length by the negative of the digit at
    /// an index, and gives that factor. The other plane's digits before `start` are 0.
    #[inline(never)]
    pub(crate) fn cancel(&mut self, index: usize, start: usize, other: &BytePlane) -> u8
        requires within { start ≤ length self.old.digits }
        requires prime { other.now.prime ≡ self.old.prime }
        requires fits { length other.now.digits ≡ length self.old.digits }
        requires zeros { AreZerosBefore other.now.digits start }
        ensures factor { result ≡ negative_modulo (byte_prime self.old.prime) (slice_index self.old.digits index) }
        ensures digit { result < byte_prime self.old.prime }
        ensures sum { self.new ≡ record {
          prime = self.old.prime;
          digits = digits_with_multiple (byte_prime self.old.prime) self.old.digits result other.now.digits;
        } }
    {
        let prime = self.prime.number();
        let factor = (prime - self.get(index)) % prime;
        if factor != 0 {
            self.add_scaled_from(start, factor, other);
        }
        factor
    }

    /// The digits of the plane.
    #[inline]
    pub(crate) fn bytes(&self) -> &[u8]
        ensures value { result.now ≡ self.now.digits }
        ensures digits { AreDigits (byte_prime self.now.prime) self.now.digits }
    {
        &self.bytes
    }

    /// Adds a multiple of a list of as many digits.
    #[inline]
    pub(crate) fn add_bytes(&mut self, factor: u8, bytes: &[u8])
        requires factor { factor < byte_prime self.old.prime }
        requires fits { length bytes.now ≡ length self.old.digits }
        requires digits { AreDigits (byte_prime self.old.prime) bytes.now }
        ensures { self.new ≡ record {
          prime = self.old.prime;
          digits = digits_with_multiple (byte_prime self.old.prime) self.old.digits factor bytes.now;
        } }
    {
        let prime = self.prime.number();
        add_scaled_bytes(&mut self.bytes, bytes, factor, prime);
    }

    /// Adds a list of digits to those from an index on.
    pub(crate) fn add_bytes_at(&mut self, start: usize, bytes: &[u8])
        requires within { start + length bytes.now ≤ length self.old.digits }
        requires digits { AreDigits (byte_prime self.old.prime) bytes.now }
        ensures { self.new ≡ record {
          prime = self.old.prime;
          digits =
              digits_with_multiple (byte_prime self.old.prime) self.old.digits 1
              (placed (length self.old.digits) start bytes.now);
        } }
    {
        let prime = self.prime.number();
        let end = start + bytes.len();
        add_scaled_bytes(&mut self.bytes[start..end], bytes, 1, prime);
    }

    /// Adds four lists of as many digits.
    #[inline]
    pub(crate) fn add_four(&mut self, a: &[u8], b: &[u8], c: &[u8], d: &[u8])
        requires fits { (length a.now ≡ length self.old.digits) × (length b.now ≡ length self.old.digits)
            × (length c.now ≡ length self.old.digits) × (length d.now ≡ length self.old.digits) }
        requires a { AreDigits (byte_prime self.old.prime) a.now }
        requires b { AreDigits (byte_prime self.old.prime) b.now }
        requires c { AreDigits (byte_prime self.old.prime) c.now }
        requires d { AreDigits (byte_prime self.old.prime) d.now }
        ensures { self.new ≡ record {
          prime = self.old.prime;
          digits = digits_with_four (byte_prime self.old.prime) self.old.digits a.now b.now c.now d.now;
        } }
    {
        let prime = self.prime.number();
        add4_bytes(&mut self.bytes, a, b, c, d, prime);
    }

    /// Adds multiples of four lists of as many digits.
    #[inline]
    pub(crate) fn add_four_multiples(
        &mut self,
        factors: [u8; 4],
        a: &[u8],
        b: &[u8],
        c: &[u8],
        d: &[u8],
    )
        requires factors { (i : ℕ) → i < 4 → slice_index factors i < byte_prime self.old.prime }
        requires fits { (length a.now ≡ length self.old.digits) × (length b.now ≡ length self.old.digits)
            × (length c.now ≡ length self.old.digits) × (length d.now ≡ length self.old.digits) }
        requires a { AreDigits (byte_prime self.old.prime) a.now }
        requires b { AreDigits (byte_prime self.old.prime) b.now }
        requires c { AreDigits (byte_prime self.old.prime) c.now }
        requires d { AreDigits (byte_prime self.old.prime) d.now }
        ensures { self.new ≡ record {
          prime = self.old.prime;
          digits =
              digits_with_multiple (byte_prime self.old.prime)
              (digits_with_multiple (byte_prime self.old.prime)
              (digits_with_multiple (byte_prime self.old.prime)
              (digits_with_multiple (byte_prime self.old.prime) self.old.digits (slice_index factors 0) a.now)
              (slice_index factors 1) b.now)
              (slice_index factors 2) c.now)
              (slice_index factors 3) d.now;
        } }
    {
        let prime = self.prime.number();
        add4_scaled_bytes(&mut self.bytes, a, b, c, d, factors, prime);
    }

    /// Multiplies each digit by a factor modulo the prime.
    pub fn scale(&mut self, factor: u8)
        requires { factor < byte_prime self.old.prime }
        ensures { self.new ≡ record {
          prime = self.old.prime;
          digits = multiple_modulo (byte_prime self.old.prime) factor self.old.digits;
        } }
    {
        let prime = self.prime.number();
        scale_bytes(&mut self.bytes, factor, prime);
    }

    /// The sum modulo the prime of the products of digits at one index, for another plane modulo this prime and of the
    /// same length.
    pub fn dot(&self, other: &BytePlane) -> u8
        requires prime { other.now.prime ≡ self.now.prime }
        requires fits { length other.now.digits ≡ length self.now.digits }
        ensures { result ≡ sum_of_products self.now.digits other.now.digits % byte_prime self.now.prime }
    {
        let prime = self.prime.number();
        let whole = self.bytes.len() / PIECE;
        let mut sum = 0;
        for piece in 0..whole {
            let from = piece * PIECE;
            let to = from + PIECE;
            sum = (sum + dot_bytes(&self.bytes[from..to], &other.bytes[from..to], prime)) % prime;
        }
        let from = whole * PIECE;
        (sum + dot_bytes(&self.bytes[from..], &other.bytes[from..], prime)) % prime
    }

    /// The index of the first digit other than 0, or `None` where every digit is 0.
    pub fn first_nonzero(&self) -> Option<usize>
        ensures { MatchOption result (All (λ digit. digit ≡ 0) self.now.digits) (IsFirstNonzero self.now.digits) }
    {
        first_byte(&self.bytes)
    }

    /// The index of the first digit other than 0 from an index on, or `None` where every digit from there on is 0. It
    /// stands apart so that the search in any plane is short where it is asked most, modulo 2.
    #[inline(never)]
    pub fn next_nonzero(&self, start: usize) -> Option<usize>
        ensures { MatchOption result (AreZerosFrom self.now.digits start) (IsNextNonzero self.now.digits start) }
    {
        if start >= self.bytes.len() {
            return None;
        }
        match first_byte(&self.bytes[start..]) {
            Some(index) => Some(start + index),
            None => None,
        }
    }

    /// Whether every digit is 0.
    pub fn is_zero(&self) -> bool
        ensures { IsTrue result ↔ All (λ digit. digit ≡ 0) self.now.digits }
    {
        first_byte(&self.bytes).is_none()
    }

    /// Whether two planes are equal: one prime, and the same digits.
    pub fn same(&self, other: &BytePlane) -> bool
        ensures { IsTrue result ↔ (self.now ≡ other.now) }
    {
        self.prime == other.prime && self.bytes == other.bytes
    }
}

/// Makes each byte its quotient by D, modulo P.
pub(crate) fn reduce<const D: u8, const P: u8>(bytes: &mut Vec<u8>)
    requires divisor { 0 < D }
    requires prime { 0 < P }
    ensures { bytes.new.items ≡ map (λ byte. (byte / D) % P) bytes.old.items }
{
    for at in 0..bytes.len() {
        bytes[at] = bytes[at] / D % P;
    }
}

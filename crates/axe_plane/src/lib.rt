//! Planes: lists of digits modulo one of the primes 2, 3, 5 and 7. A plane modulo 2 has 64 digits in a word, one modulo
//! 3 has 64 in two words, and one modulo 5 or 7 has a byte for each digit.
#![tactic(auto)]

ghost use Rattle.std.specs.Prelude.{ℕ, ◌≡◌, ◌≢◌, ◌⊎◌, ◌+◌, ◌%◌, ◌<◌, ◌≤◌, ◌↔◌, IsTrue, IfOk, length, map, replicate};
ghost use Rattle.std.specs.Prelude.{slice_index, slice_set, All, MatchOption};
ghost use Rattle.axe_algebra.specs.Lists.{listed};
ghost use Rattle.axe_lane.specs.Bytes.{multiple_modulo, sum_of_products, AreDigits};
ghost use Rattle.axe_lane.specs.Entries.{IsFirstNonzero, AreZerosBefore, AreZerosFrom, IsNextNonzero};
ghost use Rattle.axe_layer.specs.Digits.{digits_at, digits_with_four, digits_with_multiple, AreSmallSums};
ghost use Rattle.axe_layer.specs.Digits.{numbers_with_multiple};
ghost use Rattle.axe_layer.specs.Runs.{AreFollowed};
ghost use Rattle.axe_plane.specs.Planes.{negative_modulo};
ghost use Rattle.axe_plane.specs.Tables.{plane_at, IsEntryFor};

pub use axe_bits::BitPlane;
use axe_bits::TritPlane;
pub use byte_table::ByteTable;
use bytes::reduce;
pub use bytes::{BytePlane, ByteSums};
pub use primes::BytePrime;
use std::alloc::{AllocError, Global};
pub use tables::PlaneTable;

mod byte_table;
mod bytes;
mod digits;
mod number_words;
mod numbers;
mod primes;
mod remainders;
mod supports;
mod tables;
mod words;

/// A list of digits modulo 2, 3, 5 or 7.
#[derive(Drop)]
pub enum Plane {
    /// Modulo 2, each digit a bit.
    Bits(BitPlane),
    /// Modulo 3, each digit a bit in one of two layers.
    Trits(TritPlane),
    /// Modulo 5 or 7, each digit a byte.
    Bytes(BytePlane),
}

impl Plane {
    ghost use Rattle.axe_bits.specs.Combinations.{digits_with_two, digits_with_multiples};
    ghost use Rattle.axe_lane.specs.Multiples.{to_constant_of_two, to_linear_of_two};
    ghost use Rattle.axe_lane.specs.Multiples.{to_constant_of_three, to_linear_of_three, to_quadratic_of_three};
    ghost use Rattle.axe_plane.specs.Addends.{IsAddend};
    ghost use Rattle.axe_bits.specs.Trits.{trits, HoldLayers};
    ghost use Rattle.axe_layer.specs.Bits.{bits, HoldsBits};
    ghost use Rattle.axe_plane.specs.Planes.{prime_of_plane, digits_of, IsPlane};

    /// The plane of `len` zeros modulo 2, 3, 5 or 7. A plane of no digits takes no memory.
    #[inline(always)]
    pub fn zero(alloc: Global, prime: u8, len: usize) -> Result<Plane, AllocError>
        requires { (prime ≡ 2) ⊎ ((prime ≡ 3) ⊎ ((prime ≡ 5) ⊎ (prime ≡ 7))) }
        ensures { IfOk result (IsPlane prime (replicate len 0)) }
    {
        Ok(match prime {
            2 => Plane::Bits(BitPlane::zero(alloc, len)?),
            3 => Plane::Trits(TritPlane::zero(alloc, len)?),
            5 => Plane::Bytes(BytePlane::zero(alloc, BytePrime::Five, len)?),
            // 7, the one prime that is left
            _ => Plane::Bytes(BytePlane::zero(alloc, BytePrime::Seven, len)?),
        })
    }

    /// The plane of the digits that numbers have at a place in base 2, 3, 5 or 7, the lowest being at 0. Modulo an odd
    /// prime the place is 0 or 1.
    pub fn of_numbers(
        alloc: Global,
        prime: u8,
        numbers: &[u8],
        place: u8,
    ) -> Result<Plane, AllocError>
        requires prime { (prime ≡ 2) ⊎ ((prime ≡ 3) ⊎ ((prime ≡ 5) ⊎ (prime ≡ 7))) }
        requires bits { place < 8 }
        requires bytes { prime ≢ 2 → place < 2 }
        ensures { IfOk result (IsPlane prime (digits_at prime place numbers.now)) }
    {
        Ok(match prime {
            2 => Plane::Bits(BitPlane::of_numbers(alloc, numbers, place)?),
            3 => Plane::Trits(trits_of_numbers(alloc, numbers, place)?),
            5 => Plane::Bytes(BytePlane::of_numbers(alloc, BytePrime::Five, numbers, place)?),
            // 7, the one prime that is left
            _ => Plane::Bytes(BytePlane::of_numbers(alloc, BytePrime::Seven, numbers, place)?),
        })
    }

    /// How many digits the plane has.
    pub fn len(&self) -> usize
        ensures { result ≡ length (digits_of self.now) }
    {
        match self {
            Plane::Bits(plane) => plane.len(),
            Plane::Trits(plane) => plane.len(),
            Plane::Bytes(plane) => plane.len(),
        }
    }

    /// Makes a digit the one at an index; all others stay. From the length on there is none to be changed.
    #[inline]
    pub fn set(&mut self, index: usize, digit: u8)
        requires { digit < prime_of_plane self.old }
        ensures { IsPlane (prime_of_plane self.old) (slice_set (digits_of self.old) index digit) self.new }
    {
        match self {
            Plane::Bits(plane) => plane.set(index, digit),
            Plane::Trits(plane) => plane.set(index, digit),
            Plane::Bytes(plane) => plane.set(index, digit),
        }
    }

    /// The same plane a second time.
    #[inline(always)]
    pub fn copy(&self, alloc: Global) -> Result<Plane, AllocError>
        ensures { IfOk result (λ plane. plane ≡ self.now) }
    {
        Ok(match self {
            Plane::Bits(plane) => Plane::Bits(plane.copy(alloc)?),
            Plane::Trits(plane) => Plane::Trits(plane.copy(alloc)?),
            Plane::Bytes(plane) => Plane::Bytes(plane.copy(alloc)?),
        })
    }

    /// The plane of the digits at these indices, in their order. Where bit e of `followed` is 1, index e is followed by
    /// the next number, so that digits at consecutive indices are taken at once; a bit that is 0 or missing tells
    /// nothing.
    pub fn select(
        &self,
        alloc: Global,
        indices: &[usize],
        followed: &[u64],
    ) -> Result<Plane, AllocError>
        requires within { All (λ index. index < length (digits_of self.now)) indices.now }
        requires followed { AreFollowed indices.now followed.now }
        ensures { IfOk result (IsPlane (prime_of_plane self.now) (map (slice_index (digits_of self.now)) indices.now)) }
    {
        Ok(match self {
            Plane::Bits(plane) => Plane::Bits(plane.select(alloc, indices, followed)?),
            Plane::Trits(plane) => Plane::Trits(plane.select(alloc, indices, followed)?),
            Plane::Bytes(plane) => Plane::Bytes(plane.select(alloc, indices)?),
        })
    }

    /// The plane of the `len` digits from an index on.
    #[inline(always)]
    pub fn part(&self, alloc: Global, start: usize, len: usize) -> Result<Plane, AllocError>
        requires { start + len ≤ length (digits_of self.now) }
        ensures { IfOk result (IsPlane (prime_of_plane self.now)
            (listed len (λ j. slice_index (digits_of self.now) (start + j)))) }
    {
        Ok(match self {
            Plane::Bits(plane) => Plane::Bits(plane.part(alloc, start, len)?),
            Plane::Trits(plane) => Plane::Trits(plane.part(alloc, start, len)?),
            Plane::Bytes(plane) => Plane::Bytes(plane.part(alloc, start, len)?),
        })
    }

    /// Writes the digits into a list of the plane's length.
    pub fn copy_to(&self, numbers: &mut [u8])
        requires { length numbers.old ≡ length (digits_of self.now) }
        ensures { numbers.new ≡ digits_of self.now }
    {
        match self {
            Plane::Bits(plane) => plane.copy_to(numbers),
            Plane::Trits(plane) => plane.copy_to(numbers),
            Plane::Bytes(plane) => plane.copy_to(numbers),
        }
    }

    /// Adds a multiple of each digit to the number at its index; numbers from the plane's length on stay.
    pub fn add_to(&self, factor: u8, numbers: &mut [u8])
        requires fits { length (digits_of self.now) ≤ length numbers.old }
        requires small { AreSmallSums numbers.old factor (digits_of self.now) }
        ensures { numbers.new ≡ numbers_with_multiple numbers.old factor (digits_of self.now) }
    {
        match self {
            Plane::Bits(plane) => plane.add_to(factor, numbers),
            Plane::Trits(plane) => plane.add_to(factor, numbers),
            Plane::Bytes(plane) => plane.add_to(factor, numbers),
        }
    }

    /// Adds a multiple of another plane modulo the same prime and of the same length: each digit d becomes d + m s
    /// modulo the prime, where s is the other plane's digit. Nothing is done where m is 0, and then the lengths may
    /// differ.
    #[inline]
    pub fn add_scaled(&mut self, factor: u8, other: &Plane)
        requires prime { prime_of_plane other.now ≡ prime_of_plane self.old }
        requires factor { factor < prime_of_plane self.old }
        requires fits { factor ≢ 0 → length (digits_of other.now) ≡ length (digits_of self.old) }
        requires digits { AreDigits (prime_of_plane self.old) (digits_of self.old) }
        ensures { IsPlane (prime_of_plane self.old)
            (digits_with_multiple (prime_of_plane self.old) (digits_of self.old) factor (digits_of other.now))
            self.new }
    {
        self.add_scaled_from(0, factor, other);
    }

    /// Adds a multiple of another plane, whose digits before an index are 0, as [`Plane::add_scaled`] does: the digits
    /// before the index stay, and no word or byte before that of the index is looked at.
    #[inline]
    pub fn add_scaled_from(&mut self, start: usize, factor: u8, other: &Plane)
        requires within { factor ≢ 0 → start ≤ length (digits_of self.old) }
        requires prime { prime_of_plane other.now ≡ prime_of_plane self.old }
        requires factor { factor < prime_of_plane self.old }
        requires fits { factor ≢ 0 → length (digits_of other.now) ≡ length (digits_of self.old) }
        requires zeros { AreZerosBefore (digits_of other.now) start }
        requires digits { AreDigits (prime_of_plane self.old) (digits_of self.old) }
        ensures { IsPlane (prime_of_plane self.old)
            (digits_with_multiple (prime_of_plane self.old) (digits_of self.old) factor (digits_of other.now))
            self.new }
    {
        if factor != 0 {
            match (self, other) {
                (Plane::Bits(plane), Plane::Bits(other)) => plane.add_from(start, other),
                (Plane::Trits(plane), Plane::Trits(other)) => {
                    plane.add_scaled_from(start, factor, other)
                }
                (Plane::Bytes(plane), Plane::Bytes(other)) => {
                    plane.add_scaled_from(start, factor, other)
                }
                // Two planes modulo one prime are of one kind.
                _ => unreachable!(),
            }
        }
    }

    /// Adds to a row over the field of order 4 or 9 the multiple by p + q x of another of its length, where x^2 is
    /// x + 1: to the planes of its coefficients of 1 and of x, by those of the other row, `a` and `b`. Digits of `a`
    /// and `b` before an index are 0, and no word before that of the index is looked at.
    #[inline(always)]
    pub fn add_multiple_of_two(
        first: &mut Plane,
        second: &mut Plane,
        start: usize,
        p: u8,
        q: u8,
        a: &Plane,
        b: &Plane,
    )
        requires small { prime_of_plane first.old ≤ 3 }
        requires within { start ≤ length (digits_of first.old) }
        requires p { p < prime_of_plane first.old }
        requires q { q < prime_of_plane first.old }
        requires second { IsAddend first.old second.old }
        requires a { IsAddend first.old a.now }
        requires b { IsAddend first.old b.now }
        requires a_zeros { AreZerosBefore (digits_of a.now) start }
        requires b_zeros { AreZerosBefore (digits_of b.now) start }
        ensures first { IsPlane (prime_of_plane first.old) (digits_with_two (prime_of_plane first.old)
            (digits_of first.old) (to_constant_of_two p q) (digits_of a.now) (digits_of b.now)) first.new }
        ensures second { IsPlane (prime_of_plane first.old) (digits_with_two (prime_of_plane first.old)
            (digits_of second.old) (to_linear_of_two (prime_of_plane first.old) p q) (digits_of a.now)
            (digits_of b.now)) second.new }
    {
        match (first, second, a, b) {
            (Plane::Bits(first), Plane::Bits(second), Plane::Bits(a), Plane::Bits(b)) => {
                BitPlane::add_multiple_of_two(first, second, start, p, q, a, b);
            }
            (Plane::Trits(first), Plane::Trits(second), Plane::Trits(a), Plane::Trits(b)) => {
                TritPlane::add_multiple_of_two(first, second, start, p, q, a, b);
            }
            // Planes modulo one prime are of one kind.
            _ => unreachable!(),
        }
    }

    /// Adds to a row over the field of order 8 the multiple by p + q x + r x^2 of another of its length, where x^3 is
    /// x + 1, as [`Plane::add_multiple_of_two`] does over that of order 4.
    #[inline(always)]
    pub fn add_multiple_of_three(
        first: &mut Plane,
        second: &mut Plane,
        third: &mut Plane,
        start: usize,
        p: u8,
        q: u8,
        r: u8,
        a: &Plane,
        b: &Plane,
        c: &Plane,
    )
        requires even { prime_of_plane first.old ≡ 2 }
        requires within { start ≤ length (digits_of first.old) }
        requires p { p < 2 }
        requires q { q < 2 }
        requires r { r < 2 }
        requires second { IsAddend first.old second.old }
        requires third { IsAddend first.old third.old }
        requires a { IsAddend first.old a.now }
        requires b { IsAddend first.old b.now }
        requires c { IsAddend first.old c.now }
        requires a_zeros { AreZerosBefore (digits_of a.now) start }
        requires b_zeros { AreZerosBefore (digits_of b.now) start }
        requires c_zeros { AreZerosBefore (digits_of c.now) start }
        ensures first { IsPlane 2 (digits_with_multiples 2 (digits_of first.old) (to_constant_of_three p q r)
            (digits_of a.now) (digits_of b.now) (digits_of c.now)) first.new }
        ensures second { IsPlane 2 (digits_with_multiples 2 (digits_of second.old) (to_linear_of_three p q r)
            (digits_of a.now) (digits_of b.now) (digits_of c.now)) second.new }
        ensures third { IsPlane 2 (digits_with_multiples 2 (digits_of third.old) (to_quadratic_of_three p q r)
            (digits_of a.now) (digits_of b.now) (digits_of c.now)) third.new }
    {
        match (first, second, third, a, b, c) {
            (
                Plane::Bits(first),
                Plane::Bits(second),
                Plane::Bits(third),
                Plane::Bits(a),
                Plane::Bits(b),
                Plane::Bits(c),
            ) => {
                BitPlane::add_multiple_of_three(first, second, third, start, p, q, r, a, b, c);
            }
            // Planes modulo 2 are of one kind.
            _ => unreachable!(),
        }
    }

    /// Adds the multiple of another plane modulo the same prime and of the same length by the negative of the digit at
    /// an index, and gives that factor: where the other's digit at the index is 1, this plane's becomes 0. From the
    /// length on the digit is 0, and nothing is added.
    #[inline]
    pub fn cancel(&mut self, index: usize, other: &Plane) -> u8
        requires prime { prime_of_plane other.now ≡ prime_of_plane self.old }
        requires fits { length (digits_of other.now) ≡ length (digits_of self.old) }
        requires digits { AreDigits (prime_of_plane self.old) (digits_of self.old) }
        ensures factor { result ≡ negative_modulo (prime_of_plane self.old) (slice_index (digits_of self.old) index) }
        ensures digit { result < prime_of_plane self.old }
        ensures sum { IsPlane (prime_of_plane self.old)
            (digits_with_multiple (prime_of_plane self.old) (digits_of self.old) result (digits_of other.now))
            self.new }
    {
        self.cancel_where_zeros(index, 0, other)
    }

    /// Adds a multiple of another plane, whose digits before the index are 0, as [`Plane::cancel`] does: the digits
    /// before the index stay, and no word or byte before that of the index is looked at.
    #[inline]
    pub fn cancel_from(&mut self, index: usize, other: &Plane) -> u8
        requires within { index ≤ length (digits_of self.old) }
        requires prime { prime_of_plane other.now ≡ prime_of_plane self.old }
        requires fits { length (digits_of other.now) ≡ length (digits_of self.old) }
        requires zeros { AreZerosBefore (digits_of other.now) index }
        requires digits { AreDigits (prime_of_plane self.old) (digits_of self.old) }
        ensures factor { result ≡ negative_modulo (prime_of_plane self.old) (slice_index (digits_of self.old) index) }
        ensures digit { result < prime_of_plane self.old }
        ensures sum { IsPlane (prime_of_plane self.old)
            (digits_with_multiple (prime_of_plane self.old) (digits_of self.old) result (digits_of other.now))
            self.new }
    {
        self.cancel_where_zeros(index, index, other)
    }

    /// Adds the multiple of another plane by the negative of the digit at an index, and gives that factor. The other
    /// plane's digits before `start` are 0.
    #[inline(always)]
    fn cancel_where_zeros(&mut self, index: usize, start: usize, other: &Plane) -> u8
        requires within { start ≤ length (digits_of self.old) }
        requires prime { prime_of_plane other.now ≡ prime_of_plane self.old }
        requires fits { length (digits_of other.now) ≡ length (digits_of self.old) }
        requires zeros { AreZerosBefore (digits_of other.now) start }
        requires digits { AreDigits (prime_of_plane self.old) (digits_of self.old) }
        ensures factor { result ≡ negative_modulo (prime_of_plane self.old) (slice_index (digits_of self.old) index) }
        ensures digit { result < prime_of_plane self.old }
        ensures sum { IsPlane (prime_of_plane self.old)
            (digits_with_multiple (prime_of_plane self.old) (digits_of self.old) result (digits_of other.now))
            self.new }
    {
        match (self, other) {
            (Plane::Bits(plane), Plane::Bits(other)) => cancel_bits(plane, index, start, other),
            (Plane::Trits(plane), Plane::Trits(other)) => cancel_trits(plane, index, start, other),
            (Plane::Bytes(plane), Plane::Bytes(other)) => plane.cancel(index, start, other),
            // Two planes modulo one prime are of one kind.
            _ => unreachable!(),
        }
    }

    /// Adds an entry of each of four tables modulo the same prime, whose entries have this plane's length, in one pass.
    /// The numbers of the entries stand in the tables' order.
    #[inline(always)]
    pub fn add_four_entries(
        &mut self,
        entries: [usize; 4],
        a: &PlaneTable,
        b: &PlaneTable,
        c: &PlaneTable,
        d: &PlaneTable,
    )
        requires a { IsEntryFor self.old a.now (slice_index entries 0) }
        requires b { IsEntryFor self.old b.now (slice_index entries 1) }
        requires c { IsEntryFor self.old c.now (slice_index entries 2) }
        requires d { IsEntryFor self.old d.now (slice_index entries 3) }
        ensures { IsPlane (prime_of_plane self.old) (digits_with_four (prime_of_plane self.old) (digits_of self.old)
            (digits_of (plane_at a.now (slice_index entries 0))) (digits_of (plane_at b.now (slice_index entries 1)))
            (digits_of (plane_at c.now (slice_index entries 2))) (digits_of (plane_at d.now (slice_index entries 3))))
            self.new }
    {
        match self {
            Plane::Bits(plane) => {
                let (a, b) = (a.words_of(entries[0]), b.words_of(entries[1]));
                let (c, d) = (c.words_of(entries[2]), d.words_of(entries[3]));
                plane.add_four(a, b, c, d);
            }
            Plane::Trits(plane) => {
                let (a, b) = (a.layers_of(entries[0]), b.layers_of(entries[1]));
                let (c, d) = (c.layers_of(entries[2]), d.layers_of(entries[3]));
                plane.add_four(a, b, c, d);
            }
            Plane::Bytes(plane) => {
                let (a, b) = (a.bytes_of(entries[0]), b.bytes_of(entries[1]));
                let (c, d) = (c.bytes_of(entries[2]), d.bytes_of(entries[3]));
                plane.add_four(a, b, c, d);
            }
        }
    }

    /// Adds four other planes modulo the same prime and of the same length, in one pass.
    #[inline(always)]
    pub fn add_four(&mut self, a: &Plane, b: &Plane, c: &Plane, d: &Plane)
        requires a { IsAddend self.old a.now }
        requires b { IsAddend self.old b.now }
        requires c { IsAddend self.old c.now }
        requires d { IsAddend self.old d.now }
        ensures { IsPlane (prime_of_plane self.old) (digits_with_four (prime_of_plane self.old) (digits_of self.old)
            (digits_of a.now) (digits_of b.now) (digits_of c.now) (digits_of d.now)) self.new }
    {
        match self {
            Plane::Bits(plane) => plane.add_four(a.words(), b.words(), c.words(), d.words()),
            Plane::Trits(plane) => plane.add_four(a.layers(), b.layers(), c.layers(), d.layers()),
            Plane::Bytes(plane) => plane.add_four(a.bytes(), b.bytes(), c.bytes(), d.bytes()),
        }
    }

    /// Adds multiples of four other planes modulo the same prime and of the same length, by factors other than 0, in
    /// one pass.
    #[inline]
    pub fn add_four_multiples(
        &mut self,
        factors: [u8; 4],
        a: &Plane,
        b: &Plane,
        c: &Plane,
        d: &Plane,
    )
        requires a { IsAddend self.old a.now }
        requires b { IsAddend self.old b.now }
        requires c { IsAddend self.old c.now }
        requires d { IsAddend self.old d.now }
        requires factors { (i : ℕ) → i < 4 →
            (0 < slice_index factors i) × (slice_index factors i < prime_of_plane self.old) }
        ensures { IsPlane (prime_of_plane self.old)
            (digits_with_multiple (prime_of_plane self.old)
            (digits_with_multiple (prime_of_plane self.old)
            (digits_with_multiple (prime_of_plane self.old)
            (digits_with_multiple (prime_of_plane self.old)
            (digits_of self.old) (slice_index factors 0) (digits_of a.now))
            (slice_index factors 1) (digits_of b.now))
            (slice_index factors 2) (digits_of c.now))
            (slice_index factors 3) (digits_of d.now))
            self.new }
    {
        match self {
            Plane::Bits(plane) => {
                let (a, b) = (a.words(), b.words());
                let (c, d) = (c.words(), d.words());
                plane.add_four(a, b, c, d);
            }
            Plane::Trits(plane) => {
                let (a, b) = (a.multiple_layers(factors[0]), b.multiple_layers(factors[1]));
                let (c, d) = (c.multiple_layers(factors[2]), d.multiple_layers(factors[3]));
                plane.add_four(a, b, c, d);
            }
            Plane::Bytes(plane) => {
                plane.add_four_multiples(factors, a.bytes(), b.bytes(), c.bytes(), d.bytes());
            }
        }
    }

    /// The words of a plane modulo 2.
    #[inline]
    fn words(&self) -> &[u64]
        requires even { prime_of_plane self.now ≡ 2 }
        ensures holds { HoldsBits (length (digits_of self.now)) result.now }
        ensures digits { bits (length (digits_of self.now)) result.now ≡ digits_of self.now }
    {
        match self {
            Plane::Bits(plane) => plane.words(),
            Plane::Trits(_) | Plane::Bytes(_) => unreachable!(),
        }
    }

    /// The words of the two layers of a plane modulo 3, those of the ones first.
    #[inline]
    fn layers(&self) -> (&[u64], &[u64])
        requires three { prime_of_plane self.now ≡ 3 }
        ensures holds { HoldLayers (length (digits_of self.now)) result.0.now result.1.now }
        ensures digits { trits (bits (length (digits_of self.now)) result.0.now)
            (bits (length (digits_of self.now)) result.1.now) ≡ digits_of self.now }
    {
        match self {
            Plane::Trits(plane) => plane.layers(),
            Plane::Bits(_) | Plane::Bytes(_) => unreachable!(),
        }
    }

    /// The words of the two layers of a multiple of a plane modulo 3 by 1 or 2, those of the ones first. Twice a digit
    /// is the digit with its layers exchanged.
    #[inline(always)]
    fn multiple_layers(&self, factor: u8) -> (&[u64], &[u64])
        requires three { prime_of_plane self.now ≡ 3 }
        requires some { 0 < factor }
        requires factor { factor < 3 }
        ensures holds { HoldLayers (length (digits_of self.now)) result.0.now result.1.now }
        ensures digits { trits (bits (length (digits_of self.now)) result.0.now)
            (bits (length (digits_of self.now)) result.1.now) ≡ multiple_modulo 3 factor (digits_of self.now) }
    {
        match self {
            Plane::Trits(plane) => plane.multiple_layers(factor),
            // Planes modulo one prime are of one kind.
            _ => unreachable!(),
        }
    }

    /// The bytes of a plane modulo 5 or 7.
    #[inline]
    fn bytes(&self) -> &[u8]
        requires large { 3 < prime_of_plane self.now }
        ensures value { result.now ≡ digits_of self.now }
        ensures digits { AreDigits (prime_of_plane self.now) result.now }
    {
        match self {
            Plane::Bits(_) | Plane::Trits(_) => unreachable!(),
            Plane::Bytes(plane) => plane.bytes(),
        }
    }

    /// Multiplies each digit by a factor modulo the prime.
    #[inline(always)]
    pub fn scale(&mut self, factor: u8)
        requires { factor < prime_of_plane self.old }
        ensures { IsPlane (prime_of_plane self.old)
            (multiple_modulo (prime_of_plane self.old) factor (digits_of self.old)) self.new }
    {
        match self {
            Plane::Bits(plane) => plane.scale(factor),
            Plane::Trits(plane) => plane.scale(factor),
            Plane::Bytes(plane) => plane.scale(factor),
        }
    }

    /// The sum modulo the prime of the products of digits at one index, for another plane modulo the same prime and of
    /// the same length.
    pub fn dot(&self, other: &Plane) -> u8
        requires prime { prime_of_plane other.now ≡ prime_of_plane self.now }
        requires fits { length (digits_of other.now) ≡ length (digits_of self.now) }
        ensures { result ≡ sum_of_products (digits_of self.now) (digits_of other.now) % prime_of_plane self.now }
    {
        match (self, other) {
            (Plane::Bits(plane), Plane::Bits(other)) => plane.dot(other),
            (Plane::Trits(plane), Plane::Trits(other)) => plane.dot(other),
            (Plane::Bytes(plane), Plane::Bytes(other)) => plane.dot(other),
            // Two planes modulo one prime are of one kind.
            _ => unreachable!(),
        }
    }

    /// The index of the first digit other than 0, or `None` where every digit is 0.
    pub fn first_nonzero(&self) -> Option<usize>
        ensures { MatchOption result (All (λ digit. digit ≡ 0) (digits_of self.now))
            (IsFirstNonzero (digits_of self.now)) }
    {
        match self {
            Plane::Bits(plane) => plane.first_nonzero(),
            Plane::Trits(plane) => plane.first_nonzero(),
            Plane::Bytes(plane) => plane.first_nonzero(),
        }
    }

    /// The index of the first digit other than 0 from an index on, or `None` where every digit from there on is 0.
    #[inline]
    pub fn next_nonzero(&self, start: usize) -> Option<usize>
        ensures { MatchOption result (AreZerosFrom (digits_of self.now) start)
            (IsNextNonzero (digits_of self.now) start) }
    {
        match self {
            Plane::Bits(plane) => plane.next_nonzero(start),
            Plane::Trits(plane) => plane.next_nonzero(start),
            Plane::Bytes(plane) => plane.next_nonzero(start),
        }
    }

    /// Whether every digit is 0.
    pub fn is_zero(&self) -> bool
        ensures { IsTrue result ↔ All (λ digit. digit ≡ 0) (digits_of self.now) }
    {
        match self {
            Plane::Bits(plane) => plane.is_zero(),
            Plane::Trits(plane) => plane.is_zero(),
            Plane::Bytes(plane) => plane.is_zero(),
        }
    }

    /// Whether two planes are equal: one prime, and the same digits.
    pub fn same(&self, other: &Plane) -> bool
        ensures { IsTrue result ↔ (self.now ≡ other.now) }
    {
        match (self, other) {
            (Plane::Bits(plane), Plane::Bits(other)) => plane.same(other),
            (Plane::Trits(plane), Plane::Trits(other)) => plane.same(other),
            (Plane::Bytes(plane), Plane::Bytes(other)) => plane.same(other),
            // Planes of two kinds are not modulo one prime.
            _ => false,
        }
    }
}

/// Adds another plane of the same length, whose digits before `start` are 0, where the digit at an index is 1, and
/// gives that digit, which is its own negative modulo 2.
#[inline]
fn cancel_bits(plane: &mut BitPlane, index: usize, start: usize, other: &BitPlane) -> u8
    requires within { start ≤ length plane.old }
    requires fits { length other.now ≡ length plane.old }
    requires zeros { AreZerosBefore other.now start }
    requires digits { AreDigits 2 plane.old }
    ensures factor { result ≡ negative_modulo 2 (slice_index plane.old index) }
    ensures digit { result < 2 }
    ensures sum { plane.new ≡ digits_with_multiple 2 plane.old result other.now }
{
    let digit = plane.get(index);
    if digit != 0 {
        plane.add_from(start, other);
    }
    digit
}

/// Adds the multiple of another plane of the same length, whose digits before `start` are 0, by the negative modulo 3
/// of the digit at an index, and gives that factor. It stands apart so that `cancel` is short where it is asked most,
/// modulo 2.
#[inline(never)]
fn cancel_trits(plane: &mut TritPlane, index: usize, start: usize, other: &TritPlane) -> u8
    requires within { start ≤ length plane.old }
    requires fits { length other.now ≡ length plane.old }
    requires zeros { AreZerosBefore other.now start }
    requires digits { AreDigits 3 plane.old }
    ensures factor { result ≡ negative_modulo 3 (slice_index plane.old index) }
    ensures digit { result < 3 }
    ensures sum { plane.new ≡ digits_with_multiple 3 plane.old result other.now }
{
    let trit = plane.get(index);
    let factor = (3 - trit) % 3;
    if trit != 0 {
        plane.add_scaled_from(start, factor, other);
    }
    factor
}

/// The plane of the digits that numbers have at a place, 0 or 1, in base 3.
fn trits_of_numbers(alloc: Global, numbers: &[u8], place: u8) -> Result<TritPlane, AllocError>
    requires { place < 2 }
    ensures { IfOk result (λ plane. plane ≡ digits_at 3 place numbers.now) }
{
    let mut digits = Vec::from_slice(alloc, numbers)?;
    match place {
        0 => reduce::<1, 3>(&mut digits),
        // 1, the one place that is left, where a digit counts 3
        _ => reduce::<3, 3>(&mut digits),
    }
    TritPlane::of_digits(alloc, &digits)
}

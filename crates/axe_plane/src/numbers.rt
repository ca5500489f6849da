//! The numbers of pieces of planes, and sums of the entries of tables that they name.
ghost use Rattle.std.specs.Prelude.{ℕ, ◌≡◌, ◌≢◌, ◌+◌, ◌*◌, ◌^◌, ◌<◌, ◌≤◌, length, slice_index};
ghost use Rattle.axe_layer.specs.Digits.{digits_with_four, number_bound, number_from, numbers_from};
ghost use Rattle.axe_layer.specs.Lanes.{in_lanes};
ghost use Rattle.axe_plane.specs.Planes.{prime_of_plane, digits_of, IsPlane};
ghost use Rattle.axe_plane.specs.Tables.{plane_at, IsEntryFor};

use crate::{Plane, PlaneTable};

impl Plane {
    /// Four numbers in a base up to 9, the digits of each being up to eight of the plane's, most significant first:
    /// those of the pieces of `size` digits one after another from an index on, as far as the plane goes.
    #[inline(always)]
    pub fn numbers_from(&self, base: usize, size: usize, at: usize) -> [usize; 4]
        requires base { base ≤ 9 }
        requires short { size ≤ 8 }
        requires counted { at + 4 * size < 2 ^ 64 }
        ensures value { result ≡ numbers_from base size at (digits_of self.now) }
        ensures small { (i : ℕ) → slice_index result i < number_bound }
    {
        match self {
            Plane::Bits(plane) => plane.numbers_from(base, size, at),
            Plane::Trits(_) | Plane::Bytes(_) => self.numbers_modulo_odd(base, size, at),
        }
    }

    /// Four numbers in a base up to 9, each in a lane of 16 bits of a word, the digits of each being one or two of the
    /// plane's, most significant first: those of the pieces of `size` digits one after another from an index on. The
    /// plane is one modulo 2 or 3.
    #[inline(always)]
    pub fn packed_numbers(&self, base: u64, size: usize, at: usize) -> u64
        requires prime { prime_of_plane self.now ≤ 3 }
        requires base { base ≤ 9 }
        requires some { 1 ≤ size }
        requires few { size ≤ 2 }
        requires within { at + 4 * size ≤ length (digits_of self.now) }
        ensures value { result ≡ in_lanes (numbers_from base size at (digits_of self.now)) }
        ensures small { result < 2 ^ 54 }
    {
        match self {
            Plane::Bits(plane) => plane.packed_numbers(base, size, at),
            Plane::Trits(plane) => plane.packed_numbers(base, size, at),
            Plane::Bytes(_) => unreachable!(),
        }
    }

    /// Adds, for each of four pieces of another plane, the entry of a table whose number has the piece's digits in a
    /// base up to 9, most significant first: the pieces have `size` digits each, or those that there are, and stand one
    /// after another from an index on. The tables are modulo this plane's prime, and their entries have its length.
    #[inline(always)]
    pub fn add_pieces(
        &mut self,
        of: &Plane,
        base: usize,
        size: usize,
        at: usize,
        a: &PlaneTable,
        b: &PlaneTable,
        c: &PlaneTable,
        d: &PlaneTable,
    )
        requires base { base ≤ 9 }
        requires short { size ≤ 8 }
        requires counted { at + 4 * size < 2 ^ 64 }
        requires a { IsEntryFor self.old a.now (number_from base size at (digits_of of.now)) }
        requires b { IsEntryFor self.old b.now (number_from base size (at + size) (digits_of of.now)) }
        requires c { IsEntryFor self.old c.now (number_from base size (at + 2 * size) (digits_of of.now)) }
        requires d { IsEntryFor self.old d.now (number_from base size (at + 3 * size) (digits_of of.now)) }
        ensures { IsPlane (prime_of_plane self.old) (digits_with_four (prime_of_plane self.old) (digits_of self.old)
            (digits_of (plane_at a.now (number_from base size at (digits_of of.now))))
            (digits_of (plane_at b.now (number_from base size (at + size) (digits_of of.now))))
            (digits_of (plane_at c.now (number_from base size (at + 2 * size) (digits_of of.now))))
            (digits_of (plane_at d.now (number_from base size (at + 3 * size) (digits_of of.now)))))
            self.new }
    {
        match (&mut *self, of) {
            (Plane::Bits(plane), Plane::Bits(of))
                if base == 2 && size > 0 && at + 4 * size <= of.len() => {
                let (a, b) = (a.bit_table(), b.bit_table());
                let (c, d) = (c.bit_table(), d.bit_table());
                plane.add_pieces(of, size, at, a, b, c, d);
            }
            _ => self.add_pieces_by_numbers(of, base, size, at, a, b, c, d),
        }
    }

    /// Adds what [`Plane::add_pieces`] adds, by the numbers of all four pieces. It stands apart so that the numbers of
    /// most pieces modulo 2 are read and used at once.
    #[inline(never)]
    fn add_pieces_by_numbers(
        &mut self,
        of: &Plane,
        base: usize,
        size: usize,
        at: usize,
        a: &PlaneTable,
        b: &PlaneTable,
        c: &PlaneTable,
        d: &PlaneTable,
    )
        requires base { base ≤ 9 }
        requires short { size ≤ 8 }
        requires counted { at + 4 * size < 2 ^ 64 }
        requires a { IsEntryFor self.old a.now (number_from base size at (digits_of of.now)) }
        requires b { IsEntryFor self.old b.now (number_from base size (at + size) (digits_of of.now)) }
        requires c { IsEntryFor self.old c.now (number_from base size (at + 2 * size) (digits_of of.now)) }
        requires d { IsEntryFor self.old d.now (number_from base size (at + 3 * size) (digits_of of.now)) }
        ensures { IsPlane (prime_of_plane self.old) (digits_with_four (prime_of_plane self.old) (digits_of self.old)
            (digits_of (plane_at a.now (number_from base size at (digits_of of.now))))
            (digits_of (plane_at b.now (number_from base size (at + size) (digits_of of.now))))
            (digits_of (plane_at c.now (number_from base size (at + 2 * size) (digits_of of.now))))
            (digits_of (plane_at d.now (number_from base size (at + 3 * size) (digits_of of.now)))))
            self.new }
    {
        let numbers = of.numbers_from(base, size, at);
        self.add_four_entries(numbers, a, b, c, d);
    }

    /// The numbers that `numbers_from` gives, of a plane modulo an odd prime. It stands apart so that they are read in
    /// few steps modulo 2.
    #[inline(never)]
    fn numbers_modulo_odd(&self, base: usize, size: usize, at: usize) -> [usize; 4]
        requires base { base ≤ 9 }
        requires short { size ≤ 8 }
        requires counted { at + 4 * size < 2 ^ 64 }
        requires odd { prime_of_plane self.now ≢ 2 }
        ensures value { result ≡ numbers_from base size at (digits_of self.now) }
        ensures small { (i : ℕ) → slice_index result i < number_bound }
    {
        match self {
            Plane::Bits(_) => unreachable!(),
            Plane::Trits(plane) => plane.numbers_from(base, size, at),
            Plane::Bytes(plane) => plane.numbers_from(base, size, at),
        }
    }
}

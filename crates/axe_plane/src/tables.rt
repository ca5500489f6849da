//! Tables of planes: flat lists of many planes of one prime and one length.
ghost use Rattle.std.specs.Prelude.{◌≡◌, ◌≢◌, ◌⊎◌, ◌+◌, ◌<◌, ◌≤◌, IfOk, length, replicate, slice_index_or, slice_set, []};
ghost use Rattle.axe_layer.specs.Bits.{bits, HoldsBits};
ghost use Rattle.axe_bits.specs.Combinations.{HaveEntrySums};
ghost use Rattle.axe_bits.specs.Trits.{trits, HoldLayers};
ghost use Rattle.axe_lane.specs.Bytes.{AreDigits};
ghost use Rattle.axe_layer.specs.Digits.{digits_with_multiple};
ghost use Rattle.axe_plane.specs.Planes.{prime_of_plane, digits_of, IsPlane};

use crate::{BytePrime, ByteTable, Plane};
use axe_bits::{BitTable, TritTable};
use std::alloc::{AllocError, Global};

/// A list of planes modulo 2, 3, 5 or 7, its entries, kept in one piece of memory.
#[derive(Drop)]
pub enum PlaneTable {
    /// Modulo 2, each digit a bit.
    Bits(BitTable),
    /// Modulo 3, each digit a bit in one of two layers.
    Trits(TritTable),
    /// Modulo 5 or 7, each digit a byte.
    Bytes(ByteTable),
}

impl PlaneTable {
    ghost use Rattle.axe_plane.specs.Tables.{prime_of_table, entries_of_table, plane_at, IsTable};

    /// The table of `count` planes of `len` zeros modulo 2, 3, 5 or 7. Planes of no digits take no memory.
    pub fn zero(
        alloc: Global,
        prime: u8,
        count: usize,
        len: usize,
    ) -> Result<PlaneTable, AllocError>
        requires { (prime ≡ 2) ⊎ ((prime ≡ 3) ⊎ ((prime ≡ 5) ⊎ (prime ≡ 7))) }
        ensures { IfOk result (IsTable prime (replicate count (replicate len 0))) }
    {
        Ok(match prime {
            2 => PlaneTable::Bits(BitTable::zero(alloc, count, len)?),
            3 => PlaneTable::Trits(TritTable::zero(alloc, count, len)?),
            5 => PlaneTable::Bytes(ByteTable::zero(alloc, BytePrime::Five, count, len)?),
            // 7, the one prime that is left
            _ => PlaneTable::Bytes(ByteTable::zero(alloc, BytePrime::Seven, count, len)?),
        })
    }

    /// Makes an entry a copy of another one.
    pub fn copy_entry(&mut self, to: usize, from: usize)
        requires to { to < length (entries_of_table self.old) }
        requires from { from < length (entries_of_table self.old) }
        ensures { IsTable (prime_of_table self.old)
            (slice_set (entries_of_table self.old) to (slice_index_or (entries_of_table self.old) from [])) self.new }
    {
        match self {
            PlaneTable::Bits(table) => table.copy_entry(to, from),
            PlaneTable::Trits(table) => table.copy_entry(to, from),
            PlaneTable::Bytes(table) => table.copy_entry(to, from),
        }
    }

    /// Makes entry `start` + i, for each i from 1 on that is below `count`, the sum of entry i and entry `start`.
    pub fn put_sums(&mut self, start: usize, count: usize)
        requires some { 1 ≤ count }
        requires earlier { count ≤ start }
        requires within { start + count ≤ length (entries_of_table self.old) }
        ensures prime { prime_of_table self.new ≡ prime_of_table self.old }
        ensures sums { HaveEntrySums (prime_of_table self.old) start count
            (entries_of_table self.old) (entries_of_table self.new) }
    {
        match self {
            PlaneTable::Bits(table) => table.put_sums(start, count),
            PlaneTable::Trits(table) => table.put_sums(start, count),
            PlaneTable::Bytes(table) => table.put_sums(start, count),
        }
    }

    /// Adds a multiple of a plane modulo the same prime to an entry of its length. Nothing is done where the factor is
    /// 0, and then the lengths may differ.
    pub fn add_to_entry(&mut self, to: usize, factor: u8, plane: &Plane)
        requires to { to < length (entries_of_table self.old) }
        requires prime { prime_of_plane plane.now ≡ prime_of_table self.old }
        requires factor { factor < prime_of_table self.old }
        requires fits { factor ≢ 0 → length (digits_of plane.now)
            ≡ length (slice_index_or (entries_of_table self.old) to []) }
        requires digits { AreDigits (prime_of_table self.old) (slice_index_or (entries_of_table self.old) to []) }
        ensures { IsTable (prime_of_table self.old) (slice_set (entries_of_table self.old) to
            (digits_with_multiple (prime_of_table self.old) (slice_index_or (entries_of_table self.old) to [])
            factor (digits_of plane.now)))
            self.new }
    {
        if factor != 0 {
            match (self, plane) {
                (PlaneTable::Bits(table), Plane::Bits(plane)) => table.add_to_entry(to, plane),
                (PlaneTable::Trits(table), Plane::Trits(plane)) => table.add_to_entry(
                    to, factor, plane,
                ),
                (PlaneTable::Bytes(table), Plane::Bytes(plane)) => table.add_to_entry(
                    to, factor, plane,
                ),
                // A table and a plane modulo one prime are of one kind.
                _ => unreachable!(),
            }
        }
    }

    /// Makes an entry an earlier one plus a multiple of a plane modulo the same prime and of that one's length, in one
    /// pass modulo 2. It becomes a copy of the earlier one where the factor is 0, and then the lengths may differ.
    pub fn put_sum(&mut self, to: usize, from: usize, factor: u8, plane: &Plane)
        requires to { to < length (entries_of_table self.old) }
        requires earlier { from < to }
        requires prime { prime_of_plane plane.now ≡ prime_of_table self.old }
        requires factor { factor < prime_of_table self.old }
        requires fits { factor ≢ 0 → length (digits_of plane.now)
            ≡ length (slice_index_or (entries_of_table self.old) from []) }
        requires digits { AreDigits (prime_of_table self.old) (slice_index_or (entries_of_table self.old) from []) }
        ensures { IsTable (prime_of_table self.old) (slice_set (entries_of_table self.old) to
            (digits_with_multiple (prime_of_table self.old) (slice_index_or (entries_of_table self.old) from [])
            factor (digits_of plane.now)))
            self.new }
    {
        match (&mut *self, plane) {
            (PlaneTable::Bits(table), Plane::Bits(plane)) if factor != 0 => {
                table.put_sum(to, from, plane);
            }
            // In two passes: only bits have a sum of two planes in one, and a factor 0 takes the copy alone.
            _ => {
                self.copy_entry(to, from);
                self.add_to_entry(to, factor, plane);
            }
        }
    }

    /// Adds a multiple of an entry to a plane modulo the same prime and of its length. Nothing is done where the factor
    /// is 0, and then the lengths may differ.
    pub fn add_entry(&self, index: usize, factor: u8, plane: &mut Plane)
        requires index { index < length (entries_of_table self.now) }
        requires prime { prime_of_plane (plane_at self.now index) ≡ prime_of_plane plane.old }
        requires factor { factor < prime_of_plane plane.old }
        requires fits { factor ≢ 0 → length (digits_of (plane_at self.now index)) ≡ length (digits_of plane.old) }
        requires digits { AreDigits (prime_of_plane plane.old) (digits_of plane.old) }
        ensures { IsPlane (prime_of_plane plane.old)
            (digits_with_multiple (prime_of_plane plane.old) (digits_of plane.old)
            factor (digits_of (plane_at self.now index)))
            plane.new }
    {
        if factor != 0 {
            match (self, plane) {
                (PlaneTable::Bits(table), Plane::Bits(plane)) => plane.add_words(table.entry(
                    index,
                )),
                (PlaneTable::Trits(table), Plane::Trits(plane)) => table.add_entry(
                    index, factor, plane,
                ),
                (PlaneTable::Bytes(table), Plane::Bytes(plane)) => plane.add_bytes(
                    factor,
                    table.entry(index),
                ),
                // A table and a plane modulo one prime are of one kind.
                _ => unreachable!(),
            }
        }
    }

    /// The table of bits that a table modulo 2 is.
    #[inline(always)]
    pub(crate) fn bit_table(&self) -> &BitTable
        requires even { prime_of_table self.now ≡ 2 }
        ensures entries { result.now ≡ entries_of_table self.now }
    {
        match self {
            PlaneTable::Bits(table) => table,
            PlaneTable::Trits(_) | PlaneTable::Bytes(_) => unreachable!(),
        }
    }

    /// The words of an entry of a table modulo 2.
    #[inline]
    pub(crate) fn words_of(&self, index: usize) -> &[u64]
        requires index { index < length (entries_of_table self.now) }
        requires even { prime_of_table self.now ≡ 2 }
        ensures holds { HoldsBits (length (digits_of (plane_at self.now index))) result.now }
        ensures digits { bits (length (digits_of (plane_at self.now index))) result.now
            ≡ digits_of (plane_at self.now index) }
    {
        match self {
            PlaneTable::Bits(table) => table.entry(index),
            PlaneTable::Trits(_) | PlaneTable::Bytes(_) => unreachable!(),
        }
    }

    /// The words of the two layers of an entry of a table modulo 3, those of the ones first.
    #[inline]
    pub(crate) fn layers_of(&self, index: usize) -> (&[u64], &[u64])
        requires index { index < length (entries_of_table self.now) }
        requires three { prime_of_table self.now ≡ 3 }
        ensures holds { HoldLayers (length (digits_of (plane_at self.now index))) result.0.now result.1.now }
        ensures digits { trits (bits (length (digits_of (plane_at self.now index))) result.0.now)
            (bits (length (digits_of (plane_at self.now index))) result.1.now) ≡ digits_of (plane_at self.now index) }
    {
        match self {
            PlaneTable::Trits(table) => table.entry(index),
            PlaneTable::Bits(_) | PlaneTable::Bytes(_) => unreachable!(),
        }
    }

    /// The bytes of an entry of a table modulo 5 or 7.
    #[inline]
    pub(crate) fn bytes_of(&self, index: usize) -> &[u8]
        requires index { index < length (entries_of_table self.now) }
        requires large { 3 < prime_of_table self.now }
        ensures value { result.now ≡ digits_of (plane_at self.now index) }
        ensures digits { AreDigits (prime_of_table self.now) result.now }
    {
        match self {
            PlaneTable::Bits(_) | PlaneTable::Trits(_) => unreachable!(),
            PlaneTable::Bytes(table) => table.entry(index),
        }
    }
}

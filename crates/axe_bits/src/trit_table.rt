//! Tables of planes of digits modulo 3.
ghost use Rattle.std.specs.Prelude.{◌≡◌, ◌+◌, ◌<◌, ◌≤◌, IfOk, [], length, replicate, slice_index_or, slice_set};
ghost use Rattle.axe_bits.specs.Combinations.{HaveEntrySums};
ghost use Rattle.axe_bits.specs.Trits.{trits, HoldLayers};
ghost use Rattle.axe_layer.specs.Bits.{bits};
ghost use Rattle.axe_layer.specs.Digits.{digits_with_multiple};

use crate::bit_table::{add_layers_to_entry, put_layer_sums};
use crate::{BitTable, TritPlane};
use std::alloc::{AllocError, Global};
use std::marker::Model;

/// A list of planes of one length modulo 3, its entries: the layers of entry x are entry x of the table of ones and
/// entry x of the table of twos.
#[derive(Drop)]
pub struct TritTable {
    ones: BitTable,
    twos: BitTable,
}

impl Model for TritTable {
    ghost use Rattle.std.specs.Prelude.{ℕ, List};
    ghost use Rattle.axe_bits.specs.Trits.{trit_entries, HoldTritEntries};

    ghost Value = { List (List ℕ) };

    ghost view = { λ a. trit_entries a.ones a.twos };

    ghost invariant = { λ a. HoldTritEntries a.ones a.twos };
}

impl TritTable {
    /// The table of `count` planes of `len` zeros.
    pub fn zero(alloc: Global, count: usize, len: usize) -> Result<TritTable, AllocError>
        ensures { IfOk result (λ table. table ≡ replicate count (replicate len 0)) }
    {
        let ones = BitTable::zero(alloc, count, len)?;
        let twos = BitTable::zero(alloc, count, len)?;
        Ok(TritTable { ones, twos })
    }

    /// Makes an entry a copy of another one.
    pub fn copy_entry(&mut self, to: usize, from: usize)
        requires to { to < length self.old }
        requires from { from < length self.old }
        ensures { self.new ≡ slice_set self.old to (slice_index_or self.old from []) }
    {
        self.ones.copy_entry(to, from);
        self.twos.copy_entry(to, from);
    }

    /// Makes entry `start` + i, for each i from 1 on that is below `count`, the sum of entry i and entry `start`.
    pub fn put_sums(&mut self, start: usize, count: usize)
        requires some { 1 ≤ count }
        requires earlier { count ≤ start }
        requires within { start + count ≤ length self.old }
        ensures { HaveEntrySums 3 start count self.old self.new }
    {
        put_layer_sums(&mut self.ones, &mut self.twos, start, count);
    }

    /// Adds a multiple of a plane to an entry of its length.
    pub fn add_to_entry(&mut self, to: usize, factor: u8, plane: &TritPlane)
        requires to { to < length self.old }
        requires factor { factor < 3 }
        requires fits { length plane.now ≡ length (slice_index_or self.old to []) }
        ensures { self.new
            ≡ slice_set self.old to (digits_with_multiple 3 (slice_index_or self.old to []) factor plane.now) }
    {
        let (ones, twos) = plane.layers();
        match factor {
            0 => {}
            1 => add_layers_to_entry(&mut self.ones, &mut self.twos, to, ones, twos),
            _ => add_layers_to_entry(&mut self.ones, &mut self.twos, to, twos, ones),
        }
    }

    /// Adds a multiple of an entry to a plane of its length.
    #[inline]
    pub fn add_entry(&self, index: usize, factor: u8, plane: &mut TritPlane)
        requires index { index < length self.now }
        requires factor { factor < 3 }
        requires fits { length (slice_index_or self.now index []) ≡ length plane.old }
        ensures { plane.new ≡ digits_with_multiple 3 plane.old factor (slice_index_or self.now index []) }
    {
        let (ones, twos) = self.entry(index);
        plane.add_layers(0, factor, ones, twos);
    }

    /// The words of the two layers of an entry, those of the ones first.
    #[inline]
    pub fn entry(&self, index: usize) -> (&[u64], &[u64])
        requires { index < length self.now }
        ensures holds { HoldLayers (length (slice_index_or self.now index [])) result.0.now result.1.now }
        ensures digits { trits (bits (length (slice_index_or self.now index [])) result.0.now)
            (bits (length (slice_index_or self.now index [])) result.1.now) ≡ slice_index_or self.now index [] }
    {
        (self.ones.entry(index), self.twos.entry(index))
    }
}

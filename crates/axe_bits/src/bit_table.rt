//! Tables of planes of digits modulo 2.
ghost use Rattle.std.specs.Prelude.{ℕ, List, ◌≡◌, ◌+◌, ◌<◌, ◌≤◌, IfOk, [], length, replicate, slice_index_or, slice_set};
ghost use Rattle.axe_layer.specs.Bits.{bits, HoldsBits};
ghost use Rattle.axe_layer.specs.Digits.{digits_with_multiple};
ghost use Rattle.axe_bits.specs.Combinations.{HaveEntryCopies, HaveEntrySums};
ghost use Rattle.axe_bits.specs.Trits.{trits, trit_entries, HoldLayers, HoldTritEntries};

use crate::BitPlane;
use crate::pieces::start_of;
use axe_lane::{WORD, add_trits, put_xor, xor_into};
use std::alloc::{AllocError, Global};
use std::marker::Model;

/// A list of planes of one length modulo 2, its entries: entry x has the words from x w on, where w, the width, is how
/// many words a plane has.
#[derive(Drop)]
pub struct BitTable {
    len: usize,
    width: usize,
    count: usize,
    words: Vec<u64>,
}

impl Model for BitTable {
    ghost use Rattle.std.specs.Prelude.{ℕ, List};
    ghost use Rattle.axe_bits.specs.FlatTables.{bit_entries, HoldsEntries};

    ghost Value = { List (List ℕ) };

    ghost view = { λ a. bit_entries a.len a.width a.count a.words.items };

    ghost invariant = { λ a. HoldsEntries a.len a.width a.count a.words.items };
}

impl BitTable {
    /// The table of `count` planes of `len` zeros.
    pub fn zero(alloc: Global, count: usize, len: usize) -> Result<BitTable, AllocError>
        ensures { IfOk result (λ table. table ≡ replicate count (replicate len 0)) }
    {
        let width = len.div_ceil(WORD);
        let all = count.checked_mul(width).ok_or(AllocError)?;
        let words = vec![in alloc; 0; all]?;
        Ok(BitTable {
            len,
            width,
            count,
            words,
        })
    }

    /// The words of an entry.
    #[inline]
    pub fn entry(&self, index: usize) -> &[u64]
        requires { index < length self.now }
        ensures holds { HoldsBits (length (slice_index_or self.now index [])) result.now }
        ensures digits { bits (length (slice_index_or self.now index [])) result.now
            ≡ slice_index_or self.now index [] }
    {
        let start = start_of(index, self.width, self.count);
        &self.words[start..start + self.width]
    }

    /// Makes an entry a copy of another one.
    pub fn copy_entry(&mut self, to: usize, from: usize)
        requires to { to < length self.old }
        requires from { from < length self.old }
        ensures { self.new ≡ slice_set self.old to (slice_index_or self.old from []) }
    {
        let source = start_of(from, self.width, self.count);
        let start = start_of(to, self.width, self.count);
        self.words.copy_within(source..source + self.width, start);
    }

    /// Adds a plane to an entry of its length.
    pub fn add_to_entry(&mut self, to: usize, plane: &BitPlane)
        requires to { to < length self.old }
        requires fits { length plane.now ≡ length (slice_index_or self.old to []) }
        ensures { self.new
            ≡ slice_set self.old to (digits_with_multiple 2 (slice_index_or self.old to []) 1 plane.now) }
    {
        let start = start_of(to, self.width, self.count);
        xor_into(&mut self.words[start..start + self.width], plane.words());
    }

    /// Makes an entry the sum of an earlier one and a plane of its length, in one pass.
    pub fn put_sum(&mut self, to: usize, from: usize, plane: &BitPlane)
        requires to { to < length self.old }
        requires earlier { from < to }
        requires fits { length plane.now ≡ length (slice_index_or self.old from []) }
        ensures { self.new
            ≡ slice_set self.old to (digits_with_multiple 2 (slice_index_or self.old from []) 1 plane.now) }
    {
        let (width, source) = (self.width, start_of(from, self.width, self.count));
        let start = start_of(to, width, self.count);
        let (before, after) = self.words.split_at_mut(start);
        put_xor(
            &mut after[..width],
            &before[source..source + width],
            plane.words(),
        );
    }
}

impl BitTable {
    /// Makes entry `start` + i, for each i from 1 on that is below `count`, the sum of entry i and entry `start`.
    pub fn put_sums(&mut self, start: usize, count: usize)
        requires some { 1 ≤ count }
        requires earlier { count ≤ start }
        requires within { start + count ≤ length self.old }
        ensures { HaveEntrySums 2 start count self.old self.new }
    {
        for index in 1..count {
            self.put_entry_sum(start, index);
        }
    }

    /// Makes entry `start` + `index` the sum of entry `index` and entry `start`, in one pass.
    #[inline]
    fn put_entry_sum(&mut self, start: usize, index: usize)
        requires some { 1 ≤ index }
        requires earlier { index < start }
        requires within { start + index < length self.old }
        ensures { self.new ≡ slice_set self.old (start + index)
            (digits_with_multiple 2 (slice_index_or self.old index []) 1 (slice_index_or self.old start [])) }
    {
        let width = self.width;
        let one = start_of(index, width, self.count);
        let other = start_of(start, width, self.count);
        let to = start_of(start + index, width, self.count);
        let (before, after) = self.words.split_at_mut(to);
        put_xor(
            &mut after[..width],
            &before[one..one + width],
            &before[other..other + width],
        );
    }

    /// Makes entry `start` + i, for each i from 1 on that is below `count`, a copy of entry i.
    fn copy_entries(&mut self, start: usize, count: usize)
        requires some { 1 ≤ count }
        requires earlier { count ≤ start }
        requires within { start + count ≤ length self.old }
        ensures { HaveEntryCopies start count self.old self.new }
    {
        let width = self.width;
        let first = start_of(start, width, self.count);
        self.words.copy_within(width..count * width, first + width);
    }
}

/// Makes the digits modulo 3 of entry `start` + i of two tables of layers, for each i from 1 on that is below `count`,
/// the sums of those of entry i and entry `start`.
pub(crate) fn put_layer_sums(ones: &mut BitTable, twos: &mut BitTable, start: usize, count: usize)
    requires some { 1 ≤ count }
    requires earlier { count ≤ start }
    requires within { start + count ≤ length ones.old }
    requires entries { HoldTritEntries ones.old twos.old }
    ensures holds { HoldTritEntries ones.new twos.new }
    ensures sums { HaveEntrySums 3 start count (trit_entries ones.old twos.old) (trit_entries ones.new twos.new) }
{
    ones.copy_entries(start, count);
    twos.copy_entries(start, count);
    for index in 1..count {
        add_layers_to_later(ones, twos, start, index);
    }
}

/// Adds the digits modulo 3 of entry `start` of two tables of layers to those of entry `start` + `index`.
#[inline]
fn add_layers_to_later(ones: &mut BitTable, twos: &mut BitTable, start: usize, index: usize)
    requires some { 1 ≤ index }
    requires within { start + index < length ones.old }
    requires entries { HoldTritEntries ones.old twos.old }
    ensures holds { HoldTritEntries ones.new twos.new }
    ensures digits { trit_entries ones.new twos.new ≡ slice_set (trit_entries ones.old twos.old) (start + index)
        (digits_with_multiple 3 (slice_index_or (trit_entries ones.old twos.old) (start + index) []) 1
        (slice_index_or (trit_entries ones.old twos.old) start [])) }
{
    let (width, wide) = (ones.width, twos.width);
    let one = start_of(start, width, ones.count);
    let two = start_of(start, wide, twos.count);
    let to_one = start_of(start + index, width, ones.count);
    let to_two = start_of(start + index, wide, twos.count);
    let (ones_before, ones_after) = ones.words.split_at_mut(to_one);
    let (twos_before, twos_after) = twos.words.split_at_mut(to_two);
    add_trits(
        &mut ones_after[..width],
        &mut twos_after[..wide],
        &ones_before[one..one + width],
        &twos_before[two..two + wide],
    );
}

/// Adds the digits modulo 3 that two layers hold to those of the entries at one index of two tables: each digit becomes
/// the sum modulo 3.
pub(crate) fn add_layers_to_entry(
    ones: &mut BitTable,
    twos: &mut BitTable,
    to: usize,
    more_ones: &[u64],
    more_twos: &[u64],
)
    requires to { to < length ones.old }
    requires entries { HoldTritEntries ones.old twos.old }
    requires more { HoldLayers (length (slice_index_or ones.old to [])) more_ones.now more_twos.now }
    ensures holds { HoldTritEntries ones.new twos.new }
    ensures digits { trit_entries ones.new twos.new ≡ slice_set (trit_entries ones.old twos.old) to
        (digits_with_multiple 3 (slice_index_or (trit_entries ones.old twos.old) to []) 1
        (trits (bits (length (slice_index_or ones.old to [])) more_ones.now)
        (bits (length (slice_index_or ones.old to [])) more_twos.now))) }
{
    let (start, second) = (
        start_of(to, ones.width, ones.count),
        start_of(to, twos.width, twos.count),
    );
    add_trits(
        &mut ones.words[start..start + ones.width],
        &mut twos.words[second..second + twos.width],
        more_ones,
        more_twos,
    );
}

//! Tables of planes of digits modulo 5 or 7.
ghost use Rattle.std.specs.Prelude.{◌≡◌, ◌+◌, ◌<◌, ◌≤◌, IfOk, [], length, replicate, slice_index_or, slice_set};
ghost use Rattle.axe_bits.specs.Combinations.{HaveEntryCopies, HaveEntrySums};
ghost use Rattle.axe_lane.specs.Bytes.{AreDigits};
ghost use Rattle.axe_layer.specs.Digits.{digits_with_multiple};
ghost use Rattle.axe_plane.specs.Primes.{byte_prime, ByteEntries};

use crate::{BytePlane, BytePrime};
use axe_bits::start_of;
use axe_lane::add_scaled_bytes;
use std::alloc::{AllocError, Global};
use std::marker::Model;

/// A list of planes of one length modulo 5 or 7, its entries: entry x has the bytes from x n on, where n is the
/// length.
#[derive(Drop)]
pub struct ByteTable {
    prime: BytePrime,
    len: usize,
    count: usize,
    bytes: Vec<u8>,
}

impl Model for ByteTable {
    ghost use Rattle.axe_plane.specs.FlatTables.{byte_entries, HoldsDigits};
    ghost use Rattle.axe_plane.specs.Primes.{byte_prime, ByteEntries};

    ghost Value = { ByteEntries };

    ghost view = { λ a. record { prime = a.prime; entries = byte_entries a.len a.count a.bytes.items } };

    ghost invariant = { λ a. HoldsDigits (byte_prime a.prime) a.len a.count a.bytes.items };
}

impl ByteTable {
    /// The table of `count` planes of `len` zeros.
    pub fn zero(
        alloc: Global,
        prime: BytePrime,
        count: usize,
        len: usize,
    ) -> Result<ByteTable, AllocError>
        ensures { IfOk result (λ table. table ≡ record { prime = prime; entries = replicate count (replicate len 0) }) }
    {
        let all = count.checked_mul(len).ok_or(AllocError)?;
        let bytes = vec![in alloc; 0; all]?;
        Ok(ByteTable {
            prime,
            len,
            count,
            bytes,
        })
    }

    /// The digits of an entry.
    #[inline]
    pub fn entry(&self, index: usize) -> &[u8]
        requires { index < length self.now.entries }
        ensures value { result.now ≡ slice_index_or self.now.entries index [] }
        ensures digits { AreDigits (byte_prime self.now.prime) result.now }
    {
        let start = start_of(index, self.len, self.count);
        &self.bytes[start..start + self.len]
    }

    /// Makes an entry a copy of another one.
    pub fn copy_entry(&mut self, to: usize, from: usize)
        requires to { to < length self.old.entries }
        requires from { from < length self.old.entries }
        ensures { self.new
            ≡ record self.old { entries = slice_set self.old.entries to (slice_index_or self.old.entries from []) } }
    {
        let source = start_of(from, self.len, self.count);
        let start = start_of(to, self.len, self.count);
        self.bytes.copy_within(source..source + self.len, start);
    }

    /// Makes entry `start` + i, for each i from 1 on that is below `count`, the sum of entry i and entry `start`.
    pub fn put_sums(&mut self, start: usize, count: usize)
        requires some { 1 ≤ count }
        requires earlier { count ≤ start }
        requires within { start + count ≤ length self.old.entries }
        ensures prime { self.new.prime ≡ self.old.prime }
        ensures sums { HaveEntrySums (byte_prime self.old.prime) start count self.old.entries self.new.entries }
    {
        self.copy_entries(start, count);
        for index in 1..count {
            self.add_to_later(start, index);
        }
    }

    /// Adds a multiple of a plane to an entry of its length.
    pub fn add_to_entry(&mut self, to: usize, factor: u8, plane: &BytePlane)
        requires to { to < length self.old.entries }
        requires prime { plane.now.prime ≡ self.old.prime }
        requires factor { factor < byte_prime self.old.prime }
        requires fits { length plane.now.digits ≡ length (slice_index_or self.old.entries to []) }
        ensures { self.new ≡ record self.old {
          entries = slice_set self.old.entries to
              (digits_with_multiple (byte_prime self.old.prime) (slice_index_or self.old.entries to [])
              factor plane.now.digits);
        } }
    {
        let prime = self.prime.number();
        let start = start_of(to, self.len, self.count);
        add_scaled_bytes(
            &mut self.bytes[start..start + self.len],
            plane.bytes(),
            factor,
            prime,
        );
    }
}

impl ByteTable {
    /// Makes entry `start` + i, for each i from 1 on that is below `count`, a copy of entry i.
    fn copy_entries(&mut self, start: usize, count: usize)
        requires some { 1 ≤ count }
        requires earlier { count ≤ start }
        requires within { start + count ≤ length self.old.entries }
        ensures prime { self.new.prime ≡ self.old.prime }
        ensures copies { HaveEntryCopies start count self.old.entries self.new.entries }
    {
        let len = self.len;
        let first = start_of(start, len, self.count);
        self.bytes.copy_within(len..count * len, first + len);
    }

    /// Adds entry `start` to entry `start` + `index`.
    #[inline]
    fn add_to_later(&mut self, start: usize, index: usize)
        requires some { 1 ≤ index }
        requires within { start + index < length self.old.entries }
        ensures prime { self.new.prime ≡ self.old.prime }
        ensures sum { self.new.entries ≡ slice_set self.old.entries (start + index)
            (digits_with_multiple (byte_prime self.old.prime) (slice_index_or self.old.entries (start + index) []) 1
            (slice_index_or self.old.entries start [])) }
    {
        let modulus = self.prime.number();
        let len = self.len;
        let from = start_of(start, len, self.count);
        let to = start_of(start + index, len, self.count);
        let (before, after) = self.bytes.split_at_mut(to);
        add_scaled_bytes(&mut after[..len], &before[from..from + len], 1, modulus);
    }
}

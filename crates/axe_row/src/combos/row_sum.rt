//! Sums of rows over the fields of 5 and 7 elements, whose remainders are not taken yet.
ghost use Rattle.std.specs.Prelude.{ℕ, ◌≡◌, ◌+◌, ◌*◌, ◌^◌, ◌<◌, ◌≤◌, [], None, IfSome, MatchOption};
ghost use Rattle.std.specs.Prelude.{length, replicate, slice_index};
ghost use Rattle.axe_field.specs.Order.{IsElement};
ghost use Rattle.axe_lane.specs.Entries.{AreZerosBefore, AreZerosFrom};
ghost use Rattle.axe_layer.specs.Supports.{restricted};
ghost use Rattle.axe_row.specs.Addends.{IsRowAddend};
ghost use Rattle.axe_row.specs.BitBlocks.{bits_after, bits_of_word};
ghost use Rattle.axe_row.specs.EntryWords.{entries_in_word};
ghost use Rattle.axe_row.specs.FoundEntries.{IsNextEntry};
ghost use Rattle.axe_row.specs.Combinations.{combination_at, row_with_four, IsRowFor};
ghost use Rattle.axe_row.specs.Operations.{row_with_multiple};
ghost use Rattle.axe_row.specs.Refusals.{Answers};
ghost use Rattle.axe_row.specs.Rows.{IsRow};
ghost use Rattle.axe_row.specs.Sums.{HasSums, placed_row};

use crate::{Combos, Refusal, Row};
use axe_field::Field;
use axe_lane::WORD;
use axe_layer::next_in_word;
use axe_plane::ByteSums;
use std::alloc::Global;
use std::marker::Model;

/// A row over the field of 5 or of 7 elements to which others are added: the remainders of its entries are taken only
/// where a byte has no more room, when it is added to a row, and when it becomes one.
#[derive(Drop)]
pub struct RowSum {
    field: Field,
    sums: ByteSums,
}

impl Model for RowSum {
    ghost use Rattle.std.specs.Prelude.{None, length};
    ghost use Rattle.axe_plane.specs.Planes.{digits_of};
    ghost use Rattle.axe_plane.specs.Sums.{plane_of_sums};
    ghost use Rattle.axe_row.specs.HigherPlanes.{linear_of, quadratic_of, AreKeptPlanes};
    ghost use Rattle.axe_row.specs.Planes.{entries_of_digits};
    ghost use Rattle.axe_row.specs.Rows.{RowValue};

    ghost Value = { RowValue };

    ghost view = { λ a. record {
      order = a.field;
      entries = entries_of_digits a.field a.sums.digits (digits_of (linear_of a.field None))
          (digits_of (quadratic_of a.field None));
    } };

    ghost invariant = { λ a. AreKeptPlanes a.field (length a.sums.digits) (plane_of_sums a.sums) None };
}

impl RowSum {
    /// The sum of no rows of `len` entries over the field of 5 or of 7 elements.
    pub fn zero(alloc: Global, field: Field, len: usize) -> Result<RowSum, Refusal>
        requires { HasSums field }
        ensures zeros { Answers None (λ sum. sum ≡ record { order = field; entries = replicate len 0 }) result }
        ensures well_formed { Answers None IsRow result }
    {
        let sums = ByteSums::zero(alloc, field.prime(), len)?;
        Ok(RowSum { field, sums })
    }

    /// The entries of a row over the field of 5 or of 7 elements as a sum, without a copy. The row has none left.
    pub fn take(row: &mut Row) -> RowSum
        requires { HasSums row.old.order }
        ensures value { result ≡ row.old }
        ensures left { row.new ≡ record { order = row.old.order; entries = [] } }
        ensures well_formed { IsRow result }
    {
        let field = row.field;
        let sums = ByteSums::take(&mut row.constant);
        RowSum { field, sums }
    }

    /// The row that the sum is, without a copy.
    pub fn into_row(self) -> Row
        ensures value { result ≡ self }
        ensures well_formed { IsRow result }
    {
        let RowSum { field, sums } = self;
        let plane = sums.into_plane();
        Row::of_plane(field, plane)
    }

    /// The place of the first entry other than 0 in the word at an index, among the places where a word has a 1, counted
    /// from 0, and that entry, as [`Row::next_in_word`] finds it; `None` where every one of these is 0. The word keeps
    /// the ones after that place alone.
    #[inline(always)]
    pub fn next_in_word(&self, at: usize, places: &mut u64) -> Option<(usize, u8)>
        requires counted { at * 64 + 64 ≤ 2 ^ 64 }
        ensures found { MatchOption result
            (AreZerosFrom (restricted (bits_of_word places.old) (entries_in_word self.now.entries at)) 0)
            (λ found. IsNextEntry (bits_of_word places.old) (entries_in_word self.now.entries at) 0 found.0 found.1) }
        ensures rest { IfSome result (λ found. bits_of_word places.new ≡ bits_after places.old found.0) }
        ensures element { IfSome result (λ found. IsElement self.now.order found.1) }
    {
        while let Some(place) = next_in_word(*places, 0) {
            *places &= u64::MAX - 1 << place;
            let entry = self.sums.digit(at * WORD + place);
            if entry != 0 {
                return Some((place, entry));
            }
        }
        None
    }

    /// Adds a multiple of a row over the same field and of the same length, whose entries before an index are 0, as
    /// [`Row::add_scaled_from`] does.
    #[inline(always)]
    pub fn add_scaled_from(&mut self, start: usize, scalar: u8, other: &Row)
        requires within { start ≤ length self.old.entries }
        requires field { other.now.order ≡ self.old.order }
        requires fits { length other.now.entries ≡ length self.old.entries }
        requires element { IsElement self.old.order scalar }
        requires zeros { AreZerosBefore other.now.entries start }
        ensures sum { self.new ≡ row_with_multiple self.old scalar other.now }
        ensures as_long { length self.new.entries ≡ length self.old.entries }
        ensures well_formed { IsRow self.new }
    {
        self.sums.add_scaled_from(start, scalar, &other.constant);
    }

    /// Adds multiples of four rows over the same field and of the same length, in one pass, as
    /// [`Row::add_four_multiples`] does.
    #[inline(always)]
    pub fn add_four_multiples(&mut self, factors: [u8; 4], a: &Row, b: &Row, c: &Row, d: &Row)
        requires a { IsRowAddend self.old a.now }
        requires b { IsRowAddend self.old b.now }
        requires c { IsRowAddend self.old c.now }
        requires d { IsRowAddend self.old d.now }
        requires factors { (i : ℕ) → i < 4 → IsElement self.old.order (slice_index factors i) }
        ensures sum { self.new ≡ row_with_multiple (row_with_multiple (row_with_multiple
            (row_with_multiple self.old (slice_index factors 0) a.now)
            (slice_index factors 1) b.now) (slice_index factors 2) c.now) (slice_index factors 3) d.now }
        ensures as_long { length self.new.entries ≡ length self.old.entries }
        ensures well_formed { IsRow self.new }
    {
        self.sums.add_four_multiples(factors, &a.constant, &b.constant, &c.constant, &d.constant);
    }

    /// Adds the rows of four tables at these indices, as [`Row::add_four`] does.
    pub fn add_four(&mut self, indices: [usize; 4], a: &Combos, b: &Combos, c: &Combos, d: &Combos)
        requires a { IsRowFor self.old a.now (slice_index indices 0) }
        requires b { IsRowFor self.old b.now (slice_index indices 1) }
        requires c { IsRowFor self.old c.now (slice_index indices 2) }
        requires d { IsRowFor self.old d.now (slice_index indices 3) }
        ensures sum { self.new ≡ row_with_four self.old
            (combination_at a.now (slice_index indices 0)) (combination_at b.now (slice_index indices 1))
            (combination_at c.now (slice_index indices 2)) (combination_at d.now (slice_index indices 3)) }
        ensures as_long { length self.new.entries ≡ length self.old.entries }
        ensures well_formed { IsRow self.new }
    {
        self.sums.add_four_entries(indices, &a.constant, &b.constant, &c.constant, &d.constant);
    }

    /// Adds the sum to the entries from an index on of a row over the same field. The sum stays.
    pub fn add_to(&mut self, row: &mut Row, start: usize)
        requires field { self.old.order ≡ row.old.order }
        requires within { start + length self.old.entries ≤ length row.old.entries }
        ensures sum { row.new ≡ row_with_multiple row.old 1 (placed_row (length row.old.entries) start self.old) }
        ensures as_long { length row.new.entries ≡ length row.old.entries }
        ensures well_formed { IsRow row.new }
        ensures kept { self.new ≡ self.old }
    {
        self.sums.add_to(&mut row.constant, start);
    }
}

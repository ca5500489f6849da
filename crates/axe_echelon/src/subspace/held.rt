//! Vectors of few words over fields of characteristic 2 and 3 from which the pivots of a subspace are cleared: each is
//! held in registers meanwhile.
ghost use Rattle.std.specs.Prelude.{ℕ, ◌≡◌, ◌+◌, ◌*◌, ◌/◌, ◌<◌, ◌≤◌, length, replicate, slice_index};
ghost use Rattle.axe_algebra.specs.SpansOfLists.{IsRepresentative};
ghost use Rattle.axe_field.specs.Arithmetic.{field_neg};
ghost use Rattle.axe_field.specs.NumberFields.{number_field};
ghost use Rattle.axe_field.specs.Order.{IsElement, Order, order_number, prime_of};
ghost use Rattle.axe_row.specs.Rows.{IsRow, RowValue};
ghost use Rattle.axe_echelon.specs.Subspaces.{IsCleared, IsClearedBelow, IsReducedBelow};

use super::Subspace;
use axe_lane::WORD;
use axe_matrix::Row;
use axe_row::HeldRow;

/// The most columns of a subspace over a field of characteristic 3 for which vectors are held.
pub(super) const HELD_COLUMNS_OF_TRITS: usize = 3 * WORD;

/// The most columns of a subspace for which vectors are held.
pub(super) const HELD_COLUMNS: usize = 4 * WORD;

impl Subspace {
    /// What [`Subspace::reduce`] does, over a field of Q elements, of characteristic 2 or 3, where there are at most
    /// [`HELD_COLUMNS`] columns.
    pub(super) fn reduce_held<const Q: u8>(&self, row: &mut Row)
        requires order { order_number self.now.order ≡ Q }
        requires characteristic { prime_of self.now.order ≤ 3 }
        requires narrow { self.now.cols ≤ 4 * 64 }
        requires field { row.old.order ≡ self.now.order }
        requires fits { length row.old.entries ≡ self.now.cols }
        requires elements { IsRow row.old }
        ensures representative { IsRepresentative (number_field self.now.order) self.now.rows
            row.old.entries row.new.entries }
        ensures same_field { row.new.order ≡ self.now.order }
        ensures as_long { length row.new.entries ≡ self.now.cols }
        ensures row_well_formed { IsRow row.new }
    {
        match self.cols.div_ceil(WORD) {
            1 => self.reduce_held_in::<Q, 1>(row),
            2 => self.reduce_held_in::<Q, 2>(row),
            3 => self.reduce_held_in::<Q, 3>(row),
            _ => self.reduce_held_in::<Q, 4>(row),
        }
    }

    /// The same, where each plane of a vector has W words.
    #[inline(never)]
    fn reduce_held_in<const Q: u8, const W: usize>(&self, row: &mut Row)
        requires order { order_number self.now.order ≡ Q }
        requires characteristic { prime_of self.now.order ≤ 3 }
        requires words { (self.now.cols + 63) / 64 ≡ W }
        requires few { W ≤ 4 }
        requires field { row.old.order ≡ self.now.order }
        requires fits { length row.old.entries ≡ self.now.cols }
        requires elements { IsRow row.old }
        ensures representative { IsRepresentative (number_field self.now.order) self.now.rows
            row.old.entries row.new.entries }
        ensures same_field { row.new.order ≡ self.now.order }
        ensures as_long { length row.new.entries ≡ self.now.cols }
        ensures row_well_formed { IsRow row.new }
    {
        let mut held = row.hold::<Q, W>();
        // One after the other, each index a constant: so the blocks stay in registers.
        self.clear_word_of_held::<Q, W>(&mut held, 0);
        self.clear_word_of_held::<Q, W>(&mut held, 1);
        self.clear_word_of_held::<Q, W>(&mut held, 2);
        self.clear_word_of_held::<Q, W>(&mut held, 3);
        row.put_held::<Q, W>(&held);
    }

    /// Clears the pivots in one word of 64 columns from a vector that is held and is 0 at those before, as
    /// `clear_word_by_block` does from a row. Where there is no such word the vector stays as it is.
    #[inline(always)]
    fn clear_word_of_held<const Q: u8, const W: usize>(&self, held: &mut HeldRow<W>, at: usize)
        requires order { order_number self.now.order ≡ Q }
        requires characteristic { prime_of self.now.order ≤ 3 }
        requires words { (self.now.cols + 63) / 64 ≡ W }
        requires field { held.old.order ≡ self.now.order }
        requires fits { length held.old.entries ≡ self.now.cols }
        ensures reduced { (first : RowValue) → IsReducedBelow self.now (at * 64) first held.old →
            IsReducedBelow self.now (at * 64 + 64) first held.new }
        ensures same_field { held.new.order ≡ self.now.order }
        ensures as_long { length held.new.entries ≡ self.now.cols }
    {
        if at >= W {
            return;
        }
        let negatives = self.field.negatives();
        let mut marks = self.pivots.word(at);
        while let Some((place, entry)) = held.next_in_word::<Q>(at, &mut marks) {
            let pivot = at * WORD + place;
            let block = self.pivots.block_of(pivot);
            let factor = negative_in::<Q>(negatives, entry);
            let row = &self.rows[self.pivots.row_of(pivot)].row;
            held.add_scaled_from_block::<Q>(at, factor, block, row);
        }
    }

    /// What [`Subspace::reduce_with`] does, over a field of Q elements, of characteristic 2 or 3, where there are at
    /// most [`HELD_COLUMNS`] columns.
    pub(super) fn reduce_with_held<const Q: u8>(&self, row: &mut Row, multipliers: &mut Row)
        requires order { order_number self.now.order ≡ Q }
        requires characteristic { prime_of self.now.order ≤ 3 }
        requires narrow { self.now.cols ≤ 4 * 64 }
        requires field { row.old.order ≡ self.now.order }
        requires fits { length row.old.entries ≡ self.now.cols }
        requires elements { IsRow row.old }
        requires zeros { multipliers.old
            ≡ record { order = row.old.order; entries = replicate (length row.old.entries) 0 } }
        requires zeros_well_formed { IsRow multipliers.old }
        ensures { IsCleared self.now row.old row.new multipliers.new }
    {
        match self.cols.div_ceil(WORD) {
            1 => self.reduce_with_held_in::<Q, 1>(row, multipliers),
            2 => self.reduce_with_held_in::<Q, 2>(row, multipliers),
            3 => self.reduce_with_held_in::<Q, 3>(row, multipliers),
            _ => self.reduce_with_held_in::<Q, 4>(row, multipliers),
        }
    }

    /// The same, where each plane of a vector has W words.
    #[inline(never)]
    fn reduce_with_held_in<const Q: u8, const W: usize>(&self, row: &mut Row, multipliers: &mut Row)
        requires order { order_number self.now.order ≡ Q }
        requires characteristic { prime_of self.now.order ≤ 3 }
        requires words { (self.now.cols + 63) / 64 ≡ W }
        requires few { W ≤ 4 }
        requires field { row.old.order ≡ self.now.order }
        requires fits { length row.old.entries ≡ self.now.cols }
        requires elements { IsRow row.old }
        requires zeros { multipliers.old
            ≡ record { order = row.old.order; entries = replicate (length row.old.entries) 0 } }
        requires zeros_well_formed { IsRow multipliers.old }
        ensures { IsCleared self.now row.old row.new multipliers.new }
    {
        let mut held = row.hold::<Q, W>();
        // One after the other, as above.
        self.clear_word_of_held_with::<Q, W>(&mut held, multipliers, 0);
        self.clear_word_of_held_with::<Q, W>(&mut held, multipliers, 1);
        self.clear_word_of_held_with::<Q, W>(&mut held, multipliers, 2);
        self.clear_word_of_held_with::<Q, W>(&mut held, multipliers, 3);
        row.put_held::<Q, W>(&held);
    }

    /// Clears the pivots in one word of 64 columns from a vector that is held and is 0 at those before, and keeps the
    /// multiplier of each row that is added for that, as `clear_word_with` does from a row.
    #[inline(always)]
    fn clear_word_of_held_with<const Q: u8, const W: usize>(
        &self,
        held: &mut HeldRow<W>,
        multipliers: &mut Row,
        word: usize,
    )
        requires order { order_number self.now.order ≡ Q }
        requires characteristic { prime_of self.now.order ≤ 3 }
        requires words { (self.now.cols + 63) / 64 ≡ W }
        requires field { held.old.order ≡ self.now.order }
        requires fits { length held.old.entries ≡ self.now.cols }
        requires multipliers_field { multipliers.old.order ≡ self.now.order }
        requires multipliers_fit { length multipliers.old.entries ≡ self.now.cols }
        ensures cleared { (first : RowValue) → IsClearedBelow self.now (word * 64) first held.old multipliers.old →
            IsClearedBelow self.now (word * 64 + 64) first held.new multipliers.new }
        ensures same_field { held.new.order ≡ self.now.order }
        ensures as_long { length held.new.entries ≡ self.now.cols }
        ensures multipliers_field { multipliers.new.order ≡ self.now.order }
        ensures multipliers_fit { length multipliers.new.entries ≡ self.now.cols }
    {
        if word >= W {
            return;
        }
        let negatives = self.field.negatives();
        let mut marks = self.pivots.word(word);
        while let Some((place, entry)) = held.next_in_word::<Q>(word, &mut marks) {
            let pivot = word * WORD + place;
            let block = self.pivots.block_of(pivot);
            let index = self.pivots.row_of(pivot);
            let factor = negative_in::<Q>(negatives, entry);
            held.add_scaled_from_block::<Q>(word, factor, block, &self.rows[index].row);
            multipliers.set(index, factor);
        }
    }
}

/// The negative of an element of a field of Q elements, by the negatives of all of them.
#[inline(always)]
fn negative_in<const Q: u8>(negatives: &[u8; 9], element: u8) -> u8
    requires { element < 9 }
    ensures { (o : Order) → order_number o ≡ Q → IsElement o element →
        ((a : ℕ) → IsElement o a → slice_index negatives.now a ≡ field_neg o a) → result ≡ field_neg o element }
{
    // Over fields of characteristic 2 an element is its own negative.
    if Q == 2 || Q == 4 || Q == 8 {
        return element;
    }
    negatives[usize::from(element)]
}

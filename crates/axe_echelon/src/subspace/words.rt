//! Vectors from which the pivots of a subspace are cleared, word by word.
ghost use Rattle.std.specs.Prelude.{◌≡◌, ◌≢◌, ◌+◌, ◌*◌, ◌<◌, length, replicate};
ghost use Rattle.axe_algebra.specs.SpansOfLists.{IsRepresentative};
ghost use Rattle.axe_field.specs.NumberFields.{number_field};
ghost use Rattle.axe_field.specs.Order.{order_number, prime_of};
ghost use Rattle.axe_row.specs.Rows.{IsRow, RowValue};
ghost use Rattle.axe_echelon.specs.Subspaces.{IsCleared, IsClearedBelow, IsReducedBelow};

use super::Subspace;
use axe_lane::WORD;
use axe_matrix::Row;

impl Subspace {
    /// What [`Subspace::reduce`] does, over a field of Q elements: word by word.
    #[inline(never)]
    pub(super) fn reduce_by_words<const Q: u8>(&self, row: &mut Row)
        requires order { order_number self.now.order ≡ Q }
        requires field { row.old.order ≡ self.now.order }
        requires fits { length row.old.entries ≡ self.now.cols }
        requires elements { IsRow row.old }
        ensures representative { IsRepresentative (number_field self.now.order) self.now.rows
            row.old.entries row.new.entries }
        ensures same_field { row.new.order ≡ self.now.order }
        ensures as_long { length row.new.entries ≡ self.now.cols }
        ensures row_well_formed { IsRow row.new }
    {
        for at in 0..self.cols.div_ceil(WORD) {
            self.reduce_word::<Q>(row, at);
        }
    }

    /// Clears the pivots in one word of 64 columns from a row that is 0 at those before.
    #[inline(always)]
    fn reduce_word<const Q: u8>(&self, row: &mut Row, at: usize)
        requires order { order_number self.now.order ≡ Q }
        requires within { at * 64 < self.now.cols }
        requires field { row.old.order ≡ self.now.order }
        requires fits { length row.old.entries ≡ self.now.cols }
        ensures { (first : RowValue) → IsReducedBelow self.now (at * 64) first row.old →
            IsReducedBelow self.now (at * 64 + 64) first row.new }
    {
        if Q == 2 || Q == 4 || Q == 8 {
            self.clear_word_by_block::<Q>(row, at);
        } else {
            self.clear_word::<Q>(row, at);
        }
    }

    /// What `reduce_word` does over a field of characteristic 2. The word's entries are kept in registers, and changed
    /// with the row: so the next of them is known before the row is written.
    #[inline(always)]
    fn clear_word_by_block<const Q: u8>(&self, row: &mut Row, at: usize)
        requires order { order_number self.now.order ≡ Q }
        requires characteristic { prime_of self.now.order ≡ 2 }
        requires within { at * 64 < self.now.cols }
        requires field { row.old.order ≡ self.now.order }
        requires fits { length row.old.entries ≡ self.now.cols }
        ensures { (first : RowValue) → IsReducedBelow self.now (at * 64) first row.old →
            IsReducedBelow self.now (at * 64 + 64) first row.new }
    {
        let mut places = self.pivots.word(at);
        let mut block = row.bit_block(at);
        while let Some((place, entry)) = block.next_within::<Q>(&mut places) {
            let pivot = at * WORD + place;
            // An element is its own negative.
            block.add_scaled_in::<Q>(entry, self.pivots.block_of(pivot));
            row.add_scaled_in::<Q>(pivot, entry, &self.rows[self.pivots.row_of(pivot)].row);
        }
    }

    /// What `reduce_word` does over a field of odd characteristic. The row's word is read again after each row that is
    /// added.
    #[inline(always)]
    fn clear_word<const Q: u8>(&self, row: &mut Row, at: usize)
        requires order { order_number self.now.order ≡ Q }
        requires odd { prime_of self.now.order ≢ 2 }
        requires within { at * 64 < self.now.cols }
        requires field { row.old.order ≡ self.now.order }
        requires fits { length row.old.entries ≡ self.now.cols }
        ensures { (first : RowValue) → IsReducedBelow self.now (at * 64) first row.old →
            IsReducedBelow self.now (at * 64 + 64) first row.new }
    {
        let negatives = self.field.negatives();
        let mut marks = self.pivots.word(at);
        while let Some((place, entry)) = row.next_in_word::<Q>(at, &mut marks) {
            let column = at * WORD + place;
            let factor = negatives[usize::from(entry)];
            row.add_scaled_in::<Q>(column, factor, &self.rows[self.pivots.row_of(column)].row);
        }
    }

    /// What [`Subspace::reduce_with`] does, over a field of Q elements: word by word.
    #[inline(never)]
    pub(super) fn reduce_with_by_words<const Q: u8>(&self, row: &mut Row, multipliers: &mut Row)
        requires order { order_number self.now.order ≡ Q }
        requires field { row.old.order ≡ self.now.order }
        requires fits { length row.old.entries ≡ self.now.cols }
        requires elements { IsRow row.old }
        requires zeros { multipliers.old
            ≡ record { order = row.old.order; entries = replicate (length row.old.entries) 0 } }
        requires zeros_well_formed { IsRow multipliers.old }
        ensures { IsCleared self.now row.old row.new multipliers.new }
    {
        for word in 0..self.cols.div_ceil(WORD) {
            self.reduce_word_with::<Q>(row, multipliers, word);
        }
    }

    /// Clears the pivots in one word of 64 columns from a row that is 0 at those before, as `reduce_word` does, and
    /// keeps the multiplier of each row that is added for that.
    #[inline(always)]
    fn reduce_word_with<const Q: u8>(&self, row: &mut Row, multipliers: &mut Row, word: usize)
        requires order { order_number self.now.order ≡ Q }
        requires within { word * 64 < self.now.cols }
        requires field { row.old.order ≡ self.now.order }
        requires fits { length row.old.entries ≡ self.now.cols }
        requires multipliers_field { multipliers.old.order ≡ self.now.order }
        requires multipliers_fit { length multipliers.old.entries ≡ self.now.cols }
        ensures { (first : RowValue) → IsClearedBelow self.now (word * 64) first row.old multipliers.old →
            IsClearedBelow self.now (word * 64 + 64) first row.new multipliers.new }
    {
        if Q == 2 || Q == 4 || Q == 8 {
            self.clear_word_with_by_block::<Q>(row, multipliers, word);
        } else {
            self.clear_word_with::<Q>(row, multipliers, word);
        }
    }

    /// What `reduce_word_with` does over a field of characteristic 2, by a block as `clear_word_by_block`.
    #[inline(always)]
    fn clear_word_with_by_block<const Q: u8>(
        &self,
        row: &mut Row,
        multipliers: &mut Row,
        word: usize,
    )
        requires order { order_number self.now.order ≡ Q }
        requires characteristic { prime_of self.now.order ≡ 2 }
        requires within { word * 64 < self.now.cols }
        requires field { row.old.order ≡ self.now.order }
        requires fits { length row.old.entries ≡ self.now.cols }
        requires multipliers_field { multipliers.old.order ≡ self.now.order }
        requires multipliers_fit { length multipliers.old.entries ≡ self.now.cols }
        ensures { (first : RowValue) → IsClearedBelow self.now (word * 64) first row.old multipliers.old →
            IsClearedBelow self.now (word * 64 + 64) first row.new multipliers.new }
    {
        let mut places = self.pivots.word(word);
        let mut block = row.bit_block(word);
        while let Some((place, entry)) = block.next_within::<Q>(&mut places) {
            let column = word * WORD + place;
            let index = self.pivots.row_of(column);
            // An element is its own negative.
            block.add_scaled_in::<Q>(entry, self.pivots.block_of(column));
            row.add_scaled_in::<Q>(column, entry, &self.rows[index].row);
            multipliers.set(index, entry);
        }
    }

    /// What `reduce_word_with` does over a field of odd characteristic, as `clear_word`.
    #[inline(always)]
    fn clear_word_with<const Q: u8>(&self, row: &mut Row, multipliers: &mut Row, word: usize)
        requires order { order_number self.now.order ≡ Q }
        requires odd { prime_of self.now.order ≢ 2 }
        requires within { word * 64 < self.now.cols }
        requires field { row.old.order ≡ self.now.order }
        requires fits { length row.old.entries ≡ self.now.cols }
        requires multipliers_field { multipliers.old.order ≡ self.now.order }
        requires multipliers_fit { length multipliers.old.entries ≡ self.now.cols }
        ensures { (first : RowValue) → IsClearedBelow self.now (word * 64) first row.old multipliers.old →
            IsClearedBelow self.now (word * 64 + 64) first row.new multipliers.new }
    {
        let negatives = self.field.negatives();
        let mut marks = self.pivots.word(word);
        while let Some((place, entry)) = row.next_in_word::<Q>(word, &mut marks) {
            let pivot = word * WORD + place;
            let index = self.pivots.row_of(pivot);
            let multiplier = negatives[usize::from(entry)];
            row.add_scaled_in::<Q>(pivot, multiplier, &self.rows[index].row);
            multipliers.set(index, multiplier);
        }
    }
}

//! Vectors over 5 and 7 elements from which the pivots of a subspace are cleared, word by word: the remainders of their
//! entries are taken when all rows are added.
ghost use Rattle.std.specs.Prelude.{◌≡◌, ◌+◌, ◌*◌, ◌<◌, length, replicate};
ghost use Rattle.axe_algebra.specs.SpansOfLists.{IsRepresentative};
ghost use Rattle.axe_field.specs.NumberFields.{number_field};
ghost use Rattle.axe_row.specs.Rows.{IsRow, RowValue};
ghost use Rattle.axe_row.specs.Sums.{HasSums};
ghost use Rattle.axe_echelon.specs.Subspaces.{IsCleared, IsClearedBelow, IsReducedBelow};

use super::Subspace;
use axe_lane::WORD;
use axe_matrix::Row;
use axe_row::RowSum;

impl Subspace {
    /// What [`Subspace::reduce`] does, over 5 or 7 elements.
    #[inline(never)]
    pub(super) fn reduce_by_sums(&self, row: &mut Row)
        requires sums { HasSums self.now.order }
        requires field { row.old.order ≡ self.now.order }
        requires fits { length row.old.entries ≡ self.now.cols }
        requires elements { IsRow row.old }
        ensures representative { IsRepresentative (number_field self.now.order) self.now.rows
            row.old.entries row.new.entries }
        ensures same_field { row.new.order ≡ self.now.order }
        ensures as_long { length row.new.entries ≡ self.now.cols }
        ensures row_well_formed { IsRow row.new }
    {
        let mut sum = RowSum::take(row);
        for at in 0..self.cols.div_ceil(WORD) {
            self.clear_word_of_sum(&mut sum, at);
        }
        *row = sum.into_row();
    }

    /// Clears the pivots in one word of 64 columns from a sum that is 0 at those before, as `clear_word` does from a row.
    #[inline(always)]
    fn clear_word_of_sum(&self, sum: &mut RowSum, at: usize)
        requires within { at * 64 < self.now.cols }
        requires field { sum.old.order ≡ self.now.order }
        requires fits { length sum.old.entries ≡ self.now.cols }
        ensures { (first : RowValue) → IsReducedBelow self.now (at * 64) first sum.old →
            IsReducedBelow self.now (at * 64 + 64) first sum.new }
    {
        let negatives = self.field.negatives();
        let mut marks = self.pivots.word(at);
        while let Some((place, entry)) = sum.next_in_word(at, &mut marks) {
            let column = at * WORD + place;
            let factor = negatives[usize::from(entry)];
            sum.add_scaled_from(column, factor, &self.rows[self.pivots.row_of(column)].row);
        }
    }

    /// What [`Subspace::reduce_with`] does, over 5 or 7 elements.
    #[inline(never)]
    pub(super) fn reduce_with_by_sums(&self, row: &mut Row, multipliers: &mut Row)
        requires sums { HasSums self.now.order }
        requires field { row.old.order ≡ self.now.order }
        requires fits { length row.old.entries ≡ self.now.cols }
        requires elements { IsRow row.old }
        requires zeros { multipliers.old
            ≡ record { order = row.old.order; entries = replicate (length row.old.entries) 0 } }
        requires zeros_well_formed { IsRow multipliers.old }
        ensures { IsCleared self.now row.old row.new multipliers.new }
    {
        let mut sum = RowSum::take(row);
        for word in 0..self.cols.div_ceil(WORD) {
            self.clear_word_of_sum_with(&mut sum, multipliers, word);
        }
        *row = sum.into_row();
    }

    /// Clears the pivots in one word of 64 columns from a sum that is 0 at those before, as `clear_word_with` does from
    /// a row.
    #[inline(always)]
    fn clear_word_of_sum_with(&self, sum: &mut RowSum, multipliers: &mut Row, word: usize)
        requires within { word * 64 < self.now.cols }
        requires field { sum.old.order ≡ self.now.order }
        requires fits { length sum.old.entries ≡ self.now.cols }
        requires multipliers_field { multipliers.old.order ≡ self.now.order }
        requires multipliers_fit { length multipliers.old.entries ≡ self.now.cols }
        ensures { (first : RowValue) → IsClearedBelow self.now (word * 64) first sum.old multipliers.old →
            IsClearedBelow self.now (word * 64 + 64) first sum.new multipliers.new }
    {
        let negatives = self.field.negatives();
        let mut marks = self.pivots.word(word);
        while let Some((place, entry)) = sum.next_in_word(word, &mut marks) {
            let pivot = word * WORD + place;
            let index = self.pivots.row_of(pivot);
            let multiplier = negatives[usize::from(entry)];
            sum.add_scaled_from(pivot, multiplier, &self.rows[index].row);
            multipliers.set(index, multiplier);
        }
    }
}

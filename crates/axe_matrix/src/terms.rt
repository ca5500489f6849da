//! Products of a row vector and a matrix over a field that is not prime, term by term: the field is told apart once, and
//! not at each row that is added.

ghost use Rattle.std.specs.Prelude.{◌≡◌, ◌≢◌, ◌+◌, ◌*◌, ◌<◌, length};
ghost use Rattle.axe_field.specs.Order.{degree_of, order_number, IsElement};
ghost use Rattle.axe_row.specs.Rows.{IsRow};
ghost use Rattle.axe_matrix.specs.Products.{row_with_product};
ghost use Rattle.axe_matrix.specs.VectorTerms.{row_with_terms_between};

use super::{Matrix, Row};
use axe_lane::WORD;

impl Matrix {
    /// Adds a multiple of a row vector times this matrix to a row over its field, which is not prime, as
    /// [`Matrix::add_vec_mul`] does: a term for each entry of the vector other than 0.
    pub(crate) fn add_terms(&self, scalar: u8, vector: &Row, row: &mut Row)
        requires vector_field { vector.now.order ≡ self.now.order }
        requires row_field { row.old.order ≡ self.now.order }
        requires inner_fit { length vector.now.entries ≡ length self.now.rows }
        requires columns_fit { length row.old.entries ≡ self.now.cols }
        requires not_prime { degree_of self.now.order ≢ 1 }
        requires element { IsElement self.now.order scalar }
        ensures sum { row.new ≡ row_with_product row.old scalar vector.now self.now }
        ensures as_long { length row.new.entries ≡ length row.old.entries }
        ensures well_formed { IsRow row.new }
    {
        match self.field().order() {
            4 => self.add_terms_in::<4>(scalar, vector, row),
            8 => self.add_terms_in::<8>(scalar, vector, row),
            _ => self.add_terms_in::<9>(scalar, vector, row),
        }
    }

    /// What `add_terms` does, over a field of Q elements: word by word of the vector.
    #[inline(never)]
    fn add_terms_in<const Q: u8>(&self, scalar: u8, vector: &Row, row: &mut Row)
        requires order { order_number self.now.order ≡ Q }
        requires vector_field { vector.now.order ≡ self.now.order }
        requires row_field { row.old.order ≡ self.now.order }
        requires inner_fit { length vector.now.entries ≡ length self.now.rows }
        requires columns_fit { length row.old.entries ≡ self.now.cols }
        requires not_prime { degree_of self.now.order ≢ 1 }
        requires element { IsElement self.now.order scalar }
        ensures sum { row.new ≡ row_with_product row.old scalar vector.now self.now }
        ensures as_long { length row.new.entries ≡ length row.old.entries }
        ensures well_formed { IsRow row.new }
    {
        // `len` is called for what it ensures beside the length: that the entries are elements of the field.
        prove!(row.len() == self.cols());
        prove!(vector.len() == self.rows());
        for word in 0..vector.len().div_ceil(WORD) {
            self.add_word_of_terms_in::<Q>(scalar, vector, word, row);
        }
    }

    /// Adds the terms that belong to the entries of the vector in one word of 64, over a field of Q elements. The word
    /// is read once for all its entries.
    #[inline(always)]
    fn add_word_of_terms_in<const Q: u8>(
        &self,
        scalar: u8,
        vector: &Row,
        word: usize,
        row: &mut Row,
    )
        requires order { order_number self.now.order ≡ Q }
        requires vector_field { vector.now.order ≡ self.now.order }
        requires row_field { row.old.order ≡ self.now.order }
        requires inner_fit { length vector.now.entries ≡ length self.now.rows }
        requires columns_fit { length row.old.entries ≡ self.now.cols }
        requires not_prime { degree_of self.now.order ≢ 1 }
        requires element { IsElement self.now.order scalar }
        requires word { word * 64 < length vector.now.entries }
        ensures sum { row.new ≡ row_with_terms_between row.old scalar vector.now self.now (word * 64) (word * 64 + 64) }
        ensures as_long { length row.new.entries ≡ length row.old.entries }
        ensures well_formed { IsRow row.new }
    {
        // `len` is called for what it ensures beside the length: that the entries are elements of the field.
        prove!(row.len() == self.cols());
        prove!(vector.len() == self.rows());
        let entries = vector.entry_word(word);
        let mut place = 0;
        while let Some((found, entry)) = entries.next(place) {
            let factor = self.factor(scalar, entry);
            row.add_scaled_in::<Q>(0, factor, self.row(word * WORD + found));
            place = found + 1;
        }
    }
}

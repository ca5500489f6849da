//! Products of a row vector and a matrix of few columns over a field of characteristic 2 or 3: the product is held in
//! registers while rows are added to it.

ghost use Rattle.std.specs.Prelude.{◌≡◌, ◌≢◌, ◌+◌, ◌*◌, ◌/◌, ◌<◌, ◌≤◌, length};
ghost use Rattle.axe_field.specs.Order.{degree_of, order_number, prime_of, IsElement};
ghost use Rattle.axe_row.specs.Rows.{IsRow};
ghost use Rattle.axe_matrix.specs.Products.{row_with_product};
ghost use Rattle.axe_matrix.specs.ValueTerms.{vector_of_places};
ghost use Rattle.axe_matrix.specs.VectorTerms.{row_with_terms_between};

use super::{Matrix, Row};
use axe_lane::WORD;
use axe_row::HeldRow;

/// The most columns of a matrix over a field of characteristic 3 for which products are held.
pub(crate) const HELD_COLUMNS_OF_TRITS: usize = 3 * WORD;

/// The most columns of a matrix for which products are held.
pub(crate) const HELD_COLUMNS: usize = 4 * WORD;

impl Matrix {
    /// Adds a row vector times this matrix, over a field of Q elements, of characteristic 2 or 3, with at most
    /// [`HELD_COLUMNS`] columns, to a row over its field: each entry d of the row becomes d + s, where s is the entry of
    /// the product.
    pub(crate) fn add_held<const Q: u8>(&self, vector: &Row, row: &mut Row)
        requires order { order_number self.now.order ≡ Q }
        requires characteristic { prime_of self.now.order ≤ 3 }
        requires narrow { self.now.cols ≤ 4 * 64 }
        requires vector_field { vector.now.order ≡ self.now.order }
        requires row_field { row.old.order ≡ self.now.order }
        requires inner_fit { length vector.now.entries ≡ length self.now.rows }
        requires columns_fit { length row.old.entries ≡ self.now.cols }
        ensures sum { row.new ≡ row_with_product row.old 1 vector.now self.now }
        ensures as_long { length row.new.entries ≡ length row.old.entries }
        ensures well_formed { IsRow row.new }
    {
        // `cols` is called for what it ensures beside the number: that the matrix has some column.
        match self.cols().div_ceil(WORD) {
            1 => self.add_held_in::<Q, 1>(vector, row),
            2 => self.add_held_in::<Q, 2>(vector, row),
            3 => self.add_held_in::<Q, 3>(vector, row),
            _ => self.add_held_in::<Q, 4>(vector, row),
        }
    }

    /// The same, where each plane of the row has W words.
    #[inline(never)]
    fn add_held_in<const Q: u8, const W: usize>(&self, vector: &Row, row: &mut Row)
        requires order { order_number self.now.order ≡ Q }
        requires characteristic { prime_of self.now.order ≤ 3 }
        requires words { (self.now.cols + 63) / 64 ≡ W }
        requires vector_field { vector.now.order ≡ self.now.order }
        requires row_field { row.old.order ≡ self.now.order }
        requires inner_fit { length vector.now.entries ≡ length self.now.rows }
        requires columns_fit { length row.old.entries ≡ self.now.cols }
        ensures sum { row.new ≡ row_with_product row.old 1 vector.now self.now }
        ensures as_long { length row.new.entries ≡ length row.old.entries }
        ensures well_formed { IsRow row.new }
    {
        // `cols` is called for what it ensures beside the number: that there are few, so that W is small.
        prove!(row.len() == self.cols());
        let mut held = row.hold::<Q, W>();
        if Q == 2 || Q == 3 {
            self.add_digits_held::<Q, W>(vector, &mut held);
        } else {
            self.add_values_held::<Q, W>(vector, &mut held);
        }
        row.put_held::<Q, W>(&held);
    }

    /// Adds the product over a prime field, digit by digit: for each digit other than 0 the multiples by it of the rows
    /// at whose indices it is the vector's entry.
    #[inline(always)]
    fn add_digits_held<const Q: u8, const W: usize>(&self, vector: &Row, held: &mut HeldRow<W>)
        requires order { order_number self.now.order ≡ Q }
        requires characteristic { prime_of self.now.order ≤ 3 }
        requires prime { degree_of self.now.order ≡ 1 }
        requires words { (self.now.cols + 63) / 64 ≡ W }
        requires vector_field { vector.now.order ≡ self.now.order }
        requires row_field { held.old.order ≡ self.now.order }
        requires inner_fit { length vector.now.entries ≡ length self.now.rows }
        requires columns_fit { length held.old.entries ≡ self.now.cols }
        requires row_well_formed { IsRow held.old }
        ensures sum { held.new ≡ row_with_product held.old 1 vector.now self.now }
        ensures as_long { length held.new.entries ≡ length held.old.entries }
        ensures well_formed { IsRow held.new }
    {
        // `len` is called for what it ensures beside the length: that the entries are elements of the field.
        prove!(vector.len() == self.rows());
        for digit in 1..Q {
            self.add_held_at::<Q, W>(digit, digit, vector, held);
        }
    }

    /// Adds the product over a field that is not prime, value by value, as [`Matrix::add_by_values`] does: the values
    /// are the powers of 1 / x, up to the one that is 1, and the row is multiplied by x before each.
    #[inline(always)]
    fn add_values_held<const Q: u8, const W: usize>(&self, vector: &Row, held: &mut HeldRow<W>)
        requires order { order_number self.now.order ≡ Q }
        requires characteristic { prime_of self.now.order ≤ 3 }
        requires not_prime { degree_of self.now.order ≢ 1 }
        requires words { (self.now.cols + 63) / 64 ≡ W }
        requires vector_field { vector.now.order ≡ self.now.order }
        requires row_field { held.old.order ≡ self.now.order }
        requires inner_fit { length vector.now.entries ≡ length self.now.rows }
        requires columns_fit { length held.old.entries ≡ self.now.cols }
        requires row_well_formed { IsRow held.old }
        ensures sum { held.new ≡ row_with_product held.old 1 vector.now self.now }
        ensures as_long { length held.new.entries ≡ length held.old.entries }
        ensures well_formed { IsRow held.new }
    {
        // `len` is called for what it ensures beside the length: that the entries are elements of the field.
        prove!(vector.len() == self.rows());
        let field = *self.field();
        let inverse = field.inv(field.prime());
        let mut value = 1;
        for _ in 0..field.order() - 1 {
            value = field.mul(value, inverse);
            held.multiply_by_x::<Q>();
            self.add_held_at::<Q, W>(value, 1, vector, held);
        }
    }

    /// Adds the multiples by a scalar other than 0 of the rows at whose indices the entry of a vector is a value other
    /// than 0.
    #[inline(always)]
    fn add_held_at<const Q: u8, const W: usize>(
        &self,
        value: u8,
        scalar: u8,
        vector: &Row,
        held: &mut HeldRow<W>,
    )
        requires order { order_number self.now.order ≡ Q }
        requires characteristic { prime_of self.now.order ≤ 3 }
        requires words { (self.now.cols + 63) / 64 ≡ W }
        requires vector_field { vector.now.order ≡ self.now.order }
        requires row_field { held.old.order ≡ self.now.order }
        requires inner_fit { length vector.now.entries ≡ length self.now.rows }
        requires columns_fit { length held.old.entries ≡ self.now.cols }
        requires value { IsElement self.now.order value }
        requires nonzero { value ≢ 0 }
        requires scalar { IsElement self.now.order scalar }
        requires scalar_nonzero { scalar ≢ 0 }
        requires row_well_formed { IsRow held.old }
        ensures sum { held.new ≡ row_with_product held.old scalar (vector_of_places value vector.now) self.now }
        ensures as_long { length held.new.entries ≡ length held.old.entries }
        ensures well_formed { IsRow held.new }
    {
        // `len` is called for what it ensures beside the length: that the entries are elements of the field.
        prove!(vector.len() == self.rows());
        for at in 0..vector.len().div_ceil(WORD) {
            self.add_held_in_word::<Q, W>(value, scalar, vector, at, held);
        }
    }

    /// The same for the indices in one word of 64.
    #[inline(always)]
    fn add_held_in_word<const Q: u8, const W: usize>(
        &self,
        value: u8,
        scalar: u8,
        vector: &Row,
        at: usize,
        held: &mut HeldRow<W>,
    )
        requires order { order_number self.now.order ≡ Q }
        requires characteristic { prime_of self.now.order ≤ 3 }
        requires words { (self.now.cols + 63) / 64 ≡ W }
        requires vector_field { vector.now.order ≡ self.now.order }
        requires row_field { held.old.order ≡ self.now.order }
        requires inner_fit { length vector.now.entries ≡ length self.now.rows }
        requires columns_fit { length held.old.entries ≡ self.now.cols }
        requires value { IsElement self.now.order value }
        requires nonzero { value ≢ 0 }
        requires scalar { IsElement self.now.order scalar }
        requires scalar_nonzero { scalar ≢ 0 }
        requires word { at * 64 < length vector.now.entries }
        requires row_well_formed { IsRow held.old }
        ensures sum { held.new ≡ row_with_terms_between held.old scalar (vector_of_places value vector.now) self.now (at * 64)
            (at * 64 + 64) }
        ensures as_long { length held.new.entries ≡ length held.old.entries }
        ensures well_formed { IsRow held.new }
    {
        // `len` is called for what it ensures beside the length: that the entries are elements of the field.
        prove!(vector.len() == self.rows());
        let mut places = vector.bit_block(at).places_of::<Q>(value);
        while places != 0 {
            let row = self.row(at * WORD + places.trailing_zeros() as usize);
            held.add_scaled_in::<Q>(scalar, row);
            places &= places - 1;
        }
    }
}

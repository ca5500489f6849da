//! Multiples of matrices, added in place.

ghost use Rattle.std.specs.Prelude.{◌≡◌, ◌<◌, length, slice_index_or, slice_set, []};
ghost use Rattle.axe_field.specs.NumberFields.{number_field};
ghost use Rattle.axe_field.specs.Order.{IsElement};
ghost use Rattle.axe_row.specs.Operations.{sum_with_multiple};
ghost use Rattle.axe_matrix.specs.Matrices.{IsMatrix, identity_matrix};
ghost use Rattle.axe_matrix.specs.Multiples.{matrix_with_multiple};

use super::{Matrix, Row};

impl Matrix {
    /// Adds a multiple of another matrix over the same field and of the same shape: each entry d becomes d + c s,
    /// where c is the scalar and s the other matrix's entry. It takes no memory.
    pub fn add_scaled(&mut self, scalar: u8, other: &Matrix)
        requires field { other.now.order ≡ self.old.order }
        requires rows_fit { length other.now.rows ≡ length self.old.rows }
        requires columns_fit { other.now.cols ≡ self.old.cols }
        requires element { IsElement self.old.order scalar }
        ensures sum { self.new ≡ matrix_with_multiple self.old scalar other.now }
        ensures well_formed { IsMatrix self.new }
    {
        for index in 0..self.rows() {
            self.add_to_row(index, scalar, other.row(index));
        }
    }

    /// Adds an element to each entry of the diagonal of a square matrix: adds that multiple of the identity matrix. It
    /// takes no memory.
    pub fn add_to_diagonal(&mut self, scalar: u8)
        requires square { length self.old.rows ≡ self.old.cols }
        requires element { IsElement self.old.order scalar }
        ensures sum { self.new ≡ matrix_with_multiple self.old scalar (identity_matrix self.old.order self.old.cols) }
        ensures well_formed { IsMatrix self.new }
    {
        for index in 0..self.rows() {
            let sum = self.field().add(self.get(index, index), scalar);
            self.put_entry(index, index, sum);
        }
    }

    /// Adds a multiple of a row to the row at an index.
    fn add_to_row(&mut self, index: usize, scalar: u8, row: &Row)
        requires index { index < length self.old.rows }
        requires field { row.now.order ≡ self.old.order }
        requires fits { length row.now.entries ≡ self.old.cols }
        requires element { IsElement self.old.order scalar }
        ensures sum { let old = slice_index_or self.old.rows index [] in
            let sum = sum_with_multiple (number_field self.old.order) old scalar row.now.entries in
            self.new ≡ record self.old { rows = slice_set self.old.rows index sum } }
        ensures well_formed { IsMatrix self.new }
    {
        self.rows[index].add_scaled(scalar, row);
    }
}

//! Sums and transposes of matrices.

ghost use Rattle.std.specs.Prelude.{◌≡◌, ◌<◌, None, IfOk, length, slice_set};
ghost use Rattle.axe_field.specs.Order.{IsElement};
ghost use Rattle.axe_row.specs.Refusals.{Answers};
ghost use Rattle.axe_matrix.specs.Matrices.{IsMatrix, reversed_matrix, row_of};
ghost use Rattle.axe_matrix.specs.Matrices.{sum_refusal, sum_of_matrices, transpose_refusal, transposed_matrix};

use super::lines::Lines;
use super::{Matrix, Refusal};
use std::alloc::Global;

impl Matrix {
    /// The sum of this matrix and another, entry by entry. Two matrices over different fields are refused as
    /// FieldsDiffer, and else two of different shapes as ShapesDiffer.
    pub fn add(&self, alloc: Global, other: &Matrix) -> Result<Matrix, Refusal>
        ensures sum { Answers (sum_refusal self.now other.now)
            (λ sum. sum ≡ sum_of_matrices self.now other.now) result }
        ensures well_formed { IfOk result IsMatrix }
    {
        if self.field() != other.field() {
            return Err(Refusal::FieldsDiffer);
        }
        if self.rows() != other.rows() || self.cols() != other.cols() {
            return Err(Refusal::ShapesDiffer);
        }
        self.plus(alloc, other)
    }

    /// The sum of this matrix and another over the same field and of the same shape, entry by entry.
    fn plus(&self, alloc: Global, other: &Matrix) -> Result<Matrix, Refusal>
        requires field { other.now.order ≡ self.now.order }
        requires rows_fit { length other.now.rows ≡ length self.now.rows }
        requires columns_fit { other.now.cols ≡ self.now.cols }
        ensures sum { Answers None (λ sum. sum ≡ sum_of_matrices self.now other.now) result }
        ensures well_formed { IfOk result IsMatrix }
    {
        // Called for what it ensures beside the number: that the other matrix is one.
        prove!(self.cols() == other.cols());
        let mut sum = self.copy(alloc)?;
        sum.add_scaled(1, other);
        Ok(sum)
    }

    /// The transpose: its entry i, j is entry j, i of this matrix. A matrix without rows is refused as NoRows, since
    /// its transpose had no columns.
    pub fn transpose(&self, alloc: Global) -> Result<Matrix, Refusal>
        ensures transpose { Answers (transpose_refusal self.now)
            (λ transpose. transpose ≡ transposed_matrix self.now) result }
        ensures well_formed { IfOk result IsMatrix }
    {
        transposed_lines(alloc, &Lines::in_order(self))
    }

    /// The transpose of the matrix with its rows in the opposite order: its row j is column j of this matrix, read from
    /// the last entry to the first. A matrix without rows is refused as NoRows. No row is copied.
    pub fn transpose_from_last(&self, alloc: Global) -> Result<Matrix, Refusal>
        ensures transpose { Answers (transpose_refusal self.now)
            (λ transpose. transpose ≡ transposed_matrix (reversed_matrix self.now)) result }
        ensures well_formed { IfOk result IsMatrix }
    {
        transposed_lines(alloc, &Lines::from_last(self))
    }

    /// Makes an element the entry at a row and a column; all other entries stay.
    pub(super) fn put_entry(&mut self, row: usize, column: usize, element: u8)
        requires row { row < length self.old.rows }
        requires column { column < self.old.cols }
        requires element { IsElement self.old.order element }
        ensures replaced { let entries = slice_set (row_of self.old row).entries column element in
            self.new ≡ record self.old { rows = slice_set self.old.rows row entries } }
        ensures well_formed { IsMatrix self.new }
    {
        self.rows[row].set(column, element);
    }
}

/// The transpose of a matrix, in either order of its rows. One without rows is refused as NoRows.
fn transposed_lines(alloc: Global, lines: &Lines) -> Result<Matrix, Refusal>
    ensures transpose { Answers (transpose_refusal lines.now)
        (λ transpose. transpose ≡ transposed_matrix lines.now) result }
    ensures well_formed { IfOk result IsMatrix }
{
    if lines.rows() == 0 {
        return Err(Refusal::NoRows);
    }
    // The coefficients of entries stand in layers of bits there, which go by blocks.
    if lines.field().prime() <= 3 {
        let mut transpose = Matrix::zero(alloc, *lines.field(), lines.cols(), lines.rows())?;
        transpose.put_transpose(lines);
        return Ok(transpose);
    }
    lines.transpose_by_strips(alloc)
}

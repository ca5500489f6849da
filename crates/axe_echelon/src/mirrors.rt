//! Rows and matrices whose entries stand in the opposite order.

ghost use Rattle.std.specs.Prelude.{◌≡◌, ◌<◌, length, None};
ghost use Rattle.axe_row.specs.Refusals.{Answers};
ghost use Rattle.axe_matrix.specs.Matrices.{IsMatrix, transposed_matrix};
ghost use Rattle.axe_echelon.specs.Mirrored.{mirrored_row, IsMirrored};

use crate::word_mirrors::mirrored_by_words;
use axe_matrix::{Matrix, Refusal, Row};
use std::alloc::Global;

/// The matrix with each row read from the last entry to the first.
pub(crate) fn mirrored_matrix(alloc: Global, matrix: &Matrix) -> Result<Matrix, Refusal>
    ensures mirrored { Answers None (IsMirrored matrix.now) result }
    ensures well_formed { IsMatrix matrix.now }
{
    let mut mirrored = Matrix::with_capacity(alloc, *matrix.field(), matrix.cols(), matrix.rows())?;
    for index in 0..matrix.rows() {
        let row = mirrored_row(alloc, matrix.row(index))?;
        mirrored.append(row)?;
    }
    Ok(mirrored)
}

/// The columns of a matrix as rows, each read from the last entry to the first.
pub(crate) fn mirrored_columns(alloc: Global, matrix: &Matrix) -> Result<Matrix, Refusal>
    requires { 0 < length matrix.now.rows }
    ensures { Answers None (IsMirrored (transposed_matrix matrix.now)) result }
{
    // `cols` is called for what it ensures beside the number: that the matrix is one.
    prove!(matrix.cols() >= 1);
    matrix.transpose_from_last(alloc)
}

/// The row with its entries in the opposite order.
pub(crate) fn mirrored_row(alloc: Global, row: &Row) -> Result<Row, Refusal>
    ensures { Answers None (λ mirrored. mirrored ≡ mirrored_row row.now) result }
{
    if row.field().prime() <= 3 {
        mirrored_by_words(alloc, row)
    } else {
        mirrored_by_numbers(alloc, row)
    }
}

/// The row with its entries in the opposite order, over any field: by the numbers of its entries.
fn mirrored_by_numbers(alloc: Global, row: &Row) -> Result<Row, Refusal>
    ensures { Answers None (λ mirrored. mirrored ≡ mirrored_row row.now) result }
{
    let mut numbers = vec![in alloc; 0; row.len()]?;
    row.copy_to(&mut numbers);
    numbers.reverse();
    Row::from_elements(alloc, *row.field(), &numbers)
}

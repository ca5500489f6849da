//! The spans of the rows of matrices.

ghost use Rattle.std.specs.Prelude.{None};
ghost use Rattle.axe_row.specs.Refusals.{Answers};
ghost use Rattle.axe_matrix.specs.Matrices.{IsMatrix};
ghost use Rattle.axe_echelon.specs.Echelons.{IsSpanOfRows, IsRowSpace};

use super::{Echelon, Subspace};
use axe_matrix::{Matrix, Refusal};
use std::alloc::Global;

/// The echelon form of the span of the rows of a matrix, into which they are inserted in order.
pub fn span_of(alloc: Global, rows: &Matrix) -> Result<Echelon, Refusal>
    ensures span { Answers None (IsSpanOfRows rows.now) result }
    ensures well_formed { IsMatrix rows.now }
{
    let mut span = Echelon::new(alloc, *rows.field(), rows.cols());
    for index in 0..rows.rows() {
        let row = rows.row(index).copy(alloc)?;
        span.insert(row)?;
    }
    Ok(span)
}

/// The row space of a matrix: the span of its rows. Unlike [`span_of`], it doesn't keep the rows themselves.
pub fn row_space(alloc: Global, matrix: &Matrix) -> Result<Subspace, Refusal>
    ensures span { Answers None (IsRowSpace matrix.now) result }
    ensures well_formed { IsMatrix matrix.now }
{
    let mut space = Subspace::zero(alloc, *matrix.field(), matrix.cols());
    for index in 0..matrix.rows() {
        let row = matrix.row(index).copy(alloc)?;
        space.insert(row)?;
    }
    Ok(space)
}

/// The row space of a matrix whose rows move into it: none is copied, and those that are not new are dropped.
pub(crate) fn space_of_rows(alloc: Global, matrix: Matrix) -> Result<Subspace, Refusal>
    ensures { Answers None (IsRowSpace matrix) result }
{
    let mut space = Subspace::zero(alloc, *matrix.field(), matrix.cols());
    space.reserve(matrix.rows().min(matrix.cols()))?;
    for row in matrix.into_rows() {
        space.insert(row)?;
    }
    Ok(space)
}

//! Inverses.

ghost use Rattle.std.specs.Prelude.{◌≡◌, ◌<◌, ◌≤◌, ℕ, None, IfOk, IfSome, MatchOption, length, All};
ghost use Rattle.std.specs.List.{Contains};
ghost use Rattle.axe_row.specs.Refusals.{Answers};
ghost use Rattle.axe_matrix.specs.Matrices.{IsMatrix, identity_matrix};
ghost use Rattle.axe_reduction.specs.Augmented.{augmented};
ghost use Rattle.axe_reduction.specs.Reductions.{IsReductionOf};
ghost use Rattle.axe_reduction.specs.Solutions.{ArePlacesOf, AreRowsByPivot};
ghost use Rattle.axe_reduction.specs.Solutions.{IsInverseMatrix, IsInvertibleMatrix};

use crate::augmented::Augmented;
use crate::reduction::{Reduction, reduction_of};
use axe_matrix::{Matrix, Refusal};
use std::alloc::Global;

/// The inverse of a square matrix, or `None` where it has none.
pub fn inverse_of(alloc: Global, matrix: &Matrix) -> Result<Option<Matrix>, Refusal>
    requires { length matrix.now.rows ≡ matrix.now.cols }
    ensures inverse { Answers None (λ found. MatchOption found (¬ (IsInvertibleMatrix matrix.now))
        (IsInverseMatrix matrix.now)) result }
    ensures well_formed { IfOk result (λ found. IfSome found IsMatrix) }
{
    // So there is a row, as there is a column.
    prove!(matrix.rows() == matrix.cols());
    let reduction = reduction_beside_identity(alloc, matrix)?;
    if reduction.pivots.len() != matrix.rows() {
        return Ok(None);
    }
    let Reduction {
        reduced,
        pivots,
        ..
    } = reduction;
    // As many pivots as columns are all of the columns.
    let inverse = rows_by_pivot(alloc, &reduced.into_right(), &pivots)?;
    Ok(Some(inverse))
}

/// The rows of a matrix in the order of their pivots, which are all of the columns.
fn rows_by_pivot(alloc: Global, rows: &Matrix, pivots: &[usize]) -> Result<Matrix, Refusal>
    requires count { length pivots.now ≡ length rows.now.rows }
    requires small { All (λ pivot. pivot < length pivots.now) pivots.now }
    requires all { (column : ℕ) → column < rows.now.cols → Contains pivots.now column }
    ensures sorted { Answers None (AreRowsByPivot pivots.now rows.now rows.now.cols) result }
    ensures well_formed { IfOk result IsMatrix }
{
    let places = places_of(alloc, pivots)?;
    let mut sorted = Matrix::with_capacity(alloc, *rows.field(), rows.cols(), rows.cols())?;
    for column in 0..rows.cols() {
        let row = rows.row(places[column]).copy(alloc)?;
        sorted.append(row)?;
    }
    Ok(sorted)
}

/// For each number that a list contains, at that index, its last place there; all are less than the list's length.
fn places_of(alloc: Global, numbers: &[usize]) -> Result<Vec<usize>, Refusal>
    requires { All (λ number. number < length numbers.now) numbers.now }
    ensures { Answers None (λ places. ArePlacesOf numbers.now places.items) result }
{
    let mut places = Vec::new(alloc);
    places.resize(numbers.len(), 0)?;
    for (place, number) in numbers.iter().enumerate() {
        places[*number] = place;
    }
    Ok(places)
}

/// The reduction of a matrix beside the identity.
fn reduction_beside_identity(alloc: Global, matrix: &Matrix) -> Result<Reduction, Refusal>
    requires { 1 ≤ length matrix.now.rows }
    ensures { Answers None
        (IsReductionOf (augmented matrix.now (identity_matrix matrix.now.order (length matrix.now.rows)))) result }
{
    let identity = Matrix::identity(alloc, *matrix.field(), matrix.rows())?;
    let copy = matrix.copy(alloc)?;
    reduction_of(alloc, Augmented::beside(copy, identity))
}

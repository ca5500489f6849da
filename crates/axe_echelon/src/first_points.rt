//! Null spaces of matrices, without their basis where they are large: what is asked of most of them is their dimension
//! and their first point.

ghost use Rattle.std.specs.Prelude.{◌≤◌, length, All, None};
ghost use Rattle.axe_row.specs.Operations.{IsZeroVector};
ghost use Rattle.axe_row.specs.Refusals.{Answers};
ghost use Rattle.axe_echelon.specs.Echelons.{null_space_refusal};
ghost use Rattle.axe_echelon.specs.NullPoints.{IsNullPoints, ArePointsOrthogonal};

use crate::Subspace;
use crate::mirrors::mirrored_columns;
use crate::null_spaces::{orthogonal_to, orthogonal_vector};
use crate::orthogonal_points::first_free_column;
use crate::spans::space_of_rows;
use axe_matrix::{Matrix, Refusal, Row};
use std::alloc::Global;

/// A null space, or what is asked of a large one.
#[derive(Drop)]
pub enum NullPoints {
    /// The reduced basis.
    Basis(Matrix),
    /// Its first point, the last row of the reduced basis.
    First(Row),
}

/// The null space of a matrix where it has no more than `most` dimensions: the reduced basis of all vectors whose
/// product with the matrix, as `v X`, is zero. Of a larger one its first point, the last row of that basis. A matrix
/// without rows is refused as NoRows.
pub fn null_points(alloc: Global, matrix: &Matrix, most: usize) -> Result<NullPoints, Refusal>
    ensures { Answers (null_space_refusal matrix.now) (IsNullPoints matrix.now most) result }
{
    if matrix.rows() == 0 {
        return Err(Refusal::NoRows);
    }
    // All vectors are in the null space of a zero matrix.
    if matrix.has_only_zeros() {
        return points_of_zeros(alloc, matrix, most);
    }
    // The entries of `v X` are the dot products of v with the columns of X.
    let space = space_of_rows(alloc, mirrored_columns(alloc, matrix)?)?;
    points_orthogonal_to(alloc, &space, most)
}

/// The same of a matrix of zeros: of all vectors.
fn points_of_zeros(alloc: Global, matrix: &Matrix, most: usize) -> Result<NullPoints, Refusal>
    requires some_row { 1 ≤ length matrix.now.rows }
    requires zeros { All IsZeroVector matrix.now.rows }
    ensures { Answers None (IsNullPoints matrix.now most) result }
{
    let (field, rows) = (*matrix.field(), matrix.rows());
    if rows <= most {
        return Ok(NullPoints::Basis(Matrix::identity(alloc, field, rows)?));
    }
    Ok(NullPoints::First(Row::unit(alloc, field, rows, rows - 1)?))
}

/// The same of the space of all vectors that are orthogonal to a space when they are read from the last entry to the
/// first.
fn points_orthogonal_to(alloc: Global, space: &Subspace, most: usize) -> Result<NullPoints, Refusal>
    ensures { Answers None (ArePointsOrthogonal space.now most) result }
{
    if space.cols().saturating_sub(space.dim()) <= most {
        return Ok(NullPoints::Basis(orthogonal_to(alloc, space)?));
    }
    let Some(column) = first_free_column(space) else {
        unreachable!()
    };
    Ok(NullPoints::First(orthogonal_vector(alloc, space, &None, column)?))
}

//! The first point of the space of all vectors that are orthogonal to given rows, without that space's whole basis.
//!
//! The points of a space are vectors other than zero, one of each of its subspaces of dimension 1 (Parker 1984). The
//! first is the last row of the space's reduced basis. Where the rows are read from the last entry to the first, that
//! row is the vector that belongs to the first column that is no pivot.

ghost use Rattle.std.specs.Prelude.{None};
ghost use Rattle.axe_row.specs.Refusals.{Answers};
ghost use Rattle.axe_echelon.specs.OrthogonalPoints.{IsOrthogonalPoint, IsFirstFreeOrNone};

use super::Subspace;
use crate::mirrors::mirrored_matrix;
use crate::null_spaces::orthogonal_vector;
use crate::spans::space_of_rows;
use axe_matrix::{Matrix, Refusal, Row};
use std::alloc::Global;

/// The first point of the space of all vectors that are orthogonal to the rows of a matrix, the null space of its
/// transpose: the last row of the space's reduced basis. `None` where only zero is orthogonal to the rows.
pub fn orthogonal_point(alloc: Global, rows: &Matrix) -> Result<Option<Row>, Refusal>
    ensures { Answers None (IsOrthogonalPoint rows.now) result }
{
    // All vectors are orthogonal to zeros, and the last row of their reduced basis is the last unit vector.
    if rows.has_only_zeros() {
        let point = Row::unit(alloc, *rows.field(), rows.cols(), rows.cols() - 1)?;
        return Ok(Some(point));
    }
    let space = space_of_rows(alloc, mirrored_matrix(alloc, rows)?)?;
    match first_free_column(&space) {
        Some(column) => Ok(Some(orthogonal_vector(alloc, &space, &None, column)?)),
        None => Ok(None),
    }
}

/// The first column that is no pivot of a space, or `None` where all columns are.
pub(crate) fn first_free_column(space: &Subspace) -> Option<usize>
    ensures { IsFirstFreeOrNone space.now result }
{
    for column in 0..space.cols() {
        if !space.is_pivot(column) {
            return Some(column);
        }
    }
    None
}

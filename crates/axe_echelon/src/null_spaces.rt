//! Null spaces of matrices, and the spaces of all vectors that are orthogonal to given rows.
//!
//! To each column that is no pivot of a space belongs the vector that is orthogonal to the space, 1 at this column, and
//! 0 at all others that are no pivots. The last entry other than 0 of a vector that is orthogonal to a space is at no
//! pivot: so this vector is 0 after its column, and all of them, read from the last entry to the first, are a reduced
//! basis. Therefore the rows that are given are read so in the first place.

ghost use Rattle.std.specs.Prelude.{◌≡◌, ◌≢◌, ◌<◌, None, IfOk, length, slice_set};
ghost use Rattle.axe_algebra.specs.SpansOfLists.{IsAnnihilatorBasis, IsPivot};
ghost use Rattle.axe_field.specs.Arithmetic.{field_neg};
ghost use Rattle.axe_field.specs.NumberFields.{number_field};
ghost use Rattle.axe_field.specs.Order.{IsElement};
ghost use Rattle.axe_row.specs.Refusals.{Answers};
ghost use Rattle.axe_row.specs.Rows.{IsRow};
ghost use Rattle.axe_matrix.specs.Matrices.{IsMatrix, transposed_matrix};
ghost use Rattle.axe_echelon.specs.Echelons.{null_space_refusal, IsNullSpaceMatrix, IsReducedMatrix};
ghost use Rattle.axe_echelon.specs.Orthogonal.{IsOrthogonalToSpace, IsOrthogonalVector, IsMirroredVector};
ghost use Rattle.axe_echelon.specs.Orthogonal.{IsReducedBasisOrNone};

use super::Subspace;
use crate::mirrors::{mirrored_columns, mirrored_matrix, mirrored_row};
use crate::spans::space_of_rows;
use axe_matrix::{Matrix, Refusal, Row};
use std::alloc::Global;

/// Where fewer than one vector for so many dimensions of a space is to be made that is orthogonal to it, each is made
/// by the rows of the space's echelon form.
const DIMENSIONS_PER_VECTOR: usize = 16;

/// The null space of a matrix: the reduced basis of all vectors whose product with the matrix, as `v X`, is zero. A
/// matrix without rows is refused as NoRows.
pub fn null_space(alloc: Global, matrix: &Matrix) -> Result<Matrix, Refusal>
    ensures basis { Answers (null_space_refusal matrix.now) (IsNullSpaceMatrix matrix.now) result }
    ensures well_formed { IfOk result IsMatrix }
{
    if matrix.rows() == 0 {
        return Err(Refusal::NoRows);
    }
    // All vectors are in the null space of a zero matrix.
    if matrix.has_only_zeros() {
        return Matrix::identity(alloc, *matrix.field(), matrix.rows());
    }
    // The entries of `v X` are the dot products of v with the columns of X.
    let space = space_of_rows(alloc, mirrored_columns(alloc, matrix)?)?;
    orthogonal_to(alloc, &space)
}

/// The reduced basis of the space of all vectors that are orthogonal to the rows of a matrix: that have dot product 0
/// with each. This is the null space of the transpose.
pub fn orthogonal_space(alloc: Global, rows: &Matrix) -> Result<Matrix, Refusal>
    ensures basis { Answers None (IsNullSpaceMatrix (transposed_matrix rows.now)) result }
    ensures orthogonal { IfOk result (λ basis.
        IsAnnihilatorBasis (number_field rows.now.order) rows.now.cols rows.now.rows basis.rows) }
    ensures well_formed { IfOk result IsMatrix }
{
    let space = space_of_rows(alloc, mirrored_matrix(alloc, rows)?)?;
    orthogonal_to(alloc, &space)
}

/// The reduced basis of all vectors that are orthogonal to a space when they are read from the last entry to the first:
/// one vector for each column that is no pivot of the space, from the last of them to the first.
pub(crate) fn orthogonal_to(alloc: Global, space: &Subspace) -> Result<Matrix, Refusal>
    ensures basis { Answers None (IsOrthogonalToSpace space.now) result }
    ensures well_formed { Answers None IsMatrix result }
{
    let reduced = reduced_where_many(alloc, space)?;
    orthogonal_rows(alloc, space, &reduced)
}

/// The same, where the reduced basis of the space was made if it serves.
fn orthogonal_rows(
    alloc: Global,
    space: &Subspace,
    reduced: &Option<Matrix>,
) -> Result<Matrix, Refusal>
    requires { IsReducedBasisOrNone space.now reduced.now }
    ensures basis { Answers None (IsOrthogonalToSpace space.now) result }
    ensures well_formed { Answers None IsMatrix result }
{
    let count = space.cols().saturating_sub(space.dim());
    let mut orthogonal = Matrix::with_capacity(alloc, *space.field(), space.cols(), count)?;
    for column in (0..space.cols()).rev() {
        if space.is_pivot(column) {
            continue;
        }
        let vector = orthogonal_vector(alloc, space, reduced, column)?;
        orthogonal.append(vector)?;
    }
    Ok(orthogonal)
}

/// The reduced basis of a space, where many vectors are to be made that are orthogonal to it: then it costs less than
/// it saves.
fn reduced_where_many(alloc: Global, space: &Subspace) -> Result<Option<Matrix>, Refusal>
    ensures { Answers None (IsReducedBasisOrNone space.now) result }
{
    let count = space.cols().saturating_sub(space.dim());
    if count <= space.dim() / DIMENSIONS_PER_VECTOR {
        return Ok(None);
    }
    Ok(Some(space.reduced(alloc)?))
}

/// The vector orthogonal to a space that is 1 at a column that is no pivot of the space, and 0 at all others of them,
/// read from the last entry to the first.
pub(crate) fn orthogonal_vector(
    alloc: Global,
    space: &Subspace,
    reduced: &Option<Matrix>,
    column: usize,
) -> Result<Row, Refusal>
    requires reduced { IsReducedBasisOrNone space.now reduced.now }
    requires within { column < space.now.cols }
    requires no_pivot { ¬ (IsPivot (number_field space.now.order) space.now.rows column) }
    ensures { Answers None (IsMirroredVector space.now column) result }
{
    match reduced {
        Some(basis) => vector_by_basis(alloc, space, basis, column),
        None => mirrored_row(alloc, &vector_by_rows(alloc, space, column)?),
    }
}

/// The vector orthogonal to a space that is 1 at a column that is no pivot of the space, and 0 at all others of them,
/// by the rows of the space's echelon form.
fn vector_by_rows(alloc: Global, space: &Subspace, column: usize) -> Result<Row, Refusal>
    requires within { column < space.now.cols }
    requires no_pivot { ¬ (IsPivot (number_field space.now.order) space.now.rows column) }
    ensures { Answers None (IsOrthogonalVector space.now column) result }
{
    let field = *space.field();
    let mut vector = Row::unit(alloc, field, space.cols(), column)?;
    // A row is 0 at the pivots of the rows before it: so what is set for them keeps the vector orthogonal to it.
    for index in (0..space.dim()).rev() {
        let product = space.row(index).dot(&vector);
        // The row is 1 at its pivot, where the vector is 0 so far.
        vector.set(space.pivot(index), field.neg(product));
    }
    Ok(vector)
}

/// The same vector by the reduced basis of the space, read from the last entry to the first.
fn vector_by_basis(
    alloc: Global,
    space: &Subspace,
    basis: &Matrix,
    column: usize,
) -> Result<Row, Refusal>
    requires basis { IsReducedMatrix space.now basis.now }
    requires within { column < space.now.cols }
    requires no_pivot { ¬ (IsPivot (number_field space.now.order) space.now.rows column) }
    ensures { Answers None (IsMirroredVector space.now column) result }
{
    let last = basis.cols() - 1;
    let mut vector = Row::unit(alloc, *space.field(), basis.cols(), last - column)?;
    let mut index = 0;
    // A row of the basis is 1 at its pivot, where all others are 0, and 0 before it: so rows with later pivots are 0 at
    // the column.
    for pivot in 0..column {
        if space.is_pivot(pivot) {
            set_negative(&mut vector, last - pivot, basis.get(index, column));
            index += 1;
        }
    }
    Ok(vector)
}

/// Makes the negative of an element the entry of a row at an index, where that element is not 0. Where it is 0, the row
/// stays as it is.
fn set_negative(row: &mut Row, index: usize, element: u8)
    requires index { index < length row.old.entries }
    requires element { IsElement row.old.order element }
    ensures set { element ≢ 0 → row.new ≡ record {
      order = row.old.order;
      entries = slice_set row.old.entries index (field_neg row.old.order element);
    } }
    ensures same { element ≡ 0 → row.new ≡ row.old }
    ensures well_formed { IsRow row.new }
{
    let negative = row.field().neg(element);
    if element != 0 {
        row.set(index, negative);
    }
}

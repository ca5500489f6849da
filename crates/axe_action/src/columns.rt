//! The pivots of a span, and coordinates by the entries there.

ghost use Rattle.std.specs.Prelude.{◌≡◌, ◌<◌, ◌↔◌, length, All, IsTrue, None, IfSome};
ghost use Rattle.axe_algebra.specs.Lists.{unit_row};
ghost use Rattle.axe_algebra.specs.SpansOfLists.{IsIndependent};
ghost use Rattle.axe_field.specs.NumberFields.{number_field};
ghost use Rattle.axe_row.specs.Refusals.{Answers};
ghost use Rattle.axe_matrix.specs.Matrices.{IsMatrix, matrix_product, entries_at};
ghost use Rattle.axe_echelon.specs.Echelons.{IsEchelon, IsSpanOfRows};
ghost use Rattle.axe_action.specs.Coordinates.{ArePivotColumns, AreCoordinateColumns, IsIdentityAt};

use axe_echelon::Echelon;
use axe_matrix::{ChosenColumns, Matrix, Refusal, Row};
use std::alloc::Global;

/// Columns at which the entries of the vectors of the span of independent rows are their coordinates over these rows:
/// the pivots, where the rows are the reduced basis. Else `None`. The span is given too.
pub(crate) fn coordinate_columns(
    alloc: Global,
    rows: &Matrix,
    span: &Echelon,
) -> Result<Option<Vec<usize>>, Refusal>
    requires independent { IsIndependent (number_field rows.now.order) rows.now.rows }
    requires span { IsSpanOfRows rows.now span.now }
    ensures { Answers None (λ found. IfSome found (λ columns.
        AreCoordinateColumns (number_field rows.now.order) rows.now.cols rows.now.rows columns.items)) result }
{
    let pivots = pivot_columns(alloc, span)?;
    let reduced = is_identity_at(alloc, rows, &pivots)?;
    if reduced { Ok(Some(pivots)) } else { Ok(None) }
}

/// Whether the entries of each row at some columns, as many as rows, are the unit vector of the row's number. The first
/// row where they are not decides.
pub(crate) fn is_identity_at(
    alloc: Global,
    rows: &Matrix,
    columns: &[usize],
) -> Result<bool, Refusal>
    requires as_many { length columns.now ≡ length rows.now.rows }
    requires within { All (λ column. column < rows.now.cols) columns.now }
    ensures identity { Answers None (λ identity. IsTrue identity ↔ IsIdentityAt columns.now rows.now.rows) result }
    ensures well_formed { IsMatrix rows.now }
{
    let chosen = ChosenColumns::new(columns);
    for index in 0..rows.rows() {
        if !is_unit_at(alloc, rows.row(index), &chosen, index)? {
            return Ok(false);
        }
    }
    Ok(true)
}

/// Whether the entries of a row at some columns are the unit vector with its 1 at an index.
fn is_unit_at(
    alloc: Global,
    row: &Row,
    columns: &ChosenColumns,
    index: usize,
) -> Result<bool, Refusal>
    requires within { All (λ column. column < length row.now.entries) columns.now }
    requires below { index < length columns.now }
    ensures { Answers None (λ unit. IsTrue unit
        ↔ (entries_at columns.now row.now.entries ≡ unit_row (length columns.now) index)) result }
{
    let entries = columns.entries(alloc, row)?;
    let unit = Row::unit(alloc, *row.field(), entries.len(), index)?;
    Ok(entries.same(&unit))
}

/// The pivots of a span, ascending.
pub(crate) fn pivot_columns(alloc: Global, span: &Echelon) -> Result<Vec<usize>, Refusal>
    ensures pivots { Answers None (λ columns. ArePivotColumns span.now columns.items) result }
    ensures well_formed { IsEchelon span.now }
{
    let mut columns = Vec::new(alloc);
    for column in 0..span.cols() {
        if span.is_pivot(column) {
            columns.push(column)?;
        }
    }
    Ok(columns)
}

/// Whether the combinations of rows with the rows of a matrix as their coefficients are the rows of another matrix.
pub(crate) fn combine_to(
    alloc: Global,
    coefficients: &Matrix,
    rows: &Matrix,
    images: &Matrix,
) -> Result<bool, Refusal>
    requires field { coefficients.now.order ≡ rows.now.order }
    requires fits { coefficients.now.cols ≡ length rows.now.rows }
    ensures { Answers None
        (λ same. IsTrue same ↔ (matrix_product coefficients.now rows.now ≡ images.now)) result }
{
    let combinations = coefficients.mul(alloc, rows)?;
    Ok(combinations.same(images))
}

//! Bases of the whole space.

ghost use Rattle.std.specs.Prelude.{◌≡◌, ◌<◌, ◌++◌, [], ◌∷◌, length, None, IfOk};
ghost use Rattle.axe_algebra.specs.Lists.{unit_row};
ghost use Rattle.axe_algebra.specs.SpansOfLists.{IsIndependent};
ghost use Rattle.axe_field.specs.NumberFields.{number_field};
ghost use Rattle.axe_row.specs.Refusals.{Answers};
ghost use Rattle.axe_matrix.specs.Limits.{most_rows};
ghost use Rattle.axe_matrix.specs.Matrices.{IsMatrix};
ghost use Rattle.axe_echelon.specs.Echelons.{IsSpanOfRows};
ghost use Rattle.axe_action.specs.Actions.{IsExtendedMatrix};

use axe_echelon::{Echelon, span_of};
use axe_matrix::{Matrix, Refusal, Row};
use std::alloc::Global;

/// Independent rows, extended to a basis of all vectors of their length: these rows, then the unit vectors of the
/// columns that are no pivots of their span, ascending.
pub fn extend_basis(alloc: Global, rows: &Matrix) -> Result<Matrix, Refusal>
    requires independent { IsIndependent (number_field rows.now.order) rows.now.rows }
    ensures extended { Answers None (IsExtendedMatrix rows.now) result }
    ensures well_formed { IfOk result IsMatrix }
{
    let span = span_of(alloc, rows)?;
    extend_beside(alloc, rows, &span)
}

/// Independent rows, extended as [`extend_basis`] does it. Their span is given too.
fn extend_beside(alloc: Global, rows: &Matrix, span: &Echelon) -> Result<Matrix, Refusal>
    requires independent { IsIndependent (number_field rows.now.order) rows.now.rows }
    requires span { IsSpanOfRows rows.now span.now }
    ensures extended { Answers None (IsExtendedMatrix rows.now) result }
    ensures well_formed { IfOk result IsMatrix }
{
    let mut extended = rows.copy(alloc)?;
    for column in 0..rows.cols() {
        if !span.is_pivot(column) {
            append_unit(alloc, &mut extended, column)?;
        }
    }
    Ok(extended)
}

/// Appends the unit vector of a column.
fn append_unit(alloc: Global, matrix: &mut Matrix, column: usize) -> Result<(), Refusal>
    requires below { column < matrix.old.cols }
    requires room { length matrix.old.rows < most_rows }
    ensures appended { Answers None (λ _. matrix.new
        ≡ record matrix.old { rows = matrix.old.rows ++ unit_row matrix.old.cols column ∷ [] }) result }
    ensures well_formed { IsMatrix matrix.new }
{
    let unit = Row::unit(alloc, *matrix.field(), matrix.cols(), column)?;
    matrix.append(unit)
}

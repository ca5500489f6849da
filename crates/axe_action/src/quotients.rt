//! The action of a module modulo an invariant space.

ghost use Rattle.std.specs.Prelude.{◌≡◌, ◌<◌, ◌≤◌, ◌↔◌, length, All, IsTrue, None, IfOk};
ghost use Rattle.axe_algebra.specs.Lists.{unit_row};
ghost use Rattle.axe_row.specs.Refusals.{Answers, AnswersOr, RefusedAs};
ghost use Rattle.axe_row.specs.declared.refusals.Refusal.TheVariants.{NotInvariant};
ghost use Rattle.axe_matrix.specs.Limits.{most_rows};
ghost use Rattle.axe_matrix.specs.Matrices.{IsMatrix, matrix_product, has_only_zeros};
ghost use Rattle.axe_echelon.specs.Echelons.{IsEchelon};
ghost use Rattle.axe_spin.specs.Modules.{IsModule, rows_refusal, IsInvariantIn};
ghost use Rattle.axe_action.specs.Actions.{quotient_late, action_late, IsActionModulo, IsProperActionModulo};
ghost use Rattle.axe_action.specs.Coordinates.{HasImagesIn};
ghost use Rattle.axe_action.specs.FreeColumns.{IsFreeColumn, AreFreeColumns, IsRowModulo, HasRowsModulo};
ghost use Rattle.axe_action.specs.FreeColumns.{HasUnitsModulo, rows_to_span, row_at};

use axe_echelon::{Echelon, span_of};
use axe_matrix::{ChosenColumns, Matrix, Refusal, Row};
use axe_spin::Module;
use std::alloc::Global;

/// The action of a module modulo the span of the rows of a matrix, which may be zero, over the unit vectors of the
/// columns that are no pivots, ascending: such a unit vector times a generator is the combination of these unit vectors
/// with the coefficients in its row of the action's matrix, plus a vector of the span. Rows over another field than the
/// module are refused as FieldsDiffer, else rows of another length than the dimension as ShapesDiffer, else rows that
/// span everything as WholeSpace, and else rows whose span is not invariant as NotInvariant.
pub fn quotient_action(alloc: Global, module: &Module, rows: &Matrix) -> Result<Module, Refusal>
    ensures action { AnswersOr (rows_refusal «module».now rows.now) (IsProperActionModulo «module».now rows.now)
        (quotient_late «module».now rows.now) result }
    ensures well_formed { IfOk result IsModule }
{
    module.check_rows(rows)?;
    let span = span_of(alloc, rows)?;
    if span.rank() == module.dim() {
        return Err(Refusal::WholeSpace);
    }
    let columns = free_columns(alloc, &span)?;
    let units = units_modulo(alloc, &span, &columns)?;
    // Its memory is free again before the products are made.
    drop(span);
    action_modulo(alloc, module, rows, &columns, &units)
}

/// The columns that are no pivots of a span, ascending.
pub(crate) fn free_columns(alloc: Global, span: &Echelon) -> Result<Vec<usize>, Refusal>
    ensures free { Answers None (λ columns. AreFreeColumns span.now columns.items) result }
    ensures well_formed { IsEchelon span.now }
{
    let mut columns = Vec::new(alloc);
    for column in 0..span.cols() {
        if is_free(span, column) {
            columns.push(column)?;
        }
    }
    Ok(columns)
}

/// Whether a column is no pivot of a span.
fn is_free(span: &Echelon, column: usize) -> bool
    requires { column < span.now.cols }
    ensures { IsTrue result ↔ IsFreeColumn span.now column }
{
    !span.is_pivot(column)
}

/// The matrix of all unit vectors modulo a span, in order, so that a vector times it is the vector modulo the span: the
/// entries, at the columns that are no pivots, of the one vector of the coset that is 0 at each pivot.
fn units_modulo(alloc: Global, span: &Echelon, columns: &[usize]) -> Result<Matrix, Refusal>
    requires free { AreFreeColumns span.now columns.now }
    requires some_column { 1 ≤ length columns.now }
    ensures { Answers None (HasUnitsModulo span.now columns.now) result }
{
    let mut units = Matrix::with_capacity(alloc, *span.field(), columns.len(), span.cols())?;
    let chosen = ChosenColumns::new(columns);
    for column in 0..span.cols() {
        let row = unit_modulo(alloc, span, &chosen, column)?;
        units.append(row)?;
    }
    Ok(units)
}

/// The unit vector of a column modulo a span.
fn unit_modulo(
    alloc: Global,
    span: &Echelon,
    columns: &ChosenColumns,
    column: usize,
) -> Result<Row, Refusal>
    requires within { All (λ column. column < span.now.cols) columns.now }
    requires below { column < span.now.cols }
    ensures modulo { Answers None
        (λ row. IsRowModulo span.now columns.now (unit_row span.now.cols column) row.entries) result }
    ensures same_field { Answers None (λ row. row.order ≡ span.now.order) result }
{
    let mut unit = Row::unit(alloc, *span.field(), span.cols(), column)?;
    span.reduce(&mut unit);
    columns.entries(alloc, &unit)
}

/// The action of a module modulo the span of rows, over the unit vectors of the columns that are no pivots. All unit
/// vectors modulo the span are given too.
fn action_modulo(
    alloc: Global,
    module: &Module,
    rows: &Matrix,
    columns: &[usize],
    units: &Matrix,
) -> Result<Module, Refusal>
    requires field { rows.now.order ≡ «module».now.order }
    requires fits { rows.now.cols ≡ «module».now.dim }
    requires well_formed { IsMatrix rows.now }
    requires free { AreFreeColumns (rows_to_span rows.now) columns.now }
    requires columns_fit { length columns.now ≤ most_rows }
    requires units { HasUnitsModulo (rows_to_span rows.now) columns.now units.now }
    ensures action { AnswersOr None
        (λ action. IsInvariantIn «module».now rows.now × IsActionModulo «module».now rows.now action)
        (action_late «module».now rows.now) result }
    ensures well_formed { IfOk result IsModule }
{
    let mut actions = Vec::new(alloc);
    for number in 0..module.gens() {
        let action = generator_modulo(alloc, module.generator(number), rows, columns, units)?;
        actions.push(action)?;
    }
    Module::new(actions)
}

/// The matrix by which a generator acts modulo the span of rows: its rows at the columns that are no pivots, modulo the
/// span. Its product with all unit vectors modulo the span has all its rows modulo the span, and the product of the
/// rows with that product has their images modulo the span: they are zero exactly where the images are in the span,
/// else the rows are refused as NotInvariant.
fn generator_modulo(
    alloc: Global,
    generator: &Matrix,
    rows: &Matrix,
    columns: &[usize],
    units: &Matrix,
) -> Result<Matrix, Refusal>
    requires square { length generator.now.rows ≡ generator.now.cols }
    requires generator_well_formed { IsMatrix generator.now }
    requires field { rows.now.order ≡ generator.now.order }
    requires fits { rows.now.cols ≡ generator.now.cols }
    requires well_formed { IsMatrix rows.now }
    requires free { AreFreeColumns (rows_to_span rows.now) columns.now }
    requires columns_fit { length columns.now ≤ most_rows }
    requires units { HasUnitsModulo (rows_to_span rows.now) columns.now units.now }
    ensures { AnswersOr None
        (λ action. HasImagesIn generator.now rows.now.rows rows.now.rows
        × HasRowsModulo (rows_to_span rows.now) columns.now (row_at generator.now.rows columns.now)
        (length columns.now) action)
        (RefusedAs NotInvariant (¬ (HasImagesIn generator.now rows.now.rows rows.now.rows))) result }
{
    let images = generator.mul(alloc, units)?;
    if !has_zero_product(alloc, rows, &images)? {
        return Err(Refusal::NotInvariant);
    }
    images.rows_at(alloc, columns)
}

/// Whether the product of two matrices is zero.
fn has_zero_product(alloc: Global, first: &Matrix, second: &Matrix) -> Result<bool, Refusal>
    requires field { first.now.order ≡ second.now.order }
    requires fits { first.now.cols ≡ length second.now.rows }
    ensures { Answers None
        (λ zero. zero ≡ has_only_zeros (matrix_product first.now second.now).rows) result }
{
    let product = first.mul(alloc, second)?;
    Ok(product.has_only_zeros())
}

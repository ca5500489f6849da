//! The action of a module on an invariant space.

ghost use Rattle.std.specs.Prelude.{◌≡◌, ◌<◌, ◌≤◌, length, All, None, IfOk};
ghost use Rattle.axe_algebra.specs.SpansOfLists.{IsIndependent, IsSpanned};
ghost use Rattle.axe_field.specs.NumberFields.{number_field};
ghost use Rattle.axe_row.specs.Refusals.{Answers, AnswersOr, RefusedAs, unless_refused};
ghost use Rattle.axe_row.specs.declared.refusals.Refusal.TheVariants.{NotInvariant};
ghost use Rattle.axe_matrix.specs.Limits.{most_rows, most_columns};
ghost use Rattle.axe_matrix.specs.Matrices.{IsMatrix, matrix_product, columns_at};
ghost use Rattle.axe_echelon.specs.Echelons.{IsSpanOfRows};
ghost use Rattle.axe_spin.specs.Modules.{IsModule, IsInvariantIn};
ghost use Rattle.axe_action.specs.Actions.{sub_action_refusal, action_late, IsActionOnSpan, IsActionOverRows};
ghost use Rattle.axe_action.specs.Coordinates.{HasImagesIn, HasActionRows, AreCoordinateColumns, HasCoefficientsToo};

use super::columns::{combine_to, coordinate_columns, pivot_columns};
use super::conjugates::conjugate;
use axe_echelon::{Echelon, span_of};
use axe_matrix::{Matrix, Refusal, Row};
use axe_spin::Module;
use std::alloc::Global;

/// The action of a module on the span of the rows of a matrix, over the reduced basis of that span. Rows over another
/// field than the module are refused as FieldsDiffer, else rows of another length than the dimension as ShapesDiffer,
/// else rows that are all zero, or none, as ZeroSpace, and else rows whose span is not invariant as NotInvariant.
pub fn sub_action(alloc: Global, module: &Module, rows: &Matrix) -> Result<Module, Refusal>
    ensures action { AnswersOr (sub_action_refusal «module».now rows.now)
        (λ action. IsInvariantIn «module».now rows.now × IsActionOnSpan «module».now rows.now action)
        (action_late «module».now rows.now) result }
    ensures well_formed { IfOk result IsModule }
{
    check_space(module, rows)?;
    let span = span_of(alloc, rows)?;
    let basis = span.reduced(alloc)?;
    let pivots = pivot_columns(alloc, &span)?;
    // Its memory is free again before the products are made.
    drop(span);
    action_on_basis(alloc, module, &basis, &pivots)
}

/// The action of a module on the span of independent rows, over these rows as they stand: a row times a generator is
/// the combination of the rows with the coefficients in that row of the action's matrix. The refusals are those of
/// [`sub_action`].
pub fn basis_action(alloc: Global, module: &Module, rows: &Matrix) -> Result<Module, Refusal>
    requires independent { IsIndependent (number_field rows.now.order) rows.now.rows }
    ensures action { AnswersOr (sub_action_refusal «module».now rows.now)
        (IsActionOverRows «module».now rows.now) (action_late «module».now rows.now) result }
    ensures well_formed { IfOk result IsModule }
{
    check_space(module, rows)?;
    if rows.rows() == module.dim() {
        return action_on_everything(alloc, module, rows);
    }
    action_on_proper(alloc, module, rows)
}

/// The action of a module on the span of independent rows, of which there is one at least, over these rows: by
/// products, where they are the reduced basis of their span.
fn action_on_proper(alloc: Global, module: &Module, rows: &Matrix) -> Result<Module, Refusal>
    requires independent { IsIndependent (number_field rows.now.order) rows.now.rows }
    requires some_row { 1 ≤ length rows.now.rows }
    requires field { rows.now.order ≡ «module».now.order }
    requires fits { rows.now.cols ≡ «module».now.dim }
    ensures action { AnswersOr None (IsActionOverRows «module».now rows.now)
        (action_late «module».now rows.now) result }
    ensures well_formed { IfOk result IsModule }
{
    let span = span_of(alloc, rows)?;
    let Some(columns) = coordinate_columns(alloc, rows, &span)? else {
        return action_over(alloc, module, rows, &span);
    };
    // A proper submodule mostly comes as its reduced basis, and then products do. The memory of the span is free again
    // before they are made.
    drop(span);
    action_on_basis(alloc, module, rows, &columns)
}

/// The action of a module on everything, over independent rows, as many as its dimension: the conjugate by their
/// matrix, which is invertible. It takes one inverse, and two products for each generator.
fn action_on_everything(alloc: Global, module: &Module, rows: &Matrix) -> Result<Module, Refusal>
    requires module_well_formed { IsModule «module».now }
    requires rows_well_formed { IsMatrix rows.now }
    requires independent { IsIndependent (number_field rows.now.order) rows.now.rows }
    requires square { length rows.now.rows ≡ «module».now.dim }
    requires field { rows.now.order ≡ «module».now.order }
    requires fits { rows.now.cols ≡ «module».now.dim }
    ensures action { AnswersOr None (IsActionOverRows «module».now rows.now)
        (action_late «module».now rows.now) result }
    ensures well_formed { IfOk result IsModule }
{
    conjugate(alloc, module, rows)
}

/// Refuses rows that are no vectors of a module, and rows that span zero.
fn check_space(module: &Module, rows: &Matrix) -> Result<(), Refusal>
    ensures refusal { result ≡ unless_refused (sub_action_refusal «module».now rows.now) tt }
    ensures rows_well_formed { IsMatrix rows.now }
{
    module.check_rows(rows)?;
    if rows.has_only_zeros() {
        return Err(Refusal::ZeroSpace);
    }
    Ok(())
}

/// The action of a module on the span of rows, of which there is one at least, over these rows. The coordinates of the
/// vectors of their span are the entries at some columns.
fn action_on_basis(
    alloc: Global,
    module: &Module,
    basis: &Matrix,
    columns: &[usize],
) -> Result<Module, Refusal>
    requires some_row { 1 ≤ length basis.now.rows }
    requires field { basis.now.order ≡ «module».now.order }
    requires fits { basis.now.cols ≡ «module».now.dim }
    requires well_formed { IsMatrix basis.now }
    requires coordinates { AreCoordinateColumns (number_field basis.now.order) basis.now.cols
        basis.now.rows columns.now }
    ensures action { AnswersOr None (IsActionOverRows «module».now basis.now)
        (action_late «module».now basis.now) result }
    ensures well_formed { IfOk result IsModule }
{
    let mut actions = Vec::new(alloc);
    for number in 0..module.gens() {
        let action = generator_on_basis(alloc, module.generator(number), basis, columns)?;
        actions.push(action)?;
    }
    Module::new(actions)
}

/// The matrix by which a generator acts on rows, where the coordinates of the vectors of their span are the entries at
/// some columns: the entries of the images there. The rows combine to the images with these exactly where the span is
/// invariant.
fn generator_on_basis(
    alloc: Global,
    generator: &Matrix,
    basis: &Matrix,
    columns: &[usize],
) -> Result<Matrix, Refusal>
    requires square { length generator.now.rows ≡ generator.now.cols }
    requires some_row { 1 ≤ length basis.now.rows }
    requires field { basis.now.order ≡ generator.now.order }
    requires fits { basis.now.cols ≡ generator.now.cols }
    requires well_formed { IsMatrix basis.now }
    requires coordinates { AreCoordinateColumns (number_field basis.now.order) basis.now.cols
        basis.now.rows columns.now }
    ensures { AnswersOr None
        (λ action. HasImagesIn generator.now basis.now.rows basis.now.rows
        × HasActionRows generator.now basis.now.rows (length basis.now.rows) action)
        (RefusedAs NotInvariant (¬ (HasImagesIn generator.now basis.now.rows basis.now.rows))) result }
{
    let images = basis.mul(alloc, generator)?;
    coordinates_at(alloc, &images, basis, columns)
}

/// The entries of images at some columns, as many as the rows of a basis. Images to which the rows do not combine with
/// these are refused as NotInvariant.
fn coordinates_at(
    alloc: Global,
    images: &Matrix,
    basis: &Matrix,
    columns: &[usize],
) -> Result<Matrix, Refusal>
    requires field { images.now.order ≡ basis.now.order }
    requires some_column { 1 ≤ length columns.now }
    requires columns_fit { length columns.now ≤ most_columns }
    requires within { All (λ column. column < images.now.cols) columns.now }
    requires as_many { length columns.now ≡ length basis.now.rows }
    ensures { AnswersOr None
        (λ action. IsMatrix action × (action ≡ columns_at columns.now images.now)
        × (matrix_product action basis.now ≡ images.now))
        (RefusedAs NotInvariant (IsMatrix (columns_at columns.now images.now)
        × (¬ (matrix_product (columns_at columns.now images.now) basis.now ≡ images.now)))) result }
{
    let action = images.columns_at(alloc, columns)?;
    if !combine_to(alloc, &action, basis, images)? {
        return Err(Refusal::NotInvariant);
    }
    Ok(action)
}

/// The action of a module on the span of independent rows, of which there is one at least, over these rows. The span is
/// given too.
pub(crate) fn action_over(
    alloc: Global,
    module: &Module,
    rows: &Matrix,
    span: &Echelon,
) -> Result<Module, Refusal>
    requires independent { IsIndependent (number_field rows.now.order) rows.now.rows }
    requires some_row { 1 ≤ length rows.now.rows }
    requires field { rows.now.order ≡ «module».now.order }
    requires fits { rows.now.cols ≡ «module».now.dim }
    requires span { IsSpanOfRows rows.now span.now }
    ensures action { AnswersOr None (IsActionOverRows «module».now rows.now)
        (action_late «module».now rows.now) result }
    ensures well_formed { IfOk result IsModule }
{
    let mut actions = Vec::new(alloc);
    for number in 0..module.gens() {
        let action = generator_action(alloc, module.generator(number), span, rows)?;
        actions.push(action)?;
    }
    Module::new(actions)
}

/// The matrix by which a generator acts on independent rows, whose span is given too: row t has the coefficients of row
/// t times the generator.
fn generator_action(
    alloc: Global,
    generator: &Matrix,
    span: &Echelon,
    rows: &Matrix,
) -> Result<Matrix, Refusal>
    requires square { length generator.now.rows ≡ generator.now.cols }
    requires span { span.now ≡ record { order = generator.now.order; cols = generator.now.cols; rows = rows.now.rows } }
    requires some_row { 1 ≤ length rows.now.rows }
    requires field { rows.now.order ≡ generator.now.order }
    requires fits { rows.now.cols ≡ generator.now.cols }
    ensures { AnswersOr None
        (λ action. HasImagesIn generator.now rows.now.rows rows.now.rows
        × HasActionRows generator.now rows.now.rows (length rows.now.rows) action)
        (RefusedAs NotInvariant (¬ (HasImagesIn generator.now rows.now.rows rows.now.rows))) result }
{
    let images = rows.mul(alloc, generator)?;
    let mut action = Matrix::with_capacity(alloc, *span.field(), span.rank(), images.rows())?;
    for index in 0..images.rows() {
        append_coefficients(alloc, &mut action, span, images.row(index))?;
    }
    Ok(action)
}

/// Appends the coefficients of an image over the rows of a span, as many as the matrix has columns. An image that is
/// not in the span is refused as NotInvariant.
fn append_coefficients(
    alloc: Global,
    action: &mut Matrix,
    span: &Echelon,
    image: &Row,
) -> Result<(), Refusal>
    requires field { action.old.order ≡ span.now.order }
    requires width { action.old.cols ≡ length span.now.rows }
    requires room { length action.old.rows < most_rows }
    requires image_field { image.now.order ≡ span.now.order }
    requires image_fits { length image.now.entries ≡ span.now.cols }
    ensures { AnswersOr None (λ _. HasCoefficientsToo span.now image.now.entries action.old action.new)
        (RefusedAs NotInvariant (¬ (IsSpanned (number_field span.now.order) span.now.rows image.now.entries))) result }
{
    let Some(coefficients) = span.coordinates(alloc, image)? else {
        return Err(Refusal::NotInvariant);
    };
    action.append(coefficients)
}

//! The shapes of the constituents' matrices.

ghost use Rattle.std.specs.Prelude.{◌≡◌, ◌≤◌, ◌↔◌, length, All, None, IfOk, IsTrue};
ghost use Rattle.axe_row.specs.Refusals.{Answers};
ghost use Rattle.axe_spin.specs.Modules.{IsModule};
ghost use Rattle.axe_report.specs.Reports.{dims};
ghost use Rattle.axe_check.specs.Certificates.{HasShape, IsSquareOfSize, module_with, lists_of};
ghost use Rattle.axe_check.specs.Steps.{Passes, IsShapedAs, IsShapeReason, AreShapedAs, IsFirstShapeReason};

use crate::reasons::{Stop, name_of};
use axe_field::Field;
use axe_matrix::{Matrix, Refusal};
use axe_report::{Reason, ReportFactor};
use axe_spin::Module;
use std::alloc::Global;

/// The constituents with these lists of matrices, as modules, where all have the shapes that the report gives them.
pub(crate) fn shaped_modules(
    alloc: Global,
    reported: &[ReportFactor],
    module: &Module,
    lists: &[Vec<Matrix>],
) -> Result<Vec<Module>, Stop>
    requires dims { All (λ dim. 1 ≤ dim) (dims reported.now) }
    requires lists { length lists.now ≡ length reported.now }
    ensures shaped { Passes (λ modules. AreShapedAs «module».now reported.now (lists_of lists.now) modules.items)
        (IsFirstShapeReason «module».now reported.now (lists_of lists.now)) result }
    ensures well_formed { IfOk result (λ modules. All IsModule modules.items) }
{
    let mut modules = Vec::new(alloc);
    for number in 0..lists.len() {
        let factor = shaped_module(alloc, &reported[number], module, &lists[number])?;
        modules.push(factor)?;
    }
    Ok(modules)
}

/// A constituent with these matrices, as a module, where they have the shape that the report gives it.
fn shaped_module(
    alloc: Global,
    reported: &ReportFactor,
    module: &Module,
    matrices: &[Matrix],
) -> Result<Module, Stop>
    requires dim { 1 ≤ reported.now.dim }
    ensures shaped { Passes (IsShapedAs «module».now reported.now.dim matrices.now)
        (IsShapeReason «module».now reported.now matrices.now) result }
    ensures well_formed { IfOk result IsModule }
{
    if !has_shape(module, reported.dim(), matrices) {
        return Err(Stop::Because(Reason::Shape(name_of(alloc, reported)?)));
    }
    Ok(module_of(alloc, module, reported.dim(), matrices)?)
}

/// Whether matrices are as many as a module's generators, over its field, and square of a dimension.
fn has_shape(module: &Module, dim: usize, matrices: &[Matrix]) -> bool
    ensures { IsTrue result ↔ HasShape «module».now dim matrices.now }
{
    matrices.len() == module.gens() && are_square(module.field(), dim, matrices)
}

/// Whether matrices are over a field, and square of so many rows.
fn are_square(field: &Field, dim: usize, matrices: &[Matrix]) -> bool
    ensures { IsTrue result ↔ All (IsSquareOfSize field.now dim) matrices.now }
{
    for matrix in matrices {
        if matrix.field() != field || matrix.rows() != dim || matrix.cols() != dim {
            return false;
        }
    }
    true
}

/// The module of a dimension with copies of these matrices as its generators, which have this shape.
fn module_of(
    alloc: Global,
    module: &Module,
    dim: usize,
    matrices: &[Matrix],
) -> Result<Module, Refusal>
    requires dim { 1 ≤ dim }
    requires shape { HasShape «module».now dim matrices.now }
    ensures made { Answers None (λ made. made ≡ module_with «module».now.order dim matrices.now) result }
    ensures well_formed { IfOk result IsModule }
{
    // Called for what it ensures beside the number: that the module has 1 to 16 generators.
    prove!(matrices.len() == module.gens());
    let mut copies = Vec::new(alloc);
    for matrix in matrices {
        let copy = matrix.copy(alloc)?;
        copies.push(copy)?;
    }
    Module::new(copies)
}

//! Modules over another basis.

ghost use Rattle.std.specs.Prelude.{◌≡◌, length, None, IfOk};
ghost use Rattle.axe_algebra.specs.SpansOfLists.{IsIndependent};
ghost use Rattle.axe_field.specs.NumberFields.{number_field};
ghost use Rattle.axe_row.specs.Refusals.{Answers, unless_refused, AnswersOr, RefusedAs};
ghost use Rattle.axe_row.specs.declared.refusals.Refusal.TheVariants.{Singular};
ghost use Rattle.axe_matrix.specs.Matrices.{IsMatrix, matrix_product};
ghost use Rattle.axe_spin.specs.Modules.{IsModule};
ghost use Rattle.axe_reduction.specs.Solutions.{IsInverseMatrix, IsInvertibleMatrix};
ghost use Rattle.axe_action.specs.Actions.{conjugate_refusal, IsBasisAction, IsConjugateModule};

use axe_echelon::inverse;
use axe_matrix::{Matrix, Refusal};
use axe_spin::Module;
use std::alloc::Global;

/// The module over the rows of an invertible matrix p as its basis: each generator g becomes `p g p^-1`. A matrix over
/// another field than the module is refused as FieldsDiffer, else one that is not square of the module's dimension as
/// ShapesDiffer, and else one that has no inverse as Singular.
pub fn conjugate(alloc: Global, module: &Module, basis: &Matrix) -> Result<Module, Refusal>
    ensures conjugate { AnswersOr (conjugate_refusal «module».now basis.now) (IsConjugateModule «module».now basis.now)
        (RefusedAs Singular (¬ (IsInvertibleMatrix basis.now))) result }
    ensures well_formed { IfOk result IsModule }
{
    check_basis(module, basis)?;
    let inverse = inverse(alloc, basis)?;
    conjugate_by(alloc, module, basis, &inverse)
}

/// The module over the rows of a matrix as its basis, by the inverse of that matrix.
fn conjugate_by(
    alloc: Global,
    module: &Module,
    basis: &Matrix,
    inverse: &Matrix,
) -> Result<Module, Refusal>
    requires field { basis.now.order ≡ «module».now.order }
    requires square { length basis.now.rows ≡ «module».now.dim }
    requires fits { basis.now.cols ≡ «module».now.dim }
    requires inverse { IsInverseMatrix basis.now inverse.now }
    ensures conjugate { Answers None (IsConjugateModule «module».now basis.now) result }
    ensures well_formed { IfOk result IsModule }
{
    let mut conjugates = Vec::new(alloc);
    for index in 0..module.gens() {
        let conjugate = triple_product(alloc, basis, module.generator(index), inverse)?;
        conjugates.push(conjugate)?;
    }
    Module::new(conjugates)
}

/// The module over a basis of everything, as [`basis_action`] gives it, for a module that is given away: it is taken
/// apart, so that each generator is gone before the matrix that comes in its place is made; no clause says so.
///
/// [`basis_action`]: crate::basis_action
pub fn change_basis(alloc: Global, module: Module, basis: &Matrix) -> Result<Module, Refusal>
    requires field { basis.now.order ≡ «module».order }
    requires square { length basis.now.rows ≡ «module».dim }
    requires fits { basis.now.cols ≡ «module».dim }
    requires independent { IsIndependent (number_field basis.now.order) basis.now.rows }
    ensures action { Answers None (IsBasisAction «module» basis.now) result }
    ensures well_formed { IfOk result IsModule }
{
    prove!(basis.rows() == module.dim());
    let inverse = inverse(alloc, basis)?;
    let mut conjugates = Vec::new(alloc);
    for generator in module.into_generators() {
        let conjugate = conjugate_of(alloc, basis, generator, &inverse)?;
        conjugates.push(conjugate)?;
    }
    Module::new(conjugates)
}

/// The product of a basis, a generator and the inverse of the basis. The generator is gone before the second product is
/// made.
fn conjugate_of(
    alloc: Global,
    basis: &Matrix,
    generator: Matrix,
    inverse: &Matrix,
) -> Result<Matrix, Refusal>
    requires generator_field { generator.order ≡ basis.now.order }
    requires inverse_field { inverse.now.order ≡ basis.now.order }
    requires generator_fits { length generator.rows ≡ basis.now.cols }
    requires inverse_fits { length inverse.now.rows ≡ generator.cols }
    ensures product { Answers None
        (λ product. product ≡ matrix_product (matrix_product basis.now generator) inverse.now) result }
    ensures well_formed { IfOk result IsMatrix }
{
    let product = basis.mul(alloc, &generator);
    drop(generator);
    let images = product?;
    images.mul(alloc, inverse)
}

/// Refuses a matrix that is over another field than a module, or not square of its dimension.
fn check_basis(module: &Module, basis: &Matrix) -> Result<(), Refusal>
    ensures { result ≡ unless_refused (conjugate_refusal «module».now basis.now) tt }
{
    module.check_rows(basis)?;
    if basis.rows() != module.dim() {
        return Err(Refusal::ShapesDiffer);
    }
    Ok(())
}

/// The product of three square matrices of one size over one field.
fn triple_product(
    alloc: Global,
    first: &Matrix,
    second: &Matrix,
    third: &Matrix,
) -> Result<Matrix, Refusal>
    requires second_field { second.now.order ≡ first.now.order }
    requires third_field { third.now.order ≡ first.now.order }
    requires second_fits { length second.now.rows ≡ first.now.cols }
    requires third_fits { length third.now.rows ≡ second.now.cols }
    ensures product { Answers None
        (λ product. product ≡ matrix_product (matrix_product first.now second.now) third.now) result }
    ensures well_formed { IfOk result IsMatrix }
{
    let images = first.mul(alloc, second)?;
    images.mul(alloc, third)
}

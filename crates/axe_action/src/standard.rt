//! Modules over standard bases.

ghost use Rattle.std.specs.Prelude.{◌≡◌, ◌<◌, ◌≤◌, length, All, None, IfOk};
ghost use Rattle.axe_algebra.specs.SpansOfLists.{IsIndependent};
ghost use Rattle.axe_field.specs.NumberFields.{number_field};
ghost use Rattle.axe_row.specs.Refusals.{Answers};
ghost use Rattle.axe_matrix.specs.Limits.{most_rows};
ghost use Rattle.axe_matrix.specs.Matrices.{IsMatrix, matrix_product, rows_at};
ghost use Rattle.axe_reduction.specs.Solutions.{IsInverseMatrix};
ghost use Rattle.axe_spin.specs.Modules.{IsModule};
ghost use Rattle.axe_spin.specs.Origins.{HaveOrigins};
ghost use Rattle.axe_action.specs.Actions.{IsBasisAction};
ghost use Rattle.axe_action.specs.KnownRows.{TellImages};

use super::known_rows::{known_images, put_rows, sort_rows};
use axe_echelon::inverse;
use axe_matrix::{Matrix, Refusal};
use axe_spin::{Module, Origin};
use std::alloc::Global;

/// The module over a standard basis of everything, as [`change_basis`] gives it, by the origins of the rows of that
/// basis: where the image of a row under a generator is a row of the basis, its coordinates are a unit vector, and only
/// the other images are multiplied by the inverse of the basis.
///
/// [`change_basis`]: crate::change_basis
pub fn change_standard_basis(
    alloc: Global,
    module: Module,
    basis: &Matrix,
    origins: &[Origin],
) -> Result<Module, Refusal>
    requires field { basis.now.order ≡ «module».order }
    requires square { length basis.now.rows ≡ «module».dim }
    requires fits { basis.now.cols ≡ «module».dim }
    requires independent { IsIndependent (number_field basis.now.order) basis.now.rows }
    requires origins { HaveOrigins «module» basis.now.rows origins.now }
    ensures action { Answers None (IsBasisAction «module» basis.now) result }
    ensures well_formed { IfOk result IsModule }
{
    prove!(basis.rows() == module.dim());
    let inverse = inverse(alloc, basis)?;
    let mut conjugates = Vec::new(alloc);
    for generator in module.into_generators() {
        let number = conjugates.len();
        let conjugate = conjugate_by_origins(alloc, basis, origins, number, generator, &inverse)?;
        conjugates.push(conjugate)?;
    }
    Module::new(conjugates)
}

/// The product of a standard basis, the generator with a number, and the inverse of the basis, by the origins of the
/// rows of the basis.
fn conjugate_by_origins(
    alloc: Global,
    basis: &Matrix,
    origins: &[Origin],
    number: usize,
    generator: Matrix,
    inverse: &Matrix,
) -> Result<Matrix, Refusal>
    requires generator_field { generator.order ≡ basis.now.order }
    requires generator_rows { length generator.rows ≡ basis.now.cols }
    requires generator_columns { generator.cols ≡ basis.now.cols }
    requires square { length basis.now.rows ≡ basis.now.cols }
    requires inverse { IsInverseMatrix basis.now inverse.now }
    requires images { TellImages basis.now generator origins.now number }
    ensures product { Answers None
        (λ product. product ≡ matrix_product (matrix_product basis.now generator) inverse.now) result }
    ensures well_formed { IfOk result IsMatrix }
{
    let images = known_images(alloc, origins, number, basis.rows())?;
    let sorted = sort_rows(alloc, &images)?;
    let products = rows_of_conjugate(alloc, basis, &sorted.others, generator, inverse)?;
    put_rows(alloc, &products, &sorted.rows)
}

/// The product of some rows of a basis, a generator and the inverse of the basis. These rows and the generator are gone
/// before the second product is made.
fn rows_of_conjugate(
    alloc: Global,
    basis: &Matrix,
    places: &[usize],
    generator: Matrix,
    inverse: &Matrix,
) -> Result<Matrix, Refusal>
    requires within { All (λ place. place < length basis.now.rows) places.now }
    requires places_fit { length places.now ≤ most_rows }
    requires generator_field { generator.order ≡ basis.now.order }
    requires inverse_field { inverse.now.order ≡ basis.now.order }
    requires generator_fits { length generator.rows ≡ basis.now.cols }
    requires inverse_fits { length inverse.now.rows ≡ generator.cols }
    ensures product { Answers None (λ product. product
        ≡ matrix_product (matrix_product (rows_at places.now basis.now) generator) inverse.now) result }
    ensures well_formed { IfOk result IsMatrix }
{
    let rows = basis.rows_at(alloc, places)?;
    let product = rows.mul(alloc, &generator);
    drop(rows);
    drop(generator);
    let images = product?;
    images.mul(alloc, inverse)
}

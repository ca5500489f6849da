//! Standard bases of vectors in a module.

ghost use Rattle.std.specs.Prelude.{◌≡◌, true, length, None, IfOk, MatchOption, option_copied};
ghost use Rattle.axe_row.specs.Operations.{IsZeroVector};
ghost use Rattle.axe_row.specs.Refusals.{Answers};
ghost use Rattle.axe_matrix.specs.Matrices.{IsMatrix, has_only_zeros};
ghost use Rattle.axe_spin.specs.Origins.{HaveOrigins};
ghost use Rattle.axe_spin.specs.Spinning.{seed_refusal, IsStandardMatrix, HasFirstNonzeroRow, HasSpunRows};

use crate::module::Module;
use crate::spinning::{Origin, offer, spin};
use axe_echelon::Subspace;
use axe_matrix::{Matrix, Refusal, Row};
use std::alloc::Global;

/// The standard basis of a vector other than zero in a module: it begins with the vector, and takes its rows in turn
/// and for each the generators in order; an image that is not in the span so far is appended.
pub fn standard_basis(alloc: Global, module: &Module, vector: &Row) -> Result<Matrix, Refusal>
    requires field { vector.now.order ≡ «module».now.order }
    requires fits { length vector.now.entries ≡ «module».now.dim }
    requires nonzero { ¬ (IsZeroVector vector.now.entries) }
    ensures basis { Answers None (IsStandardMatrix «module».now vector.now) result }
    ensures well_formed { IfOk result IsMatrix }
{
    let (basis, _) = standard_basis_with_origins(alloc, module, vector)?;
    Ok(basis)
}

/// The standard basis of a vector other than zero in a module, as [`standard_basis`] gives it, and the origins of its
/// rows after the first, in their order.
pub fn standard_basis_with_origins(
    alloc: Global,
    module: &Module,
    vector: &Row,
) -> Result<(Matrix, Vec<Origin>), Refusal>
    requires field { vector.now.order ≡ «module».now.order }
    requires fits { length vector.now.entries ≡ «module».now.dim }
    requires nonzero { ¬ (IsZeroVector vector.now.entries) }
    ensures basis { Answers None (λ found. IsStandardMatrix «module».now vector.now found.0) result }
    ensures origins { Answers None (λ found. HaveOrigins «module».now found.0.rows found.1.items) result }
    ensures well_formed { IfOk result (λ found. IsMatrix found.0) }
{
    let mut span = Subspace::zero(alloc, *module.field(), module.dim());
    let mut rows = Matrix::empty(alloc, *module.field(), module.dim());
    let mut origins = Vec::new(alloc);
    let first = vector.copy(alloc)?;
    offer(alloc, &mut span, &mut rows, first)?;
    spin(alloc, module, &mut span, &mut rows, &mut origins)?;
    Ok((rows, origins))
}

/// The standard basis of the first row of a seed that is not zero. The refusals are those of [`generate`].
///
/// [`generate`]: crate::generate
pub fn standard_rows(alloc: Global, module: &Module, seed: &Matrix) -> Result<Matrix, Refusal>
    ensures basis { Answers (seed_refusal «module».now seed.now) (HasSpunRows true «module».now seed.now) result }
    ensures well_formed { IfOk result IsMatrix }
{
    module.check_rows(seed)?;
    match first_nonzero_row(seed) {
        None => Err(Refusal::ZeroSeed),
        Some(row) => standard_basis(alloc, module, row),
    }
}

/// The first row of a matrix that is not zero, or `None` where it has only zeros.
pub fn first_nonzero_row(matrix: &Matrix) -> Option<&Row>
    ensures { MatchOption (option_copied result) (has_only_zeros matrix.now.rows ≡ true)
        (HasFirstNonzeroRow matrix.now) }
{
    for index in 0..matrix.rows() {
        if !matrix.row(index).is_zero() {
            return Some(matrix.row(index));
        }
    }
    None
}

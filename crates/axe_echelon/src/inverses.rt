//! Inverses of matrices.

ghost use Rattle.std.specs.Prelude.{IfOk};
ghost use Rattle.axe_row.specs.Refusals.{AnswersOr, RefusedAs};
ghost use Rattle.axe_row.specs.declared.refusals.Refusal.TheVariants.{Singular};
ghost use Rattle.axe_matrix.specs.Matrices.{IsMatrix};
ghost use Rattle.axe_reduction.specs.Solutions.{IsInverseMatrix, IsInvertibleMatrix};
ghost use Rattle.axe_echelon.specs.Echelons.{inverse_refusal};

use axe_matrix::{Matrix, Refusal};
use axe_reduction::inverse_of;
use std::alloc::Global;

/// The inverse of a matrix: the matrix whose products with it from both sides are the identity. A matrix that is not
/// square is refused as NotSquare, and a square one that has no inverse as Singular.
pub fn inverse(alloc: Global, matrix: &Matrix) -> Result<Matrix, Refusal>
    ensures inverse { AnswersOr (inverse_refusal matrix.now) (IsInverseMatrix matrix.now)
        (RefusedAs Singular (¬ (IsInvertibleMatrix matrix.now))) result }
    ensures well_formed { IfOk result IsMatrix }
{
    if matrix.rows() != matrix.cols() {
        return Err(Refusal::NotSquare);
    }
    match inverse_of(alloc, matrix)? {
        Some(inverse) => Ok(inverse),
        None => Err(Refusal::Singular),
    }
}

//! What holds of null spaces that are given without their basis.

ghost use Rattle.std.specs.Prelude.{◌≡◌, ℕ};
ghost use Rattle.axe_matrix.specs.Matrices.{MatrixValue};
ghost use Rattle.axe_echelon.specs.NullPoints.{IsNullPoints};

use crate::first_points::NullPoints;

/// For each matrix and each bound there is at most one right answer of [`null_points`](crate::null_points).
pub fn null_points_are_one()
    ensures { (m : MatrixValue) (most : ℕ) (a b : NullPoints) →
        IsNullPoints m most a → IsNullPoints m most b → a ≡ b }
{}

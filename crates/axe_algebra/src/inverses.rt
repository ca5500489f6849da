//! Square matrices and their inverses.

ghost use Rattle.axe_algebra.specs.NumberField.{NumberField};
ghost use Rattle.axe_algebra.specs.Bridge.{field_of};
ghost use Rattle.axe_algebra.specs.Theorems.{InverseIsUnique, RightInverseIsInverse, LeftInverseIsInverse};
ghost use Rattle.axe_algebra.specs.Theorems.{InvertibleExactlyWhenNullSpaceIsZero};
ghost use Rattle.axe_algebra.specs.Theorems.{InvertibleExactlyWhenRowsAreIndependent, InvertibleExactlyWhenTransposeIs};

/// A square matrix has at most one inverse.
pub fn inverse_is_unique()
    ensures { (K : NumberField) → InverseIsUnique (field_of K) }
{}

/// A one-sided inverse of a square matrix is its inverse.
pub fn inverse_is_two_sided()
    ensures right { (K : NumberField) → RightInverseIsInverse (field_of K) }
    ensures left { (K : NumberField) → LeftInverseIsInverse (field_of K) }
{}

/// A square matrix is invertible exactly when its null space is zero.
pub fn invertible_exactly_when_null_space_is_zero()
    ensures { (K : NumberField) → InvertibleExactlyWhenNullSpaceIsZero (field_of K) }
{}

/// A square matrix is invertible exactly when its rows are independent.
pub fn invertible_exactly_when_rows_are_independent()
    ensures { (K : NumberField) → InvertibleExactlyWhenRowsAreIndependent (field_of K) }
{}

/// A square matrix is invertible exactly when its transpose is.
pub fn invertible_exactly_when_transpose_is()
    ensures { (K : NumberField) → InvertibleExactlyWhenTransposeIs (field_of K) }
{}

//! The laws of sums and products of matrices.

ghost use Rattle.axe_algebra.specs.NumberField.{NumberField};
ghost use Rattle.axe_algebra.specs.Bridge.{field_of};
ghost use Rattle.axe_algebra.specs.Theorems.{ProductsAreAssociative, SumsTimesDistribute, TimesSumsDistribute};
ghost use Rattle.axe_algebra.specs.Theorems.{IdentityIsLeftNeutral, IdentityIsRightNeutral, TransposeReversesProducts};

/// Products of matrices are associative: `(a b) c = a (b c)`.
pub fn products_are_associative()
    ensures { (K : NumberField) → ProductsAreAssociative (field_of K) }
{}

/// Products of matrices distribute over sums: `(a + b) c = a c + b c` and `a (b + c) = a b + a c`.
pub fn products_distribute()
    ensures left { (K : NumberField) → SumsTimesDistribute (field_of K) }
    ensures right { (K : NumberField) → TimesSumsDistribute (field_of K) }
{}

/// The identity matrix is neutral on both sides: `1 a = a` and `a 1 = a`.
pub fn identity_is_neutral()
    ensures left { (K : NumberField) → IdentityIsLeftNeutral (field_of K) }
    ensures right { (K : NumberField) → IdentityIsRightNeutral (field_of K) }
{}

/// The transpose of a product is the product of the transposes in reverse order.
pub fn transpose_reverses_products()
    ensures { (K : NumberField) → TransposeReversesProducts (field_of K) }
{}

//! Lists of element numbers, as contracts of code see them, are vectors and matrices over the field.

ghost use Rattle.axe_algebra.specs.NumberField.{NumberField};
ghost use Rattle.axe_algebra.specs.ListTheorems.{ListsAreTheirMatrices, ProductOfListsIsProduct, SumOfListsIsSum};
ghost use Rattle.axe_algebra.specs.ListTheorems.{TransposeOfListIsTranspose, IdentityOfListsIsIdentity};
ghost use Rattle.axe_algebra.specs.ListTheorems.{InverseOfListsIsInverse, SpannedIsCombination};
ghost use Rattle.axe_algebra.specs.ListTheorems.{ReducedBasisOfListExists, ReducedBasisOfListIsUnique};

/// A list of rows of element numbers is determined by its matrix.
pub fn lists_are_their_matrices()
    ensures { (K : NumberField) → ListsAreTheirMatrices K }
{}

/// The product of two lists of rows is the product of their matrices.
pub fn product_of_lists_is_product()
    ensures { (K : NumberField) → ProductOfListsIsProduct K }
{}

/// The sum of two lists of rows is the sum of their matrices.
pub fn sum_of_lists_is_sum()
    ensures { (K : NumberField) → SumOfListsIsSum K }
{}

/// The transpose of a list of rows is the transpose of its matrix.
pub fn transpose_of_list_is_transpose()
    ensures { (K : NumberField) → TransposeOfListIsTranspose K }
{}

/// The list of rows of the identity is the identity matrix.
pub fn identity_of_lists_is_identity()
    ensures { (K : NumberField) → IdentityOfListsIsIdentity K }
{}

/// Two square lists of rows are inverse to one another exactly when their matrices are.
pub fn inverse_of_lists_is_inverse()
    ensures { (K : NumberField) → InverseOfListsIsInverse K }
{}

/// A vector is in the span of the rows of a list exactly when it is a combination with a list of coefficients.
pub fn spanned_is_combination()
    ensures { (K : NumberField) → SpannedIsCombination K }
{}

/// A list of rows has exactly one reduced basis, again as a list.
pub fn list_has_one_reduced_basis()
    ensures some { (K : NumberField) → ReducedBasisOfListExists K }
    ensures only { (K : NumberField) → ReducedBasisOfListIsUnique K }
{}

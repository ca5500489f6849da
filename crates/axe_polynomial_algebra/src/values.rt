//! Values of polynomials at square matrices.

ghost use Rattle.axe_algebra.specs.NumberField.{NumberField};
ghost use Rattle.axe_algebra.specs.Bridge.{field_of};
ghost use Rattle.axe_polynomial_algebra.specs.PolynomialValueTheorems.{ValueOfSumIsSum, ValueOfMultipleIsMultiple};
ghost use Rattle.axe_polynomial_algebra.specs.PolynomialValueTheorems.{ValueOfProductIsProduct, ValueCommutes};
ghost use Rattle.axe_polynomial_algebra.specs.PolynomialValueTheorems.{ValueByHorner, PolynomialValueIsWordValue};
ghost use Rattle.axe_polynomial_algebra.specs.PolynomialListTheorems.{ListValueExists, ListValueIsUnique};

/// The value of a sum of polynomials is the sum of their values, and that of a multiple the multiple of the value.
pub fn value_is_linear()
    ensures sums { (K : NumberField) → ValueOfSumIsSum (field_of K) }
    ensures multiples { (K : NumberField) → ValueOfMultipleIsMultiple (field_of K) }
{}

/// The value of a product of polynomials is the product of their values.
pub fn value_of_product_is_product()
    ensures { (K : NumberField) → ValueOfProductIsProduct (field_of K) }
{}

/// The value of a polynomial at a matrix commutes with the matrix.
pub fn value_commutes()
    ensures { (K : NumberField) → ValueCommutes (field_of K) }
{}

/// Horner's form: where the coefficients after the first are those of `g`, `f(x) = f[0] + g(x) x`.
pub fn value_by_horner()
    ensures { (K : NumberField) → ValueByHorner (field_of K) }
{}

/// A polynomial at the value of a word is the value of a word.
pub fn polynomial_value_is_word_value()
    ensures { (K : NumberField) → PolynomialValueIsWordValue (field_of K) }
{}

/// A polynomial has exactly one value at a square matrix, as a list of rows.
pub fn polynomial_has_one_value()
    ensures some { (K : NumberField) → ListValueExists K }
    ensures only { (K : NumberField) → ListValueIsUnique K }
{}

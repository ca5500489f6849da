//! Minimal polynomials of vectors under square matrices.

ghost use Rattle.axe_algebra.specs.NumberField.{NumberField};
ghost use Rattle.axe_algebra.specs.Bridge.{field_of};
ghost use Rattle.axe_polynomial_algebra.specs.PolynomialValueTheorems.{MinimalPolynomialExists};
ghost use Rattle.axe_polynomial_algebra.specs.PolynomialValueTheorems.{MinimalPolynomialIsUnique};
ghost use Rattle.axe_polynomial_algebra.specs.PolynomialValueTheorems.{MinimalPolynomialDivides};
ghost use Rattle.axe_polynomial_algebra.specs.PolynomialValueTheorems.{CombinationGivesMinimalPolynomial};
ghost use Rattle.axe_polynomial_algebra.specs.PolynomialListTheorems.{ListMinimalPolynomialExists};
ghost use Rattle.axe_polynomial_algebra.specs.PolynomialListTheorems.{ListMinimalPolynomialIsUnique};
ghost use Rattle.axe_polynomial_algebra.specs.PolynomialListTheorems.{ListMinimalPolynomialDivides};

/// A vector has exactly one minimal polynomial under a square matrix.
pub fn vector_has_one_minimal_polynomial()
    ensures some { (K : NumberField) → MinimalPolynomialExists (field_of K) }
    ensures only { (K : NumberField) → MinimalPolynomialIsUnique (field_of K) }
{}

/// The minimal polynomial of a vector divides exactly the polynomials that annihilate the vector.
pub fn minimal_polynomial_divides_what_annihilates()
    ensures { (K : NumberField) → MinimalPolynomialDivides (field_of K) }
{}

/// Where `v x^d` is a combination of the independent `v`, `v x`, .., `v x^(d - 1)`, its coefficients give the minimal
/// polynomial.
pub fn combination_gives_minimal_polynomial()
    ensures { (K : NumberField) → CombinationGivesMinimalPolynomial (field_of K) }
{}

/// A nonzero row has exactly one minimal polynomial under a square matrix, as a list of coefficients.
pub fn row_has_one_minimal_polynomial()
    ensures some { (K : NumberField) → ListMinimalPolynomialExists K }
    ensures only { (K : NumberField) → ListMinimalPolynomialIsUnique K }
{}

/// The minimal polynomial of a row divides exactly the polynomials that annihilate the row.
pub fn minimal_polynomial_of_row_divides_what_annihilates()
    ensures { (K : NumberField) → ListMinimalPolynomialDivides K }
{}

//! The one-vector rule: what an irreducible polynomial tells of a module by one vector and one transposed vector.

ghost use Rattle.axe_algebra.specs.NumberField.{NumberField};
ghost use Rattle.axe_algebra.specs.Bridge.{field_of};
ghost use Rattle.axe_polynomial_algebra.specs.PolynomialValueTheorems.{IrreducibleGivesIndependentRows};
ghost use Rattle.axe_polynomial_algebra.specs.PolynomialValueTheorems.{FittingRowsSpanNullSpace, OneVectorRule};
ghost use Rattle.axe_polynomial_algebra.specs.PolynomialListTheorems.{FitsIsDecidable, FitsExactlyByNullity};
ghost use Rattle.axe_polynomial_algebra.specs.PolynomialListTheorems.{ListOneVectorRule};
ghost use Rattle.axe_polynomial_algebra.specs.PolynomialValueTheorems.{CyclicDivisorFits, CyclicRowsSpanValue};
ghost use Rattle.axe_polynomial_algebra.specs.PolynomialListTheorems.{ListCyclicDivisorFits};
ghost use Rattle.axe_polynomial_algebra.specs.PolynomialListTheorems.{ListCyclicRowsSpanValue};

/// For an irreducible `p` and a nonzero `v` with `v p(x) = 0` the rows `v`, `v x`, .., below the degree of `p` are
/// independent.
pub fn irreducible_gives_independent_rows()
    ensures { (K : NumberField) → IrreducibleGivesIndependentRows (field_of K) }
{}

/// Where the degree of an irreducible `p` is the dimension of the null space of `p(x)`, these rows span the null space.
pub fn fitting_rows_span_null_space()
    ensures { (K : NumberField) → FittingRowsSpanNullSpace (field_of K) }
{}

/// Whether the degree of a polynomial is the dimension of the null space of its value is decidable: by the number of
/// rows of the null space's basis.
pub fn fits_is_decidable()
    ensures decidable { (K : NumberField) → FitsIsDecidable K }
    ensures nullity { (K : NumberField) → FitsExactlyByNullity K }
{}

/// Where the minimal polynomial of a vector under `x` has as many degrees as `x` has rows, so that the vector is cyclic,
/// each monic divisor `p` of it fits: its degree is the dimension of the null space of `p(x)`.
pub fn cyclic_divisors_fit()
    ensures vectors { (K : NumberField) → CyclicDivisorFits (field_of K) }
    ensures lists { (K : NumberField) → ListCyclicDivisorFits K }
{}

/// And for such a `p` and a cyclic vector `v` of `x` the rows `v p(x)`, `v x p(x)`, .., as many as `x` has rows beyond
/// the degree of `p`, span what the rows of `p(x)` span.
pub fn cyclic_rows_span_value()
    ensures vectors { (K : NumberField) → CyclicRowsSpanValue (field_of K) }
    ensures lists { (K : NumberField) → ListCyclicRowsSpanValue K }
{}

/// The one-vector rule: where the degree of an irreducible `p` is the dimension of the null space of `p(x)`, `x` being
/// the value of a word, one nonzero null vector of `p(x)` that generates everything and one null vector of its
/// transpose that does so under the transposes make the module irreducible.
pub fn one_vector_rule()
    ensures vectors { (K : NumberField) → OneVectorRule (field_of K) }
    ensures lists { (K : NumberField) → ListOneVectorRule K }
{}

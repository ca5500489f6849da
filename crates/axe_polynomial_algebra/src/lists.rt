//! Lists of coefficients: the monic polynomials as the other crates' contracts speak of them.

ghost use Rattle.axe_algebra.specs.NumberField.{NumberField};
ghost use Rattle.axe_polynomial_algebra.specs.MonicListTheorems.{MonicListIsMonic, MonicPolynomialHasList};
ghost use Rattle.axe_polynomial_algebra.specs.MonicListTheorems.{MonicListIsUnique, ShortRestTellsWhatDivides};
ghost use Rattle.axe_polynomial_algebra.specs.MonicListTheorems.{ListIsIrreducibleWithoutDivisors};
ghost use Rattle.axe_polynomial_algebra.specs.MonicListTheorems.{HalfTheDegreeIsEnough};

/// The monic lists are the monic polynomials of positive degree, one list for each.
pub fn lists_are_monic_polynomials()
    ensures monic { (K : NumberField) → MonicListIsMonic K }
    ensures some { (K : NumberField) → MonicPolynomialHasList K }
    ensures only { (K : NumberField) → MonicListIsUnique K }
{}

/// A remainder that is shorter than a monic polynomial is zero exactly when that polynomial divides.
pub fn short_rest_tells_what_divides()
    ensures { (K : NumberField) → ShortRestTellsWhatDivides K }
{}

/// A monic polynomial is irreducible exactly when no monic polynomial of smaller degree divides it, and exactly when no
/// irreducible one of at most half its degree does.
pub fn list_is_irreducible_without_divisors()
    ensures monic { (K : NumberField) → ListIsIrreducibleWithoutDivisors K }
    ensures irreducible { (K : NumberField) → HalfTheDegreeIsEnough K }
{}

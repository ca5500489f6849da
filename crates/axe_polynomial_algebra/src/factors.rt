//! Irreducible divisors of polynomials, their numbers, and the lists that they make.

ghost use Rattle.axe_algebra.specs.NumberField.{NumberField};
ghost use Rattle.axe_polynomial_algebra.specs.PolynomialListTheorems.{NumberTellsThePolynomial, NumbersGoByDegree};
ghost use Rattle.axe_polynomial_algebra.specs.PolynomialListTheorems.{ListDividesIsDecidable, IrreducibleIsDecidable};
ghost use Rattle.axe_polynomial_algebra.specs.PolynomialListTheorems.{TrialDivisionIsSound};
ghost use Rattle.axe_polynomial_algebra.specs.PolynomialListTheorems.{FactorsExist, FactorsAreUnique};
ghost use Rattle.axe_polynomial_algebra.specs.PolynomialListTheorems.{FactorsOfDegreeExist, FactorsOfDegreeAreUnique};
ghost use Rattle.axe_polynomial_algebra.specs.PolynomialListTheorems.{IrreduciblesExist, IrreduciblesAreUnique};

/// A monic polynomial has its number alone, and a polynomial of lower degree has a smaller number.
pub fn monic_polynomials_are_numbered()
    ensures one { (K : NumberField) → NumberTellsThePolynomial K }
    ensures by_degree { (K : NumberField) → NumbersGoByDegree K }
{}

/// Whether a monic polynomial divides another polynomial is decidable.
pub fn divides_is_decidable_for_lists()
    ensures { (K : NumberField) → ListDividesIsDecidable K }
{}

/// Whether a polynomial is irreducible is decidable.
pub fn irreducible_is_decidable()
    ensures { (K : NumberField) → IrreducibleIsDecidable K }
{}

/// A monic divisor of a polynomial is irreducible where no irreducible divisor of smaller degree divides it.
pub fn trial_division_is_sound()
    ensures { (K : NumberField) → TrialDivisionIsSound K }
{}

/// The irreducible divisors of a polynomial up to a degree make exactly one list that ascends by number.
pub fn polynomial_has_one_list_of_factors()
    ensures some { (K : NumberField) → FactorsExist K }
    ensures only { (K : NumberField) → FactorsAreUnique K }
{}

/// The irreducible divisors of a polynomial of one degree make exactly one list that ascends by number.
pub fn polynomial_has_one_list_of_factors_of_degree()
    ensures some { (K : NumberField) → FactorsOfDegreeExist K }
    ensures only { (K : NumberField) → FactorsOfDegreeAreUnique K }
{}

/// The irreducible polynomials of a degree make exactly one list that ascends by number.
pub fn degree_has_one_list_of_irreducibles()
    ensures some { (K : NumberField) → IrreduciblesExist K }
    ensures only { (K : NumberField) → IrreduciblesAreUnique K }
{}

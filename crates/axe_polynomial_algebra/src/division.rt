//! Division with remainder by a monic polynomial, and what divides.

ghost use Rattle.axe_algebra.specs.NumberField.{NumberField};
ghost use Rattle.axe_algebra.specs.Bridge.{field_of};
ghost use Rattle.axe_polynomial_algebra.specs.PolynomialTheorems.{DivisionExists, DivisionIsUnique};
ghost use Rattle.axe_polynomial_algebra.specs.PolynomialTheorems.{DividesExactlyWhenRemainderIsZero};
ghost use Rattle.axe_polynomial_algebra.specs.PolynomialTheorems.{DividesIsDecidable, DividesIsTransitive};
ghost use Rattle.axe_polynomial_algebra.specs.PolynomialTheorems.{CofactorIsMonic, IrreducibleExactlyWithoutDivisors};

/// A polynomial is divided by a monic one, with a remainder of smaller degree, in exactly one way.
pub fn division_with_remainder()
    ensures some { (K : NumberField) → DivisionExists (field_of K) }
    ensures only { (K : NumberField) → DivisionIsUnique (field_of K) }
{}

/// A monic polynomial divides another exactly when the remainder is zero, so that it is decidable.
pub fn divides_when_remainder_is_zero()
    ensures criterion { (K : NumberField) → DividesExactlyWhenRemainderIsZero (field_of K) }
    ensures decidable { (K : NumberField) → DividesIsDecidable (field_of K) }
{}

/// A divisor of a divisor divides.
pub fn divides_is_transitive()
    ensures { (K : NumberField) → DividesIsTransitive (field_of K) }
{}

/// The cofactor of a monic divisor of a monic polynomial is monic, and the degrees add.
pub fn cofactor_is_monic()
    ensures { (K : NumberField) → CofactorIsMonic (field_of K) }
{}

/// A monic polynomial of positive degree is irreducible exactly when no monic polynomial of positive and smaller degree
/// divides it.
pub fn irreducible_without_divisors()
    ensures { (K : NumberField) → IrreducibleExactlyWithoutDivisors (field_of K) }
{}

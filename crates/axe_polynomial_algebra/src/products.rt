//! Products of polynomials.

ghost use Rattle.axe_algebra.specs.NumberField.{NumberField};
ghost use Rattle.axe_algebra.specs.Bridge.{field_of};
ghost use Rattle.axe_polynomial_algebra.specs.PolynomialTheorems.{ConvolutionIsAssociative, ConvolutionIsCommutative};
ghost use Rattle.axe_polynomial_algebra.specs.PolynomialTheorems.{ConvolutionDistributes, OneIsNeutral};
ghost use Rattle.axe_polynomial_algebra.specs.PolynomialTheorems.{ConvolutionHasLength, MonicTimesMonicIsMonic};

/// Polynomials are a commutative ring: products are associative and commutative, they distribute over sums, and 1 is
/// neutral.
pub fn products_of_polynomials()
    ensures associative { (K : NumberField) → ConvolutionIsAssociative (field_of K) }
    ensures commutative { (K : NumberField) → ConvolutionIsCommutative (field_of K) }
    ensures distributive { (K : NumberField) → ConvolutionDistributes (field_of K) }
    ensures neutral { (K : NumberField) → OneIsNeutral (field_of K) }
{}

/// The degrees of the factors add: for lengths, and for monic polynomials, whose product is monic.
pub fn degrees_add()
    ensures lengths { (K : NumberField) → ConvolutionHasLength (field_of K) }
    ensures monic { (K : NumberField) → MonicTimesMonicIsMonic (field_of K) }
{}

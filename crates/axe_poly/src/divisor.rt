//! Polynomials of small degree that others are divided by.

ghost use Rattle.std.specs.Prelude.{◌≡◌, ◌≤◌, ◌↔◌, IsTrue, All, None};
ghost use Rattle.axe_field.specs.NumberFields.{number_field};
ghost use Rattle.axe_field.specs.Order.{IsElement};
ghost use Rattle.axe_row.specs.Refusals.{Answers};
ghost use Rattle.axe_polynomial_algebra.specs.PolynomialsOfLists.{degree_of, Divides};
ghost use Rattle.axe_poly.specs.Limits.{greatest_degree};
ghost use Rattle.axe_poly.specs.Polys.{IsPoly};

use crate::lanes::Lanes;
use crate::poly::Poly;
use axe_row::Refusal;
use std::alloc::Global;
use std::marker::Model;

/// A monic polynomial whose degree is no greater than the greatest one, with the words of its multiples. They are made
/// once, and serve for every polynomial that it is tried on.
#[derive(Drop)]
pub(crate) struct Divisor {
    poly: Poly,
    multiples: [u64; 9],
}

impl Model for Divisor {
    ghost use Rattle.axe_poly.specs.Divisors.{HasMultiples};
    ghost use Rattle.axe_poly.specs.Polys.{PolyValue};

    ghost Value = { PolyValue };

    ghost view = { λ a. a.poly };

    ghost invariant = { λ a. HasMultiples a.poly a.multiples };
}

impl Divisor {
    /// The divisor that a polynomial is, by the lanes for its field.
    pub(crate) fn new(lanes: &Lanes, poly: Poly) -> Divisor
        requires field { lanes.now ≡ poly.order }
        requires degree { degree_of poly.coefficients ≤ greatest_degree poly.order }
        ensures { result ≡ poly }
    {
        let multiples = lanes.multiples(poly.coefficients());
        Divisor { poly, multiples }
    }

    /// The polynomial.
    pub(crate) fn poly(&self) -> &Poly
        ensures value { result.now ≡ self.now }
        ensures well_formed { IsPoly self.now }
    {
        // Called for what it ensures beside the number: that the polynomial is monic, of degree at least 1.
        prove!(self.poly.degree() >= 1);
        &self.poly
    }

    /// Whether it divides another polynomial, by the lanes for its field.
    pub(crate) fn divides(&self, lanes: &Lanes, dividend: &[u8]) -> bool
        requires field { lanes.now ≡ self.now.order }
        requires elements { All (IsElement self.now.order) dividend.now }
        ensures { IsTrue result ↔ Divides (number_field self.now.order) self.now.coefficients dividend.now }
    {
        lanes.divides(self.poly.coefficients(), &self.multiples, dividend)
    }
}

/// These polynomials as divisors, by the lanes for their field.
pub(crate) fn divisors_of(
    alloc: Global,
    lanes: &Lanes,
    polynomials: Vec<Poly>,
) -> Result<Vec<Divisor>, Refusal>
    requires fields { All (λ p. p.order ≡ lanes.now) polynomials.items }
    requires degrees { All (λ p. degree_of p.coefficients ≤ greatest_degree lanes.now) polynomials.items }
    ensures { Answers None (λ divisors. divisors.items ≡ polynomials.items) result }
{
    let mut divisors = Vec::with_capacity(alloc, polynomials.len())?;
    for poly in polynomials {
        divisors.push(Divisor::new(lanes, poly))?;
    }
    Ok(divisors)
}

//! Irreducible divisors of small degree.

ghost use Rattle.std.specs.Prelude.{◌≡◌, ◌+◌, ◌<◌, ◌≤◌, length, None};
ghost use Rattle.axe_row.specs.Refusals.{Answers};
ghost use Rattle.axe_poly.specs.Limits.{greatest_degree};
ghost use Rattle.axe_poly.specs.Polys.{AreFactors, AreFactorsOf};
ghost use Rattle.axe_poly.specs.Tables.{AreFactorsAmong};

use crate::irreducibles::Irreducibles;
use crate::poly::Poly;
use axe_row::Refusal;
use std::alloc::Global;

/// The monic irreducible divisors of a polynomial that have at most a degree, each once: by degree, and then by their
/// coefficients read as a number, the highest most significant.
pub fn factors_up_to(alloc: Global, poly: &Poly, degree: usize) -> Result<Vec<Poly>, Refusal>
    requires some { 1 ≤ degree }
    requires fits { degree ≤ greatest_degree poly.now.order }
    ensures { Answers None (λ factors. AreFactors poly.now degree factors.items) result }
{
    let mut irreducibles = Irreducibles::new(alloc, *poly.field());
    let mut factors = Vec::new(alloc);
    for found in 0..degree {
        irreducibles.add_degree(alloc)?;
        let mut more = irreducibles.factors_of_degree(alloc, poly, found + 1)?;
        factors.append(&mut more)?;
    }
    Ok(factors)
}

impl Irreducibles {
    /// The monic irreducible divisors of a polynomial over the field that have a degree up to which the irreducible
    /// polynomials are found, each once, by their coefficients read as a number, the highest most significant.
    pub fn factors_of_degree(
        &self,
        alloc: Global,
        poly: &Poly,
        degree: usize,
    ) -> Result<Vec<Poly>, Refusal>
        requires field { poly.now.order ≡ self.now.order }
        requires some { 1 ≤ degree }
        requires found { degree ≤ self.now.degree }
        ensures { Answers None (λ factors. AreFactorsOf poly.now degree factors.items) result }
    {
        let mut factors = Vec::new(alloc);
        for index in 0..self.count() {
            self.take_factor(alloc, poly, degree, index, &mut factors)?;
        }
        Ok(factors)
    }

    /// Appends the polynomial at an index, where it has the degree and divides another.
    fn take_factor(
        &self,
        alloc: Global,
        poly: &Poly,
        degree: usize,
        index: usize,
        factors: &mut Vec<Poly>,
    ) -> Result<(), Refusal>
        requires index { index < length self.now.polynomials }
        requires field { poly.now.order ≡ self.now.order }
        requires found { degree ≤ self.now.degree }
        requires taken { AreFactorsAmong self.now poly.now degree index factors.old.items }
        ensures { Answers None
            (λ _. AreFactorsAmong self.now poly.now degree (index + 1) factors.new.items) result }
    {
        // `count` is called for what it ensures beside their number: that they are irreducible.
        prove!(index < self.count());
        let divisor = self.divisor(index);
        if divisor.poly().degree() != degree {
            return Ok(());
        }
        if divisor.divides(self.lanes(), poly.coefficients()) {
            let factor = divisor.poly().copy(alloc)?;
            factors.push(factor)?;
        }
        Ok(())
    }
}

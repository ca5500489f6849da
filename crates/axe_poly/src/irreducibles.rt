//! Irreducible polynomials of a field, found degree by degree.

ghost use Rattle.std.specs.Prelude.{◌≡◌, ◌+◌, ◌<◌, ◌≤◌, ◌^◌, ◌*◌, length, get_or, [], None, OnErr};
ghost use Rattle.axe_field.specs.NumberFields.{number_field};
ghost use Rattle.axe_field.specs.Order.{order_number};
ghost use Rattle.axe_row.specs.Refusals.{Answers};
ghost use Rattle.axe_poly.specs.Limits.{greatest_degree};
ghost use Rattle.axe_poly.specs.Polys.{IsPoly, poly_with};
ghost use Rattle.axe_poly.specs.Sieve.{AreReducibleMarks};
ghost use Rattle.axe_poly.specs.Tables.{AreIrreducibles, AreFoundBelow};

use crate::digits::Digits;
use crate::divisor::{Divisor, divisors_of};
use crate::lanes::Lanes;
use crate::poly::{Poly, list_of};
use axe_field::Field;
use axe_row::Refusal;
use std::alloc::Global;
use std::marker::Model;

/// All irreducible polynomials over a field up to a degree, by degree, and those of a degree by their coefficients read
/// as a number, the highest most significant. They are found once, and serve for every polynomial over the field.
#[derive(Drop)]
pub struct Irreducibles {
    lanes: Lanes,
    degree: usize,
    polynomials: Vec<Divisor>,
}

impl Model for Irreducibles {
    ghost use Rattle.axe_poly.specs.Tables.{IrreduciblesValue, AreTabled, table_of};

    ghost Value = { IrreduciblesValue };

    ghost view = { λ a. table_of a.lanes a.degree a.polynomials.items };

    ghost invariant = { λ a. AreTabled a.lanes a.degree a.polynomials.items };
}

impl Irreducibles {
    /// The irreducible polynomials of degree 0: there are none. It takes no memory.
    pub fn new(alloc: Global, field: Field) -> Irreducibles
        ensures none { result ≡ record { order = field; degree = 0; polynomials = [] } }
        ensures well_formed { AreIrreducibles result }
    {
        Irreducibles {
            lanes: Lanes::new(&field),
            degree: 0,
            polynomials: Vec::new(alloc),
        }
    }

    /// The field of the polynomials.
    pub fn field(&self) -> &Field
        ensures order { result.now ≡ self.now.order }
        ensures well_formed { AreIrreducibles self.now }
    {
        self.lanes.field()
    }

    /// The lanes in which coefficients are added.
    pub(crate) fn lanes(&self) -> &Lanes
        ensures order { result.now ≡ self.now.order }
        ensures well_formed { AreIrreducibles self.now }
    {
        &self.lanes
    }

    /// Up to which degree they are found.
    pub fn degree(&self) -> usize
        ensures value { result ≡ self.now.degree }
        ensures well_formed { AreIrreducibles self.now }
    {
        self.degree
    }

    /// Finds those of the next degree, by those found before. For want of memory nothing changes.
    pub fn add_degree(&mut self, alloc: Global) -> Result<(), Refusal>
        requires { self.old.degree < greatest_degree self.old.order }
        ensures added { Answers None (λ _. self.new.degree ≡ self.old.degree + 1) result }
        ensures same_field { self.new.order ≡ self.old.order }
        ensures unchanged { OnErr result (self.new ≡ self.old) }
        ensures well_formed { AreIrreducibles self.new }
    {
        let mut found = self.of_next_degree(alloc)?;
        self.polynomials.append(&mut found)?;
        self.degree += 1;
        Ok(())
    }

    /// How many there are.
    pub(crate) fn count(&self) -> usize
        ensures count { result ≡ length self.now.polynomials }
        ensures bounded { self.now.degree ≤ greatest_degree self.now.order }
        ensures well_formed { AreIrreducibles self.now }
    {
        self.polynomials.len()
    }

    /// The one at an index, as a divisor.
    pub(crate) fn divisor(&self, index: usize) -> &Divisor
        requires { index < length self.now.polynomials }
        ensures value { result.now ≡ poly_with self.now.order (get_or self.now.polynomials index []) }
    {
        &self.polynomials[index]
    }

    /// The one at an index.
    pub(crate) fn polynomial(&self, index: usize) -> &Poly
        requires { index < length self.now.polynomials }
        ensures value { result.now ≡ poly_with self.now.order (get_or self.now.polynomials index []) }
        ensures well_formed { IsPoly result.now }
    {
        self.divisor(index).poly()
    }

    /// Those of the next degree.
    fn of_next_degree(&self, alloc: Global) -> Result<Vec<Divisor>, Refusal>
        requires { self.now.degree < greatest_degree self.now.order }
        ensures { Answers None (λ found.
            AreFoundBelow self.now (2 * order_number self.now.order ^ (self.now.degree + 1)) found.items) result }
    {
        let (field, degree) = (*self.field(), self.degree() + 1);
        let reducible = self.reducible(alloc)?;
        let mut candidate = Digits::zeros(alloc, field, degree + 1)?;
        let first = power(&field, degree);
        let mut found = Vec::new(alloc);
        for number in first..2 * first {
            self.try_number(alloc, number, &reducible, &mut candidate, &mut found)?;
        }
        divisors_of(alloc, self.lanes(), found)
    }

    /// A mark for each monic polynomial of the next degree, by its number: whether it is reducible.
    fn reducible(&self, alloc: Global) -> Result<Vec<bool>, Refusal>
        requires { self.now.degree < greatest_degree self.now.order }
        ensures { Answers None (λ marks.
            AreReducibleMarks (number_field self.now.order) (self.now.degree + 1) marks.items) result }
    {
        let count = power(self.field(), self.degree() + 1);
        let mut marks = vec![in alloc; false; count]?;
        self.sieve(&mut marks);
        Ok(marks)
    }

    /// Appends the polynomial of the next degree that has a number, where it is not marked as reducible.
    fn try_number(
        &self,
        alloc: Global,
        number: usize,
        reducible: &[bool],
        candidate: &mut Digits,
        found: &mut Vec<Poly>,
    ) -> Result<(), Refusal>
        requires from { order_number self.now.order ^ (self.now.degree + 1) ≤ number }
        requires to { number < 2 * order_number self.now.order ^ (self.now.degree + 1) }
        requires marks { AreReducibleMarks (number_field self.now.order) (self.now.degree + 1) reducible.now }
        requires candidate_field { candidate.old.order ≡ self.now.order }
        requires candidate_long { length candidate.old.entries ≡ self.now.degree + 2 }
        requires found { AreFoundBelow self.now number found.old.items }
        ensures found { Answers None (λ _. AreFoundBelow self.now (number + 1) found.new.items) result }
        ensures candidate_field { candidate.new.order ≡ self.now.order }
        ensures candidate_long { length candidate.new.entries ≡ self.now.degree + 2 }
    {
        if reducible[number - reducible.len()] {
            return Ok(());
        }
        candidate.set_number(number);
        let coefficients = list_of(alloc, candidate.as_slice())?;
        found.push(Poly::from_monic(*self.field(), coefficients))?;
        Ok(())
    }
}

/// A power of how many elements the field has, with an exponent that is no greater than the greatest degree.
pub(crate) fn power(field: &Field, exponent: usize) -> usize
    requires { exponent ≤ greatest_degree field.now }
    ensures value { result ≡ order_number field.now ^ exponent }
    ensures fits { result ≤ 4096 }
{
    usize::from(field.order()).pow(exponent as u32)
}

//! Monic polynomials of degree at least 1.

ghost use Rattle.std.specs.Prelude.{◌≡◌, ◌+◌, ◌<◌, ◌↔◌, length, slice_index, IsTrue, None, MatchOption, All};
ghost use Rattle.axe_field.specs.Order.{IsElement};
ghost use Rattle.axe_row.specs.Refusals.{Answers};
ghost use Rattle.axe_polynomial_algebra.specs.PolynomialsOfLists.{degree_of};
ghost use Rattle.axe_poly.specs.Polys.{IsPoly, poly_with};

use axe_field::Field;
use axe_row::Refusal;
use std::alloc::Global;
use std::marker::Model;

/// A monic polynomial of degree at least 1 over one of the seven fields. It is seen as the order of its field and the
/// numbers of its coefficients, the constant one first.
#[derive(Drop)]
pub struct Poly {
    field: Field,
    coefficients: Vec<u8>,
}

impl Model for Poly {
    ghost use Rattle.axe_poly.specs.Polys.{PolyValue, IsPoly, poly_with};

    ghost Value = { PolyValue };

    ghost view = { λ a. poly_with a.field a.coefficients.items };

    ghost invariant = { λ a. IsPoly (poly_with a.field a.coefficients.items) };
}

impl Poly {
    /// The polynomial with these coefficients, the constant one first, or `None` where a number is not that of an
    /// element of the field, where there are fewer than two, or where the last is not 1.
    pub fn from_digits(alloc: Global, field: Field, digits: &[u8]) -> Result<Option<Poly>, Refusal>
        ensures { Answers None (λ poly. MatchOption poly (¬ (IsPoly (poly_with field digits.now)))
            (λ f. (f ≡ poly_with field digits.now) × IsPoly f)) result }
    {
        if !is_monic(&field, digits) {
            return Ok(None);
        }
        let coefficients = list_of(alloc, digits)?;
        Ok(Some(Poly {
            field,
            coefficients,
        }))
    }

    /// The same polynomial a second time.
    pub fn copy(&self, alloc: Global) -> Result<Poly, Refusal>
        ensures copied { Answers None (λ copy. copy ≡ self.now) result }
        ensures well_formed { IsPoly self.now }
    {
        let coefficients = list_of(alloc, &self.coefficients)?;
        Ok(Poly {
            field: self.field,
            coefficients,
        })
    }

    /// The field of the coefficients.
    pub fn field(&self) -> &Field
        ensures order { result.now ≡ self.now.order }
        ensures well_formed { IsPoly self.now }
    {
        &self.field
    }

    /// The degree: one less than how many coefficients there are.
    pub fn degree(&self) -> usize
        ensures value { result ≡ degree_of self.now.coefficients }
        ensures well_formed { IsPoly self.now }
    {
        self.coefficients.len() - 1
    }

    /// The coefficient of the power of x with an exponent that is no greater than the degree.
    pub fn coefficient(&self, exponent: usize) -> u8
        requires { exponent < length self.now.coefficients }
        ensures value { result ≡ slice_index self.now.coefficients exponent }
        ensures element { IsElement self.now.order result }
        ensures well_formed { IsPoly self.now }
    {
        self.coefficients()[exponent]
    }

    /// The coefficients, the constant one first.
    pub(crate) fn coefficients(&self) -> &[u8]
        ensures list { result.now ≡ self.now.coefficients }
        ensures well_formed { IsPoly self.now }
    {
        &self.coefficients
    }

    /// The polynomial with these coefficients, the constant one first.
    pub(crate) fn from_monic(field: Field, coefficients: Vec<u8>) -> Poly
        requires { IsPoly (poly_with field coefficients.items) }
        ensures { result ≡ poly_with field coefficients.items }
    {
        Poly {
            field,
            coefficients,
        }
    }

    /// Whether two polynomials are equal: one field, and the same coefficients.
    pub fn same(&self, other: &Poly) -> bool
        ensures { IsTrue result ↔ (self.now ≡ other.now) }
    {
        self.field == other.field && self.coefficients == other.coefficients
    }
}

/// Whether these are the coefficients of a monic polynomial of degree at least 1: whether there are two or more, each
/// the number of an element of the field, and the last is 1.
fn is_monic(field: &Field, digits: &[u8]) -> bool
    ensures { IsTrue result ↔ IsPoly (poly_with field.now digits.now) }
{
    if digits.len() < 2 {
        return false;
    }
    digits[digits.len() - 1] == 1 && are_elements(field, digits)
}

/// Whether each of these numbers is that of an element of the field.
fn are_elements(field: &Field, digits: &[u8]) -> bool
    ensures { IsTrue result ↔ All (IsElement field.now) digits.now }
{
    digits.iter().all(|&digit| field.is_element(digit))
}

/// A list of these numbers.
pub(crate) fn list_of(alloc: Global, numbers: &[u8]) -> Result<Vec<u8>, Refusal>
    ensures { Answers None (λ list. list.items ≡ numbers.now) result }
{
    let mut list = Vec::with_capacity(alloc, numbers.len())?;
    list.extend_from_slice(numbers)?;
    Ok(list)
}

//! Lists of coefficients that are changed in place.

ghost use Rattle.std.specs.Prelude.{◌≡◌, ◌-◌, ◌/◌, ◌%◌, ◌<◌, length, slice_set, replicate, None};
ghost use Rattle.axe_field.specs.Order.{IsElement, order_number};
ghost use Rattle.axe_row.specs.Refusals.{Answers};
ghost use Rattle.axe_row.specs.Rows.{IsRow};
ghost use Rattle.axe_poly.specs.Numbering.{polynomial_with_number};

use axe_field::Field;
use axe_row::Refusal;
use std::alloc::Global;
use std::marker::Model;

/// The coefficients of a polynomial, the constant one first, each the number of an element of a field. The last ones
/// may be 0.
#[derive(Drop)]
pub(crate) struct Digits {
    field: Field,
    digits: Vec<u8>,
}

impl Model for Digits {
    ghost use Rattle.axe_row.specs.Rows.{RowValue, IsRow};

    ghost Value = { RowValue };

    ghost view = { λ a. record { order = a.field; entries = a.digits.items } };

    ghost invariant = { λ a. IsRow (record { order = a.field; entries = a.digits.items }) };
}

impl Digits {
    /// So many zeros.
    pub(crate) fn zeros(alloc: Global, field: Field, len: usize) -> Result<Digits, Refusal>
        ensures { Answers None (λ digits. digits ≡ record { order = field; entries = replicate len 0 }) result }
    {
        let digits = vec![in alloc; 0; len]?;
        Ok(Digits { field, digits })
    }

    /// The field of the coefficients.
    fn field(&self) -> &Field
        ensures order { result.now ≡ self.now.order }
        ensures well_formed { IsRow self.now }
    {
        &self.field
    }

    /// How many there are.
    fn len(&self) -> usize
        ensures count { result ≡ length self.now.entries }
        ensures well_formed { IsRow self.now }
    {
        self.digits.len()
    }

    /// The coefficients.
    pub(crate) fn as_slice(&self) -> &[u8]
        ensures list { result.now ≡ self.now.entries }
        ensures well_formed { IsRow self.now }
    {
        &self.digits
    }

    /// Makes an element the coefficient at an index.
    fn set(&mut self, index: usize, element: u8)
        requires index { index < length self.old.entries }
        requires element { IsElement self.old.order element }
        ensures replaced { self.new
            ≡ record { order = self.old.order; entries = slice_set self.old.entries index element } }
        ensures well_formed { IsRow self.new }
    {
        self.digits[index] = element;
    }

    /// Makes the coefficients those of the polynomial that has a number: the digits of the number in base q, the lowest
    /// first, where the field has q elements.
    pub(crate) fn set_number(&mut self, number: usize)
        requires some { 0 < length self.old.entries }
        ensures digits { self.new ≡ record {
          order = self.old.order;
          entries = polynomial_with_number (order_number self.old.order) (length self.old.entries - 1) number;
        } }
        ensures as_long { length self.new.entries ≡ length self.old.entries }
    {
        let mut left = number;
        for index in 0..self.len() {
            let (higher, digit) = without_last_digit(self.field(), left);
            self.set(index, digit as u8);
            left = higher;
        }
    }
}

/// A number without its last digit, to the base of how many elements a field has, and that digit.
pub(crate) fn without_last_digit(field: &Field, number: usize) -> (usize, usize)
    ensures higher { result.0 ≡ number / order_number field.now }
    ensures digit { result.1 ≡ number % order_number field.now }
{
    // A division by a constant is a multiplication and a shift; by another number it takes ten times as long.
    match field.order() {
        2 => (number / 2, number % 2),
        3 => (number / 3, number % 3),
        4 => (number / 4, number % 4),
        5 => (number / 5, number % 5),
        7 => (number / 7, number % 7),
        8 => (number / 8, number % 8),
        _ => (number / 9, number % 9),
    }
}

//! Multiples of rows over the fields that are not prime: each element other than 0 is a power of x, and a row is
//! multiplied by x in place.

ghost use Rattle.std.specs.Prelude.{◌≡◌, ◌≢◌, ◌<◌};
ghost use Rattle.axe_field.specs.Order.{prime_of, degree_of, IsElement};
ghost use Rattle.axe_row.specs.Operations.{multiple_row, power_of_x};
ghost use Rattle.axe_row.specs.Planes.{AreRotated};
ghost use Rattle.axe_row.specs.Rows.{IsRow};

use crate::Row;
use crate::higher::Higher;
use axe_field::Field;
use axe_plane::Plane;
use std::mem;

/// The exponent below q - 1 of the power of x that an element of the field of order q is.
pub(crate) fn exponent(field: &Field, element: u8) -> u8
    requires degree { 1 < degree_of field.now }
    requires element { IsElement field.now element }
    requires nonzero { element ≢ 0 }
    ensures { power_of_x field.now result ≡ element }
{
    // Entry a is the exponent of the element of number a. The digits of that number to the base of the prime are the
    // element's coefficients, so x is number 2 over 4 and 8 elements and number 3 over 9, and x^2 = x + 1 over 4 and 9,
    // x^3 = x + 1 over 8 give the rest. 0 is no power of x: entry 0 and those past the field's elements are not read.
    let exponents = match field.order() {
        4 => [0, 0, 1, 2, 0, 0, 0, 0, 0],
        8 => [0, 0, 1, 3, 2, 6, 4, 5, 0],
        _ => [0, 0, 4, 1, 2, 7, 5, 3, 6],
    };
    exponents[usize::from(element)]
}

/// Moves the planes of a row over a field of degree 2 or 3 to the next powers of x, and that of the highest power to
/// the constants.
fn rotate(degree: u8, constant: &mut Plane, linear: &mut Plane, quadratic: &mut Plane)
    ensures { AreRotated degree constant.old linear.old quadratic.old constant.new linear.new quadratic.new }
{
    mem::swap(constant, linear);
    let with_squares = degree == 3;
    if with_squares {
        mem::swap(constant, quadratic);
    }
}

impl Row {
    /// Multiplies the row by x. The coefficients of the highest power of x become those of x^n, where n is the degree,
    /// and x^n is a combination of lower powers.
    fn multiply_by_x(&mut self)
        requires { 1 < degree_of self.old.order }
        ensures multiple { self.new ≡ multiple_row (prime_of self.old.order) self.old }
        ensures well_formed { IsRow self.new }
    {
        let Some(higher) = &mut self.higher else {
            unreachable!();
        };
        let degree = self.field.degree();
        let matrix = self.field.plane_matrix(self.field.prime());
        let factors = matrix[usize::from(degree) - 1];
        let Higher { linear, quadratic } = &mut **higher;
        rotate(degree, &mut self.constant, linear, quadratic);
        linear.add_scaled(factors[1], &self.constant);
        quadratic.add_scaled(factors[2], &self.constant);
        self.constant.scale(factors[0]);
    }

    /// Multiplies the row by a power of x.
    pub(crate) fn multiply_by_power(&mut self, exponent: u8)
        requires degree { 1 < degree_of self.old.order }
        requires well_formed { IsRow self.old }
        ensures multiple { self.new ≡ multiple_row (power_of_x self.old.order exponent) self.old }
        ensures well_formed { IsRow self.new }
    {
        for _ in 0..exponent {
            self.multiply_by_x();
        }
    }

    /// Makes each entry 0.
    pub(crate) fn make_zero(&mut self)
        ensures multiple { self.new ≡ multiple_row 0 self.old }
        ensures well_formed { IsRow self.new }
    {
        self.constant.scale(0);
        let Some(higher) = &mut self.higher else {
            return;
        };
        let Higher { linear, quadratic } = &mut **higher;
        linear.scale(0);
        quadratic.scale(0);
    }
}

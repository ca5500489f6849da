//! The reducible polynomials of a degree, by a sieve.

ghost use Rattle.std.specs.Prelude.{◌≡◌, ◌+◌, ◌-◌, ◌*◌, ◌^◌, ◌<◌, ◌≤◌, length, replicate, false};
ghost use Rattle.axe_field.specs.NumberFields.{number_field};
ghost use Rattle.axe_field.specs.Order.{Two, order_number};
ghost use Rattle.axe_polynomial_algebra.specs.PolynomialsOfLists.{degree_of, IsMonicOver};
ghost use Rattle.axe_poly.specs.Limits.{greatest_degree};
ghost use Rattle.axe_poly.specs.Sieve.{AreScalings, MarksProducts, MarksMultiples, AreReducibleMarks};

use crate::irreducibles::{Irreducibles, power};
use crate::lanes::{Lanes, lane_base};
use crate::products::{number_of_lanes, product_of_bits, word_of_product};

impl Irreducibles {
    /// Marks the reducible polynomials of the next degree, by their numbers: the multiples of those that have at most
    /// half of it.
    pub(crate) fn sieve(&self, marks: &mut [bool])
        requires fits { self.now.degree < greatest_degree self.now.order }
        requires none { marks.old ≡ replicate (order_number self.now.order ^ (self.now.degree + 1)) false }
        ensures { AreReducibleMarks (number_field self.now.order) (self.now.degree + 1) marks.new }
    {
        let degree = self.degree() + 1;
        for index in 0..self.count() {
            let divisor = self.polynomial(index);
            if 2 * divisor.degree() > degree {
                return;
            }
            mark_multiples(self.lanes(), divisor.coefficients(), degree, marks);
        }
    }
}

/// Marks the multiples of a monic polynomial among the monic ones of a greater degree, by their numbers.
fn mark_multiples(lanes: &Lanes, divisor: &[u8], degree: usize, marks: &mut [bool])
    requires monic { IsMonicOver (number_field lanes.now) divisor.now }
    requires smaller { degree_of divisor.now < degree }
    requires fits { degree ≤ greatest_degree lanes.now }
    requires long { length marks.old ≡ order_number lanes.now ^ degree }
    ensures { MarksMultiples (number_field lanes.now) divisor.now degree marks.old marks.new }
{
    if lanes.field().order() == 2 {
        mark_products_of_bits(divisor, degree, marks);
        return;
    }
    let scalings = lanes.scalings(divisor);
    // The cofactors are the monic polynomials of the degree that is left: here, their numbers but for the last digit.
    let first = power(lanes.field(), degree - divisor.len());
    for higher in first..2 * first {
        mark_products(lanes, divisor, &scalings, degree, higher, marks);
    }
}

/// Over two elements, marks the products of a monic polynomial and the monic ones of the degree that is left.
fn mark_products_of_bits(divisor: &[u8], degree: usize, marks: &mut [bool])
    requires monic { IsMonicOver (number_field Two) divisor.now }
    requires smaller { degree_of divisor.now < degree }
    requires fits { degree ≤ greatest_degree Two }
    requires long { length marks.old ≡ 2 ^ degree }
    ensures { MarksMultiples (number_field Two) divisor.now degree marks.old marks.new }
{
    let start = marks.len();
    let first = 2usize.pow((degree + 1 - divisor.len()) as u32);
    for cofactor in first..2 * first {
        marks[product_of_bits(divisor, cofactor) - start] = true;
    }
}

/// Marks the products of a monic polynomial and those whose numbers are one number with a digit more.
fn mark_products(
    lanes: &Lanes,
    divisor: &[u8],
    scalings: &[u64; 9],
    degree: usize,
    higher: usize,
    marks: &mut [bool],
)
    requires scalings { AreScalings lanes.now divisor.now scalings.now }
    requires monic { IsMonicOver (number_field lanes.now) divisor.now }
    requires smaller { degree_of divisor.now < degree }
    requires fits { degree ≤ greatest_degree lanes.now }
    requires long { length marks.old ≡ order_number lanes.now ^ degree }
    requires from { order_number lanes.now ^ (degree - length divisor.now) ≤ higher }
    requires to { higher < 2 * order_number lanes.now ^ (degree - length divisor.now) }
    ensures { MarksProducts lanes.now divisor.now (length marks.old) (higher * order_number lanes.now)
        (higher * order_number lanes.now + order_number lanes.now) marks.old marks.new }
{
    let (field, start) = (*lanes.field(), marks.len());
    let count = degree + 1 - divisor.len();
    let word = word_of_product(&field, divisor, scalings, count, higher) * lane_base(&field);
    for digit in 0..usize::from(field.order()) {
        let product = number_of_lanes(&field, lanes.meanings(), degree + 1, word + scalings[digit]);
        marks[product - start] = true;
    }
}

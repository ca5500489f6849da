//! Products of polynomials that have a number.

ghost use Rattle.std.specs.Prelude.{◌≡◌, ◌+◌, ◌^◌, ◌<◌, ◌≤◌, length, All};
ghost use Rattle.axe_field.specs.NumberFields.{number_field};
ghost use Rattle.axe_field.specs.Order.{Two, IsElement, order_number};
ghost use Rattle.axe_polynomial_algebra.specs.PolynomialsOfLists.{degree_of, IsMonicOver};
ghost use Rattle.axe_poly.specs.Lanes.{AreMeanings};
ghost use Rattle.axe_poly.specs.Limits.{greatest_degree};
ghost use Rattle.axe_poly.specs.Sieve.{AreScalings, IsProductNumber, IsProductWord, IsNumberOfLanes};

use crate::digits::without_last_digit;
use crate::lanes::{Lanes, lane_base, lane_bits};
use crate::windows::multiple;
use axe_field::Field;

impl Lanes {
    /// For each element, the word of the codes of its product with the coefficients of a monic polynomial.
    pub(crate) fn scalings(&self, divisor: &[u8]) -> [u64; 9]
        requires monic { IsMonicOver (number_field self.now) divisor.now }
        requires degree { degree_of divisor.now ≤ greatest_degree self.now }
        ensures { AreScalings self.now divisor.now result }
    {
        let (field, codes) = (*self.field(), self.codes());
        let top = lane_base(&field).pow((divisor.len() - 1) as u32);
        let mut scalings = [0; 9];
        for element in 0..field.order() {
            let index = usize::from(element);
            scalings[index] = multiple(&field, codes, divisor, element) + codes[index] * top;
        }
        scalings
    }
}

/// Over two elements the bits of a number are the coefficients: the exclusive or of the second number, moved up by the
/// exponents of the first polynomial.
pub(crate) fn product_of_bits(coefficients: &[u8], cofactor: usize) -> usize
    requires elements { All (IsElement Two) coefficients.now }
    requires short { length coefficients.now ≤ 14 }
    requires small { cofactor < 65536 }
    ensures { IsProductNumber Two coefficients.now cofactor result }
{
    let (mut product, mut moved) = (0, cofactor);
    for &coefficient in coefficients {
        if coefficient == 1 {
            product ^= moved;
        }
        moved *= 2;
    }
    product
}

/// The word whose lanes stand for a monic polynomial times the one that has a number: by Horner's rule, from the highest
/// digit on. The lanes move up, and a multiple of the monic polynomial is added.
pub(crate) fn word_of_product(
    field: &Field,
    divisor: &[u8],
    scalings: &[u64; 9],
    count: usize,
    cofactor: usize,
) -> u64
    requires scalings { AreScalings field.now divisor.now scalings.now }
    requires monic { IsMonicOver (number_field field.now) divisor.now }
    requires fits { degree_of divisor.now + count ≤ greatest_degree field.now + 1 }
    requires small { cofactor < order_number field.now ^ count }
    ensures { IsProductWord field.now divisor.now cofactor (degree_of divisor.now + count) result }
{
    if count == 0 {
        return 0;
    }
    let (higher, digit) = without_last_digit(field, cofactor);
    word_of_product(field, divisor, scalings, count - 1, higher) * lane_base(field)
        + scalings[digit]
}

/// The number whose digits are what the lowest lanes of a word, so many, stand for.
pub(crate) fn number_of_lanes(field: &Field, meanings: &[u8; 512], count: usize, word: u64) -> usize
    requires meanings { AreMeanings field.now meanings.now }
    requires few { count ≤ greatest_degree field.now + 1 }
    ensures { IsNumberOfLanes field.now 0 count word result }
{
    let (order, base, bits) = (
        usize::from(field.order()),
        lane_base(field),
        lane_bits(field),
    );
    let mut number = 0;
    for step in 0..count {
        let lane = (word >> (bits * (count - 1 - step) as u32)) & (base - 1);
        number = number * order + usize::from(meanings[lane as usize]);
    }
    number
}

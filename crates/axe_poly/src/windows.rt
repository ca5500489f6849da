//! Remainders of polynomials by divisors of small degree, in one word.

ghost use Rattle.std.specs.Prelude.{◌≡◌, ◌+◌, ◌-◌, ◌/◌, ◌%◌, ◌^◌, ◌<◌, ◌≤◌, ◌↔◌, length, IsTrue, All, ℕ};
ghost use Rattle.axe_field.specs.NumberFields.{number_field};
ghost use Rattle.axe_field.specs.Order.{IsElement};
ghost use Rattle.axe_polynomial_algebra.specs.PolynomialsOfLists.{degree_of, IsMonicOver, Divides};
ghost use Rattle.axe_poly.specs.Limits.{greatest_degree};
ghost use Rattle.axe_poly.specs.Lanes.{lane_base, meaning, packed, term, AreCodes, AreMeanings, AreMultiples, IsWindow};

use crate::lanes::{Lanes, lane_base, lane_bits};
use axe_field::Field;

/// The word of the codes of a constant times the coefficients of a monic polynomial, but for the leading one.
pub(crate) fn multiple(field: &Field, codes: &[u64; 9], divisor: &[u8], constant: u8) -> u64
    requires codes { AreCodes field.now codes.now }
    requires monic { IsMonicOver (number_field field.now) divisor.now }
    requires degree { degree_of divisor.now ≤ greatest_degree field.now }
    requires element { IsElement field.now constant }
    ensures { result
        ≡ packed (lane_base field.now) (length divisor.now - 1) (term field.now divisor.now constant) }
{
    let base = lane_base(field);
    let mut word = 0;
    let mut place = 1;
    for index in 0..divisor.len() - 1 {
        word += codes[usize::from(field.mul(constant, divisor[index]))] * place;
        place *= base;
    }
    word
}

/// The word whose lanes stand for the remainder of a polynomial by a monic one: by Horner's rule, from the highest
/// coefficient on. What stands in the top lane is taken away by a multiple of the divisor, and all lanes move up.
fn remainder(
    field: &Field,
    codes: &[u64; 9],
    meanings: &[u8; 512],
    divisor: &[u8],
    multiples: &[u64; 9],
    dividend: &[u8],
) -> u64
    requires codes { AreCodes field.now codes.now }
    requires meanings { AreMeanings field.now meanings.now }
    requires multiples { AreMultiples field.now divisor.now multiples.now }
    requires monic { IsMonicOver (number_field field.now) divisor.now }
    requires degree { degree_of divisor.now ≤ greatest_degree field.now }
    requires elements { All (IsElement field.now) dividend.now }
    ensures { IsWindow field.now divisor.now dividend.now (length divisor.now - 1) 0 result }
{
    let bits = lane_bits(field);
    // How many bits the lanes below the top one have.
    let others = bits * (divisor.len() - 2) as u32;
    let top = 1u64 << others;
    let len = dividend.len();
    let mut word = 0;
    for step in 0..len {
        let lead = word >> others;
        let element = meanings[lead as usize];
        let moved = ((word & (top - 1)) << bits) + codes[usize::from(dividend[len - 1 - step])];
        word = moved + multiples[usize::from(element)];
    }
    word
}

/// Whether the lowest lanes of a word, so many, stand for 0.
fn are_zeros(field: &Field, meanings: &[u8; 512], count: usize, word: u64) -> bool
    requires meanings { AreMeanings field.now meanings.now }
    ensures { IsTrue result ↔ ((j : ℕ) → j < count →
        meaning field.now (word / lane_base field.now ^ j % lane_base field.now) ≡ 0) }
{
    let bits = lane_bits(field);
    let base = 1u64 << bits;
    let mut left = word;
    for index in 0..count {
        if meanings[(left & (base - 1)) as usize] != 0 {
            return false;
        }
        left >>= bits;
    }
    true
}

impl Lanes {
    /// For each element, the word of the codes of its negative times the coefficients of a monic polynomial, but for the
    /// leading one.
    pub(crate) fn multiples(&self, divisor: &[u8]) -> [u64; 9]
        requires monic { IsMonicOver (number_field self.now) divisor.now }
        requires degree { degree_of divisor.now ≤ greatest_degree self.now }
        ensures { AreMultiples self.now divisor.now result }
    {
        let (field, codes) = (*self.field(), self.codes());
        let mut multiples = [0; 9];
        for element in 0..field.order() {
            multiples[usize::from(element)] = multiple(&field, codes, divisor, field.neg(element));
        }
        multiples
    }

    /// Whether a monic polynomial of a degree that is no greater than the greatest one divides another polynomial, by
    /// the words of its multiples.
    pub(crate) fn divides(&self, divisor: &[u8], multiples: &[u64; 9], dividend: &[u8]) -> bool
        requires multiples { AreMultiples self.now divisor.now multiples.now }
        requires monic { IsMonicOver (number_field self.now) divisor.now }
        requires degree { degree_of divisor.now ≤ greatest_degree self.now }
        requires elements { All (IsElement self.now) dividend.now }
        ensures { IsTrue result ↔ Divides (number_field self.now) divisor.now dividend.now }
    {
        let (field, codes, meanings) = (*self.field(), self.codes(), self.meanings());
        let word = remainder(&field, codes, meanings, divisor, multiples, dividend);
        are_zeros(&field, meanings, divisor.len() - 1, word)
    }
}

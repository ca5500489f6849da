//! By what a constituent was seen to be irreducible, read from the end of its line.

ghost use Rattle.std.specs.Prelude.{◌≡◌, ◌≢◌, ℕ, ◌≤◌, ◌<◌, ◌++◌, ◌↔◌, List, ◌∷◌, Option, length, All, IsTrue, true};
ghost use Rattle.std.specs.Prelude.{IfOk, MatchOption, option_map};
ghost use Rattle.axe_field.specs.Order.{order_number};
ghost use Rattle.axe_report.specs.Fronts.{is_digit};
ghost use Rattle.axe_report.specs.Reports.{WitnessValue, AreDigits, IsPolyOver, IsReportHeader};
ghost use Rattle.axe_report.specs.Reports.{IsWitnessUnder, IsWitnessIn};
ghost use Rattle.axe_report.specs.Spelling.{digit_bytes, poly_bytes, witness_bytes};

use crate::MAX_POLYNOMIALS;
use crate::parts::{after, digits_len, setting};
use crate::report::{FactorWitness, ReportHeader, Version};
use axe_field::Field;
use std::alloc::{AllocError, Global};

/// The most digits that the polynomial of a witness has: those of degree 12 over 2 elements.
const MAX_DIGITS: usize = 13;

/// The witness that stands at the front before a line feed, where it is one by the version of the header, and what
/// follows the line feed.
pub(crate) fn line_end<'a>(
    alloc: Global,
    text: &'a [u8],
    header: &ReportHeader,
) -> Result<Option<(Option<FactorWitness>, &'a [u8])>, AllocError>
    requires { IsReportHeader header.now }
    ensures { IfOk result (λ answer. MatchOption answer
        ((witness : Option WitnessValue) (rest : List ℕ) → IsWitnessIn header.now.version header.now witness →
        text.now ≢ witness_bytes witness ++ (10 ∷ rest))
        (λ found. IsWitnessIn header.now.version header.now found.0
        × (text.now ≡ witness_bytes found.0 ++ (10 ∷ found.1.now)))) }
{
    if header.version == Version::One {
        let Some(rest) = after(text, b"\n") else {
            return Ok(None);
        };
        return Ok(Some((None, rest)));
    }
    let Some((witness, rest)) = witness(alloc, text, header)? else {
        return Ok(None);
    };
    Ok(Some((Some(witness), rest)))
}

/// The witness under a header that stands at the front before a line feed, and what follows that.
fn witness<'a>(
    alloc: Global,
    text: &'a [u8],
    header: &ReportHeader,
) -> Result<Option<(FactorWitness, &'a [u8])>, AllocError>
    requires { IsReportHeader header.now }
    ensures { IfOk result (λ answer. MatchOption answer
        ((witness : WitnessValue) (rest : List ℕ) → IsWitnessUnder header.now witness →
        text.now ≢ witness_bytes (Some witness) ++ (10 ∷ rest))
        (λ found. IsWitnessUnder header.now found.0
        × (text.now ≡ witness_bytes (Some found.0) ++ (10 ∷ found.1.now)))) }
{
    let Some((word, after_word)) = setting(text, b" word=") else {
        return Ok(None);
    };
    if word > u64::from(header.words) {
        return Ok(None);
    }
    let Some((poly, rest)) = poly(alloc, after_word, &header.field)? else {
        return Ok(None);
    };
    Ok(Some((FactorWitness::new(word as u32, poly), rest)))
}

/// The digits of a polynomial over a field that stand at the front before a line feed, where there is one, and what
/// follows that.
fn poly<'a>(
    alloc: Global,
    text: &'a [u8],
    field: &Field,
) -> Result<Option<(Option<Vec<u8>>, &'a [u8])>, AllocError>
    ensures { IfOk result (λ answer. MatchOption answer
        ((poly : Option (List ℕ)) (rest : List ℕ) → IsPolyOver (order_number field.now) poly →
        text.now ≢ poly_bytes poly ++ (10 ∷ rest))
        (λ found. IsPolyOver (order_number field.now) (option_map (λ digits. digits.items) found.0)
        × (text.now ≡ poly_bytes (option_map (λ digits. digits.items) found.0) ++ (10 ∷ found.1.now)))) }
{
    if let Some(rest) = after(text, b"\n") {
        return Ok(Some((None, rest)));
    }
    let Some(after_poly) = after(text, b" poly=") else {
        return Ok(None);
    };
    let (numeral, end) = after_poly.split_at(digits_len(after_poly));
    let Some(rest) = after(end, b"\n") else {
        return Ok(None);
    };
    let Some(digits) = poly_digits(alloc, numeral, field.order())? else {
        return Ok(None);
    };
    Ok(Some((Some(digits), rest)))
}

/// The digits of which this is the spelling, where they are those of a polynomial over the field of an order.
fn poly_digits(alloc: Global, numeral: &[u8], order: u8) -> Result<Option<Vec<u8>>, AllocError>
    requires numeral { All (λ byte. is_digit byte ≡ true) numeral.now }
    requires order { (2 ≤ order) × (order ≤ 9) }
    ensures { IfOk result (λ answer. MatchOption answer
        ((digits : List ℕ) → AreDigits order digits → numeral.now ≢ digit_bytes digits)
        (λ found. AreDigits order found.items × (numeral.now ≡ digit_bytes found.items))) }
{
    if numeral.len() > MAX_DIGITS {
        return Ok(None);
    }
    let digits = digits_of(alloc, numeral)?;
    if !are_digits(&digits, order) {
        return Ok(None);
    }
    Ok(Some(digits))
}

/// The digits of which this is the spelling.
fn digits_of(alloc: Global, numeral: &[u8]) -> Result<Vec<u8>, AllocError>
    requires { All (λ byte. is_digit byte ≡ true) numeral.now }
    ensures { IfOk result (λ digits. digit_bytes digits.items ≡ numeral.now) }
{
    let mut digits = Vec::new(alloc);
    for &byte in numeral {
        digits.push(byte - b'0')?;
    }
    Ok(digits)
}

/// Whether these are the digits of a polynomial over the field of an order.
fn are_digits(digits: &[u8], order: u8) -> bool
    requires order { (2 ≤ order) × (order ≤ 9) }
    requires digits { length digits.now ≤ 13 }
    ensures { IsTrue result ↔ AreDigits order digits.now }
{
    if digits.len() < 2 {
        return false;
    }
    let degree = digits.len() - 1;
    let small = u64::from(order).pow(degree as u32) <= MAX_POLYNOMIALS as u64;
    small && digits[degree] == 1 && are_below(digits, order)
}

/// Whether each digit is below the order.
fn are_below(digits: &[u8], order: u8) -> bool
    ensures { IsTrue result ↔ All (λ digit. digit < order) digits.now }
{
    digits.iter().all(|&digit| digit < order)
}

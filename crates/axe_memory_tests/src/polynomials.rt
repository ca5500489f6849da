//! Polynomials: those that digits make, their copies, minimal polynomials of vectors, irreducible divisors, and values
//! at matrices.

use crate::tables::{Topic, each_call, is_matrix};
use axe_matrix::Refusal;
use axe_poly::{Poly, factors_up_to, greatest_degree, minimal_of_vector};
use axe_test_values::{
    TableFault, field_of, matrix_of, number_of, one_field, row_of_shape, three_fields,
};
use std::alloc::Global;
use std::process::Abort;

/// A polynomial is written as the order of its field and the digits of its coefficients, the constant one first:
/// - `copy`: a polynomial, which is made of its digits, and copied;
/// - `minimal`: a matrix, a row, and the minimal polynomial of the row;
/// - `factors`: a degree, a polynomial, and the last of its irreducible divisors up to the degree;
/// - `value`: a polynomial, a matrix, and the value.
const POLYNOMIALS: &str = "\
copy | 2: 111
copy | 9: 381
minimal | 2: 01/11 | 2: 10 | 2: 111
minimal | 3: 2000/0110/0120/0001 | 3: 0100 | 3: 101
factors | 2 | 2: 111 | 2: 111
factors | 1 | 3: 201 | 3: 21
factors | 2 | 2: 010101 | 2: 111
value | 2: 11 | 2: 01/11 | 2: 11/10
value | 2: 111 | 2: 01/11 | 2: 00/00
value | 2: 1001 | 2: 001/001/001 | 2: 101/011/000
";

/// The polynomial that is written so.
pub(crate) fn poly_of(alloc: Global, text: &str) -> Result<Poly, TableFault> {
    let (order, digits) = text.split_once(": ").ok_or(TableFault::NotWritten)?;
    let field = field_of(order)?;
    let digits: Vec<u8> = digits
        .bytes()
        .map(|digit| digit.wrapping_sub(b'0'))
        .collect(alloc)?;
    Poly::from_digits(alloc, field, &digits)?.ok_or(TableFault::NotWritten)
}

/// Whether an answer is the polynomial that is written so, or Memory.
fn is_poly(alloc: Global, answer: &Result<Poly, Refusal>, text: &str) -> Result<bool, TableFault> {
    match answer {
        Ok(poly) => Ok(poly.same(&poly_of(alloc, text)?)),
        Err(refusal) => Ok(*refusal == Refusal::Memory),
    }
}

fn copies(alloc: Global, line: &str) -> Result<bool, TableFault> {
    let text = one_field(line)?;
    let poly = poly_of(alloc, text)?;
    let copy = poly.copy(alloc);
    is_poly(alloc, &copy, text)
}

fn minimal(rt: &impl Abort, alloc: Global, line: &str) -> Result<bool, TableFault> {
    let (matrix, row, wanted) = three_fields(line)?;
    let matrix = matrix_of(alloc, matrix)?;
    let row = row_of_shape(alloc, row, matrix.field(), matrix.cols())?;
    assert!(rt; matrix.rows() == matrix.cols());
    assert!(rt; !row.is_zero());
    let found = minimal_of_vector(alloc, &matrix, &row);
    is_poly(alloc, &found, wanted)
}

fn factors(rt: &impl Abort, alloc: Global, line: &str) -> Result<bool, TableFault> {
    let (degree, poly, wanted) = three_fields(line)?;
    let poly = poly_of(alloc, poly)?;
    let wanted = poly_of(alloc, wanted)?;
    let degree = number_of(degree)?;
    assert!(rt; degree >= 1);
    assert!(rt; degree <= greatest_degree(poly.field()));
    match factors_up_to(alloc, &poly, degree) {
        Ok(factors) => Ok(factors.last().is_some_and(|factor| factor.same(&wanted))),
        Err(refusal) => Ok(refusal == Refusal::Memory),
    }
}

fn value(rt: &impl Abort, alloc: Global, line: &str) -> Result<bool, TableFault> {
    let (poly, matrix, wanted) = three_fields(line)?;
    let poly = poly_of(alloc, poly)?;
    let matrix = matrix_of(alloc, matrix)?;
    assert!(rt; matrix.rows() == matrix.cols());
    assert!(rt; matrix.field() == poly.field());
    is_matrix(alloc, poly.value_at(alloc, &matrix), wanted)
}

/// Whether a call answers what its line says, or Memory.
pub(crate) fn answers(
    rt: &impl Abort,
    alloc: Global,
    call: &str,
    line: &str,
) -> Result<bool, TableFault> {
    match call {
        "copy" => copies(alloc, line),
        "minimal" => minimal(rt, alloc, line),
        "factors" => factors(rt, alloc, line),
        _ => value(rt, alloc, line),
    }
}

#[test]
fn polynomials_answer_or_there_is_no_memory(rt: HostRuntime) {
    each_call(&rt, rt.alloc(), Topic::Polynomials, POLYNOMIALS);
}

//! Polynomials: those that digits make, minimal polynomials of vectors, irreducible divisors, and values at matrices.
//!
//! The answers of the second table are GAP's (`polynomials.g` beside this crate's sources makes it).
use crate::tables::{Topic, each_call};
use axe_poly::{Poly, cyclic_basis, factors_up_to, greatest_degree, minimal_of_vector};
use axe_test_values::{
    TableFault, field_of, is_matrix, matrix_of, number_of, row_of_shape, small_number_of,
    three_fields, truth_of, two_fields,
};
use std::alloc::Global;
use std::process::Abort;

/// A polynomial is written as the order of its field and the digits of its coefficients, the constant one first:
/// - `from_digits`: digits, and the polynomial that they make, or `none`;
/// - `degree`, `coefficient`: a polynomial, and its degree, or an exponent and the coefficient there;
/// - `same`: two polynomials, and whether they are equal;
/// - `minimal`: a matrix, a row, and the minimal polynomial of the row;
/// - `cyclic`: a matrix, a row, and the row times the powers of the matrix below the degree of that polynomial;
/// - `factors`: a degree, a polynomial, and its irreducible divisors up to the degree, or `none`;
/// - `value`: a polynomial, a matrix, and the value.
const BY_HAND: &str = "\
from_digits | 2: 111 | 2: 111
from_digits | 2: 12 | none
from_digits | 2: 1 | none
from_digits | 2: 10 | none
from_digits | 9: 81 | 9: 81
from_digits | 9: 91 | none
degree | 2: 11 | 1
degree | 2: 111 | 2
coefficient | 3: 201 | 0 | 2
coefficient | 3: 201 | 1 | 0
coefficient | 3: 201 | 2 | 1
same | 2: 111 | 2: 111 | yes
same | 2: 111 | 2: 101 | no
same | 2: 111 | 2: 11 | no
same | 2: 11 | 3: 11 | no
minimal | 2: 01/11 | 2: 10 | 2: 111
cyclic | 2: 01/11 | 2: 10 | 2: 10/01
cyclic | 2: 000/010/100 | 2: 110 | 2: 110/010
cyclic | 3: 00/11 | 3: 22 | 3: 22
cyclic | 9: 3 | 9: 5 | 9: 5
factors | 2 | 2: 111 | 111
factors | 1 | 3: 201 | 11 21
value | 2: 111 | 2: 01/11 | 2: 00/00
";

/// The same calls over each field, at matrices and polynomials that were drawn.
const BY_GAP: &str = "\
# 2 elements
minimal | 2: 1 | 2: 1 | 2: 11
minimal | 2: 00/00 | 2: 10 | 2: 01
minimal | 2: 000/010/100 | 2: 100 | 2: 01
minimal | 2: 000/010/100 | 2: 110 | 2: 011
minimal | 2: 00010/10010/00001/01010/10011 | 2: 10000 | 2: 1111
minimal | 2: 00010/10010/00001/01010/10011 | 2: 01101 | 2: 01
minimal | 2: 1000/0100/0010/0001 | 2: 1000 | 2: 11
minimal | 2: 1000/0100/0010/0001 | 2: 0100 | 2: 11
factors | 1 | 2: 01 | 01
factors | 3 | 2: 01 | 01
factors | 12 | 2: 01 | 01
factors | 1 | 2: 011 | 01 11
factors | 3 | 2: 011 | 01 11
factors | 12 | 2: 011 | 01 11
factors | 1 | 2: 00001 | 01
factors | 3 | 2: 00001 | 01
factors | 12 | 2: 00001 | 01
factors | 1 | 2: 00000101 | 01 11
factors | 3 | 2: 00000101 | 01 11
factors | 12 | 2: 00000101 | 01 11
factors | 1 | 2: 1001011010101 | none
factors | 3 | 2: 1001011010101 | none
factors | 12 | 2: 1001011010101 | 111011 11001011
factors | 2 | 2: 010101 | 01 111
value | 2: 01 | 2: 110/011/101 | 2: 110/011/101
value | 2: 111 | 2: 110/101/110 | 2: 001/111/100
value | 2: 1001 | 2: 001/001/001 | 2: 101/011/000
value | 2: 0110001 | 2: 101/001/010 | 2: 101/001/010
# 3 elements
minimal | 3: 2 | 3: 1 | 3: 11
minimal | 3: 00/11 | 3: 10 | 3: 01
minimal | 3: 00/11 | 3: 22 | 3: 21
minimal | 3: 100/202/210 | 3: 100 | 3: 21
minimal | 3: 100/202/210 | 3: 121 | 3: 101
minimal | 3: 02002/02210/22111/22210/01121 | 3: 10000 | 3: 100011
minimal | 3: 02002/02210/22111/22210/01121 | 3: 11111 | 3: 100011
minimal | 3: 2000/0110/0120/0001 | 3: 1000 | 3: 11
minimal | 3: 2000/0110/0120/0001 | 3: 0100 | 3: 101
factors | 1 | 3: 21 | 21
factors | 3 | 3: 21 | 21
factors | 7 | 3: 21 | 21
factors | 1 | 3: 111 | 21
factors | 3 | 3: 111 | 21
factors | 7 | 3: 111 | 21
factors | 1 | 3: 22111 | none
factors | 3 | 3: 22111 | none
factors | 7 | 3: 22111 | 22111
factors | 1 | 3: 21022201 | none
factors | 3 | 3: 21022201 | none
factors | 7 | 3: 21022201 | 21022201
factors | 1 | 3: 1011121202121 | 11 21
factors | 3 | 3: 1011121202121 | 11 21
factors | 7 | 3: 1011121202121 | 11 21 20100221
factors | 2 | 3: 220101 | 21 221
factors | 1 | 3: 0201 | 01 11 21
value | 3: 01 | 3: 211/121/110 | 3: 211/121/110
value | 3: 021 | 3: 120/211/001 | 3: 122/211/000
value | 3: 0101 | 3: 200/202/001 | 3: 100/101/002
value | 3: 2000001 | 3: 100/010/122 | 3: 000/000/000
# 4 elements
minimal | 4: 0 | 4: 1 | 4: 01
minimal | 4: 01/01 | 4: 10 | 4: 011
minimal | 4: 01/01 | 4: 13 | 4: 011
minimal | 4: 003/112/320 | 4: 100 | 4: 3111
minimal | 4: 003/112/320 | 4: 012 | 4: 3111
minimal | 4: 10301/01300/22201/23303/00100 | 4: 10000 | 4: 30021
minimal | 4: 10301/01300/22201/23303/00100 | 4: 01121 | 4: 030021
minimal | 4: 3000/0230/0120/0001 | 4: 1000 | 4: 31
minimal | 4: 3000/0230/0120/0001 | 4: 0100 | 4: 001
factors | 1 | 4: 01 | 01
factors | 3 | 4: 01 | 01
factors | 6 | 4: 01 | 01
factors | 1 | 4: 321 | 11 31
factors | 3 | 4: 321 | 11 31
factors | 6 | 4: 321 | 11 31
factors | 1 | 4: 21031 | none
factors | 3 | 4: 21031 | none
factors | 6 | 4: 21031 | 21031
factors | 1 | 4: 33310031 | 11 21
factors | 3 | 4: 33310031 | 11 21
factors | 6 | 4: 33310031 | 11 21 211201
factors | 1 | 4: 2330120332311 | 11 21
factors | 3 | 4: 2330120332311 | 11 21 2221
factors | 6 | 4: 2330120332311 | 11 21 2221 2302121
factors | 2 | 4: 132121 | 21 211
factors | 1 | 4: 01001 | 01 11 21 31
value | 4: 11 | 4: 313/220/121 | 4: 213/230/120
value | 4: 221 | 4: 211/230/133 | 4: 103/132/200
value | 4: 3321 | 4: 203/313/013 | 4: 011/321/133
value | 4: 0131321 | 4: 312/233/123 | 4: 121/120/232
# 5 elements
minimal | 5: 3 | 5: 1 | 5: 21
minimal | 5: 3 | 5: 3 | 5: 21
minimal | 5: 23/23 | 5: 10 | 5: 001
minimal | 5: 23/23 | 5: 04 | 5: 001
minimal | 5: 440/341/204 | 5: 100 | 5: 1131
minimal | 5: 440/341/204 | 5: 402 | 5: 1131
minimal | 5: 14211/01131/40112/02200/34421 | 5: 10000 | 5: 10001
minimal | 5: 14211/01131/40112/02200/34421 | 5: 02043 | 5: 110011
minimal | 5: 4000/0140/0110/0001 | 5: 1000 | 5: 11
minimal | 5: 4000/0140/0110/0001 | 5: 0100 | 5: 231
factors | 1 | 5: 21 | 21
factors | 3 | 5: 21 | 21
factors | 5 | 5: 21 | 21
factors | 1 | 5: 301 | none
factors | 3 | 5: 301 | 301
factors | 5 | 5: 301 | 301
factors | 1 | 5: 00111 | 01
factors | 3 | 5: 00111 | 01 111
factors | 5 | 5: 00111 | 01 111
factors | 1 | 5: 43322031 | 21 31
factors | 3 | 5: 43322031 | 21 31 321 3411
factors | 5 | 5: 43322031 | 21 31 321 3411
factors | 1 | 5: 0044104122341 | 01
factors | 3 | 5: 0044104122341 | 01
factors | 5 | 5: 0044104122341 | 01
factors | 2 | 5: 243131 | 31 301
factors | 1 | 5: 040001 | 01 11 21 31 41
value | 5: 41 | 5: 331/140/340 | 5: 231/130/344
value | 5: 421 | 5: 032/123/344 | 5: 301/321/211
value | 5: 1431 | 5: 031/041/013 | 5: 143/033/030
value | 5: 0022101 | 5: 134/412/443 | 5: 302/022/240
# 7 elements
minimal | 7: 5 | 7: 1 | 7: 21
minimal | 7: 5 | 7: 5 | 7: 21
minimal | 7: 45/24 | 7: 10 | 7: 661
minimal | 7: 45/24 | 7: 26 | 7: 661
minimal | 7: 164/332/525 | 7: 100 | 7: 6251
minimal | 7: 164/332/525 | 7: 232 | 7: 6251
minimal | 7: 21045/42060/41251/36630/23420 | 7: 10000 | 7: 060451
minimal | 7: 21045/42060/41251/36630/23420 | 7: 64651 | 7: 060451
minimal | 7: 6000/0210/0400/0001 | 7: 1000 | 7: 11
minimal | 7: 6000/0210/0400/0001 | 7: 0100 | 7: 351
factors | 1 | 7: 01 | 01
factors | 3 | 7: 01 | 01
factors | 4 | 7: 01 | 01
factors | 1 | 7: 331 | 41 61
factors | 3 | 7: 331 | 41 61
factors | 4 | 7: 331 | 41 61
factors | 1 | 7: 32451 | 31
factors | 3 | 7: 32451 | 31 1521
factors | 4 | 7: 32451 | 31 1521
factors | 1 | 7: 21436411 | none
factors | 3 | 7: 21436411 | none
factors | 4 | 7: 21436411 | none
factors | 1 | 7: 0663113024321 | 01 11
factors | 3 | 7: 0663113024321 | 01 11 2631
factors | 4 | 7: 0663113024321 | 01 11 2631
factors | 2 | 7: 161651 | 21 551
factors | 1 | 7: 06000001 | 01 11 21 31 41 51 61
value | 7: 21 | 7: 442/155/155 | 7: 642/105/150
value | 7: 011 | 7: 421/104/446 | 7: 505/041/616
value | 7: 1531 | 7: 411/442/040 | 7: 604/631/153
value | 7: 4653121 | 7: 325/612/102 | 7: 515/231/064
# 8 elements
minimal | 8: 7 | 8: 1 | 8: 71
minimal | 8: 7 | 8: 3 | 8: 71
minimal | 8: 34/15 | 8: 10 | 8: 061
minimal | 8: 34/15 | 8: 71 | 8: 061
minimal | 8: 540/461/724 | 8: 100 | 8: 2071
minimal | 8: 540/461/724 | 8: 755 | 8: 2071
minimal | 8: 77001/23104/25004/03017/21031 | 8: 10000 | 8: 133741
minimal | 8: 77001/23104/25004/03017/21031 | 8: 70532 | 8: 53061
minimal | 8: 7000/0430/0110/0001 | 8: 1000 | 8: 71
minimal | 8: 7000/0430/0110/0001 | 8: 0100 | 8: 751
factors | 1 | 8: 51 | 51
factors | 3 | 8: 51 | 51
factors | 4 | 8: 51 | 51
factors | 1 | 8: 441 | none
factors | 3 | 8: 441 | 441
factors | 4 | 8: 441 | 441
factors | 1 | 8: 35351 | none
factors | 3 | 8: 35351 | 421 271
factors | 4 | 8: 35351 | 421 271
factors | 1 | 8: 24561601 | none
factors | 3 | 8: 24561601 | 6561
factors | 4 | 8: 24561601 | 6561 62161
factors | 1 | 8: 0153276735461 | 01
factors | 3 | 8: 0153276735461 | 01
factors | 4 | 8: 0153276735461 | 01 56221
factors | 2 | 8: 157621 | 21 341
factors | 1 | 8: 010000001 | 01 11 21 31 41 51 61 71
value | 8: 61 | 8: 545/325/052 | 8: 345/345/054
value | 8: 171 | 8: 724/017/232 | 8: 256/551/431
value | 8: 1041 | 8: 515/124/614 | 8: 034/355/167
value | 8: 5451741 | 8: 710/504/617 | 8: 761/525/520
# 9 elements
minimal | 9: 5 | 9: 1 | 9: 71
minimal | 9: 5 | 9: 6 | 9: 71
minimal | 9: 85/52 | 9: 10 | 9: 851
minimal | 9: 85/52 | 9: 80 | 9: 851
minimal | 9: 212/118/081 | 9: 100 | 9: 681
minimal | 9: 212/118/081 | 9: 728 | 9: 8221
minimal | 9: 54113/41555/44706/18144/45656 | 9: 10000 | 9: 87511
minimal | 9: 54113/41555/44706/18144/45656 | 9: 57114 | 9: 87511
minimal | 9: 8000/0320/0300/0001 | 9: 1000 | 9: 41
minimal | 9: 8000/0320/0300/0001 | 9: 0100 | 9: 361
factors | 1 | 9: 11 | 11
factors | 3 | 9: 11 | 11
factors | 1 | 9: 501 | none
factors | 3 | 9: 501 | 501
factors | 1 | 9: 58431 | 51
factors | 3 | 9: 58431 | 51 1211
factors | 1 | 9: 32772371 | none
factors | 3 | 9: 32772371 | 721
factors | 1 | 9: 7620711145321 | none
factors | 3 | 9: 7620711145321 | 371
factors | 2 | 9: 763161 | 51 481
factors | 1 | 9: 0200000001 | 01 11 21 31 41 51 61 71 81
value | 9: 21 | 9: 332/264/040 | 9: 532/284/042
value | 9: 051 | 9: 351/571/003 | 9: 114/188/005
value | 9: 5481 | 9: 346/550/835 | 9: 012/863/322
value | 9: 5057221 | 9: 024/133/487 | 9: 135/387/023
";

/// What digits make: a polynomial, or nothing.
fn read_poly(alloc: Global, text: &str) -> Result<Option<Poly>, TableFault> {
    let (order, digits) = text.split_once(": ").ok_or(TableFault::NotWritten)?;
    let field = field_of(order)?;
    let digits: Vec<u8> = digits
        .bytes()
        .map(|digit| digit.wrapping_sub(b'0'))
        .collect(alloc)?;
    Ok(Poly::from_digits(alloc, field, &digits)?)
}

/// The polynomial that is written so.
fn poly_of(alloc: Global, text: &str) -> Result<Poly, TableFault> {
    read_poly(alloc, text)?.ok_or(TableFault::NotWritten)
}

/// Whether digits make the polynomial that is written so, and its copy is the same; or nothing where `none` is written.
fn is_made(alloc: Global, line: &str) -> Result<bool, TableFault> {
    let (digits, wanted) = two_fields(line)?;
    let Some(poly) = read_poly(alloc, digits)? else {
        return Ok(wanted == "none");
    };
    let copy = poly.copy(alloc)?;
    Ok(wanted == digits && copy.same(&poly) && copy.field() == poly.field())
}

fn has_degree(alloc: Global, line: &str) -> Result<bool, TableFault> {
    let (poly, degree) = two_fields(line)?;
    Ok(poly_of(alloc, poly)?.degree() == number_of(degree)?)
}

fn has_coefficient(rt: &impl Abort, alloc: Global, line: &str) -> Result<bool, TableFault> {
    let (poly, exponent, wanted) = three_fields(line)?;
    let poly = poly_of(alloc, poly)?;
    let exponent = number_of(exponent)?;
    assert!(rt; exponent <= poly.degree());
    Ok(poly.coefficient(exponent) == small_number_of(wanted)?)
}

fn are_same(alloc: Global, line: &str) -> Result<bool, TableFault> {
    let (left, right, wanted) = three_fields(line)?;
    let left = poly_of(alloc, left)?;
    let right = poly_of(alloc, right)?;
    Ok(left.same(&right) == truth_of(wanted)?)
}

fn minimal(rt: &impl Abort, alloc: Global, line: &str) -> Result<bool, TableFault> {
    let (matrix, row, wanted) = three_fields(line)?;
    let matrix = matrix_of(alloc, matrix)?;
    let row = row_of_shape(alloc, row, matrix.field(), matrix.cols())?;
    assert!(rt; matrix.rows() == matrix.cols());
    assert!(rt; !row.is_zero());
    let found = minimal_of_vector(alloc, &matrix, &row)?;
    Ok(found.same(&poly_of(alloc, wanted)?))
}

fn cyclic(rt: &impl Abort, alloc: Global, line: &str) -> Result<bool, TableFault> {
    let (matrix, row, wanted) = three_fields(line)?;
    let matrix = matrix_of(alloc, matrix)?;
    let row = row_of_shape(alloc, row, matrix.field(), matrix.cols())?;
    assert!(rt; matrix.rows() == matrix.cols());
    assert!(rt; !row.is_zero());
    let found = cyclic_basis(alloc, &matrix, &row)?;
    let has_degree = found.minimal.degree() == found.rows.rows();
    Ok(is_matrix(alloc, Ok(found.rows), wanted)? && has_degree)
}

/// Whether polynomials are those with these digits, in their order.
fn are_written(factors: &[Poly], text: &str) -> bool {
    if text == "none" {
        return factors.is_empty();
    }
    let mut written = text.split(' ');
    for factor in factors {
        let Some(digits) = written.next() else {
            return false;
        };
        if !has_digits(factor, digits) {
            return false;
        }
    }
    written.next().is_none()
}

/// Whether the coefficients of a polynomial have these digits.
fn has_digits(poly: &Poly, digits: &str) -> bool {
    let digits = digits.as_bytes();
    for exponent in 0..digits.len() {
        let is_coefficient = exponent <= poly.degree();
        if !is_coefficient || digits[exponent].wrapping_sub(b'0') != poly.coefficient(exponent) {
            return false;
        }
    }
    digits.len() > poly.degree()
}

fn factors(rt: &impl Abort, alloc: Global, line: &str) -> Result<bool, TableFault> {
    let (degree, poly, wanted) = three_fields(line)?;
    let poly = poly_of(alloc, poly)?;
    let degree = number_of(degree)?;
    assert!(rt; degree >= 1);
    assert!(rt; degree <= greatest_degree(poly.field()));
    let found = factors_up_to(alloc, &poly, degree)?;
    Ok(are_written(&found, wanted))
}

fn value(rt: &impl Abort, alloc: Global, line: &str) -> Result<bool, TableFault> {
    let (poly, matrix, wanted) = three_fields(line)?;
    let poly = poly_of(alloc, poly)?;
    let matrix = matrix_of(alloc, matrix)?;
    assert!(rt; matrix.rows() == matrix.cols());
    assert!(rt; matrix.field() == poly.field());
    is_matrix(alloc, poly.value_at(alloc, &matrix), wanted)
}

/// Whether a call answers what its line says.
pub(crate) fn answers(
    rt: &impl Abort,
    alloc: Global,
    call: &str,
    line: &str,
) -> Result<bool, TableFault> {
    match call {
        "from_digits" => is_made(alloc, line),
        "degree" => has_degree(alloc, line),
        "coefficient" => has_coefficient(rt, alloc, line),
        "same" => are_same(alloc, line),
        "minimal" => minimal(rt, alloc, line),
        "cyclic" => cyclic(rt, alloc, line),
        "factors" => factors(rt, alloc, line),
        "value" => value(rt, alloc, line),
        _ => Err(TableFault::NotWritten),
    }
}

#[test]
fn polynomials_answer_as_worked(rt: HostRuntime) -> Result<(), TableFault> {
    each_call(&rt, rt.alloc(), Topic::Polynomials, BY_HAND)?;
    each_call(&rt, rt.alloc(), Topic::Polynomials, BY_GAP)
}

//! Calls that are given rows and matrices, and make one.

use crate::tables::{Topic, each_call, is_matrix, is_row, is_still};
use axe_action::annihilator;
use axe_echelon::{inverse, null_space, span_of};
use axe_matrix::{MAX_COLUMNS, MAX_ROWS, Matrix, Refusal, Row};
use axe_test_values::{
    TableFault, field_of, matrix_of, number_of, range_of, row_of, row_of_shape, three_fields,
    two_fields,
};
use std::alloc::Global;

/// - `row_zero`: the order of a field, a length, and the row of zeros;
/// - `row_unit`: the order of a field, a length, an index, and the unit vector;
/// - `row_copy`: a row, which is made of its elements, and its copy;
/// - `vec_mul`: a matrix, a vector, and the image of the vector;
/// - `coordinates`: rows, another one, and its coordinates over the rows.
const ROWS: &str = "\
row_zero | 7 | 2 | 7: 00
row_zero | 9 | 3 | 9: 000
row_unit | 8 | 3 | 8: 001
row_copy | 9: 13 | 9: 13
vec_mul | 2: 01/11 | 2: 11 | 2: 10
coordinates | 2: 101/011 | 2: 110 | 2: 11
";

/// Calls that are given one matrix.
const OF_ONE: &str = "\
copy | 2: 10/01 | 2: 10/01
transpose | 3: 12/01 | 3: 10/21
null_space | 2: 10/10 | 2: 11
inverse | 3: 12/01 | 3: 11/01
reduced | 2: 111/011 | 2: 100/011
annihilator | 2: 100 | 2: 010/001
";

/// Calls that are given two matrices, or the shape of one.
const OF_TWO: &str = "\
mul | 2: 11/01 | 2: 10/11 | 2: 01/11
mul | 9: 3 | 9: 3 | 9: 4
mul | 4: 23 | 4: 2/3 | 4: 1
mul | 2: 11111 | 2: 1/1/1/1/1 | 2: 1
add | 3: 12/01 | 3: 12/01 | 3: 21/02
zero | 2 | 2 | 2: 00/00
identity | 2 | 2 | 2: 10/01
block | 2: 01/11 | 1..2 | 2: 11
";

fn makes_row(alloc: Global, call: &str, line: &str) -> Result<bool, TableFault> {
    let (order, length, wanted) = three_fields(line)?;
    let length = number_of(length)?;
    let field = field_of(order)?;
    if length == 0 {
        return Err(TableFault::NotWritten);
    }
    let answer = match call {
        "row_zero" => Row::zero(alloc, field, length),
        _ => Row::unit(alloc, field, length, length - 1),
    };
    is_row(alloc, answer, wanted)
}

fn copies_row(alloc: Global, line: &str) -> Result<bool, TableFault> {
    let (text, wanted) = two_fields(line)?;
    let row = row_of(alloc, text)?;
    let is_right = is_row(alloc, row.copy(alloc), wanted)?;
    Ok(is_right && row.same(&row_of(alloc, text)?))
}

fn maps_row(alloc: Global, line: &str) -> Result<bool, TableFault> {
    let (text, vector, wanted) = three_fields(line)?;
    let matrix = matrix_of(alloc, text)?;
    let vector = row_of_shape(alloc, vector, matrix.field(), matrix.rows())?;
    let is_right = is_row(alloc, matrix.vec_mul(alloc, &vector), wanted)?;
    Ok(is_right && is_still(alloc, &matrix, text)?)
}

fn takes_apart(alloc: Global, line: &str) -> Result<bool, TableFault> {
    let (rows, row, wanted) = three_fields(line)?;
    let form = span_of(alloc, &matrix_of(alloc, rows)?)?;
    let row = row_of_shape(alloc, row, form.field(), form.cols())?;
    match form.coordinates(alloc, &row) {
        Ok(Some(found)) => is_row(alloc, Ok(found), wanted),
        Ok(None) => Ok(false),
        Err(refusal) => Ok(refusal == Refusal::Memory),
    }
}

/// The reduced basis of the span of the rows.
fn reduced(alloc: Global, rows: &Matrix) -> Result<Matrix, Refusal> {
    span_of(alloc, rows)?.reduced(alloc)
}

fn gives_matrix(alloc: Global, call: &str, line: &str) -> Result<bool, TableFault> {
    let (text, wanted) = two_fields(line)?;
    let matrix = matrix_of(alloc, text)?;
    let answer = match call {
        "copy" => matrix.copy(alloc),
        "transpose" => matrix.transpose(alloc),
        "null_space" => null_space(alloc, &matrix),
        "inverse" => inverse(alloc, &matrix),
        "reduced" => reduced(alloc, &matrix),
        _ => annihilator(alloc, &matrix),
    };
    Ok(is_matrix(alloc, answer, wanted)? && is_still(alloc, &matrix, text)?)
}

fn combines(alloc: Global, call: &str, line: &str) -> Result<bool, TableFault> {
    let (left_text, right_text, wanted) = three_fields(line)?;
    let left = matrix_of(alloc, left_text)?;
    let right = matrix_of(alloc, right_text)?;
    let answer = match call {
        "mul" => left.mul(alloc, &right),
        _ => left.add(alloc, &right),
    };
    let is_right = is_matrix(alloc, answer, wanted)?;
    Ok(is_right && is_still(alloc, &left, left_text)? && is_still(alloc, &right, right_text)?)
}

fn makes_matrix(alloc: Global, call: &str, line: &str) -> Result<bool, TableFault> {
    let (order, rows, wanted) = three_fields(line)?;
    let rows = number_of(rows)?;
    let field = field_of(order)?;
    if rows == 0 || rows > MAX_ROWS || rows > MAX_COLUMNS {
        return Err(TableFault::NotWritten);
    }
    let answer = match call {
        "zero" => Matrix::zero(alloc, field, rows, rows),
        _ => Matrix::identity(alloc, field, rows),
    };
    is_matrix(alloc, answer, wanted)
}

fn takes_block(alloc: Global, line: &str) -> Result<bool, TableFault> {
    let (text, rows, wanted) = three_fields(line)?;
    let (start, end) = range_of(rows)?;
    let matrix = matrix_of(alloc, text)?;
    if start > end || end > matrix.rows() {
        return Err(TableFault::NotWritten);
    }
    let answer = matrix.block(alloc, start, end - start, 0, matrix.cols());
    Ok(is_matrix(alloc, answer, wanted)? && is_still(alloc, &matrix, text)?)
}

/// Whether a call answers what its line says, or Memory.
pub(crate) fn answers(alloc: Global, call: &str, line: &str) -> Result<bool, TableFault> {
    match call {
        "row_zero" | "row_unit" => makes_row(alloc, call, line),
        "row_copy" => copies_row(alloc, line),
        "vec_mul" => maps_row(alloc, line),
        "coordinates" => takes_apart(alloc, line),
        "mul" | "add" => combines(alloc, call, line),
        "zero" | "identity" => makes_matrix(alloc, call, line),
        "block" => takes_block(alloc, line),
        _ => gives_matrix(alloc, call, line),
    }
}

#[test]
fn rows_are_made_or_there_is_no_memory(rt: HostRuntime) {
    each_call(&rt, rt.alloc(), Topic::Matrices, ROWS);
}

#[test]
fn matrices_give_matrices_or_there_is_no_memory(rt: HostRuntime) {
    each_call(&rt, rt.alloc(), Topic::Matrices, OF_ONE);
}

#[test]
fn matrices_are_combined_or_there_is_no_memory(rt: HostRuntime) {
    each_call(&rt, rt.alloc(), Topic::Matrices, OF_TWO);
}

//! Calls that let a value grow: it grows as its line says, or is as it was, and what it was to take is handed back.

use crate::tables::{Topic, each_call, is_row, is_still};
use axe_echelon::span_of;
use axe_matrix::{MAX_ROWS, Refusal};
use axe_test_values::{
    TableFault, element_in, first_field, four_fields, matrix_of, row_of_shape, three_fields,
    truth_of,
};
use std::alloc::Global;
use std::process::Abort;

/// - `push_row`, `append`: a matrix, a row, and the matrix with the row below its own;
/// - `insert`: rows, another one, and whether it is outside the span of the rows;
/// - `add_product`: a matrix, a scalar, two others, and the sum of the first and of the multiple of the product of the
///   two, by tables.
const GROWN: &str = "\
push_row | 2: 0x2 | 2: 10 | 2: 10
push_row | 2: 10 | 2: 01 | 2: 10/01
push_row | 9: 12/34/56/78 | 9: 11 | 9: 12/34/56/78/11
append | 2: 0x2 | 2: 10 | 2: 10
append | 3: 12/00/11/22 | 3: 01 | 3: 12/00/11/22/01
insert | 2: 0x3 | 2: 101 | yes
insert | 2: 101 | 2: 011 | yes
insert | 2: 101/011 | 2: 110 | no
add_product | 3: 1/2/0/2/0/0/2/1/0/2/2/0/2/1/2/0 | 2 | 3: 2121112111/1221112111/1211112211/2111211112/2222221111/2222211212/1221122222/1122112222/2122112112/1122211222/1222221111/1111212211/2221122222/1221111211/2111112111/2122221122 | 3: 1/1/1/0/0/0/2/1/2/1 | 3: 0/1/2/0/0/1/0/0/1/0/0/0/2/1/2/1
";

fn pushes(rt: &impl Abort, alloc: Global, line: &str) -> Result<bool, TableFault> {
    let (text, row_text, wanted) = three_fields(line)?;
    let mut matrix = matrix_of(alloc, text)?;
    let row = row_of_shape(alloc, row_text, matrix.field(), matrix.cols())?;
    assert!(rt; matrix.rows() < MAX_ROWS);
    match matrix.push_row(row) {
        Ok(()) => is_still(alloc, &matrix, wanted),
        Err(refused) => Ok(
            is_row(alloc, Ok(refused), row_text)? && is_still(alloc, &matrix, text)?,
        ),
    }
}

fn appends(rt: &impl Abort, alloc: Global, line: &str) -> Result<bool, TableFault> {
    let (text, row, wanted) = three_fields(line)?;
    let mut matrix = matrix_of(alloc, text)?;
    let row = row_of_shape(alloc, row, matrix.field(), matrix.cols())?;
    assert!(rt; matrix.rows() < MAX_ROWS);
    match matrix.append(row) {
        Ok(()) => is_still(alloc, &matrix, wanted),
        Err(refusal) => Ok(refusal == Refusal::Memory && is_still(alloc, &matrix, text)?),
    }
}

fn inserts(alloc: Global, line: &str) -> Result<bool, TableFault> {
    let (rows, row, wanted) = three_fields(line)?;
    let wanted = truth_of(wanted)?;
    let mut form = span_of(alloc, &matrix_of(alloc, rows)?)?;
    let row = row_of_shape(alloc, row, form.field(), form.cols())?;
    let before = form.reduced(alloc)?;
    match form.insert(row) {
        Ok(new) => Ok(new == wanted),
        Err(refusal) => {
            let after = form.reduced(alloc)?;
            Ok(refusal == Refusal::Memory && after.same(&before))
        }
    }
}

fn adds_product(rt: &impl Abort, alloc: Global, line: &str) -> Result<bool, TableFault> {
    let (text, line) = first_field(line)?;
    let (scalar, left, right, wanted) = four_fields(line)?;
    let mut sum = matrix_of(alloc, text)?;
    let scalar = element_in(sum.field(), scalar)?;
    let left = matrix_of(alloc, left)?;
    let right = matrix_of(alloc, right)?;
    assert!(rt; left.field() == sum.field());
    assert!(rt; right.field() == sum.field());
    assert!(rt; left.rows() == sum.rows());
    assert!(rt; left.cols() == right.rows());
    assert!(rt; right.cols() == sum.cols());
    match sum.add_product(alloc, scalar, &left, &right) {
        Ok(()) => is_still(alloc, &sum, wanted),
        Err(refusal) => Ok(refusal == Refusal::Memory && is_still(alloc, &sum, text)?),
    }
}

/// Whether a call answers what its line says, or Memory.
pub(crate) fn answers(
    rt: &impl Abort,
    alloc: Global,
    call: &str,
    line: &str,
) -> Result<bool, TableFault> {
    match call {
        "push_row" => pushes(rt, alloc, line),
        "append" => appends(rt, alloc, line),
        "add_product" => adds_product(rt, alloc, line),
        _ => inserts(alloc, line),
    }
}

#[test]
fn values_grow_or_are_as_they_were(rt: HostRuntime) {
    each_call(&rt, rt.alloc(), Topic::Growing, GROWN);
}

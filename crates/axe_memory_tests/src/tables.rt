//! Tables of calls, the topics that they are about, and answers that may be Memory. A table without a call fails its
//! test.

use crate::{decisions, growing, matrices, modules, points, polynomials};
use axe_matrix::{Matrix, Refusal, Row};
use axe_test_values::{TableFault, first_field, is_remark, matrix_of, row_of};
use std::alloc::Global;
use std::process::Abort;

/// What the calls of a table are about: the module that makes them.
#[derive(Clone, Copy)]
pub(crate) enum Topic {
    Decisions,
    Growing,
    Matrices,
    Modules,
    Points,
    Polynomials,
}

/// Whether a call answers what its line says, or Memory.
fn answers(rt: &impl Abort, alloc: Global, topic: Topic, line: &str) -> Result<bool, TableFault> {
    let (call, line) = first_field(line)?;
    match topic {
        Topic::Decisions => decisions::answers(rt, alloc, call, line),
        Topic::Growing => growing::answers(rt, alloc, call, line),
        Topic::Matrices => matrices::answers(alloc, call, line),
        Topic::Modules => modules::answers(rt, alloc, call, line),
        Topic::Points => points::answers(rt, alloc, call, line),
        Topic::Polynomials => polynomials::answers(rt, alloc, call, line),
    }
}

/// Asserts that the call of a line answers what the line says, or Memory.
pub(crate) fn assert_right(rt: &impl Abort, line: &str, answer: Result<bool, TableFault>) {
    match answer {
        Ok(is_right) => assert!(rt; is_right, "{line}"),
        Err(TableFault::Refused(Refusal::Memory)) => {}
        Err(_) => panic!(rt; "not written so: {line}"),
    }
}

/// Asserts of each call of a table that it answers what its line says, or Memory.
pub(crate) fn each_call(rt: &impl Abort, alloc: Global, topic: Topic, table: &str) {
    let mut is_empty = true;
    for line in table.lines() {
        if !is_remark(line) {
            assert_right(rt, line, answers(rt, alloc, topic, line));
            is_empty = false;
        }
    }
    assert!(rt; !is_empty, "a table without a call");
}

/// Whether a matrix is the one that is written so.
pub(crate) fn is_still(alloc: Global, matrix: &Matrix, text: &str) -> Result<bool, TableFault> {
    Ok(matrix.same(&matrix_of(alloc, text)?))
}

/// Whether an answer is the matrix that is written so, or Memory.
pub(crate) fn is_matrix(
    alloc: Global,
    answer: Result<Matrix, Refusal>,
    text: &str,
) -> Result<bool, TableFault> {
    match answer {
        Ok(matrix) => is_still(alloc, &matrix, text),
        Err(refusal) => Ok(refusal == Refusal::Memory),
    }
}

/// Whether an answer is the row that is written so, or Memory.
pub(crate) fn is_row(
    alloc: Global,
    answer: Result<Row, Refusal>,
    text: &str,
) -> Result<bool, TableFault> {
    match answer {
        Ok(row) => Ok(row.same(&row_of(alloc, text)?)),
        Err(refusal) => Ok(refusal == Refusal::Memory),
    }
}

//! Whether an answer is the one that is written.
use crate::fault::TableFault;
use crate::matrices::{matrix_of, row_of};
use axe_matrix::{Matrix, Refusal, Row};
use std::alloc::Global;
use std::fmt::Display;

/// Whether a refusal or a fault prints this text.
pub fn is_fault(alloc: Global, fault: &impl Display, text: &str) -> Result<bool, TableFault> {
    Ok(fault.to_string(alloc)?.as_str() == text)
}

/// Whether a row is the one that is written so.
pub fn is_row(alloc: Global, row: &Row, text: &str) -> Result<bool, TableFault> {
    Ok(row.same(&row_of(alloc, text)?))
}

/// Whether an answer is the row that is written so.
pub fn is_row_answer(
    alloc: Global,
    answer: Result<Row, Refusal>,
    text: &str,
) -> Result<bool, TableFault> {
    is_row(alloc, &answer?, text)
}

/// Whether a matrix is the one that is written so.
pub fn is_same_matrix(alloc: Global, matrix: &Matrix, text: &str) -> Result<bool, TableFault> {
    Ok(matrix.same(&matrix_of(alloc, text)?))
}

/// Whether an answer is the matrix or the refusal that is written so.
pub fn is_matrix(
    alloc: Global,
    answer: Result<Matrix, Refusal>,
    text: &str,
) -> Result<bool, TableFault> {
    match answer {
        Ok(matrix) => is_same_matrix(alloc, &matrix, text),
        Err(refusal) => is_fault(alloc, &refusal, text),
    }
}

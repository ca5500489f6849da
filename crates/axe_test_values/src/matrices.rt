//! Rows and matrices, as they are written.

ghost use Rattle.std.specs.Prelude.{◌≡◌, length, IfOk};

use crate::fault::TableFault;
use crate::numbers::{field_of, number_of};
use axe_field::Field;
use axe_matrix::{MAX_COLUMNS, MAX_ROWS, Matrix, Row};
use std::alloc::{AllocError, Global};

/// The order of the field of what is written so, and its entries.
fn order_and_entries(text: &str) -> Result<(&str, &str), TableFault> {
    text.split_once(": ").ok_or(TableFault::NotWritten)
}

/// What the digits of a row stand for; what is no digit stands for no element of a field.
fn entries_of(alloc: Global, digits: &str) -> Result<Vec<u8>, AllocError> {
    digits
        .bytes()
        .map(|digit| digit.wrapping_sub(b'0'))
        .collect(alloc)
}

/// The row over a field with these digits as its entries.
fn row_of_digits(alloc: Global, field: Field, digits: &str) -> Result<Row, TableFault> {
    let entries = entries_of(alloc, digits)?;
    let are_elements = entries.iter().all(|&entry| field.is_element(entry));
    if entries.is_empty() || !are_elements {
        return Err(TableFault::NotWritten);
    }
    Ok(Row::from_elements(alloc, field, &entries)?)
}

/// The row that is written so.
pub fn row_of(alloc: Global, text: &str) -> Result<Row, TableFault> {
    let (order, digits) = order_and_entries(text)?;
    row_of_digits(alloc, field_of(order)?, digits)
}

/// The row, if it is over this field and has this length.
fn of_shape(row: Row, field: &Field, len: usize) -> Result<Row, TableFault>
    ensures field { IfOk result (λ row. row.order ≡ field.now) }
    ensures length { IfOk result (λ row. length row.entries ≡ len) }
{
    if row.field() != field || row.len() != len {
        return Err(TableFault::NotWritten);
    }
    Ok(row)
}

/// The row that is written so, which is to be over this field and to have this length.
pub fn row_of_shape(alloc: Global, text: &str, field: &Field, len: usize) -> Result<Row, TableFault>
    ensures field { IfOk result (λ row. row.order ≡ field.now) }
    ensures length { IfOk result (λ row. length row.entries ≡ len) }
{
    of_shape(row_of(alloc, text)?, field, len)
}

/// Puts the row of these digits below the rows of a matrix.
fn append_digits(alloc: Global, matrix: &mut Matrix, digits: &str) -> Result<(), TableFault> {
    let row = row_of_digits(alloc, *matrix.field(), digits)?;
    let row = of_shape(row, matrix.field(), matrix.cols())?;
    if matrix.rows() >= MAX_ROWS {
        return Err(TableFault::NotWritten);
    }
    Ok(matrix.append(row)?)
}

/// The matrix over a field whose rows have these digits.
fn matrix_of_digits(alloc: Global, field: Field, rows: &str) -> Result<Matrix, TableFault> {
    let columns = rows.find('/').unwrap_or(rows.len());
    if columns == 0 || columns > MAX_COLUMNS {
        return Err(TableFault::NotWritten);
    }
    let mut matrix = Matrix::empty(alloc, field, columns);
    for digits in rows.split('/') {
        append_digits(alloc, &mut matrix, digits)?;
    }
    Ok(matrix)
}

/// The matrix of zeros over a field with so many rows and columns.
pub fn zeros(alloc: Global, field: Field, rows: &str, columns: &str) -> Result<Matrix, TableFault> {
    let rows = number_of(rows)?;
    let columns = number_of(columns)?;
    if rows > MAX_ROWS || columns == 0 || columns > MAX_COLUMNS {
        return Err(TableFault::NotWritten);
    }
    Ok(Matrix::zero(alloc, field, rows, columns)?)
}

/// The matrix that is written so.
pub fn matrix_of(alloc: Global, text: &str) -> Result<Matrix, TableFault> {
    let (order, entries) = order_and_entries(text)?;
    let field = field_of(order)?;
    match entries.split_once('x') {
        Some((rows, columns)) => zeros(alloc, field, rows, columns),
        None => matrix_of_digits(alloc, field, entries),
    }
}

//! The text form, read.

ghost use Rattle.std.specs.Prelude.{◌≡◌, ℕ, ◌+◌, ◌-◌, ◌*◌, ◌<◌, ◌≤◌, None, Some, length, drop, map, filter, ◌++◌};
ghost use Rattle.std.specs.List.{prefix_len};
ghost use Rattle.std.specs.Prelude.{[], min, All, IsTrue, IfOk, OnOk, IfErr, MatchResult, ◌⊎◌};
ghost use Rattle.axe_field.specs.Order.{order_number};
ghost use Rattle.axe_matrix.specs.Limits.{most_rows, most_columns};
ghost use Rattle.axe_matrix.specs.Matrices.{MatrixValue, IsMatrix};
ghost use Rattle.axe_file.specs.Answers.{AnswersFile};
ghost use Rattle.axe_file.specs.TextGrammar.{is_dark, digit_value, is_element_digit, IsTextOf, IsTextFault};
ghost use Rattle.axe_file.specs.TextReading.{digits_fault, in_rows, text_fault, text_matrix};
ghost use Rattle.axe_file.specs.declared.fault.FileFault.TheVariants.{Memory};

use crate::fault::FileFault;
use crate::text_header::{field_of, header_of, is_white, skip_space};
use axe_field::Field;
use axe_lane::{add_to_each, end_of_run};
use axe_matrix::{Matrix, Row};
use std::alloc::Global;

/// The matrix of which the bytes are a text. The answer is the first fault of the bytes, whatever the memory, and where
/// they have none the matrix or `Memory`.
pub fn read_text(alloc: Global, bytes: &[u8]) -> Result<Matrix, FileFault>
    ensures fault { AnswersFile (text_fault bytes.now) (λ m. m ≡ text_matrix bytes.now) result }
    ensures text { IfOk result (λ m. IsTextOf bytes.now m) }
    ensures first_fault { IfErr result (λ fault. IsTextFault bytes.now fault
        ⊎ ((fault ≡ Memory) × (m : MatrixValue) × IsTextOf bytes.now m)) }
    ensures only { (a : MatrixValue) → IsTextOf bytes.now a → AnswersFile None (λ m. m ≡ a) result }
    ensures matrix { IfOk result (λ m. IsMatrix m) }
{
    let header = header_of(bytes)?;
    let field = field_of(header)?;
    let (rows, columns) = (header.rows as usize, header.columns as usize);
    check_digits(bytes, header.end, field.order(), rows * columns)?;
    matrix_of_digits(alloc, field, rows, columns, bytes, header.end)
}

/// The offset at which the digits of elements end that stand one after another from an offset on, or that of the one
/// after so many, if there are more.
fn end_of_digits(bytes: &[u8], start: usize, order: u8, most: usize) -> usize
    requires within { start ≤ length bytes.now }
    requires order { order ≤ 9 }
    ensures { result ≡ start + min most (prefix_len (is_element_digit order) (drop start bytes.now)) }
{
    let end = start + most.min(bytes.len() - start);
    end_of_run(&bytes[..end], start, b'0', order)
}

/// Checks the bytes from an offset on: digits of elements, so many, with white space between.
fn check_digits(bytes: &[u8], start: usize, order: u8, wanted: usize) -> Result<(), FileFault>
    requires within { start ≤ length bytes.now }
    requires order { order ≤ 9 }
    ensures { MatchResult result (λ _. digits_fault order wanted (drop start bytes.now) start ≡ None)
        (λ fault. digits_fault order wanted (drop start bytes.now) start ≡ Some fault) }
{
    let mut left = wanted;
    let mut at = start;
    while at < bytes.len() {
        let end = end_of_digits(bytes, at, order, left);
        left -= end - at;
        at = end;
        if at < bytes.len() {
            if !is_white(bytes[at]) {
                if left == 0 {
                    return Err(FileFault::TrailingText(at));
                }
                return Err(FileFault::BadDigit(at));
            }
            at += 1;
        }
    }
    if left == 0 {
        Ok(())
    } else {
        Err(FileFault::TooFewDigits)
    }
}

/// The row of the next digits from an offset on, and where the last of them ends.
fn next_row(
    alloc: Global,
    field: Field,
    columns: usize,
    bytes: &[u8],
    start: usize,
) -> Result<(Row, usize), FileFault>
    requires within { start ≤ length bytes.now }
    requires elements { All (λ byte. IsTrue (is_element_digit (order_number field) byte))
        (filter is_dark (drop start bytes.now)) }
    requires enough { columns ≤ length (filter is_dark (drop start bytes.now)) }
    ensures within { IfOk result (λ found. found.1 ≤ length bytes.now) }
    ensures field { IfOk result (λ found. found.0.order ≡ field) }
    ensures columns { IfOk result (λ found. length found.0.entries ≡ columns) }
    ensures digits { IfOk result (λ found.
        found.0.entries ++ map digit_value (filter is_dark (drop found.1 bytes.now))
        ≡ map digit_value (filter is_dark (drop start bytes.now))) }
    ensures elements_left { IfOk result (λ found. All (λ byte. IsTrue (is_element_digit (order_number field) byte))
        (filter is_dark (drop found.1 bytes.now))) }
    ensures memory { IfErr result (λ fault. fault ≡ Memory) }
{
    let mut entries = vec![in alloc; 0; columns]?;
    let end = read_entries(field.order(), bytes, start, &mut entries);
    let Ok(row) = Row::from_elements(alloc, field, &entries) else {
        return Err(FileFault::Memory);
    };
    Ok((row, end))
}

/// Writes what the next digits from an offset on stand for into a list, as many as it has room for, and says where the
/// last of these digits ends.
fn read_entries(order: u8, bytes: &[u8], start: usize, entries: &mut [u8]) -> usize
    requires order { order ≤ 9 }
    requires within { start ≤ length bytes.now }
    requires elements { All (λ byte. IsTrue (is_element_digit order byte)) (filter is_dark (drop start bytes.now)) }
    requires enough { length entries.old ≤ length (filter is_dark (drop start bytes.now)) }
    ensures within { result ≤ length bytes.now }
    ensures long { length entries.new ≡ length entries.old }
    ensures elements { All (λ entry. entry < order) entries.new }
    ensures digits { entries.new ++ map digit_value (filter is_dark (drop result bytes.now))
        ≡ map digit_value (filter is_dark (drop start bytes.now)) }
    ensures elements_left { All (λ byte. IsTrue (is_element_digit order byte))
        (filter is_dark (drop result bytes.now)) }
{
    let mut done = 0;
    let mut end = start;
    while done < entries.len() {
        let at = skip_space(bytes, end);
        let count = end_of_digits(bytes, at, order, entries.len() - done) - at;
        // The digits were counted before: there is one more, so the white space ends before the bytes do.
        prove!(count > 0);
        entries[done..done + count].copy_from_slice(&bytes[at..at + count]);
        done += count;
        end = at + count;
    }
    // Modulo 256 this takes b'0' away.
    add_to_each(entries, u8::MAX - b'0' + 1);
    end
}

/// The matrix of the digits from an offset on.
fn matrix_of_digits(
    alloc: Global,
    field: Field,
    rows: usize,
    columns: usize,
    bytes: &[u8],
    start: usize,
) -> Result<Matrix, FileFault>
    requires rows_fit { rows ≤ most_rows }
    requires some_column { 1 ≤ columns }
    requires columns_fit { columns ≤ most_columns }
    requires within { start ≤ length bytes.now }
    requires elements { All (λ byte. IsTrue (is_element_digit (order_number field) byte))
        (filter is_dark (drop start bytes.now)) }
    requires enough { rows * columns ≤ length (filter is_dark (drop start bytes.now)) }
    ensures matrix { IfOk result (λ m. m ≡ record {
      order = field;
      cols = columns;
      rows = in_rows rows columns (map digit_value (filter is_dark (drop start bytes.now)));
    }) }
    ensures memory { IfErr result (λ fault. fault ≡ Memory) }
{
    let mut matrix = Matrix::empty(alloc, field, columns);
    match take_rows(alloc, field, rows, columns, bytes, start, &mut matrix) {
        Ok(()) => Ok(matrix),
        Err(fault) => {
            // By a call, so that the end of the matrix is proved apart from this function.
            drop(matrix);
            Err(fault)
        }
    }
}

/// Appends the rows of the digits from an offset on to a matrix without rows.
fn take_rows(
    alloc: Global,
    field: Field,
    rows: usize,
    columns: usize,
    bytes: &[u8],
    start: usize,
    matrix: &mut Matrix,
) -> Result<(), FileFault>
    requires rows_fit { rows ≤ most_rows }
    requires within { start ≤ length bytes.now }
    requires elements { All (λ byte. IsTrue (is_element_digit (order_number field) byte))
        (filter is_dark (drop start bytes.now)) }
    requires enough { rows * columns ≤ length (filter is_dark (drop start bytes.now)) }
    requires no_rows { matrix.old ≡ record { order = field; cols = columns; rows = [] } }
    ensures matrix { OnOk result (matrix.new ≡ record {
      order = field;
      cols = columns;
      rows = in_rows rows columns (map digit_value (filter is_dark (drop start bytes.now)));
    }) }
    ensures memory { IfErr result (λ fault. fault ≡ Memory) }
{
    let mut at = start;
    for _ in 0..rows {
        let (row, end) = next_row(alloc, field, columns, bytes, at)?;
        matrix.push_row(row).map_err(|_row| FileFault::Memory)?;
        at = end;
    }
    Ok(())
}

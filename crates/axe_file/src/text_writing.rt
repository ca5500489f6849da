//! The text form, written.

ghost use Rattle.std.specs.Prelude.{◌≡◌, ◌*◌, ◌<◌, ◌++◌, length, map, IfOk, IfErr, OnOk};
ghost use Rattle.axe_file.specs.Limits.{digits_per_line};
ghost use Rattle.axe_file.specs.TextGrammar.{digit_code};
ghost use Rattle.axe_file.specs.TextWriting.{text_header, text_line, in_lines, text_of};
ghost use Rattle.axe_file.specs.declared.fault.FileFault.TheVariants.{Memory};

use crate::fault::FileFault;
use axe_lane::add_to_each;
use axe_matrix::{Matrix, Row};
use std::alloc::{AllocError, Global};

/// How many digits a line of a text has.
pub(crate) const DIGITS_PER_LINE: usize = 80;

/// The one text of a matrix that is written. The only fault is `Memory`.
pub fn write_text(alloc: Global, matrix: &Matrix) -> Result<Vec<u8>, FileFault>
    ensures text { IfOk result (λ bytes. bytes.items ≡ text_of matrix.now) }
    ensures memory { IfErr result (λ fault. fault ≡ Memory) }
{
    let mut text = header_text(alloc, matrix)?;
    // Room for all lines at once: a text that grows by doubling is there twice while it is copied.
    text.reserve_exact(length_of_lines(matrix))?;
    let mut digits = vec![in alloc; 0; matrix.cols()]?;
    for index in 0..matrix.rows() {
        spell(matrix.row(index), &mut digits);
        put_lines(&mut text, &digits)?;
    }
    Ok(text)
}

/// The header of the text of a matrix.
fn header_text(alloc: Global, matrix: &Matrix) -> Result<Vec<u8>, AllocError>
    ensures { IfOk result (λ bytes. bytes.items ≡ text_header matrix.now) }
{
    let (order, rows, columns) = (matrix.field().order(), matrix.rows(), matrix.cols());
    let header = format!(in alloc; "matrix field={order} rows={rows} cols={columns}\n")?;
    Ok(header.into_bytes())
}

/// How many bytes the lines of the text of a matrix take.
fn length_of_lines(matrix: &Matrix) -> usize {
    let columns = matrix.cols();
    matrix.rows() * (columns + columns.div_ceil(DIGITS_PER_LINE))
}

/// Writes the digits of the entries of a row into a list of its length.
fn spell(row: &Row, digits: &mut [u8])
    requires { length digits.old ≡ length row.now.entries }
    ensures { digits.new ≡ map digit_code row.now.entries }
{
    // `len` is called for what it ensures beside the number: that the entries are elements, and so below 10.
    prove!(row.len() == digits.len());
    row.copy_to(digits);
    add_to_each(digits, b'0');
}

/// Appends digits in lines.
fn put_lines(text: &mut Vec<u8>, digits: &[u8]) -> Result<(), AllocError>
    ensures { OnOk result (text.new.items ≡ text.old.items ++ in_lines digits.now) }
{
    for index in 0..digits.len().div_ceil(DIGITS_PER_LINE) {
        put_line(text, digits, index)?;
    }
    Ok(())
}

/// Appends one line of digits, counted from 0.
fn put_line(text: &mut Vec<u8>, digits: &[u8], index: usize) -> Result<(), AllocError>
    requires { digits_per_line * index < length digits.now }
    ensures { OnOk result (text.new.items ≡ text.old.items ++ text_line digits.now index) }
{
    let start = DIGITS_PER_LINE * index;
    let end = start + (digits.len() - start).min(DIGITS_PER_LINE);
    text.extend_from_slice(&digits[start..end])?;
    text.push(b'\n')?;
    Ok(())
}

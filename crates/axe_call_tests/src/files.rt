//! Files of matrices, packed and text: read, refused and written.
use crate::tables::{Topic, each_call};
use axe_file::{FileFault, read_packed, read_text, write_packed, write_text};
use axe_matrix::Matrix;
use axe_test_values::{
    TableFault, bytes_of_hex, bytes_of_text, is_fault, is_same_matrix, matrix_of, two_fields,
};
use std::alloc::Global;

/// - `read_packed`: a packed file, and its matrix or its first fault;
/// - `write_packed`: a matrix, and its packed file.
const PACKED: &str = "\
# 41 58 50 31 is AXP1.
read_packed | 41 58 50 31 02 00 00 00 01 00 00 00 01 00 00 | ShortHeader
read_packed | 41 58 50 32 00 00 00 00 00 00 00 00 00 00 00 00 | BadMagic
read_packed | 41 58 50 31 06 01 00 00 00 00 00 00 00 00 00 00 | BadField
read_packed | 41 58 50 31 02 01 00 00 00 00 00 00 00 00 00 00 | BadReserved
read_packed | 41 58 50 31 02 00 00 00 01 10 00 00 00 00 00 00 | BadRows
read_packed | 41 58 50 31 02 00 00 00 00 10 00 00 01 00 00 00 | Truncated
read_packed | 41 58 50 31 02 00 00 00 01 08 00 00 00 00 00 00 | BadCols
read_packed | 41 58 50 31 02 00 00 00 00 00 00 00 01 10 00 00 | BadCols
read_packed | 41 58 50 31 02 00 00 00 00 00 00 00 00 10 00 00 | 2: 0x4096
read_packed | 41 58 50 31 02 00 00 00 01 00 00 00 00 00 00 00 | BadCols
read_packed | 41 58 50 31 05 00 00 00 01 00 00 00 01 00 00 00 7D | BadByte at 16
read_packed | 41 58 50 31 05 00 00 00 01 00 00 00 01 00 00 00 65 | BadPadding at 16
read_packed | 41 58 50 31 02 00 00 00 02 00 00 00 02 00 00 00 40 | Truncated
read_packed | 41 58 50 31 02 00 00 00 02 00 00 00 02 00 00 00 40 C0 00 | TrailingBytes
read_packed | 41 58 50 31 02 00 00 00 01 00 00 00 02 00 00 00 60 | BadPadding at 16
read_packed | 41 58 50 31 03 00 00 00 01 00 00 00 01 00 00 00 F3 | BadByte at 16
read_packed | 41 58 50 31 02 00 00 00 02 00 00 00 02 00 00 00 40 C0 | 2: 01/11
read_packed | 41 58 50 31 09 00 00 00 01 00 00 00 01 00 00 00 24 | 9: 4
read_packed | 41 58 50 31 04 00 00 00 01 00 00 00 01 00 00 00 40 | 4: 1
read_packed | 41 58 50 31 07 00 00 00 00 00 00 00 03 00 00 00 | 7: 0x3
write_packed | 2: 01/11 | 41 58 50 31 02 00 00 00 02 00 00 00 02 00 00 00 40 C0
write_packed | 9: 4 | 41 58 50 31 09 00 00 00 01 00 00 00 01 00 00 00 24
write_packed | 4: 1 | 41 58 50 31 04 00 00 00 01 00 00 00 01 00 00 00 40
write_packed | 7: 0x3 | 41 58 50 31 07 00 00 00 00 00 00 00 03 00 00 00
";

/// `read_text`: a text, and its matrix or its first fault.
const TEXTS: &str = r"read_text | 1 3 2 2\r\n12\r\n01\r\n | 3: 12/01
read_text | matrix field=3 rows=2 cols=2\n12\n01\n | 3: 12/01
read_text | 01 03 02 02 1 2 0 1 | 3: 12/01
read_text | | BadHeader at 0
read_text | 1 2 1 | BadHeader at 5
read_text | matrix field=2 rows=1 col=1 | BadHeader at 25
read_text | 2 3 2 2\n12\n01 | BadMode
read_text | 1 6 1 1\n0 | BadField
read_text | 1 2 4097 1 | BadRows
read_text | 1 2 4096 1 | TooFewDigits
read_text | 1 2 2049 1 | TooFewDigits
read_text | 1 2 1 0 | BadCols
read_text | 1 3 2 2\n12\n0 | TooFewDigits
read_text | 1 3 2 2\n12\n01\nx | TrailingText at 14
read_text | 1 2 0 5 | 2: 0x5
read_text | 1 2 0000000001 1 | BadHeader at 13
read_text | 1 2 0 2048 | 2: 0x2048
read_text | 1 2 0 4096 | 2: 0x4096
read_text | 1 2 0 4097 | BadCols
read_text | matrix field=2 rows=0 cols=12 | 2: 0x12
read_text | matrix field=2 rows=0 cols=1 | 2: 0x1
";

/// `write_text`: a text that is read, and what is written for its matrix. A line has eighty digits.
const WRITTEN: &str = "\
write_text | 1 2 0 5 | matrix field=2 rows=0 cols=5\\n
write_text | 1 3 2 81 \
012012012012012012012012012012012012012012012012012012012012012012012012012012012\
012012012012012012012012012012012012012012012012012012012012012012012012012012011 \
| matrix field=3 rows=2 cols=81\\n\
01201201201201201201201201201201201201201201201201201201201201201201201201201201\\n2\\n\
01201201201201201201201201201201201201201201201201201201201201201201201201201201\\n1\\n
write_text | matrix field=3 rows=2 cols=81\\n\
01201201201201201201201201201201201201201201201201201201201201201201201201201201\\n2\\n\
01201201201201201201201201201201201201201201201201201201201201201201201201201201\\n1\\n \
| matrix field=3 rows=2 cols=81\\n\
01201201201201201201201201201201201201201201201201201201201201201201201201201201\\n2\\n\
01201201201201201201201201201201201201201201201201201201201201201201201201201201\\n1\\n
";

/// Whether an answer is the matrix or the fault that is written so.
fn is_read(
    alloc: Global,
    answer: &Result<Matrix, FileFault>,
    text: &str,
) -> Result<bool, TableFault> {
    match answer {
        Ok(matrix) => is_same_matrix(alloc, matrix, text),
        Err(fault) => is_fault(alloc, fault, text),
    }
}

/// Whether an answer has these bytes.
fn is_written(answer: Result<Vec<u8>, FileFault>, bytes: &[u8]) -> bool {
    match answer {
        Ok(written) => written.as_slice() == bytes,
        Err(_) => false,
    }
}

fn reads_packed(alloc: Global, line: &str) -> Result<bool, TableFault> {
    let (bytes, wanted) = two_fields(line)?;
    let bytes = bytes_of_hex(alloc, bytes)?;
    is_read(alloc, &read_packed(alloc, &bytes), wanted)
}

fn writes_packed(alloc: Global, line: &str) -> Result<bool, TableFault> {
    let (matrix, wanted) = two_fields(line)?;
    let matrix = matrix_of(alloc, matrix)?;
    let wanted = bytes_of_hex(alloc, wanted)?;
    Ok(is_written(write_packed(alloc, &matrix), &wanted))
}

fn reads_text(alloc: Global, line: &str) -> Result<bool, TableFault> {
    let (text, wanted) = two_fields(line)?;
    let text = bytes_of_text(alloc, text)?;
    is_read(alloc, &read_text(alloc, &text), wanted)
}

/// What is written for the matrix of a text.
fn rewritten(alloc: Global, text: &[u8]) -> Result<Vec<u8>, FileFault> {
    let matrix = read_text(alloc, text)?;
    write_text(alloc, &matrix)
}

fn writes_text(alloc: Global, line: &str) -> Result<bool, TableFault> {
    let (text, wanted) = two_fields(line)?;
    let text = bytes_of_text(alloc, text)?;
    let wanted = bytes_of_text(alloc, wanted)?;
    Ok(is_written(rewritten(alloc, &text), &wanted))
}

/// Whether a call answers what its line says.
pub(crate) fn answers(alloc: Global, call: &str, line: &str) -> Result<bool, TableFault> {
    match call {
        "read_packed" => reads_packed(alloc, line),
        "write_packed" => writes_packed(alloc, line),
        "read_text" => reads_text(alloc, line),
        "write_text" => writes_text(alloc, line),
        _ => Err(TableFault::NotWritten),
    }
}

#[test]
fn packed_files_are_read_refused_and_written(rt: HostRuntime) -> Result<(), TableFault> {
    each_call(&rt, rt.alloc(), Topic::Files, PACKED)
}

#[test]
fn texts_are_read_or_refused(rt: HostRuntime) -> Result<(), TableFault> {
    each_call(&rt, rt.alloc(), Topic::Files, TEXTS)
}

#[test]
fn texts_are_written_in_lines_of_eighty_digits(rt: HostRuntime) -> Result<(), TableFault> {
    each_call(&rt, rt.alloc(), Topic::Files, WRITTEN)
}

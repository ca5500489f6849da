//! Reading the packed form: first all checks, which take no memory, then the matrix.

ghost use Rattle.std.specs.Prelude.{ℕ, ◌≡◌, ◌≢◌, ◌+◌, ◌*◌, ◌/◌, ◌%◌, ◌^◌, ◌<◌, ◌≤◌, [], None, Some, length};
ghost use Rattle.std.specs.Prelude.{slice_get, slice_index, slice_range, All, IfOk, OnOk, IfErr};
ghost use Rattle.std.specs.List.{flat_map, range_with_len};
ghost use Rattle.std.specs.Int.{w32, from_le_bytes};
ghost use Rattle.axe_algebra.specs.Lists.{listed};
ghost use Rattle.axe_field.specs.Order.{order_number};
ghost use Rattle.axe_matrix.specs.Matrices.{MatrixValue, IsMatrix};
ghost use Rattle.axe_matrix.specs.Limits.{most_rows};
ghost use Rattle.axe_file.specs.Marks.{bytes_per_row, marks_of_bytes, row_marks};
ghost use Rattle.axe_file.specs.Packed.{packed, packed_fault, unpacked, header_length, header_order, header_faults};
ghost use Rattle.axe_file.specs.Packed.{is_out_of_range, has_reserved, beginning_faults};
ghost use Rattle.axe_file.specs.Packed.{data_length, matrix_at, data_faults, byte_faults};
ghost use Rattle.axe_file.specs.Headers.{SaysShape};
ghost use Rattle.axe_file.specs.Answers.{AnswersFile};
ghost use Rattle.axe_file.specs.declared.fault.FileFault.TheVariants.{Memory};

use crate::fault::FileFault;
use crate::layout::{
    COLUMNS_OFFSET, HEADER_LENGTH, Layout, MATRIX_MAGIC, MATRIX_RESERVED, ORDER_OFFSET, ROWS_OFFSET,
};
use axe_field::Field;
use axe_lane::end_of_run;
use axe_matrix::{MAX_COLUMNS, MAX_ROWS, Matrix};
use axe_row::Row;
use std::alloc::{AllocError, Global};

/// How many rows there are, and how each of them lies in its bytes.
#[derive(Clone, Copy)]
pub(crate) struct Shape {
    /// How many rows there are.
    pub(crate) rows: usize,
    /// How each of them lies.
    pub(crate) layout: Layout,
    ghost rows_fit: { rows < 2 ^ 32 },
}

/// The matrix that the bytes spell in the packed form. The answer is the first fault of the bytes, whatever the memory;
/// where they have none it is the matrix, or [`FileFault::Memory`].
pub fn read_packed(alloc: Global, bytes: &[u8]) -> Result<Matrix, FileFault>
    ensures fault { AnswersFile (packed_fault bytes.now) (λ m. m ≡ unpacked bytes.now) result }
    ensures value { IfOk result (λ m. m ≡ unpacked bytes.now) }
    ensures spelling { IfOk result (λ m. bytes.now ≡ packed m) }
    ensures only { (a : MatrixValue) → IsMatrix a → bytes.now ≡ packed a → AnswersFile None (λ m. m ≡ a) result }
    ensures matrix { IfOk result (λ m. IsMatrix m) }
{
    let shape = header_of(bytes)?;
    check_data(&shape, bytes, HEADER_LENGTH)?;
    matrix_of(alloc, &shape, bytes, HEADER_LENGTH)
}

/// What the header says, or the first fault of the header.
fn header_of(bytes: &[u8]) -> Result<Shape, FileFault>
    ensures faultless { OnOk result (header_faults bytes.now ≡ []) }
    ensures fault { IfErr result (λ fault. slice_get (header_faults bytes.now) 0 ≡ Some fault) }
    ensures says { IfOk result (λ shape. SaysShape bytes.now shape.layout.field shape.rows shape.layout.columns) }
{
    let field = field_in_header(bytes, &MATRIX_MAGIC)?;
    if has_reserved(bytes, &MATRIX_RESERVED) {
        return Err(FileFault::BadReserved);
    }
    let rows = number_at(bytes, ROWS_OFFSET);
    if rows > MAX_ROWS {
        return Err(FileFault::BadRows);
    }
    let columns = number_at(bytes, COLUMNS_OFFSET);
    if is_out_of_range(columns, MAX_COLUMNS) {
        return Err(FileFault::BadCols);
    }
    Ok(Shape {
        rows,
        layout: Layout::new(field, columns),
    })
}

/// The field that a header names after these magic bytes, or the first fault up to there.
pub(crate) fn field_in_header(bytes: &[u8], magic: &[u8; 4]) -> Result<Field, FileFault>
    ensures faultless { OnOk result (beginning_faults magic.now bytes.now ≡ []) }
    ensures fault { IfErr result (λ fault. slice_get (beginning_faults magic.now bytes.now) 0 ≡ Some fault) }
    ensures names { IfOk result (λ field. header_order bytes.now ≡ field) }
    ensures long { OnOk result (header_length ≤ length bytes.now) }
{
    if bytes.len() < HEADER_LENGTH {
        return Err(FileFault::ShortHeader);
    }
    if !bytes.starts_with(magic) {
        return Err(FileFault::BadMagic);
    }
    let Ok(field) = Field::new(bytes[ORDER_OFFSET]) else {
        return Err(FileFault::BadField);
    };
    Ok(field)
}

/// Whether a number is 0, or more than a limit.
pub(crate) fn is_out_of_range(number: usize, most: usize) -> bool
    ensures { result ≡ is_out_of_range most number }
{
    number == 0 || number > most
}

/// Whether one of the bytes at these offsets is not 0.
pub(crate) fn has_reserved(bytes: &[u8], offsets: &[usize]) -> bool
    requires { All (λ offset. offset < length bytes.now) offsets.now }
    ensures { result ≡ has_reserved offsets.now bytes.now }
{
    for &offset in offsets {
        if bytes[offset] != 0 {
            return true;
        }
    }
    false
}

/// The number in the 4 bytes from an offset on, low byte first.
pub(crate) fn number_at(bytes: &[u8], offset: usize) -> usize
    requires { offset + 4 ≤ length bytes.now }
    ensures { result ≡ from_le_bytes w32 (slice_range bytes.now offset (offset + 4)) }
{
    u32::from_le_bytes([
        bytes[offset],
        bytes[offset + 1],
        bytes[offset + 2],
        bytes[offset + 3],
    ]) as usize
}

/// Looks for the first fault of the rows that begin at an offset, up to the end of the bytes.
pub(crate) fn check_data(shape: &Shape, bytes: &[u8], offset: usize) -> Result<(), FileFault>
    requires some_column { 1 ≤ shape.now.layout.columns }
    requires begun { offset ≤ length bytes.now }
    ensures faultless { OnOk result
        (data_faults shape.now.layout.field shape.now.rows shape.now.layout.columns bytes.now offset ≡ []) }
    ensures fault { IfErr result (λ fault.
        slice_get (data_faults shape.now.layout.field shape.now.rows shape.now.layout.columns bytes.now offset) 0
        ≡ Some fault) }
{
    let count = shape.rows * shape.layout.width;
    let room = bytes.len() - offset;
    if room < count {
        return Err(FileFault::Truncated);
    }
    check_bytes(&shape.layout, bytes, offset, count)?;
    if room > count {
        return Err(FileFault::TrailingBytes);
    }
    Ok(())
}

/// Looks for the first fault in the bytes of rows, so many from an offset on.
fn check_bytes(layout: &Layout, bytes: &[u8], offset: usize, count: usize) -> Result<(), FileFault>
    requires some_column { 1 ≤ layout.now.columns }
    requires long { offset + count ≤ length bytes.now }
    ensures faultless { OnOk result
        (flat_map (byte_faults layout.now.field layout.now.columns bytes.now offset) (range_with_len 0 count) ≡ []) }
    ensures fault { IfErr result (λ fault.
        slice_get
        (flat_map (byte_faults layout.now.field layout.now.columns bytes.now offset) (range_with_len 0 count)) 0
        ≡ Some fault) }
{
    let fitting = fitting_bytes(layout, bytes, offset, count);
    check_last_bytes(layout, bytes, offset, fitting)?;
    if fitting < count {
        return Err(FileFault::BadByte(offset + fitting));
    }
    Ok(())
}

/// How many bytes of rows, of so many from an offset on, come before the first that is more than its marks can make.
fn fitting_bytes(layout: &Layout, bytes: &[u8], offset: usize, count: usize) -> usize
    requires { offset + count ≤ length bytes.now }
    ensures within { result ≤ count }
    ensures below { (place : ℕ) → place < result → slice_index bytes.now (offset + place) < layout.now.limit }
    ensures next { result < count → layout.now.limit ≤ slice_index bytes.now (offset + result) }
{
    if layout.limit == 256 {
        return count;
    }
    let end = end_of_run(bytes, offset, 0, layout.limit as u8);
    count.min(end - offset)
}

/// Looks for the first fault in the bytes of rows, so many from an offset on, none of which is more than its marks can
/// make: so only the last byte of a row can have one.
fn check_last_bytes(
    layout: &Layout,
    bytes: &[u8],
    offset: usize,
    count: usize,
) -> Result<(), FileFault>
    requires some_column { 1 ≤ layout.now.columns }
    requires long { offset + count ≤ length bytes.now }
    requires below { (place : ℕ) → place < count → slice_index bytes.now (offset + place) < layout.now.limit }
    ensures faultless { OnOk result
        (flat_map (byte_faults layout.now.field layout.now.columns bytes.now offset) (range_with_len 0 count) ≡ []) }
    ensures fault { IfErr result (λ fault.
        slice_get
        (flat_map (byte_faults layout.now.field layout.now.columns bytes.now offset) (range_with_len 0 count)) 0
        ≡ Some fault) }
{
    for index in 0..count / layout.width {
        let in_row = layout.width - 1;
        let place = index * layout.width + in_row;
        let at = offset + place;
        if layout.has_unused_mark(bytes[at], in_row) {
            return Err(FileFault::BadPadding(at));
        }
    }
    Ok(())
}

/// The matrix of faultless rows that begin at an offset.
pub(crate) fn matrix_of(
    alloc: Global,
    shape: &Shape,
    bytes: &[u8],
    offset: usize,
) -> Result<Matrix, FileFault>
    requires some_column { 1 ≤ shape.now.layout.columns }
    requires rows_fit { shape.now.rows ≤ most_rows }
    requires inside { offset + data_length shape.now.layout.field shape.now.rows shape.now.layout.columns
        ≤ length bytes.now }
    ensures value { IfOk result (λ m.
        m ≡ matrix_at shape.now.layout.field shape.now.rows shape.now.layout.columns bytes.now offset) }
    ensures memory { IfErr result (λ fault. fault ≡ Memory) }
{
    let layout = &shape.layout;
    let table = if layout.field.order() == 2 {
        Vec::new(alloc)
    } else {
        marks_of_bytes(alloc, layout)?
    };
    let mut matrix = Matrix::with_capacity(alloc, layout.field, layout.columns, shape.rows).map_err(
        |_refusal| FileFault::Memory,
    )?;
    match take_rows(alloc, shape, &table, bytes, offset, &mut matrix) {
        Ok(()) => Ok(matrix),
        Err(fault) => {
            // By a call, so that the end of the matrix is proved apart from this function.
            drop(matrix);
            Err(fault)
        }
    }
}

/// Appends the rows that begin at an offset to a matrix without rows. Over two elements the table is not looked at.
fn take_rows(
    alloc: Global,
    shape: &Shape,
    table: &[u8],
    bytes: &[u8],
    offset: usize,
    matrix: &mut Matrix,
) -> Result<(), FileFault>
    requires rows_fit { shape.now.rows ≤ most_rows }
    requires inside { offset + data_length shape.now.layout.field shape.now.rows shape.now.layout.columns
        ≤ length bytes.now }
    requires table { order_number shape.now.layout.field ≢ 2 → table.now ≡ marks_of_bytes shape.now.layout.field }
    requires no_rows { matrix.old ≡ record {
      order = shape.now.layout.field;
      cols = shape.now.layout.columns;
      rows = [];
    } }
    ensures value { OnOk result (matrix.new
        ≡ matrix_at shape.now.layout.field shape.now.rows shape.now.layout.columns bytes.now offset) }
    ensures memory { IfErr result (λ fault. fault ≡ Memory) }
{
    let layout = &shape.layout;
    for index in 0..shape.rows {
        let start = offset + index * layout.width;
        let row = row_of(alloc, layout, table, &bytes[start..start + layout.width])?;
        matrix.push_row(row).map_err(|_row| FileFault::Memory)?;
    }
    Ok(())
}

/// The marks of each byte, one byte's after the other's.
fn marks_of_bytes(alloc: Global, layout: &Layout) -> Result<Vec<u8>, AllocError>
    ensures { IfOk result (λ table. table.items ≡ marks_of_bytes layout.now.field) }
{
    let count = 256 * layout.marks;
    let mut table = Vec::with_capacity(alloc, count)?;
    for index in 0..count {
        let byte = (index / layout.marks) as u8;
        table.push(layout.mark_of(byte, index % layout.marks))?;
    }
    Ok(table)
}

/// The row that some bytes hold. Over two elements its bits are taken as they stand, and the table is not looked at.
fn row_of(alloc: Global, layout: &Layout, table: &[u8], bytes: &[u8]) -> Result<Row, FileFault>
    requires table { order_number layout.now.field ≢ 2 → table.now ≡ marks_of_bytes layout.now.field }
    requires bytes { length bytes.now ≡ bytes_per_row layout.now.field layout.now.columns }
    ensures value { IfOk result (λ row. row ≡ record {
      order = layout.now.field;
      entries = row_marks layout.now.field layout.now.columns bytes.now;
    }) }
    ensures memory { IfErr result (λ fault. fault ≡ Memory) }
{
    if layout.field.order() == 2 {
        let row = Row::of_packed_bits(alloc, layout.field, bytes, layout.columns);
        return row.map_err(|_refusal| FileFault::Memory);
    }
    let marks = marks_of(alloc, layout, table, bytes)?;
    Row::from_elements(alloc, layout.field, &marks).map_err(|_refusal| FileFault::Memory)
}

/// The marks of the row that some bytes hold, over more than two elements.
fn marks_of(
    alloc: Global,
    layout: &Layout,
    table: &[u8],
    bytes: &[u8],
) -> Result<Vec<u8>, FileFault>
    requires more { order_number layout.now.field ≢ 2 }
    requires table { table.now ≡ marks_of_bytes layout.now.field }
    requires bytes { length bytes.now ≡ bytes_per_row layout.now.field layout.now.columns }
    ensures value { IfOk result (λ marks. marks.items ≡ row_marks layout.now.field layout.now.columns bytes.now) }
    ensures memory { IfErr result (λ fault. fault ≡ Memory) }
{
    let mut marks = vec![in alloc; 0; layout.columns]?;
    take_marks(layout.marks, table, bytes, &mut marks);
    Ok(marks)
}

/// Takes the marks of a row from a table of the marks of all bytes, by the row's bytes, each of which holds so many. Of
/// the last byte only as many are taken as there is room for.
fn take_marks(count: usize, table: &[u8], bytes: &[u8], marks: &mut [u8])
    requires some { 2 ≤ count }
    requires few { count ≤ 5 }
    requires table { 256 * count ≤ length table.now }
    requires bytes { length marks.old ≤ length bytes.now * count }
    ensures { marks.new ≡ listed (length marks.old)
        (λ j. slice_index table.now (slice_index bytes.now (j / count) * count + j % count)) }
{
    match count {
        2 => take_many::<2>(table, bytes, marks),
        3 => take_many::<3>(table, bytes, marks),
        4 => take_many::<4>(table, bytes, marks),
        _ => take_many::<5>(table, bytes, marks),
    }
}

/// The same where a byte's number of marks is a constant, so that each piece of the table is moved at once.
fn take_many<const COUNT: usize>(table: &[u8], bytes: &[u8], marks: &mut [u8])
    requires some { 1 ≤ COUNT }
    requires table { 256 * COUNT ≤ length table.now }
    requires bytes { length marks.old ≤ length bytes.now * COUNT }
    ensures { marks.new ≡ listed (length marks.old)
        (λ j. slice_index table.now (slice_index bytes.now (j / COUNT) * COUNT + j % COUNT)) }
{
    let whole = marks.len() / COUNT;
    for place in 0..whole {
        let (start, from) = (place * COUNT, usize::from(bytes[place]) * COUNT);
        marks[start..start + COUNT].copy_from_slice(&table[from..from + COUNT]);
    }
    let start = whole * COUNT;
    if start < marks.len() {
        let from = usize::from(bytes[whole]) * COUNT;
        let left = marks.len() - start;
        marks[start..].copy_from_slice(&table[from..from + left]);
    }
}

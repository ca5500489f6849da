//! Writing the packed form.

ghost use Rattle.std.specs.Prelude.{◌≡◌, ◌≤◌, ◌+◌, ◌++◌, length, All, IfOk, OnOk, IfErr};
ghost use Rattle.axe_field.specs.Order.{IsElement};
ghost use Rattle.axe_row.specs.Rows.{IsRow};
ghost use Rattle.axe_matrix.specs.Limits.{most_rows, most_columns};
ghost use Rattle.axe_file.specs.Packed.{packed, packed_header, packed_row, packed_rows};
ghost use Rattle.axe_file.specs.declared.fault.FileFault.TheVariants.{Memory};

use crate::fault::FileFault;
use crate::layout::{HEADER_LENGTH, Layout, MATRIX_MAGIC};
use axe_matrix::Matrix;
use axe_row::Row;
use std::alloc::{AllocError, Global};

/// The one spelling of a matrix in the packed form. The only fault is [`FileFault::Memory`].
pub fn write_packed(alloc: Global, matrix: &Matrix) -> Result<Vec<u8>, FileFault>
    ensures spelling { IfOk result (λ bytes. bytes.items ≡ packed matrix.now) }
    ensures memory { IfErr result (λ fault. fault ≡ Memory) }
{
    let layout = Layout::new(*matrix.field(), matrix.cols());
    let mut bytes = Vec::with_capacity(alloc, HEADER_LENGTH + matrix.rows() * layout.width)?;
    put_header(&mut bytes, &layout, matrix.rows())?;
    let mut room = vec![in alloc; 0; layout.columns + layout.width]?;
    put_rows(&mut bytes, &layout, matrix, &mut room)?;
    Ok(bytes)
}

/// Appends the header of a matrix.
fn put_header(bytes: &mut Vec<u8>, layout: &Layout, rows: usize) -> Result<(), AllocError>
    requires { rows ≤ most_rows }
    ensures { OnOk result (bytes.new.items ≡ bytes.old.items
        ++ packed_header layout.now.field rows layout.now.columns) }
{
    bytes.extend_from_slice(&MATRIX_MAGIC)?;
    bytes.extend_from_slice(&[layout.field.order(), 0, 0, 0])?;
    bytes.extend_from_slice(&(rows as u32).to_le_bytes())?;
    bytes.extend_from_slice(&(layout.columns as u32).to_le_bytes())?;
    Ok(())
}

/// Appends the rows of a matrix. A list has room for the entries of one and, after them, for its bytes.
pub(crate) fn put_rows(
    bytes: &mut Vec<u8>,
    layout: &Layout,
    matrix: &Matrix,
    room: &mut [u8],
) -> Result<(), AllocError>
    requires field { matrix.now.order ≡ layout.now.field }
    requires columns { matrix.now.cols ≡ layout.now.columns }
    requires room { length room.old ≡ layout.now.columns + layout.now.width }
    ensures bytes { OnOk result (bytes.new.items ≡ bytes.old.items ++ packed_rows matrix.now) }
    ensures room { length room.new ≡ length room.old }
{
    for index in 0..matrix.rows() {
        put_row(bytes, layout, matrix.row(index), room)?;
    }
    Ok(())
}

/// Appends the bytes of a row. A list has room for its entries and, after them, for its bytes.
fn put_row(
    bytes: &mut Vec<u8>,
    layout: &Layout,
    row: &Row,
    room: &mut [u8],
) -> Result<(), AllocError>
    requires field { row.now.order ≡ layout.now.field }
    requires well_formed { IsRow row.now }
    requires columns { length row.now.entries ≡ layout.now.columns }
    requires room { length room.old ≡ layout.now.columns + layout.now.width }
    ensures bytes { OnOk result (bytes.new.items ≡ bytes.old.items
        ++ packed_row layout.now.field layout.now.columns row.now.entries) }
    ensures room { length room.new ≡ length room.old }
{
    let (entries, packed) = room.split_at_mut(layout.columns);
    pack_row(layout, row, entries, packed);
    bytes.extend_from_slice(packed)
}

/// Writes the bytes of a row into a list of as many bytes as they take. Another list has room for its entries, which
/// are taken by that way unless there are two elements: then their bits are taken as they stand.
fn pack_row(layout: &Layout, row: &Row, entries: &mut [u8], packed: &mut [u8])
    requires field { row.now.order ≡ layout.now.field }
    requires well_formed { IsRow row.now }
    requires columns { length row.now.entries ≡ layout.now.columns }
    requires room { length entries.old ≡ layout.now.columns }
    requires bytes { length packed.old ≡ layout.now.width }
    ensures packed { packed.new ≡ packed_row layout.now.field layout.now.columns row.now.entries }
    ensures room { length entries.new ≡ length entries.old }
{
    if layout.field.order() == 2 {
        row.copy_packed_bits(packed);
    } else {
        row.copy_to(entries);
        pack(layout, entries, packed);
    }
}

/// Writes the bytes of a row with these entries into a list of as many bytes as they take.
fn pack(layout: &Layout, row: &[u8], bytes: &mut [u8])
    requires elements { All (IsElement layout.now.field) row.now }
    requires columns { length row.now ≡ layout.now.columns }
    requires room { length bytes.old ≡ layout.now.width }
    ensures { bytes.new ≡ packed_row layout.now.field layout.now.columns row.now }
{
    match layout.marks {
        8 => pack_many::<8>(layout, row, bytes),
        5 => pack_many::<5>(layout, row, bytes),
        4 => pack_many::<4>(layout, row, bytes),
        3 => pack_many::<3>(layout, row, bytes),
        _ => pack_many::<2>(layout, row, bytes),
    }
}

/// The same where a byte's number of marks is a constant, so that each whole byte is made at once.
fn pack_many<const COUNT: usize>(layout: &Layout, row: &[u8], bytes: &mut [u8])
    requires marks { layout.now.marks ≡ COUNT }
    requires elements { All (IsElement layout.now.field) row.now }
    requires columns { length row.now ≡ layout.now.columns }
    requires room { length bytes.old ≡ layout.now.width }
    ensures { bytes.new ≡ packed_row layout.now.field layout.now.columns row.now }
{
    let whole = row.len() / COUNT;
    for place in 0..whole {
        bytes[place] = layout.whole_byte::<COUNT>(row, place);
    }
    if whole < bytes.len() {
        bytes[whole] = layout.byte_of(row, whole);
    }
}

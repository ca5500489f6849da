//! How elements lie in bytes.

ghost use Rattle.std.specs.Prelude.{◌≡◌, ◌+◌, ◌*◌, ◌<◌, ◌≤◌, length, slice_index, All};
ghost use Rattle.axe_field.specs.Order.{order_number, IsElement};
ghost use Rattle.axe_row.specs.ByteDigits.{digits_per_byte};
ghost use Rattle.axe_matrix.specs.Limits.{most_columns};
ghost use Rattle.axe_file.specs.Marks.{byte_limit, byte_with_marks, mark_of, has_unused_mark, bytes_per_row};

use axe_field::Field;
use axe_row::digits_per_byte;

/// The bytes that the packed file of a matrix begins with.
pub(crate) const MATRIX_MAGIC: [u8; 4] = *b"AXP1";

/// The bytes that the packed file of a module begins with.
pub(crate) const MODULE_MAGIC: [u8; 4] = *b"AXP2";

/// How many bytes stand before the first row.
pub(crate) const HEADER_LENGTH: usize = 16;

/// The offset of the order.
pub(crate) const ORDER_OFFSET: usize = 4;

/// The offset of a matrix's number of rows.
pub(crate) const ROWS_OFFSET: usize = 8;

/// The offset of a matrix's number of columns.
pub(crate) const COLUMNS_OFFSET: usize = 12;

/// The offsets of the reserved bytes of a matrix.
pub(crate) const MATRIX_RESERVED: [usize; 3] = [5, 6, 7];

/// The offset of a module's number of generators.
pub(crate) const GENERATORS_OFFSET: usize = 5;

/// The offset of a module's dimension.
pub(crate) const DIMENSION_OFFSET: usize = 8;

/// The offsets of the reserved bytes of a module.
pub(crate) const MODULE_RESERVED: [usize; 6] = [6, 7, 12, 13, 14, 15];

/// How the elements of a matrix's rows, here called marks, lie in the bytes of its packed form.
#[derive(Clone, Copy)]
pub(crate) struct Layout {
    /// The field of the elements.
    pub(crate) field: Field,
    /// How many elements a row has.
    pub(crate) columns: usize,
    /// How many marks a byte holds.
    pub(crate) marks: usize,
    /// What a byte of marks is below.
    pub(crate) limit: u16,
    /// How many bytes a row takes.
    pub(crate) width: usize,
    ghost columns_fit: { columns ≤ most_columns },
    ghost marks_is: { marks ≡ digits_per_byte field },
    ghost limit_is: { limit ≡ byte_limit field },
    ghost width_is: { width ≡ bytes_per_row field columns },
}

impl Layout {
    /// The layout of rows of so many columns.
    pub(crate) fn new(field: Field, columns: usize) -> Layout
        requires { columns ≤ most_columns }
        ensures field { result.field ≡ field }
        ensures columns { result.columns ≡ columns }
    {
        let marks = digits_per_byte(&field);
        let limit = u16::from(field.order()).pow(marks as u32);
        Layout {
            field,
            columns,
            marks,
            limit,
            width: columns.div_ceil(marks),
        }
    }

    /// One mark of a byte, counted from the most significant.
    pub(crate) fn mark_of(&self, byte: u8, index: usize) -> u8
        requires { index < digits_per_byte self.now.field }
        ensures value { result ≡ mark_of self.now.field byte index }
        ensures element { IsElement self.now.field result }
    {
        let order = self.field.order();
        byte / order.pow((self.marks - 1 - index) as u32) % order
    }

    /// Whether a mark past the last column is not 0, in one byte of a row, counted from 0.
    pub(crate) fn has_unused_mark(&self, byte: u8, place: usize) -> bool
        requires { place < bytes_per_row self.now.field self.now.columns }
        ensures { result ≡ has_unused_mark self.now.field self.now.columns place byte }
    {
        if place + 1 < self.width {
            return false;
        }
        for index in 0..self.marks {
            let column = place * self.marks + index;
            if self.columns <= column && self.mark_of(byte, index) != 0 {
                return true;
            }
        }
        false
    }

    /// One byte of a row, counted from 0.
    pub(crate) fn byte_of(&self, row: &[u8], place: usize) -> u8
        requires elements { All (IsElement self.now.field) row.now }
        requires columns { length row.now ≡ self.now.columns }
        requires place { place < bytes_per_row self.now.field self.now.columns }
        ensures { result ≡ byte_with_marks self.now.field
            (λ j. slice_index row.now (place * digits_per_byte self.now.field + j)) }
    {
        let order = self.field.order();
        let mut byte = 0;
        for index in 0..self.marks {
            byte = byte * order + mark_in(row, place * self.marks + index);
        }
        byte
    }

    /// One byte of a row, counted from 0, each of whose marks is that of a column.
    #[inline(always)]
    pub(crate) fn whole_byte<const COUNT: usize>(&self, row: &[u8], place: usize) -> u8
        requires marks { self.now.marks ≡ COUNT }
        requires elements { All (IsElement self.now.field) row.now }
        requires whole { (place + 1) * COUNT ≤ length row.now }
        ensures { result ≡ byte_with_marks self.now.field
            (λ j. slice_index row.now (place * digits_per_byte self.now.field + j)) }
    {
        let order = self.field.order();
        let mut byte = 0;
        for index in 0..COUNT {
            byte = byte * order + row[place * COUNT + index];
        }
        byte
    }
}

/// The mark of a column, which is 0 past the last column.
fn mark_in(row: &[u8], column: usize) -> u8
    ensures { result ≡ slice_index row.now column }
{
    if column < row.len() { row[column] } else { 0 }
}

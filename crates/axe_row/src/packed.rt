//! Rows over the field of two elements in bytes, eight entries to a byte.
ghost use Rattle.std.specs.Prelude.{ℕ, ◌≡◌, ◌+◌, ◌*◌, ◌/◌, ◌≤◌, None, length, slice_index};
ghost use Rattle.axe_algebra.specs.Lists.{listed};
ghost use Rattle.axe_field.specs.Order.{order_number};
ghost use Rattle.axe_layer.specs.Packed.{packed_bit};
ghost use Rattle.axe_row.specs.Refusals.{Answers};
ghost use Rattle.axe_row.specs.Rows.{IsRow};

use crate::{Refusal, Row};
use axe_field::Field;
use axe_plane::{BitPlane, Plane};
use std::alloc::Global;

impl Row {
    /// The row over two elements of the first `len` entries that bytes hold, eight to a byte, the first of a byte being
    /// its most significant bit.
    pub fn of_packed_bits(
        alloc: Global,
        field: Field,
        bytes: &[u8],
        len: usize,
    ) -> Result<Row, Refusal>
        requires even { order_number field ≡ 2 }
        requires room { len ≤ 8 * length bytes.now }
        ensures entries { Answers None (λ row. row ≡ record {
          order = field;
          entries = listed len (packed_bit bytes.now);
        }) result }
        ensures well_formed { Answers None IsRow result }
    {
        let bits = BitPlane::of_packed(alloc, bytes, len)?;
        Ok(Row::of_plane(field, Plane::Bits(bits)))
    }

    /// Writes the entries of a row over two elements into the bytes that they take, eight to a byte, the first of a
    /// byte being its most significant bit. The bits after the last entry become 0.
    pub fn copy_packed_bits(&self, bytes: &mut [u8])
        requires even { order_number self.now.order ≡ 2 }
        requires room { length bytes.old ≡ (length self.now.entries + 7) / 8 }
        ensures long { length bytes.new ≡ length bytes.old }
        ensures entries { (e : ℕ) → packed_bit bytes.new e ≡ slice_index self.now.entries e }
    {
        match &self.constant {
            Plane::Bits(bits) => bits.copy_packed(bytes),
            Plane::Trits(_) | Plane::Bytes(_) => unreachable!(),
        }
    }
}

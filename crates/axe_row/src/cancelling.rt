//! Multiples of rows that take an entry of another row away, as the elimination of rows does.
ghost use Rattle.std.specs.Prelude.{◌≡◌, ◌<◌, length, slice_index};
ghost use Rattle.axe_field.specs.Arithmetic.{field_neg};
ghost use Rattle.axe_field.specs.Order.{IsElement};
ghost use Rattle.axe_row.specs.Operations.{row_with_multiple};
ghost use Rattle.axe_row.specs.Rows.{IsRow};

use crate::Row;

impl Row {
    /// Adds the multiple of another row over the same field and of the same length by the negative of the entry at an
    /// index, and gives that factor: where the other row's entry there is 1, this row's becomes 0. With factor 0
    /// nothing is added.
    #[inline]
    pub fn cancel(&mut self, index: usize, other: &Row) -> u8
        requires index { index < length self.old.entries }
        requires field { other.now.order ≡ self.old.order }
        requires fits { length other.now.entries ≡ length self.old.entries }
        ensures factor { result ≡ field_neg self.old.order (slice_index self.old.entries index) }
        ensures element { IsElement self.old.order result }
        ensures sum { self.new ≡ row_with_multiple self.old result other.now }
        ensures as_long { length self.new.entries ≡ length self.old.entries }
        ensures well_formed { IsRow self.new }
    {
        if self.field.degree() == 1 {
            self.constant.cancel(index, &other.constant)
        } else {
            self.cancel_by_planes(index, other)
        }
    }

    /// Takes the entry at an index away by its coefficients. It stands apart so that `cancel` is short over prime
    /// fields.
    #[inline(never)]
    fn cancel_by_planes(&mut self, index: usize, other: &Row) -> u8
        requires index { index < length self.old.entries }
        requires field { other.now.order ≡ self.old.order }
        requires fits { length other.now.entries ≡ length self.old.entries }
        ensures factor { result ≡ field_neg self.old.order (slice_index self.old.entries index) }
        ensures element { IsElement self.old.order result }
        ensures sum { self.new ≡ row_with_multiple self.old result other.now }
        ensures well_formed { IsRow self.new }
    {
        let factor = other.field().neg(self.get_by_planes(index));
        if factor != 0 {
            self.add_by_planes(0, factor, other);
        }
        factor
    }
}

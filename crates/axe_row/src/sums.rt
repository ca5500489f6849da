//! Sums of several rows.

ghost use Rattle.std.specs.Prelude.{ℕ, ◌≡◌, ◌<◌, length, slice_index, All};
ghost use Rattle.axe_field.specs.Order.{degree_of, IsElement};
ghost use Rattle.axe_row.specs.Addends.{IsRowAddend};
ghost use Rattle.axe_row.specs.Combinations.{row_with_four};
ghost use Rattle.axe_row.specs.Operations.{row_with_multiple};
ghost use Rattle.axe_row.specs.Rows.{four_entries, IsRow};

use crate::Row;
use axe_plane::Plane;

impl Row {
    /// Adds four other rows over the same field and of the same length, in one pass.
    #[inline(always)]
    pub fn add_four_rows(&mut self, a: &Row, b: &Row, c: &Row, d: &Row)
        requires a { IsRowAddend self.old a.now }
        requires b { IsRowAddend self.old b.now }
        requires c { IsRowAddend self.old c.now }
        requires d { IsRowAddend self.old d.now }
        ensures sum { self.new ≡ row_with_four self.old a.now b.now c.now d.now }
        ensures as_long { length self.new.entries ≡ length self.old.entries }
        ensures well_formed { IsRow self.new }
    {
        self.constant
            .add_four(&a.constant, &b.constant, &c.constant, &d.constant);
        let Some(higher) = &mut self.higher else {
            return;
        };
        let (Some(a), Some(b), Some(c), Some(d)) = (&a.higher, &b.higher, &c.higher, &d.higher)
        else {
            return;
        };
        higher.add_four(a, b, c, d);
    }

    /// Adds multiples of four other rows over the same prime field and of the same length, in one pass. The factors are
    /// elements other than 0.
    #[inline]
    pub fn add_four_multiples(&mut self, factors: [u8; 4], a: &Row, b: &Row, c: &Row, d: &Row)
        requires a { IsRowAddend self.old a.now }
        requires b { IsRowAddend self.old b.now }
        requires c { IsRowAddend self.old c.now }
        requires d { IsRowAddend self.old d.now }
        requires prime { degree_of self.old.order ≡ 1 }
        requires factors { (i : ℕ) → i < 4
            → (0 < slice_index factors i) × IsElement self.old.order (slice_index factors i) }
        ensures sum { self.new ≡ row_with_multiple (row_with_multiple (row_with_multiple
            (row_with_multiple self.old (slice_index factors 0) a.now)
            (slice_index factors 1) b.now) (slice_index factors 2) c.now) (slice_index factors 3) d.now }
        ensures as_long { length self.new.entries ≡ length self.old.entries }
        ensures well_formed { IsRow self.new }
    {
        self.constant.add_four_multiples(
            factors,
            &a.constant,
            &b.constant,
            &c.constant,
            &d.constant,
        );
    }

    /// The entries at four indices, counted from 0.
    #[inline(always)]
    pub fn entries_at(&self, indices: [usize; 4]) -> [u8; 4]
        requires { (i : ℕ) → i < 4 → slice_index indices i < length self.now.entries }
        ensures entries { result ≡ four_entries self.now.entries indices }
        ensures elements { All (IsElement self.now.order) result }
    {
        let Some(_) = &self.higher else {
            return self.digits_at(indices);
        };
        self.entries_by_planes(indices)
    }

    /// The entries at four indices over a prime field, whose rows keep one plane.
    #[inline(always)]
    fn digits_at(&self, indices: [usize; 4]) -> [u8; 4]
        requires { degree_of self.now.order ≡ 1 }
        ensures { result ≡ four_entries self.now.entries indices }
    {
        match &self.constant {
            Plane::Bits(plane) => [
                plane.get(indices[0]),
                plane.get(indices[1]),
                plane.get(indices[2]),
                plane.get(indices[3]),
            ],
            Plane::Trits(plane) => [
                plane.get(indices[0]),
                plane.get(indices[1]),
                plane.get(indices[2]),
                plane.get(indices[3]),
            ],
            Plane::Bytes(plane) => [
                plane.get(indices[0]),
                plane.get(indices[1]),
                plane.get(indices[2]),
                plane.get(indices[3]),
            ],
        }
    }

    /// The entries at four indices, each put together from its coefficients. It stands apart so that `entries_at` is
    /// short over prime fields.
    #[inline(never)]
    fn entries_by_planes(&self, indices: [usize; 4]) -> [u8; 4]
        requires { (i : ℕ) → i < 4 → slice_index indices i < length self.now.entries }
        ensures { result ≡ four_entries self.now.entries indices }
    {
        [
            self.get(indices[0]),
            self.get(indices[1]),
            self.get(indices[2]),
            self.get(indices[3]),
        ]
    }
}

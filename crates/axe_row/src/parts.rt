//! Parts of rows, and entries at chosen indices.
ghost use Rattle.std.specs.Prelude.{◌≡◌, ◌+◌, ◌<◌, ◌≤◌, None, length, map, slice_index, All};
ghost use Rattle.axe_layer.specs.Runs.{AreFollowed};
ghost use Rattle.axe_row.specs.Refusals.{Answers};
ghost use Rattle.axe_row.specs.Rows.{IsRow, part_of};

use crate::planes::digits_in_plane;
use crate::{Refusal, Row};
use std::alloc::Global;

impl Row {
    /// The part of the row that has `len` entries from an index on.
    #[inline(always)]
    pub fn part(&self, alloc: Global, start: usize, len: usize) -> Result<Row, Refusal>
        requires { start + len ≤ length self.now.entries }
        ensures part { Answers None (λ part. part ≡ part_of self.now start len) result }
        ensures well_formed { Answers None IsRow result }
    {
        let constant = self.constant.part(alloc, start, len)?;
        let Some(higher) = &self.higher else {
            return Ok(Row::of_plane(self.field, constant));
        };
        let linear = higher.linear.part(alloc, start, len);
        let at = digits_in_plane(&self.field, 2, start);
        let count = digits_in_plane(&self.field, 2, len);
        let quadratic = higher.quadratic.part(alloc, at, count);
        Row::of_planes(alloc, self.field, constant, linear, quadratic)
    }

    /// The row of the entries at these columns, in their order; a column may stand more than once. Where bit e
    /// of `followed` is 1, column e is followed by the next one, so that entries at consecutive columns are taken at
    /// once; a bit that is 0 or missing tells nothing.
    pub fn select(&self, alloc: Global, columns: &[usize], followed: &[u64]) -> Result<Row, Refusal>
        requires within { All (λ column. column < length self.now.entries) columns.now }
        requires followed { AreFollowed columns.now followed.now }
        ensures selected { Answers None (λ row. row ≡ record {
          order = self.now.order;
          entries = map (slice_index self.now.entries) columns.now;
        }) result }
        ensures well_formed { Answers None IsRow result }
    {
        let constant = self.constant.select(alloc, columns, followed)?;
        let Some(higher) = &self.higher else {
            return Ok(Row::of_plane(self.field, constant));
        };
        let linear = higher.linear.select(alloc, columns, followed);
        let in_quadratic = &columns[..digits_in_plane(&self.field, 2, columns.len())];
        let quadratic = higher.quadratic.select(alloc, in_quadratic, followed);
        Row::of_planes(alloc, self.field, constant, linear, quadratic)
    }

    /// Writes the numbers of all entries into a list of the row's length.
    pub fn copy_to(&self, entries: &mut [u8])
        requires { length entries.old ≡ length self.now.entries }
        ensures { entries.new ≡ self.now.entries }
    {
        self.constant.copy_to(entries);
        let Some(higher) = &self.higher else {
            return;
        };
        let prime = self.field.prime();
        higher.linear.add_to(prime, entries);
        higher.quadratic.add_to(prime * prime, entries);
    }
}

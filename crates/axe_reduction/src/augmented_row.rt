//! Rows of augmented matrices.

ghost use Rattle.std.specs.Prelude.{◌≡◌, ◌<◌, length, map, All};
ghost use Rattle.axe_lane.specs.Entries.{IsFirstNonzero};
ghost use Rattle.axe_reduction.specs.AugmentedRows.{IsRowLike, cancelled, scaled_at};

use axe_matrix::Row;

/// A row of an augmented matrix: its entries left of the bar, and those right of it.
#[derive(Drop)]
pub(crate) struct AugmentedRow {
    pub(crate) left: Row,
    pub(crate) right: Row,
}

impl AugmentedRow {
    /// Adds the multiple of another row by the negative of the entry at a column left of the bar: where the other row
    /// is 1 there, this one becomes 0.
    pub(crate) fn cancel(&mut self, column: usize, other: &AugmentedRow)
        requires row { IsRowLike self.old self.old }
        requires alike { IsRowLike self.old other.now }
        requires column { column < length self.old.left.entries }
        ensures cancelled { self.new ≡ cancelled column other.now self.old }
        ensures alike { IsRowLike self.old self.new }
    {
        let factor = self.left.cancel(column, &other.left);
        self.right.add_scaled(factor, &other.right);
    }

    /// Multiplies the row so that its first entry other than 0, which stands left of the bar, becomes 1.
    pub(crate) fn scale_at(&mut self, pivot: usize)
        requires row { IsRowLike self.old self.old }
        requires first { IsFirstNonzero self.old.left.entries pivot }
        ensures scaled { self.new ≡ scaled_at pivot self.old }
        ensures alike { IsRowLike self.old self.new }
    {
        let scalar = self.left.field().inv(self.left.get(pivot));
        self.left.scale(scalar);
        self.right.scale(scalar);
    }
}

/// Adds to each of some rows the multiple of a row by the negative of the entry at a column left of the bar.
pub(crate) fn cancel_in_each(rows: &mut [AugmentedRow], column: usize, row: &AugmentedRow)
    requires column { column < length row.now.left.entries }
    requires row { IsRowLike row.now row.now }
    requires alike { All (IsRowLike row.now) rows.old }
    ensures cancelled { rows.new ≡ map (cancelled column row.now) rows.old }
    ensures alike { All (IsRowLike row.now) rows.new }
{
    for other in rows.iter_mut() {
        other.cancel(column, row);
    }
}

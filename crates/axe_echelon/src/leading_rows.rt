//! Rows of an echelon form that move one by one into the reduced basis.

ghost use Rattle.std.specs.Prelude.{◌<◌, ◌+◌, All, length, slice_index, suc};
ghost use Rattle.axe_echelon.specs.LeadingRows.{HasRowsFrom, IsClearedAfter, IsTakenOut};
ghost use Rattle.axe_echelon.specs.PivotTables.{HasRoom};

use crate::pivot_table::PivotTable;
use crate::subspace::PivotRow;
use axe_matrix::Row;

/// Takes out the row whose pivot a column is. The last row moves into its place, which the table then tells.
pub(crate) fn take_row(rows: &mut Vec<PivotRow>, pivots: &mut PivotTable, column: usize) -> Row
    requires place { column < length pivots.old.rows.items }
    requires within { slice_index pivots.old.rows.items column < length rows.old.items }
    requires fits { All (λ p. p.pivot < length pivots.old.rows.items) rows.old.items }
    ensures { IsTakenOut rows.old.items pivots.old column rows.new.items pivots.new result }
{
    let index = pivots.row_of(column);
    let taken = rows.swap_remove(index);
    if index < rows.len() {
        pivots.move_row(rows[index].pivot, index);
    }
    taken.row
}

/// Clears the pivots after a column from a row by adding multiples of the rows that have them.
pub(crate) fn clear_after(row: &mut Row, column: usize, rows: &[PivotRow], pivots: &PivotTable)
    requires within { column < length row.old.entries }
    requires room { HasRoom (length row.old.entries) pivots.now }
    requires rows { HasRowsFrom row.old.order (length row.old.entries) (suc column) rows.now pivots.now }
    ensures { IsClearedAfter row.old.order (length row.old.entries) column rows.now pivots.now row.old row.new }
{
    // `len` is called for what it ensures beside the number: that the entries are elements.
    prove!(column < row.len());
    let negatives = row.field().negatives();
    let mut start = column + 1;
    while let Some((pivot, entry)) = pivots.next_pivot(row, start) {
        // The pivot's row is 0 before it: so what was cleared stays 0, and is not looked at again.
        let pivot_row = &rows[pivots.row_of(pivot)];
        let factor = negatives[usize::from(entry)];
        row.add_scaled_from(pivot, factor, &pivot_row.row);
        start = pivot + 1;
    }
}

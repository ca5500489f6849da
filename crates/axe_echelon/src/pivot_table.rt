//! The pivots of the rows of an echelon form, by their columns.

ghost use Rattle.std.specs.Prelude.{◌≡◌, ◌≢◌, ◌<◌, ◌≤◌, ◌+◌, ◌*◌, ◌↔◌, [], ℕ, List, length};
ghost use Rattle.std.specs.Prelude.{slice_index, slice_index_or, slice_set};
ghost use Rattle.std.specs.Prelude.{IfOk, IfSome, IsTrue, MatchOption};
ghost use Rattle.std.specs.Int.{bit_at};
ghost use Rattle.axe_field.specs.Order.{IsElement};
ghost use Rattle.axe_layer.specs.Supports.{restricted};
ghost use Rattle.axe_lane.specs.Entries.{AreZerosFrom};
ghost use Rattle.axe_row.specs.FoundEntries.{IsNextEntry};
ghost use Rattle.axe_echelon.specs.PivotTables.{marks_of, FitsColumns, HasBlocks, HasRoom, HasPivots};
ghost use Rattle.axe_echelon.specs.declared.subspace.PivotRow.{PivotRow};

use axe_matrix::Row;
use axe_row::{BitBlock, BitPlane};
use std::alloc::{AllocError, Global};

/// For each column whether it is the pivot of a row of an echelon form, and of which row. It takes no memory until it
/// is given room.
#[derive(Drop)]
pub(crate) struct PivotTable {
    alloc: Global,
    /// 1 at each pivot, and 0 at every other column. There are none until the table has room.
    marks: Option<BitPlane>,
    /// At each pivot the index of its row.
    rows: Vec<usize>,
    /// At each pivot, over a field of characteristic 2 or 3, the word of its row in which it stands.
    blocks: Vec<BitBlock>,
}

impl PivotTable {
    /// The table of an echelon form that has no rows.
    pub(crate) fn new(alloc: Global) -> PivotTable
        ensures pivots { (cols : ℕ) → HasPivots cols [] result }
        ensures has_blocks { HasBlocks [] result }
    {
        PivotTable {
            alloc,
            marks: None,
            rows: Vec::new(alloc),
            blocks: Vec::new(alloc),
        }
    }

    /// Gives the table room for so many columns, where it has none. The pivots that it tells of stay, also where there
    /// is no memory.
    #[inline(always)]
    pub(crate) fn make_room(&mut self, cols: usize) -> Result<(), AllocError>
        ensures pivots { (pivots : List ℕ) → HasPivots cols pivots self.old → HasPivots cols pivots self.new }
        ensures room { IfOk result (λ _. (pivots : List ℕ) → HasPivots cols pivots self.old → HasRoom cols self.new) }
        ensures has_blocks { (rows : List PivotRow) → HasBlocks rows self.old → HasBlocks rows self.new }
    {
        if self.marks.is_none() {
            self.rows.resize(cols, 0)?;
            self.blocks.resize(cols, BitBlock::zeros())?;
            self.marks = Some(BitPlane::zero(self.alloc, cols)?);
        }
        Ok(())
    }

    /// Tells of a column from now on that it is the pivot of the row at an index, with the block of that row in which
    /// it stands.
    pub(crate) fn mark(&mut self, column: usize, index: usize, block: BitBlock)
        requires row { column < length self.old.rows.items }
        requires block { column < length self.old.blocks.items }
        ensures marks { marks_of self.new ≡ slice_set (marks_of self.old) column 1 }
        ensures rows { self.new.rows.items ≡ slice_set self.old.rows.items column index }
        ensures block { self.new.blocks.items ≡ slice_set self.old.blocks.items column block }
    {
        if let Some(marks) = &mut self.marks {
            marks.set(column, 1);
        }
        self.rows[column] = index;
        self.blocks[column] = block;
    }

    /// Tells of a column from now on that its row is the one at an index. Whether it is a pivot stays.
    pub(crate) fn move_row(&mut self, column: usize, to: usize)
        requires { column < length self.old.rows.items }
        ensures marks { self.new.marks ≡ self.old.marks }
        ensures rows { self.new.rows.items ≡ slice_set self.old.rows.items column to }
        ensures blocks { self.new.blocks.items ≡ self.old.blocks.items }
    {
        self.rows[column] = to;
    }

    /// Whether a column is a pivot.
    pub(crate) fn is_pivot(&self, column: usize) -> bool
        ensures { IsTrue result ↔ (slice_index (marks_of self.now) column ≢ 0) }
    {
        let Some(marks) = &self.marks else {
            return false;
        };
        marks.get(column) != 0
    }

    /// The next pivot, from a column on, at which a row is not 0, and the entry of the row there, or `None` where it is 0
    /// at all pivots from there on.
    #[inline(always)]
    pub(crate) fn next_pivot(&self, row: &Row, start: usize) -> Option<(usize, u8)>
        requires start { start ≤ length row.now.entries }
        requires fits { FitsColumns (length row.now.entries) self.now }
        ensures found { MatchOption result (AreZerosFrom (restricted (marks_of self.now) row.now.entries) start)
            (λ found. IsNextEntry (marks_of self.now) row.now.entries start found.0 found.1) }
        ensures element { IfSome result (λ found. IsElement row.now.order found.1) }
    {
        let Some(marks) = &self.marks else {
            return None;
        };
        row.next_entry_within(start, marks)
    }

    /// The word at an index of the marks, and 0 where there are none.
    #[inline(always)]
    pub(crate) fn word(&self, at: usize) -> u64
        ensures { (i : ℕ) → i < 64 → bit_at result i ≡ slice_index (marks_of self.now) (at * 64 + i) }
    {
        match &self.marks {
            Some(marks) => marks.word(at),
            None => 0,
        }
    }

    /// The block of the row whose pivot a column is, of the word in which that stands.
    #[inline(always)]
    pub(crate) fn block_of(&self, pivot: usize) -> &BitBlock
        requires { pivot < length self.now.blocks.items }
        ensures { result.now ≡ slice_index_or self.now.blocks.items pivot result.now }
    {
        &self.blocks[pivot]
    }

    /// The index of the row whose pivot a column is.
    #[inline]
    pub(crate) fn row_of(&self, pivot: usize) -> usize
        requires { pivot < length self.now.rows.items }
        ensures { result ≡ slice_index self.now.rows.items pivot }
    {
        self.rows[pivot]
    }
}

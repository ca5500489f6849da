//! The blocks of a generator by the pivots of a submodule and the other columns.

ghost use Rattle.std.specs.Prelude.{◌≡◌, ◌≤◌, ◌+◌, ◌<◌, ◌^◌, ◌↔◌, length, [], All, IsTrue, None, IfOk};
ghost use Rattle.axe_row.specs.Refusals.{Answers};
ghost use Rattle.axe_matrix.specs.Limits.{most_rows, most_columns};
ghost use Rattle.axe_matrix.specs.Matrices.{IsMatrix, columns_at, rows_at};
ghost use Rattle.axe_action.specs.FreeColumns.{AreComplementary, IsNextPivot};
ghost use Rattle.axe_action.specs.Blocks.{with_entries, FitsBlocks, AreBlocksWith};

use axe_field::Field;
use axe_matrix::{ChosenColumns, Matrix, Refusal, Row};
use std::alloc::Global;

/// Three of the four blocks of those rows of a generator that were taken.
#[derive(Drop)]
pub(crate) struct Blocks {
    /// Of the rows at the pivots, the entries at the pivots.
    pub(crate) at_pivots: Matrix,
    /// Of the rows at the other columns, the entries at the pivots.
    pub(crate) across: Matrix,
    /// Of the rows at the other columns, the entries there.
    pub(crate) at_columns: Matrix,
}

impl Blocks {
    /// The blocks of no row, which have memory for all rows to come, for so many pivots and other columns.
    fn with_capacity(
        alloc: Global,
        field: Field,
        pivots: usize,
        columns: usize,
    ) -> Result<Blocks, Refusal>
        requires some_pivot { 1 ≤ pivots }
        requires some_column { 1 ≤ columns }
        requires pivots_fit { pivots ≤ most_columns }
        requires columns_fit { columns ≤ most_columns }
        ensures at_pivots { Answers None
            (λ blocks. blocks.at_pivots ≡ record { order = field; cols = pivots; rows = [] }) result }
        ensures across { Answers None
            (λ blocks. blocks.across ≡ record { order = field; cols = pivots; rows = [] }) result }
        ensures at_columns { Answers None
            (λ blocks. blocks.at_columns ≡ record { order = field; cols = columns; rows = [] }) result }
        ensures well_formed { IfOk result
            (λ blocks. IsMatrix blocks.at_pivots × IsMatrix blocks.across × IsMatrix blocks.at_columns) }
    {
        let at_pivots = Matrix::with_capacity(alloc, field, pivots, pivots)?;
        let across = Matrix::with_capacity(alloc, field, pivots, columns)?;
        let at_columns = Matrix::with_capacity(alloc, field, columns, columns)?;
        Ok(Blocks {
            at_pivots,
            across,
            at_columns,
        })
    }

    /// Takes the entries of the generator's next row, and drops it. For want of memory some of them may be missing.
    fn take(
        &mut self,
        alloc: Global,
        row: Row,
        pivots: &ChosenColumns,
        columns: &ChosenColumns,
    ) -> Result<(), Refusal>
        requires { FitsBlocks pivots.now columns.now self.old row }
        ensures { Answers None
            (λ _. AreBlocksWith pivots.now columns.now row.entries self.old self.new) result }
    {
        self.append(alloc, &row, pivots, columns)
    }

    /// Appends the entries of a row: at the next pivot to the first block, and else to the other two.
    fn append(
        &mut self,
        alloc: Global,
        row: &Row,
        pivots: &ChosenColumns,
        columns: &ChosenColumns,
    ) -> Result<(), Refusal>
        requires { FitsBlocks pivots.now columns.now self.old row.now }
        ensures { Answers None
            (λ _. AreBlocksWith pivots.now columns.now row.now.entries self.old self.new) result }
    {
        if is_next_pivot(pivots.columns(), self.at_pivots.rows(), self.across.rows()) {
            append_entries(alloc, &mut self.at_pivots, row, pivots)
        } else {
            append_entries(alloc, &mut self.across, row, pivots)?;
            append_entries(alloc, &mut self.at_columns, row, columns)
        }
    }
}

/// Appends the entries of a row at some columns, as many as the matrix has.
fn append_entries(
    alloc: Global,
    matrix: &mut Matrix,
    row: &Row,
    columns: &ChosenColumns,
) -> Result<(), Refusal>
    requires field { row.now.order ≡ matrix.old.order }
    requires fits { length columns.now ≡ matrix.old.cols }
    requires within { All (λ column. column < length row.now.entries) columns.now }
    requires room { length matrix.old.rows < most_rows }
    ensures appended { Answers None
        (λ _. matrix.new ≡ with_entries matrix.old columns.now row.now.entries) result }
    ensures well_formed { IfOk result (λ _. IsMatrix matrix.new) }
{
    let entries = columns.entries(alloc, row)?;
    matrix.append(entries)
}

/// The blocks of a generator. Each row is dropped when its entries are taken.
pub(crate) fn blocks_of(
    alloc: Global,
    generator: Matrix,
    pivots: &[usize],
    columns: &[usize],
) -> Result<Blocks, Refusal>
    requires square { length generator.rows ≡ generator.cols }
    requires some_pivot { 1 ≤ length pivots.now }
    requires some_column { 1 ≤ length columns.now }
    requires pivots_fit { length pivots.now ≤ most_columns }
    requires columns_fit { length columns.now ≤ most_columns }
    requires complementary { AreComplementary generator.cols pivots.now columns.now }
    ensures at_pivots { Answers None
        (λ blocks. blocks.at_pivots ≡ columns_at pivots.now (rows_at pivots.now generator)) result }
    ensures across { Answers None
        (λ blocks. blocks.across ≡ columns_at pivots.now (rows_at columns.now generator)) result }
    ensures at_columns { Answers None
        (λ blocks. blocks.at_columns ≡ columns_at columns.now (rows_at columns.now generator)) result }
    ensures well_formed { IfOk result
        (λ blocks. IsMatrix blocks.at_pivots × IsMatrix blocks.across × IsMatrix blocks.at_columns) }
{
    let mut blocks = Blocks::with_capacity(alloc, *generator.field(), pivots.len(), columns.len())?;
    let chosen_pivots = ChosenColumns::new(pivots);
    let chosen_columns = ChosenColumns::new(columns);
    for row in generator.into_rows() {
        blocks.take(alloc, row, &chosen_pivots, &chosen_columns)?;
    }
    Ok(blocks)
}

/// Whether the next column is a pivot, where so many pivots and so many other columns were before it.
fn is_next_pivot(pivots: &[usize], taken: usize, passed: usize) -> bool
    requires { taken + passed < 2 ^ 32 }
    ensures { IsTrue result ↔ IsNextPivot pivots.now taken passed }
{
    taken < pivots.len() && pivots[taken] == taken + passed
}

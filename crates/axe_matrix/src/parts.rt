//! The zero matrix, the identity matrix, copies, blocks, chosen rows and columns, and rows that move: within a matrix,
//! from one to another, and out of it.

ghost use Rattle.std.specs.Prelude.{◌≡◌, ◌+◌, ◌<◌, ◌≤◌, ◌++◌, length, take, drop, All, None, IfOk, OnErr};
ghost use Rattle.axe_row.specs.Refusals.{Answers};
ghost use Rattle.axe_matrix.specs.Limits.{most_rows, most_columns};
ghost use Rattle.axe_matrix.specs.Matrices.{IsMatrix, AreSplit, HasFirstRows, zero_matrix, identity_matrix};
ghost use Rattle.axe_matrix.specs.Matrices.{matrix_block, reversed_matrix, rows_at, columns_at};
ghost use Rattle.axe_matrix.specs.RowLists.{AreRowsOf};

use super::{ChosenColumns, Matrix, Refusal, Row};
use axe_field::Field;
use std::alloc::Global;

impl Matrix {
    /// The matrix of zeros of a shape.
    pub fn zero(alloc: Global, field: Field, rows: usize, cols: usize) -> Result<Matrix, Refusal>
        requires rows_fit { rows ≤ most_rows }
        requires some_column { 1 ≤ cols }
        requires columns_fit { cols ≤ most_columns }
        ensures zeros { Answers None (λ matrix. matrix ≡ zero_matrix field rows cols) result }
        ensures well_formed { IfOk result IsMatrix }
    {
        let mut matrix = Matrix::with_capacity(alloc, field, cols, rows)?;
        for index in 0..rows {
            let row = Row::zero(alloc, field, cols)?;
            matrix.append(row)?;
        }
        Ok(matrix)
    }

    /// The identity matrix of so many rows.
    pub fn identity(alloc: Global, field: Field, rows: usize) -> Result<Matrix, Refusal>
        requires some_row { 1 ≤ rows }
        requires rows_fit { rows ≤ most_rows }
        requires columns_fit { rows ≤ most_columns }
        ensures identity { Answers None (λ matrix. matrix ≡ identity_matrix field rows) result }
        ensures well_formed { IfOk result IsMatrix }
    {
        let mut matrix = Matrix::with_capacity(alloc, field, rows, rows)?;
        for index in 0..rows {
            let row = Row::unit(alloc, field, rows, index)?;
            matrix.append(row)?;
        }
        Ok(matrix)
    }

    /// The same matrix a second time.
    pub fn copy(&self, alloc: Global) -> Result<Matrix, Refusal>
        ensures copied { Answers None (λ copy. copy ≡ self.now) result }
        ensures well_formed { IfOk result IsMatrix }
    {
        let mut copy = Matrix::with_capacity(alloc, *self.field(), self.cols(), self.rows())?;
        for index in 0..self.rows() {
            let row = self.row(index).copy(alloc)?;
            copy.append(row)?;
        }
        Ok(copy)
    }

    /// Appends copies of the rows of another matrix over the same field, with as many columns. For want of memory only
    /// some first of them are appended.
    pub fn append_rows(&mut self, alloc: Global, other: &Matrix) -> Result<(), Refusal>
        requires field { other.now.order ≡ self.old.order }
        requires fits { other.now.cols ≡ self.old.cols }
        requires room { length self.old.rows + length other.now.rows ≤ most_rows }
        ensures rows { Answers None
            (λ _. self.new ≡ record self.old { rows = self.old.rows ++ other.now.rows }) result }
        ensures some { OnErr result (HasFirstRows self.old other.now self.new) }
        ensures well_formed { IsMatrix self.new }
    {
        // Called for what it ensures beside the number: that the matrix is one.
        prove!(self.cols() == other.cols());
        for index in 0..other.rows() {
            let row = other.row(index).copy(alloc)?;
            self.append(row)?;
        }
        Ok(())
    }

    /// Moves the rows of another matrix over the same field, with as many columns, to the end. For want of memory the
    /// matrix is unchanged.
    pub fn append_matrix(&mut self, other: Matrix) -> Result<(), Refusal>
        requires field { other.order ≡ self.old.order }
        requires fits { other.cols ≡ self.old.cols }
        requires room { length self.old.rows + length other.rows ≤ most_rows }
        ensures rows { Answers None
            (λ _. self.new ≡ record self.old { rows = self.old.rows ++ other.rows }) result }
        ensures unchanged { OnErr result (self.new ≡ self.old) }
        ensures well_formed { IsMatrix self.new }
    {
        let Matrix { mut rows, .. } = other;
        self.rows.append(&mut rows)?;
        Ok(())
    }

    /// The first `count` rows, or all where there are no more, and those after them. The rows move, and none is copied.
    pub fn split(self, count: usize) -> Result<(Matrix, Matrix), Refusal>
        ensures parts { Answers None (λ parts. AreSplit self count parts.0 parts.1) result }
        ensures well_formed { IfOk result (λ parts. IsMatrix parts.0 × IsMatrix parts.1) }
    {
        let Matrix { field, cols, rows } = self;
        let mut first = rows;
        let kept = first.len().min(count);
        let after = first.split_off(kept)?;
        let first = Matrix {
            field,
            cols,
            rows: first,
        };
        let after = Matrix {
            field,
            cols,
            rows: after,
        };
        Ok((first, after))
    }

    /// Puts the rows into the opposite order. They move in place, which takes no memory.
    pub fn reverse(&mut self)
        ensures reversed { self.new ≡ reversed_matrix self.old }
        ensures well_formed { IsMatrix self.new }
    {
        self.rows.reverse();
    }

    /// The rows themselves, in their order. They move, and none is copied: this takes no memory.
    pub fn into_rows(self) -> Vec<Row>
        ensures rows { AreRowsOf self result.items }
        ensures well_formed { IsMatrix self }
    {
        let Matrix { rows, .. } = self;
        rows
    }

    /// The block of `rows` rows from row `row` on, and of `cols` columns from column `column` on.
    pub fn block(
        &self,
        alloc: Global,
        row: usize,
        rows: usize,
        column: usize,
        cols: usize,
    ) -> Result<Matrix, Refusal>
        requires rows_within { row + rows ≤ length self.now.rows }
        requires some_column { 1 ≤ cols }
        requires columns_within { column + cols ≤ self.now.cols }
        ensures block { Answers None (λ block. block ≡ matrix_block self.now row rows column cols) result }
        ensures well_formed { IfOk result IsMatrix }
    {
        let mut block = Matrix::with_capacity(alloc, *self.field(), cols, rows)?;
        for index in 0..rows {
            let part = self.row(row + index).part(alloc, column, cols)?;
            block.append(part)?;
        }
        Ok(block)
    }

    /// The rows at these places, in their order. A place may stand more than once.
    pub fn rows_at(&self, alloc: Global, places: &[usize]) -> Result<Matrix, Refusal>
        requires within { All (λ place. place < length self.now.rows) places.now }
        requires places_fit { length places.now ≤ most_rows }
        ensures rows { Answers None (λ chosen. chosen ≡ rows_at places.now self.now) result }
        ensures well_formed { IfOk result IsMatrix }
    {
        let mut chosen = Matrix::with_capacity(alloc, *self.field(), self.cols(), places.len())?;
        for place in places {
            let row = self.row(*place).copy(alloc)?;
            chosen.append(row)?;
        }
        Ok(chosen)
    }

    /// These columns, in their order. A column may stand more than once.
    pub fn columns_at(&self, alloc: Global, columns: &[usize]) -> Result<Matrix, Refusal>
        requires some_column { 1 ≤ length columns.now }
        requires columns_fit { length columns.now ≤ most_columns }
        requires within { All (λ column. column < self.now.cols) columns.now }
        ensures columns { Answers None (λ chosen. chosen ≡ columns_at columns.now self.now) result }
        ensures well_formed { IfOk result IsMatrix }
    {
        let places = ChosenColumns::new(columns);
        let mut chosen = Matrix::with_capacity(alloc, *self.field(), columns.len(), self.rows())?;
        for index in 0..self.rows() {
            let row = places.entries(alloc, self.row(index))?;
            chosen.append(row)?;
        }
        Ok(chosen)
    }
}

//! Transposes of matrices by the numbers of their entries, a strip of columns at a time.

ghost use Rattle.std.specs.Prelude.{ℕ, ◌≡◌, ◌+◌, ◌<◌, ◌≤◌, length, None, IfOk, slice_index};
ghost use Rattle.axe_algebra.specs.Lists.{entry, listed};
ghost use Rattle.axe_row.specs.Refusals.{Answers};
ghost use Rattle.axe_matrix.specs.Matrices.{IsMatrix, transposed_matrix};
ghost use Rattle.axe_matrix.specs.Strips.{IsStrip, first_columns};

use super::lines::Lines;
use super::{Matrix, Refusal, Row};
use std::alloc::Global;

/// How many columns a strip has at most: as many as a line of most processors' caches has bytes.
const STRIP: usize = 64;

impl Matrix {
    /// Appends columns of another matrix, at most as many as a strip has, to those before them, each as a row.
    fn append_columns(
        &mut self,
        alloc: Global,
        matrix: &Lines,
        start: usize,
        width: usize,
    ) -> Result<(), Refusal>
        requires begun { self.old ≡ first_columns matrix.now start }
        requires well_formed { IsMatrix self.old }
        requires narrow { width ≤ 64 }
        requires within { start + width ≤ matrix.now.cols }
        ensures appended { Answers None (λ _. self.new ≡ first_columns matrix.now (start + width)) result }
        ensures well_formed { IsMatrix self.new }
    {
        let lines = matrix.strip(alloc, start, width)?;
        for index in 0..width {
            let column = column_at(alloc, &lines, index)?;
            let row = Row::from_elements(alloc, *matrix.field(), &column)?;
            self.append(row)?;
        }
        Ok(())
    }
}

impl<'a> Lines<'a> {
    /// The transpose of a matrix with rows, by the numbers of its entries. One strip is held at a time: it stays in the
    /// processor's cache while its columns are taken, and takes little memory beside the transpose.
    pub(crate) fn transpose_by_strips(&self, alloc: Global) -> Result<Matrix, Refusal>
        requires some_row { 1 ≤ length self.now.rows }
        ensures transpose { Answers None (λ transpose. transpose ≡ transposed_matrix self.now) result }
        ensures well_formed { IfOk result IsMatrix }
    {
        let mut transpose = Matrix::with_capacity(alloc, *self.field(), self.rows(), self.cols())?;
        let mut start = 0;
        while start < self.cols() {
            let width = STRIP.min(self.cols() - start);
            transpose.append_columns(alloc, self, start, width)?;
            start += width;
        }
        Ok(transpose)
    }

    /// The entries of `width` columns from column `start` on, a line for each row.
    fn strip(&self, alloc: Global, start: usize, width: usize) -> Result<Vec<[u8; STRIP]>, Refusal>
        requires narrow { width ≤ 64 }
        requires within { start + width ≤ self.now.cols }
        ensures { Answers None (λ lines. IsStrip self.now start width (length self.now.rows) lines.items) result }
    {
        let mut lines = Vec::with_capacity(alloc, self.rows())?;
        for index in 0..self.rows() {
            let mut line = [0; STRIP];
            let part = self.row(index).part(alloc, start, width)?;
            fill_line(&part, &mut line);
            lines.push(line)?;
        }
        Ok(lines)
    }
}

/// Writes the numbers of a row's entries to the beginning of a line, which is as long or longer.
fn fill_line(row: &Row, line: &mut [u8])
    requires { length row.now.entries ≤ length line.old }
    ensures { (j : ℕ) → j < length row.now.entries
        → slice_index line.new j ≡ slice_index row.now.entries j }
{
    row.copy_to(&mut line[..row.len()]);
}

/// The numbers at a place of all lines.
fn column_at(alloc: Global, lines: &[[u8; STRIP]], place: usize) -> Result<Vec<u8>, Refusal>
    requires { place < 64 }
    ensures { Answers None
        (λ column. column.items ≡ listed (length lines.now) (λ i. entry lines.now i place)) result }
{
    let mut column = vec![in alloc; 0; lines.len()]?;
    for index in 0..lines.len() {
        column[index] = lines[index][place];
    }
    Ok(column)
}

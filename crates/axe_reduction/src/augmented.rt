//! Augmented matrices.

ghost use Rattle.std.specs.Prelude.{◌≡◌, ◌+◌, ◌-◌, ◌<◌, ◌≤◌, [], None, IfOk, length, map, get_or, All};
ghost use Rattle.axe_field.specs.Order.{IsElement};
ghost use Rattle.axe_row.specs.Refusals.{Answers};
ghost use Rattle.axe_matrix.specs.Limits.{most_rows, most_columns};
ghost use Rattle.axe_matrix.specs.Matrices.{IsMatrix};
ghost use Rattle.axe_reduction.specs.Augmented.{IsAugmented, AreAlike, augmented, right_part};
ghost use Rattle.axe_reduction.specs.Augmented.{some_rows, entries_at_columns, with_rows, with_product};
ghost use Rattle.axe_reduction.specs.AugmentedRows.{IsRowOf, AreRowsInOrder, whole};

use crate::augmented_row::AugmentedRow;
use axe_field::Field;
use axe_matrix::{Matrix, Refusal};
use std::alloc::Global;
use std::marker::Model;

/// A matrix beside another over the same field, with a bar between them: whatever is done to the rows of the one is
/// done to those of the other. Columns are counted from 0, those right of the bar after those left of it.
#[derive(Drop)]
pub(crate) struct Augmented {
    left: Matrix,
    right: Matrix,
}

impl Model for Augmented {
    ghost use Rattle.axe_reduction.specs.Augmented.{AugmentedValue};

    ghost Value = { AugmentedValue };

    ghost use Rattle.axe_reduction.specs.Augmented.{augmented, AreBeside};

    ghost view = { λ a. augmented a.left a.right };

    ghost invariant = { λ a. AreBeside a.left a.right };
}

impl Augmented {
    /// A matrix beside another, which is over the same field and has as many rows.
    pub(crate) fn beside(left: Matrix, right: Matrix) -> Augmented
        requires field { right.order ≡ left.order }
        requires as_many { length right.rows ≡ length left.rows }
        ensures beside { result ≡ augmented left right }
        ensures well_formed { IsAugmented result }
    {
        // `rows` is called for what it ensures beside the numbers: that the two are matrices.
        prove!(left.rows() == right.rows());
        Augmented { left, right }
    }

    /// How many rows there are.
    pub(crate) fn rows(&self) -> usize
        ensures count { result ≡ length self.now.rows }
        ensures well_formed { IsAugmented self.now }
    {
        self.left.rows()
    }

    /// The field of the entries.
    pub(crate) fn field(&self) -> &Field
        ensures order { result.now ≡ self.now.order }
        ensures well_formed { IsAugmented self.now }
    {
        self.left.field()
    }

    /// The entries at chosen columns left of the bar, of all rows. A column may stand more than once.
    pub(crate) fn entries_at(&self, alloc: Global, columns: &[usize]) -> Result<Matrix, Refusal>
        requires some_column { 1 ≤ length columns.now }
        requires columns_fit { length columns.now ≤ most_columns }
        requires left { All (λ column. column < self.now.left) columns.now }
        ensures entries { Answers None (λ entries. entries ≡ entries_at_columns self.now columns.now) result }
        ensures well_formed { IfOk result IsMatrix }
    {
        self.left.columns_at(alloc, columns)
    }

    /// The first `count` rows, and those after them. The rows move, and none is copied.
    pub(crate) fn split(self, count: usize) -> Result<(Augmented, Augmented), Refusal>
        requires { count ≤ length self.rows }
        ensures first { Answers None (λ parts. parts.0 ≡ some_rows self 0 count) result }
        ensures after { Answers None (λ parts. parts.1 ≡ some_rows self count (length self.rows - count)) result }
        ensures well_formed { IfOk result (λ parts. IsAugmented parts.0 × IsAugmented parts.1) }
    {
        let Augmented { left, right } = self;
        let (left, left_after) = left.split(count)?;
        let (right, right_after) = right.split(count)?;
        let first = Augmented { left, right };
        let after = Augmented {
            left: left_after,
            right: right_after,
        };
        Ok((first, after))
    }

    /// These rows with a multiple of a product added: `factors` has as many rows as there are here, and as many columns
    /// as there are rows in `other`, whose columns are those here.
    pub(crate) fn plus_product(
        self,
        alloc: Global,
        scalar: u8,
        factors: &Matrix,
        other: &Augmented,
    ) -> Result<Augmented, Refusal>
        requires alike { AreAlike self other.now }
        requires factors_field { factors.now.order ≡ self.order }
        requires rows_fit { length factors.now.rows ≡ length self.rows }
        requires inner_fit { factors.now.cols ≡ length other.now.rows }
        requires element { IsElement self.order scalar }
        ensures sum { Answers None (λ sum. sum ≡ with_product self scalar factors.now other.now) result }
        ensures well_formed { IfOk result IsAugmented }
    {
        let Augmented { left, right } = self;
        let (mut left, mut right) = (left, right);
        left.add_product(alloc, scalar, factors, &other.left)?;
        right.add_product(alloc, scalar, factors, &other.right)?;
        Ok(Augmented { left, right })
    }

    /// These rows and then those of another, whose columns are those here.
    pub(crate) fn with_rows(self, other: Augmented) -> Result<Augmented, Refusal>
        requires alike { AreAlike self other }
        requires room { length self.rows + length other.rows ≤ most_rows }
        ensures rows { Answers None (λ all. all ≡ with_rows self other) result }
        ensures well_formed { IfOk result IsAugmented }
    {
        let Augmented { left, right } = self;
        let (mut left, mut right) = (left, right);
        left.append_matrix(other.left)?;
        right.append_matrix(other.right)?;
        Ok(Augmented { left, right })
    }

    /// The same columns over the same field, without a row. It takes no memory.
    pub(crate) fn without_rows(&self, alloc: Global) -> Augmented
        ensures { result ≡ record self.now { rows = [] } }
    {
        Augmented {
            left: Matrix::empty(alloc, *self.left.field(), self.left.cols()),
            right: Matrix::empty(alloc, *self.right.field(), self.right.cols()),
        }
    }

    /// The rows themselves, in their order. They move, and none is copied.
    pub(crate) fn into_rows(self, alloc: Global) -> Result<Vec<AugmentedRow>, Refusal>
        ensures { Answers None (λ rows. AreRowsInOrder self rows.items) result }
    {
        let Augmented { left, right } = self;
        let mut rows = Vec::with_capacity(alloc, left.rows())?;
        for (left, right) in left.into_rows().into_iter().zip(right.into_rows()) {
            rows.push(AugmentedRow { left, right })?;
        }
        Ok(rows)
    }

    /// The augmented matrix of some rows over the field of this one, with its columns.
    pub(crate) fn with_rows_of(
        &self,
        alloc: Global,
        rows: Vec<AugmentedRow>,
    ) -> Result<Augmented, Refusal>
        requires alike { All (IsRowOf self.now) rows.items }
        requires room { length rows.items ≤ most_rows }
        ensures rows { Answers None (λ made. made ≡ record self.now { rows = map whole rows.items }) result }
        ensures well_formed { IfOk result IsAugmented }
    {
        let mut left = Matrix::with_capacity(
            alloc,
            *self.left.field(),
            self.left.cols(),
            rows.len(),
        )?;
        let mut right = Matrix::with_capacity(
            alloc,
            *self.right.field(),
            self.right.cols(),
            rows.len(),
        )?;
        for row in rows {
            left.append(row.left)?;
            right.append(row.right)?;
        }
        Ok(Augmented { left, right })
    }

    /// The matrix right of the bar.
    pub(crate) fn into_right(self) -> Matrix
        ensures right { result ≡ right_part self result.cols }
        ensures columns { self.left + result.cols ≡ self.cols }
        ensures well_formed { IsMatrix result }
    {
        self.right
    }
}

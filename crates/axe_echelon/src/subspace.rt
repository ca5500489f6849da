//! Subspaces, each by an echelon form of it.

ghost use Rattle.std.specs.Prelude.{⊤, ◌≡◌, ◌<◌, ◌≤◌, ◌↔◌, ◌++◌, ◌∷◌, [], length, get_or, replicate};
ghost use Rattle.std.specs.Prelude.{IsTrue, true, None, IfOk, MatchOption, OnErr};
ghost use Rattle.axe_algebra.specs.SpansOfLists.{IsPivot, IsRepresentative, IsSpanned};
ghost use Rattle.axe_field.specs.NumberFields.{number_field};
ghost use Rattle.axe_row.specs.Operations.{IsZeroVector};
ghost use Rattle.axe_row.specs.Refusals.{Answers};
ghost use Rattle.axe_row.specs.Rows.{IsRow};
ghost use Rattle.axe_row.specs.Sums.{HasSums};
ghost use Rattle.axe_matrix.specs.Limits.{most_columns};
ghost use Rattle.axe_matrix.specs.Matrices.{IsMatrix};
ghost use Rattle.axe_echelon.specs.Echelons.{IsEchelon, IsReducedMatrix, with_row_where};
ghost use Rattle.axe_echelon.specs.Orthogonal.{IsPivotOfRow};
ghost use Rattle.axe_echelon.specs.Subspaces.{IsCleared, IsNextRow, IsPivotRow, IsScaledRest, SpansOneMore};

use crate::leading_rows::{clear_after, take_row};
use crate::pivot_table::PivotTable;
use axe_field::Field;
use axe_lane::WORD;
use axe_matrix::{Matrix, Refusal, Row};
use std::alloc::Global;
use std::marker::Model;

mod held;
mod sums;
mod words;

use held::{HELD_COLUMNS, HELD_COLUMNS_OF_TRITS};

/// A row has many entries other than 0 where one of so many is.
const MANY_ENTRIES: usize = 4;

/// A row of the echelon form of a subspace: 1 at its pivot, 0 before it and at the pivots of the rows before.
#[derive(Drop)]
pub(crate) struct PivotRow {
    pub(crate) pivot: usize,
    pub(crate) row: Row,
}

/// What is left of a vector when pivots are cleared from it, scaled to 1 at its first entry other than 0, and the scalar.
#[derive(Drop)]
pub(crate) struct ScaledRow {
    pub(crate) row: PivotRow,
    pub(crate) scalar: u8,
}

/// The span of the vectors that were inserted, which are all of one length over one field. Unlike an [`Echelon`], it
/// doesn't keep the vectors themselves, nor how the rows of its echelon form combine from them.
///
/// [`Echelon`]: crate::Echelon
#[derive(Drop)]
pub struct Subspace {
    field: Field,
    cols: usize,
    rows: Vec<PivotRow>,
    /// The pivots of the rows.
    pivots: PivotTable,
}

impl Model for Subspace {
    ghost use Rattle.axe_echelon.specs.Echelons.{EchelonValue};

    ghost Value = { EchelonValue };

    ghost use Rattle.axe_echelon.specs.Subspaces.{space_of, AreTabledRows};

    ghost view = { λ a. space_of a.field a.cols a.rows.items };

    ghost invariant = { λ a. AreTabledRows a.field a.cols a.rows.items a.pivots };
}

impl Subspace {
    /// The space of zero alone, of vectors of so many entries. It takes no memory until a vector is inserted.
    pub fn zero(alloc: Global, field: Field, cols: usize) -> Subspace
        requires some_column { 1 ≤ cols }
        requires columns_fit { cols ≤ most_columns }
        ensures no_rows { result ≡ record { order = field; cols = cols; rows = [] } }
        ensures well_formed { IsEchelon result }
    {
        Subspace {
            field,
            cols,
            rows: Vec::new(alloc),
            pivots: PivotTable::new(alloc),
        }
    }

    /// Makes room for so many vectors more that are new: the list of rows doesn't grow before these are inserted, of
    /// which no clause speaks. The space stays as it is.
    pub fn reserve(&mut self, rows: usize) -> Result<(), Refusal>
        ensures same { self.new ≡ self.old }
        ensures memory { Answers None (λ _. ⊤) result }
    {
        self.rows.reserve_exact(rows)?;
        Ok(())
    }

    /// The field of the vectors.
    pub fn field(&self) -> &Field
        ensures order { result.now ≡ self.now.order }
        ensures well_formed { IsEchelon self.now }
    {
        &self.field
    }

    /// How many entries each vector has.
    pub fn cols(&self) -> usize
        ensures count { result ≡ self.now.cols }
        ensures well_formed { IsEchelon self.now }
    {
        self.cols
    }

    /// The dimension.
    pub fn dim(&self) -> usize
        ensures count { result ≡ length self.now.rows }
        ensures well_formed { IsEchelon self.now }
    {
        self.rows.len()
    }

    /// The row of the echelon form at an index, counted from 0. The rows stand in the order in which the vectors that
    /// gave them were inserted.
    pub fn row(&self, index: usize) -> &Row
        requires { index < length self.now.rows }
        ensures value { result.now ≡ record { order = self.now.order; entries = get_or self.now.rows index [] } }
        ensures as_long { length result.now.entries ≡ self.now.cols }
        ensures row_well_formed { IsRow result.now }
        ensures well_formed { IsEchelon self.now }
    {
        &self.rows[index].row
    }

    /// The pivot of the row of the echelon form at an index: the column of its first entry other than 0, which is 1.
    /// The rows after it are 0 there.
    pub fn pivot(&self, index: usize) -> usize
        requires { index < length self.now.rows }
        ensures place { IsPivotOfRow self.now index result }
        ensures within { result < self.now.cols }
    {
        self.rows[index].pivot
    }

    /// Inserts a vector over the field with an entry for each column, and tells whether it is new: whether it was not
    /// in the space. A vector that is not new changes nothing, nor does one for which there is no memory.
    pub fn insert(&mut self, row: Row) -> Result<bool, Refusal>
        requires field { row.order ≡ self.old.order }
        requires fits { length row.entries ≡ self.old.cols }
        ensures exactly { IfOk result
            (λ new. IsTrue new ↔ ¬ (IsSpanned (number_field self.old.order) self.old.rows row.entries)) }
        ensures inserted { Answers None (λ new. SpansOneMore new self.old row.entries self.new) result }
        ensures unchanged { OnErr result (self.new ≡ self.old) }
        ensures well_formed { IsEchelon self.new }
    {
        // As many independent rows as columns span every vector.
        if self.dim() == self.cols() {
            return Ok(false);
        }
        let mut rest = row;
        self.reduce(&mut rest);
        let Some(next) = scaled_rest(rest) else {
            return Ok(false);
        };
        self.add_row(next.row)?;
        Ok(true)
    }

    /// Adds a row to the echelon form, and marks its pivot. For want of memory the space stays as it is.
    #[inline(always)]
    pub(crate) fn add_row(&mut self, row: PivotRow) -> Result<(), Refusal>
        requires { IsNextRow self.old row }
        ensures added { Answers None (λ _. self.new ≡ with_row_where true self.old row.row.entries) result }
        ensures unchanged { OnErr result (self.new ≡ self.old) }
        ensures well_formed { IsEchelon self.new }
    {
        let (pivot, index) = (row.pivot, self.rows.len());
        let block = row.row.bit_block(pivot / WORD);
        // The table has room first, and tells the same: so where the push finds no memory nothing has changed.
        self.pivots.make_room(self.cols)?;
        self.rows.push(row)?;
        self.pivots.mark(pivot, index, block);
        Ok(())
    }

    /// Makes a vector over the field the one vector of its coset modulo the space that is 0 at each pivot.
    pub fn reduce(&self, row: &mut Row)
        requires field { row.old.order ≡ self.now.order }
        requires fits { length row.old.entries ≡ self.now.cols }
        ensures representative { IsRepresentative (number_field self.now.order) self.now.rows
            row.old.entries row.new.entries }
        ensures same_field { row.new.order ≡ self.now.order }
        ensures as_long { length row.new.entries ≡ self.now.cols }
        ensures row_well_formed { IsRow row.new }
        ensures well_formed { IsEchelon self.now }
    {
        // `len` is called for what it ensures beside the number: that the entries are elements.
        prove!(row.len() == self.cols);
        match self.field.order() {
            5 | 7 if has_many_entries(row) => self.reduce_by_sums(row),
            2 if self.cols <= HELD_COLUMNS => self.reduce_held::<2>(row),
            4 if self.cols <= HELD_COLUMNS => self.reduce_held::<4>(row),
            8 if self.cols <= HELD_COLUMNS => self.reduce_held::<8>(row),
            3 if self.cols <= HELD_COLUMNS_OF_TRITS => self.reduce_held::<3>(row),
            9 if self.cols <= HELD_COLUMNS_OF_TRITS => self.reduce_held::<9>(row),
            2 => self.reduce_by_words::<2>(row),
            3 => self.reduce_by_words::<3>(row),
            4 => self.reduce_by_words::<4>(row),
            5 => self.reduce_by_words::<5>(row),
            7 => self.reduce_by_words::<7>(row),
            8 => self.reduce_by_words::<8>(row),
            _ => self.reduce_by_words::<9>(row),
        }
    }

    /// Clears the pivots from a vector as [`Subspace::reduce`] does, and keeps in a row of zeros the multiplier of each
    /// row that is added for that.
    pub(crate) fn reduce_with(&self, row: &mut Row, multipliers: &mut Row)
        requires field { row.old.order ≡ self.now.order }
        requires fits { length row.old.entries ≡ self.now.cols }
        requires zeros { multipliers.old
            ≡ record { order = row.old.order; entries = replicate (length row.old.entries) 0 } }
        ensures cleared { IsCleared self.now row.old row.new multipliers.new }
        ensures well_formed { IsEchelon self.now }
    {
        // `len` is called for what it ensures beside the number: that the entries are elements.
        prove!(row.len() == multipliers.len());
        match self.field.order() {
            5 | 7 if has_many_entries(row) => self.reduce_with_by_sums(row, multipliers),
            2 if self.cols <= HELD_COLUMNS => self.reduce_with_held::<2>(row, multipliers),
            4 if self.cols <= HELD_COLUMNS => self.reduce_with_held::<4>(row, multipliers),
            8 if self.cols <= HELD_COLUMNS => self.reduce_with_held::<8>(row, multipliers),
            3 if self.cols <= HELD_COLUMNS_OF_TRITS => self.reduce_with_held::<3>(row, multipliers),
            9 if self.cols <= HELD_COLUMNS_OF_TRITS => self.reduce_with_held::<9>(row, multipliers),
            2 => self.reduce_with_by_words::<2>(row, multipliers),
            3 => self.reduce_with_by_words::<3>(row, multipliers),
            4 => self.reduce_with_by_words::<4>(row, multipliers),
            5 => self.reduce_with_by_words::<5>(row, multipliers),
            7 => self.reduce_with_by_words::<7>(row, multipliers),
            8 => self.reduce_with_by_words::<8>(row, multipliers),
            _ => self.reduce_with_by_words::<9>(row, multipliers),
        }
    }

    /// The reduced basis: for each pivot, in ascending order, the vector of the space that is 1 there and 0 at all
    /// other pivots.
    pub fn reduced(&self, alloc: Global) -> Result<Matrix, Refusal>
        ensures basis { Answers None (IsReducedMatrix self.now) result }
        ensures matrix_well_formed { Answers None IsMatrix result }
        ensures well_formed { IsEchelon self.now }
    {
        // The unit vectors are the reduced basis of the whole space.
        if self.dim() == self.cols() {
            return Matrix::identity(alloc, *self.field(), self.cols());
        }
        self.reduced_rows(alloc)
    }

    /// The reduced basis, whose rows are made one for each pivot.
    fn reduced_rows(&self, alloc: Global) -> Result<Matrix, Refusal>
        ensures basis { Answers None (IsReducedMatrix self.now) result }
        ensures matrix_well_formed { Answers None IsMatrix result }
    {
        let mut reduced = Matrix::with_capacity(alloc, *self.field(), self.cols(), self.dim())?;
        for column in 0..self.cols() {
            if self.is_pivot(column) {
                let row = self.pivot_row(alloc, column)?;
                reduced.append(row)?;
            }
        }
        Ok(reduced)
    }

    /// The reduced basis, as [`Subspace::reduced`] gives it, made of the rows of the echelon form themselves: none is
    /// copied.
    pub fn into_reduced(self, alloc: Global) -> Result<Matrix, Refusal>
        ensures basis { Answers None (IsReducedMatrix self) result }
        ensures matrix_well_formed { Answers None IsMatrix result }
        ensures well_formed { IsEchelon self }
    {
        // The unit vectors are the reduced basis of the whole space.
        if self.dim() == self.cols() {
            let (field, cols) = (*self.field(), self.cols());
            drop(self);
            return Matrix::identity(alloc, field, cols);
        }
        self.into_reduced_rows(alloc)
    }

    /// The reduced basis, whose rows are those of the echelon form, each cleared at the pivots after its own.
    fn into_reduced_rows(self, alloc: Global) -> Result<Matrix, Refusal>
        ensures basis { Answers None (IsReducedMatrix self) result }
        ensures matrix_well_formed { Answers None IsMatrix result }
    {
        let cols = self.cols();
        let mut reduced = Matrix::with_capacity(alloc, *self.field(), cols, self.dim())?;
        let Subspace {
            mut rows,
            mut pivots,
            ..
        } = self;
        for column in 0..cols {
            if pivots.is_pivot(column) {
                let mut row = take_row(&mut rows, &mut pivots, column);
                clear_after(&mut row, column, &rows, &pivots);
                reduced.append(row)?;
            }
        }
        Ok(reduced)
    }

    /// The vector of the space that is 1 at a pivot and 0 at all other pivots.
    fn pivot_row(&self, alloc: Global, pivot: usize) -> Result<Row, Refusal>
        requires within { pivot < self.now.cols }
        requires pivot { IsPivot (number_field self.now.order) self.now.rows pivot }
        ensures { Answers None (IsPivotRow self.now pivot) result }
    {
        let field = *self.field();
        let mut row = Row::unit(alloc, field, self.cols(), pivot)?;
        self.reduce(&mut row);
        // The unit vector less what is left of it is in the space, and 0 at every other pivot, since what is left is 0
        // at each pivot. It is the negative of what is left, but for the 1 at the pivot.
        row.scale(field.neg(1));
        row.set(pivot, 1);
        Ok(row)
    }

    /// Whether a column is a pivot: whether some vector of the space has its first nonzero entry there.
    pub fn is_pivot(&self, column: usize) -> bool
        ensures { IsTrue result ↔ IsPivot (number_field self.now.order) self.now.rows column }
    {
        self.pivots.is_pivot(column)
    }
}

/// Whether so many entries of a row are other than 0 that it is reduced in less work by sums. Either way gives the same
/// row.
fn has_many_entries(row: &Row) -> bool {
    let mut count: usize = 0;
    for at in 0..row.len().div_ceil(WORD) {
        count = count.saturating_add(row.support_word(at).count_ones() as usize);
    }
    count >= row.len() / MANY_ENTRIES
}

/// What is left of a vector, scaled to 1 at its first entry other than 0, or `None` where nothing is left.
#[inline(always)]
pub(crate) fn scaled_rest(rest: Row) -> Option<ScaledRow>
    ensures { MatchOption result (IsZeroVector rest.entries) (IsScaledRest rest) }
{
    let Some(pivot) = rest.first_nonzero() else {
        return None;
    };
    let mut row = rest;
    let scalar = row.field().inv(row.get(pivot));
    row.scale(scalar);
    Some(ScaledRow {
        row: PivotRow { pivot, row },
        scalar,
    })
}

//! Matrices over a small finite field: lists of rows of one length.
#![tactic(auto)]

ghost use Rattle.std.specs.Prelude.{◌≡◌, ◌<◌, ◌≤◌, ◌↔◌, ◌++◌, ◌∷◌, [], length, IsTrue, None, IfOk, OnOk, OnErr, IfErr};
ghost use Rattle.axe_algebra.specs.Lists.{entry};
ghost use Rattle.axe_field.specs.Order.{IsElement};
ghost use Rattle.axe_row.specs.Rows.{IsRow};
ghost use Rattle.axe_row.specs.Refusals.{Answers};
ghost use Rattle.axe_matrix.specs.Limits.{most_rows, most_columns};
ghost use Rattle.axe_matrix.specs.Matrices.{IsMatrix, row_of, vector_product, has_only_zeros};

mod arithmetic;
mod by_values;
mod chosen;
mod forms;
mod held;
mod lines;
mod multiples;
mod parts;
mod products;
mod strips;
mod sums;
mod terms;
mod transposes;
mod vectors;

use axe_field::Field;
pub use axe_row::{Refusal, Row};
pub use chosen::ChosenColumns;
use std::alloc::Global;
use std::marker::Model;

/// The most rows that a matrix has.
pub const MAX_ROWS: usize = 4_096;

/// The most columns that a matrix has. It has at least one.
pub const MAX_COLUMNS: usize = 4_096;

/// The limits of the code are those of the definitions.
pub fn limits_are_named()
    ensures rows { MAX_ROWS ≡ most_rows }
    ensures columns { MAX_COLUMNS ≡ most_columns }
{}

/// A matrix over one of the seven fields: up to [`MAX_ROWS`] rows, perhaps none, and 1 to [`MAX_COLUMNS`] columns.
/// Rows and columns are counted from 0.
#[derive(Drop)]
pub struct Matrix {
    field: Field,
    cols: usize,
    rows: Vec<Row>,
}

impl Model for Matrix {
    ghost use Rattle.axe_matrix.specs.Matrices.{MatrixValue};

    ghost Value = { MatrixValue };

    ghost use Rattle.axe_matrix.specs.RowLists.{matrix_from_rows, MakeMatrix};

    ghost view = { λ a. matrix_from_rows a.field a.cols a.rows.items };

    ghost invariant = { λ a. MakeMatrix a.field a.cols a.rows.items };
}

impl Matrix {
    /// The matrix without rows. It takes no memory until a row is pushed.
    pub fn empty(alloc: Global, field: Field, cols: usize) -> Matrix
        requires some_column { 1 ≤ cols }
        requires columns_fit { cols ≤ most_columns }
        ensures no_rows { result ≡ record { order = field; cols = cols; rows = [] } }
        ensures well_formed { IsMatrix result }
    {
        Matrix {
            field,
            cols,
            rows: Vec::new(alloc),
        }
    }

    /// The matrix without rows, whose list of rows has memory for so many: it does not grow before there are more of
    /// them. No clause says so: a list's value is its items alone.
    pub fn with_capacity(
        alloc: Global,
        field: Field,
        cols: usize,
        rows: usize,
    ) -> Result<Matrix, Refusal>
        requires some_column { 1 ≤ cols }
        requires columns_fit { cols ≤ most_columns }
        requires rows_fit { rows ≤ most_rows }
        ensures no_rows { Answers None (λ matrix. matrix ≡ record { order = field; cols = cols; rows = [] }) result }
        ensures well_formed { IfOk result IsMatrix }
    {
        let rows = Vec::with_capacity(alloc, rows)?;
        Ok(Matrix { field, cols, rows })
    }

    /// Appends a row of as many entries as the matrix has columns, over its field. For want of memory the row is handed
    /// back, and the matrix is unchanged.
    #[inline(always)]
    pub fn push_row(&mut self, row: Row) -> Result<(), Row>
        requires field { row.order ≡ self.old.order }
        requires fits { length row.entries ≡ self.old.cols }
        requires room { length self.old.rows < most_rows }
        ensures appended { OnOk result (self.new ≡ record self.old { rows = self.old.rows ++ row.entries ∷ [] }) }
        ensures handed_back { IfErr result (λ refused. refused ≡ row) }
        ensures unchanged { OnErr result (self.new ≡ self.old) }
        ensures same_field { self.new.order ≡ self.old.order }
        ensures same_columns { self.new.cols ≡ self.old.cols }
        ensures well_formed { IsMatrix self.new }
    {
        // `len` is called for what it ensures beside the length: that the row's entries are elements of its field.
        prove!(row.len() == self.cols);
        self.rows.push(row).map_err(|failed| failed.value)
    }

    /// Appends a row as [`Matrix::push_row`] does; for want of memory the row is dropped, and the matrix is unchanged.
    #[inline(always)]
    pub fn append(&mut self, row: Row) -> Result<(), Refusal>
        requires field { row.order ≡ self.old.order }
        requires fits { length row.entries ≡ self.old.cols }
        requires room { length self.old.rows < most_rows }
        ensures appended { Answers None
            (λ _. self.new ≡ record self.old { rows = self.old.rows ++ row.entries ∷ [] }) result }
        ensures unchanged { OnErr result (self.new ≡ self.old) }
        ensures well_formed { IsMatrix self.new }
    {
        self.push_row(row).map_err(|_| Refusal::Memory)
    }

    /// A row vector times the matrix: its entry j is the sum over t of entry t of the vector times entry t, j of the
    /// matrix. The vector is over the matrix's field, and has as many entries as the matrix has rows.
    #[inline(always)]
    pub fn vec_mul(&self, alloc: Global, vector: &Row) -> Result<Row, Refusal>
        requires field { vector.now.order ≡ self.now.order }
        requires fits { length vector.now.entries ≡ length self.now.rows }
        ensures product { Answers None (λ product. product ≡ vector_product vector.now self.now) result }
        ensures well_formed { Answers None IsRow result }
    {
        let mut product = Row::zero(alloc, *self.field(), self.cols())?;
        // `len` is called for what it ensures beside the length: that the entries are elements.
        prove!(vector.len() == self.rows());
        self.add_vec_mul(1, vector, &mut product);
        Ok(product)
    }

    /// The field of the entries.
    pub fn field(&self) -> &Field
        ensures order { result.now ≡ self.now.order }
        ensures well_formed { IsMatrix self.now }
    {
        &self.field
    }

    /// How many rows the matrix has.
    pub fn rows(&self) -> usize
        ensures count { result ≡ length self.now.rows }
        ensures well_formed { IsMatrix self.now }
    {
        self.rows.len()
    }

    /// How many columns the matrix has.
    pub fn cols(&self) -> usize
        ensures count { result ≡ self.now.cols }
        ensures well_formed { IsMatrix self.now }
    {
        self.cols
    }

    /// The row at an index.
    pub fn row(&self, index: usize) -> &Row
        requires { index < length self.now.rows }
        ensures value { result.now ≡ row_of self.now index }
        ensures as_long { length result.now.entries ≡ self.now.cols }
        ensures row_well_formed { IsRow result.now }
        ensures well_formed { IsMatrix self.now }
    {
        &self.rows[index]
    }

    /// The entry at a row and a column.
    pub fn get(&self, row: usize, column: usize) -> u8
        requires row { row < length self.now.rows }
        requires column { column < self.now.cols }
        ensures value { result ≡ entry self.now.rows row column }
        ensures element { IsElement self.now.order result }
        ensures well_formed { IsMatrix self.now }
    {
        self.row(row).get(column)
    }

    /// Whether every entry is 0: whether the rows span the zero space. A matrix without rows has only zeros. It takes no
    /// memory.
    pub fn has_only_zeros(&self) -> bool
        ensures { result ≡ has_only_zeros self.now.rows }
    {
        for index in 0..self.rows() {
            if !self.row(index).is_zero() {
                return false;
            }
        }
        true
    }

    /// Whether two matrices are equal: one field, one shape, and the same entries.
    pub fn same(&self, other: &Matrix) -> bool
        ensures { IsTrue result ↔ (self.now ≡ other.now) }
    {
        if self.cols() != other.cols()
            || self.rows() != other.rows()
            || self.field() != other.field()
        {
            return false;
        }
        for index in 0..self.rows() {
            if !self.row(index).same(other.row(index)) {
                return false;
            }
        }
        true
    }
}

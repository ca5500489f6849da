//! The lifted rows of a section.

ghost use Rattle.std.specs.Prelude.{◌≡◌, ◌+◌, ◌<◌, ◌≤◌, ◌++◌, length, map, get_or, All, None, IfOk};
ghost use Rattle.axe_algebra.specs.Lists.{unit_row};
ghost use Rattle.axe_algebra.specs.ListArithmetic.{combination};
ghost use Rattle.axe_field.specs.NumberFields.{number_field};
ghost use Rattle.axe_row.specs.Refusals.{Answers};
ghost use Rattle.axe_matrix.specs.Limits.{most_rows, most_columns};
ghost use Rattle.axe_matrix.specs.Matrices.{IsMatrix, identity_matrix, matrix_product, rows_at};
ghost use Rattle.axe_chop.specs.Vectors.{matrix_of_unit_vectors};

use axe_field::Field;
use axe_matrix::{Matrix, Refusal, Row};
use std::alloc::{AllocError, Global};
use std::marker::Model;

/// Vectors of a module, by which rows of coordinates are lifted to vectors of the module: the rows of a matrix. Those
/// that are unit vectors are kept as numbers.
#[derive(Drop)]
pub(crate) struct LiftedRows {
    kept: KeptRows,
}

/// What is kept of lifted rows.
#[derive(Drop)]
pub(crate) enum KeptRows {
    /// All unit vectors of a dimension, in order.
    Identity {
        field: Field,
        dim: usize,
    },
    /// The unit vectors of these columns.
    Units {
        field: Field,
        dim: usize,
        columns: Vec<usize>,
    },
    /// The rows themselves.
    Rows(Matrix),
}

impl Model for LiftedRows {
    ghost use Rattle.axe_matrix.specs.Matrices.{MatrixValue};

    ghost Value = { MatrixValue };

    ghost use Rattle.axe_chop.specs.Kept.{kept_rows, AreKept};

    ghost view = { λ a. kept_rows a.kept };

    ghost invariant = { λ a. AreKept a.kept };
}

impl LiftedRows {
    /// All unit vectors of a dimension, in order. They take no memory.
    pub(crate) fn identity(field: Field, dim: usize) -> LiftedRows
        requires some_column { 1 ≤ dim }
        requires columns_fit { dim ≤ most_columns }
        ensures identity { result ≡ identity_matrix field dim }
    {
        LiftedRows {
            kept: KeptRows::Identity { field, dim },
        }
    }

    /// The rows of a matrix.
    pub(crate) fn of_matrix(rows: Matrix) -> LiftedRows
        ensures same { result ≡ rows }
    {
        // `cols` is called for what it ensures beside the number: that the matrix is one.
        prove!(rows.cols() >= 1);
        LiftedRows {
            kept: KeptRows::Rows(rows),
        }
    }

    /// Appends the rows to a matrix. For want of memory only some first of them are appended.
    pub(crate) fn append_to(&self, alloc: Global, basis: &mut Matrix) -> Result<(), Refusal>
        requires field { self.now.order ≡ basis.old.order }
        requires fits { self.now.cols ≡ basis.old.cols }
        requires room { length basis.old.rows + length self.now.rows ≤ most_rows }
        ensures rows { Answers None
            (λ _. basis.new ≡ record basis.old { rows = basis.old.rows ++ self.now.rows }) result }
    {
        match &self.kept {
            KeptRows::Identity { field, dim } => {
                let units = Matrix::identity(alloc, *field, *dim)?;
                basis.append_matrix(units)
            }
            KeptRows::Units {
                field,
                dim,
                columns,
            } => {
                let units = units_at(alloc, *field, *dim, columns)?;
                basis.append_matrix(units)
            }
            KeptRows::Rows(rows) => basis.append_rows(alloc, rows),
        }
    }

    /// The product of a matrix with the rows: the vectors that have its rows as coordinates.
    pub(crate) fn lift(&self, alloc: Global, coordinates: Matrix) -> Result<Matrix, Refusal>
        requires field { coordinates.order ≡ self.now.order }
        requires fits { coordinates.cols ≡ length self.now.rows }
        ensures lifted { Answers None (λ lifted. lifted ≡ matrix_product coordinates self.now) result }
        ensures well_formed { IfOk result IsMatrix }
    {
        // `cols` is called for what it ensures beside the number: that the matrix is one.
        prove!(coordinates.cols() >= 1);
        match &self.kept {
            KeptRows::Identity { .. } => Ok(coordinates),
            KeptRows::Units { dim, columns, .. } => {
                rows_with_entries_at(alloc, &coordinates, *dim, columns)
            }
            KeptRows::Rows(rows) => coordinates.mul(alloc, rows),
        }
    }

    /// What [`LiftedRows::lift`] gives of a matrix that is lent.
    pub(crate) fn lift_copy(&self, alloc: Global, coordinates: &Matrix) -> Result<Matrix, Refusal>
        requires field { coordinates.now.order ≡ self.now.order }
        requires fits { coordinates.now.cols ≡ length self.now.rows }
        ensures lifted { Answers None (λ lifted. lifted ≡ matrix_product coordinates.now self.now) result }
        ensures well_formed { IfOk result IsMatrix }
    {
        let copy = coordinates.copy(alloc)?;
        self.lift(alloc, copy)
    }

    /// The vectors that have the rows of a matrix as coordinates, and the rows at some places, in their order.
    pub(crate) fn cut(
        self,
        alloc: Global,
        coordinates: Matrix,
        places: Vec<usize>,
    ) -> Result<(LiftedRows, LiftedRows), Refusal>
        requires field { coordinates.order ≡ self.order }
        requires fits { coordinates.cols ≡ length self.rows }
        requires within { All (λ place. place < length self.rows) places.items }
        requires places_fit { length places.items ≤ most_rows }
        ensures lifted { Answers None (λ parts. parts.0 ≡ matrix_product coordinates self) result }
        ensures chosen { Answers None (λ parts. parts.1 ≡ rows_at places.items self) result }
        ensures well_formed { IfOk result (λ parts. IsMatrix parts.0) }
    {
        let lifted = self.lift(alloc, coordinates)?;
        let chosen = self.select(alloc, places)?;
        Ok((LiftedRows::of_matrix(lifted), chosen))
    }

    /// The rows at some places, in their order.
    fn select(self, alloc: Global, places: Vec<usize>) -> Result<LiftedRows, Refusal>
        requires within { All (λ place. place < length self.rows) places.items }
        requires places_fit { length places.items ≤ most_rows }
        ensures { Answers None (λ chosen. chosen ≡ rows_at places.items self) result }
    {
        let LiftedRows { kept } = self;
        match kept {
            KeptRows::Identity { field, dim } => {
                let columns = places;
                Ok(LiftedRows {
                    kept: KeptRows::Units {
                        field,
                        dim,
                        columns,
                    },
                })
            }
            KeptRows::Units {
                field,
                dim,
                columns,
            } => {
                let columns = columns_at(alloc, &columns, &places)?;
                Ok(LiftedRows {
                    kept: KeptRows::Units {
                        field,
                        dim,
                        columns,
                    },
                })
            }
            KeptRows::Rows(rows) => {
                let chosen = rows.rows_at(alloc, &places)?;
                Ok(LiftedRows::of_matrix(chosen))
            }
        }
    }
}

/// The unit vectors of some columns, in their order, as the rows of a matrix.
fn units_at(alloc: Global, field: Field, dim: usize, columns: &[usize]) -> Result<Matrix, Refusal>
    requires some_column { 1 ≤ dim }
    requires columns_fit { dim ≤ most_columns }
    requires within { All (λ column. column < dim) columns.now }
    requires rows_fit { length columns.now ≤ most_rows }
    ensures units { Answers None (λ units. units ≡ matrix_of_unit_vectors field dim columns.now) result }
    ensures well_formed { IfOk result IsMatrix }
{
    let mut units = Matrix::with_capacity(alloc, field, dim, columns.len())?;
    for column in columns {
        let unit = Row::unit(alloc, field, dim, *column)?;
        units.append(unit)?;
    }
    Ok(units)
}

/// The product of a matrix with the unit vectors of some columns: the rows of that dimension with the entries of the
/// matrix at these columns.
fn rows_with_entries_at(
    alloc: Global,
    coordinates: &Matrix,
    dim: usize,
    columns: &[usize],
) -> Result<Matrix, Refusal>
    requires some_column { 1 ≤ dim }
    requires columns_fit { dim ≤ most_columns }
    requires within { All (λ column. column < dim) columns.now }
    requires fits { coordinates.now.cols ≡ length columns.now }
    ensures product { Answers None (λ product. product
        ≡ matrix_product coordinates.now (matrix_of_unit_vectors coordinates.now.order dim columns.now)) result }
    ensures well_formed { IfOk result IsMatrix }
{
    let count = coordinates.rows();
    let mut product = Matrix::with_capacity(alloc, *coordinates.field(), dim, count)?;
    for index in 0..count {
        let row = row_with_entries_at(alloc, coordinates.row(index), dim, columns)?;
        product.append(row)?;
    }
    Ok(product)
}

/// The combination of the unit vectors of some columns with the entries of a row: the entries, each added at its
/// column.
fn row_with_entries_at(
    alloc: Global,
    row: &Row,
    dim: usize,
    columns: &[usize],
) -> Result<Row, Refusal>
    requires within { All (λ column. column < dim) columns.now }
    requires fits { length row.now.entries ≡ length columns.now }
    ensures combination { Answers None (λ placed. placed ≡ record {
      order = row.now.order;
      entries = combination (number_field row.now.order) dim row.now.entries (map (unit_row dim) columns.now);
    }) result }
{
    let field = *row.field();
    let mut placed = Row::zero(alloc, field, dim)?;
    for place in 0..columns.len() {
        let column = columns[place];
        let sum = field.add(placed.get(column), row.get(place));
        placed.set(column, sum);
    }
    Ok(placed)
}

/// The columns at some places of a list of them, in the order of the places.
fn columns_at(alloc: Global, columns: &[usize], places: &[usize]) -> Result<Vec<usize>, AllocError>
    requires within { All (λ place. place < length columns.now) places.now }
    ensures { IfOk result (λ chosen. chosen.items ≡ map (λ place. get_or columns.now place 0) places.now) }
{
    let mut chosen = Vec::with_capacity(alloc, places.len())?;
    for place in places {
        chosen.push(columns[*place])?;
    }
    Ok(chosen)
}

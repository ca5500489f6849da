//! The rows of a conjugate by a standard basis: a unit vector where the image of a row of the basis is known to be a row
//! of it, and else a row of a product.

ghost use Rattle.std.specs.Prelude.{◌≡◌, ◌<◌, ◌≤◌, length, All, None, IfOk};
ghost use Rattle.axe_row.specs.Refusals.{Answers};
ghost use Rattle.axe_matrix.specs.Limits.{most_rows};
ghost use Rattle.axe_matrix.specs.Matrices.{IsMatrix};
ghost use Rattle.axe_action.specs.KnownRows.{AreKnownImages, AreSorted, IsRowIn, row_in, rows_in};

use axe_matrix::{Matrix, Refusal, Row};
use axe_spin::Origin;
use std::alloc::Global;

/// What a row of a conjugate is.
#[derive(Clone, Copy)]
pub(crate) enum KnownRow {
    /// The unit vector of a column.
    UnitVector(usize),
    /// A row of the products of the other rows, by its number there.
    ProductRow(usize),
}

/// The rows of a conjugate, sorted.
#[derive(Drop)]
pub(crate) struct SortedRows {
    /// The numbers of the rows that are no known unit vectors, ascending.
    pub others: Vec<usize>,
    /// What each row is.
    pub rows: Vec<KnownRow>,
}

/// For each of so many rows of a standard basis the number of the row that is its image under a generator, where the
/// origins tell of one.
pub(crate) fn known_images(
    alloc: Global,
    origins: &[Origin],
    generator: usize,
    count: usize,
) -> Result<Vec<Option<usize>>, Refusal>
    requires { All (λ origin. origin.source < count) origins.now }
    ensures { Answers None (λ images. AreKnownImages origins.now generator count images.items) result }
{
    let mut images = no_images(alloc, count)?;
    for (number, origin) in origins.iter().enumerate() {
        if origin.generator == generator {
            images[origin.source] = Some(number + 1);
        }
    }
    Ok(images)
}

/// `None` for each of so many rows.
fn no_images(alloc: Global, count: usize) -> Result<Vec<Option<usize>>, Refusal>
    ensures { Answers None
        (λ images. (length images.items ≡ count) × All (λ image. image ≡ None) images.items) result }
{
    let mut images = Vec::with_capacity(alloc, count)?;
    for _index in 0..count {
        images.push(None)?;
    }
    Ok(images)
}

/// Sorts the rows of a conjugate by whether the number of their image is known: such a row is the unit vector of that
/// number.
pub(crate) fn sort_rows(alloc: Global, images: &[Option<usize>]) -> Result<SortedRows, Refusal>
    ensures { Answers None
        (λ sorted. AreSorted images.now (length images.now) sorted.others.items sorted.rows.items) result }
{
    let mut others = Vec::new(alloc);
    let mut rows = Vec::new(alloc);
    for (index, image) in images.iter().enumerate() {
        let row = match image {
            Some(column) => KnownRow::UnitVector(*column),
            None => {
                let number = others.len();
                others.push(index)?;
                KnownRow::ProductRow(number)
            }
        };
        rows.push(row)?;
    }
    Ok(SortedRows { others, rows })
}

/// The matrix of these rows, in their order.
pub(crate) fn put_rows(
    alloc: Global,
    products: &Matrix,
    rows: &[KnownRow],
) -> Result<Matrix, Refusal>
    requires within { All (IsRowIn products.now) rows.now }
    requires rows_fit { length rows.now ≤ most_rows }
    ensures rows { Answers None (λ matrix. matrix ≡ rows_in products.now rows.now) result }
    ensures well_formed { IfOk result IsMatrix }
{
    let mut matrix = Matrix::with_capacity(alloc, *products.field(), products.cols(), rows.len())?;
    for known in rows {
        let row = known_row(alloc, products, *known)?;
        matrix.append(row)?;
    }
    Ok(matrix)
}

/// One row of a conjugate.
fn known_row(alloc: Global, products: &Matrix, row: KnownRow) -> Result<Row, Refusal>
    requires { IsRowIn products.now row }
    ensures { Answers None
        (λ made. made ≡ record { order = products.now.order; entries = row_in products.now row }) result }
{
    match row {
        KnownRow::UnitVector(column) => Row::unit(
            alloc,
            *products.field(),
            products.cols(),
            column,
        ),
        KnownRow::ProductRow(number) => products.row(number).copy(alloc),
    }
}

//! Null vectors of p(x), for a polynomial p and a square matrix x, by a sum in place of an elimination.
//!
//! A row u is a null vector of p(x) where the sum of u, u x, u x^2 and so on, each times the coefficient of p of its
//! place, is zero: that sum is u p(x). Then each of these rows is one, as p(x) commutes with x.

ghost use Rattle.std.specs.Prelude.{◌≡◌, ◌+◌, ◌<◌, ◌≤◌, length, None, IfSome};
ghost use Rattle.axe_algebra.specs.Lists.{IsSquareOver};
ghost use Rattle.axe_polynomial_algebra.specs.PolynomialsOfLists.{degree_of};
ghost use Rattle.axe_field.specs.NumberFields.{number_field};
ghost use Rattle.axe_row.specs.Refusals.{Answers};
ghost use Rattle.axe_matrix.specs.Limits.{most_columns, most_rows};
ghost use Rattle.axe_norton.specs.Misfits.{IsBasisLike, IsRowLike};
ghost use Rattle.axe_norton.specs.NullRows.{AreFirstPowers, AreNullPowers};

use crate::cyclic::polynomial_row;
use axe_matrix::{MAX_ROWS, Matrix, Refusal, Row};
use axe_poly::{CyclicBasis, Poly};
use std::alloc::Global;

/// The rows u, u x, u x^2 and so on, one more than p has degrees, for a null vector u of p(x) other than zero: each of
/// them is one then. They are made from the cyclic basis of a vector e: where its minimal polynomial g is p h, u is
/// e h(x). `None` where that u is zero or no null vector of p(x), and where there are fewer rows in the basis than p has
/// degrees; neither is where p divides g, but no clause says so. Nor is there room for more rows than a matrix may have.
pub(crate) fn null_rows(
    alloc: Global,
    matrix: &Matrix,
    poly: &Poly,
    basis: &CyclicBasis,
) -> Result<Option<Matrix>, Refusal>
    requires square { IsSquareOver (number_field matrix.now.order) matrix.now.cols matrix.now.rows }
    requires field { poly.now.order ≡ matrix.now.order }
    requires basis { IsBasisLike matrix.now basis.now }
    ensures { Answers None (λ found. IfSome found (AreNullPowers matrix.now poly.now)) result }
{
    if basis.minimal.degree() < poly.degree() || poly.degree() >= MAX_ROWS {
        return Ok(None);
    }
    // `rows` is called for what it ensures: that there are no more rows than a matrix may have.
    prove!(basis.rows.rows() == basis.minimal.degree());
    let quotient = divided(alloc, poly, &basis.minimal)?;
    let vector = combined(alloc, &basis.rows, &quotient, poly.degree())?;
    if vector.is_zero() {
        return Ok(None);
    }
    let rows = powers(alloc, matrix, vector, poly.degree() + 1)?;
    if !polynomial_row(alloc, &rows, poly, 0)?.is_zero() {
        return Ok(None);
    }
    Ok(Some(rows))
}

/// The rows v, v x, v x^2 and so on, so many, for a row v and a square matrix x.
fn powers(alloc: Global, matrix: &Matrix, vector: Row, count: usize) -> Result<Matrix, Refusal>
    requires square { IsSquareOver (number_field matrix.now.order) matrix.now.cols matrix.now.rows }
    requires vector { IsRowLike matrix.now.order matrix.now.cols vector }
    requires some { 1 ≤ count }
    requires few { count ≤ most_rows }
    ensures { Answers None (AreFirstPowers matrix.now vector.entries count) result }
{
    let mut rows = Matrix::with_capacity(alloc, *matrix.field(), matrix.cols(), count)?;
    rows.append(vector)?;
    for place in 1..count {
        let row = matrix.vec_mul(alloc, rows.row(place - 1))?;
        rows.append(row)?;
    }
    Ok(rows)
}

/// The combination of the first rows of a matrix with the entries of a row from a first one on. No clause says so.
fn combined(alloc: Global, rows: &Matrix, entries: &Row, first: usize) -> Result<Row, Refusal>
    requires field { entries.now.order ≡ rows.now.order }
    requires fits { length entries.now.entries ≤ first + length rows.now.rows }
    ensures { Answers None (IsRowLike rows.now.order rows.now.cols) result }
{
    let mut row = Row::zero(alloc, *rows.field(), rows.cols())?;
    for index in first..entries.len() {
        row.add_scaled(entries.get(index), rows.row(index - first));
    }
    Ok(row)
}

/// The division of a polynomial f by p: its entries from the degree of p on are the coefficients of the quotient, the
/// constant one first. No clause says so.
fn divided(alloc: Global, poly: &Poly, multiple: &Poly) -> Result<Row, Refusal>
    requires field { poly.now.order ≡ multiple.now.order }
    requires divisor { degree_of poly.now.coefficients ≤ degree_of multiple.now.coefficients }
    requires bounded { degree_of multiple.now.coefficients ≤ most_columns }
    ensures { Answers None (λ row. IsRowLike multiple.now.order (degree_of multiple.now.coefficients + 1) row) result }
{
    let mut rest = coefficients(alloc, multiple)?;
    for place in (0..multiple.degree() - poly.degree() + 1).rev() {
        take_multiple(&mut rest, poly, place);
    }
    Ok(rest)
}

/// The coefficients of a polynomial as a row, the constant one first.
fn coefficients(alloc: Global, poly: &Poly) -> Result<Row, Refusal>
    requires bounded { degree_of poly.now.coefficients ≤ most_columns }
    ensures { Answers None (IsRowLike poly.now.order (degree_of poly.now.coefficients + 1)) result }
{
    let count = poly.degree() + 1;
    let mut row = Row::zero(alloc, *poly.field(), count)?;
    for exponent in 0..count {
        row.set(exponent, poly.coefficient(exponent));
    }
    Ok(row)
}

/// One step of a division by p: takes the entry as far above a place as p has degrees times p, shifted to that place,
/// from the row, and leaves that entry as it is.
fn take_multiple(row: &mut Row, poly: &Poly, place: usize)
    requires field { poly.now.order ≡ row.old.order }
    requires fits { place + degree_of poly.now.coefficients < length row.old.entries }
    ensures { IsRowLike row.old.order (length row.old.entries) row.new }
{
    // `len` is called for what it ensures: that the entries can be counted.
    prove!(place < row.len());
    let field = *poly.field();
    let factor = field.neg(row.get(place + poly.degree()));
    for exponent in 0..poly.degree() {
        let product = field.mul(factor, poly.coefficient(exponent));
        let entry = field.add(row.get(place + exponent), product);
        row.set(place + exponent, entry);
    }
}

//! The spaces of p(x) where the first unit vector e is cyclic: where e, e x, e x^2 and so on are a basis of all vectors.
//!
//! There p(x) need not be made. A divisor p of the minimal polynomial g of e fits x. So as many independent null vectors
//! of p(x) as p has degrees span its null space: e (g/p)(x) is one, and these times x and so on. And what the rows of
//! p(x) span, e p(x), e x p(x), e x^2 p(x) and so on span.

ghost use Rattle.std.specs.Prelude.{◌≡◌, ◌+◌, ◌-◌, ◌<◌, ◌≤◌, length, None, IfSome};
ghost use Rattle.axe_algebra.specs.Lists.{IsSquareOver};
ghost use Rattle.axe_polynomial_algebra.specs.PolynomialsOfLists.{Divides, Fits, degree_of};
ghost use Rattle.axe_field.specs.NumberFields.{number_field};
ghost use Rattle.axe_row.specs.Refusals.{Answers};
ghost use Rattle.axe_poly.specs.Powers.{IsCyclicBasis};
ghost use Rattle.axe_norton.specs.SmallFactors.{first_unit_row};
ghost use Rattle.axe_norton.specs.Misfits.{IsBasisLike};
ghost use Rattle.axe_norton.specs.ValueSpaces.{FitsWithSpaces, IsNullSpaceAt, IsPolynomialRow, ArePolynomialRows};

use crate::null_rows::null_rows;
use crate::value_spaces::ValueSpaces;
use axe_echelon::row_space;
use axe_matrix::{Matrix, Refusal, Row};
use axe_poly::{CyclicBasis, Poly};
use std::alloc::Global;

/// The spaces of p(x) for a divisor p of the minimal polynomial of the first unit vector under a square matrix x, where
/// that vector is cyclic: p fits x then. `None` where it isn't, or where no null vector of p(x) is seen that generates
/// its null space; there always is one, but no clause says so.
pub(crate) fn spaces_where_cyclic(
    alloc: Global,
    matrix: &Matrix,
    first: &CyclicBasis,
    poly: &Poly,
) -> Result<Option<ValueSpaces>, Refusal>
    requires square { IsSquareOver (number_field matrix.now.order) matrix.now.cols matrix.now.rows }
    requires field { poly.now.order ≡ matrix.now.order }
    requires first { IsCyclicBasis matrix.now (first_unit_row matrix.now) first.now }
    requires divides { Divides (number_field matrix.now.order) poly.now.coefficients first.now.minimal.coefficients }
    ensures { Answers None (λ found. IfSome found (FitsWithSpaces matrix.now poly.now)) result }
{
    // `degree` is called for what it ensures beside the number: that the polynomial is monic.
    prove!(poly.degree() >= 1);
    if first.minimal.degree() != matrix.cols() {
        return Ok(None);
    }
    let Some(null_space) = null_space_where_seen(alloc, matrix, first, poly)? else {
        return Ok(None);
    };
    let rows = polynomial_rows(alloc, &first.rows, poly)?;
    Ok(Some(ValueSpaces { null_space, rows }))
}

/// The null space of p(x) for a polynomial p that fits a square matrix x: the span of null vectors of p(x) from the space
/// that a vector e generates, by the cyclic basis of e, where as many of them are independent as p has degrees.
fn null_space_where_seen(
    alloc: Global,
    matrix: &Matrix,
    basis: &CyclicBasis,
    poly: &Poly,
) -> Result<Option<Matrix>, Refusal>
    requires square { IsSquareOver (number_field matrix.now.order) matrix.now.cols matrix.now.rows }
    requires field { poly.now.order ≡ matrix.now.order }
    requires basis { IsBasisLike matrix.now basis.now }
    requires fits { Fits (number_field matrix.now.order) matrix.now.rows poly.now.coefficients }
    ensures { Answers None (λ found. IfSome found (IsNullSpaceAt matrix.now poly.now)) result }
{
    let Some(rows) = null_rows(alloc, matrix, poly, basis)? else {
        return Ok(None);
    };
    let space = row_space(alloc, &rows)?;
    if space.dim() != poly.degree() {
        return Ok(None);
    }
    Ok(Some(space.into_reduced(alloc)?))
}

/// The rows e p(x), e x p(x), e x^2 p(x) and so on, where those of the basis are e, e x, e x^2 and so on, as many as can
/// be made of these.
fn polynomial_rows(alloc: Global, basis: &Matrix, poly: &Poly) -> Result<Matrix, Refusal>
    requires field { poly.now.order ≡ basis.now.order }
    requires enough { degree_of poly.now.coefficients ≤ length basis.now.rows }
    ensures { Answers None (ArePolynomialRows basis.now poly.now
        (length basis.now.rows - degree_of poly.now.coefficients)) result }
{
    let count = basis.rows() - poly.degree();
    let mut rows = Matrix::with_capacity(alloc, *basis.field(), basis.cols(), count)?;
    for start in 0..count {
        let row = polynomial_row(alloc, basis, poly, start)?;
        rows.append(row)?;
    }
    Ok(rows)
}

/// The row e x^i p(x), where those of the basis are e, e x, e x^2 and so on: the sum of its rows from row i on, each
/// times the coefficient of p of its place. As p is monic, the last comes first, as it is.
pub(crate) fn polynomial_row(
    alloc: Global,
    basis: &Matrix,
    poly: &Poly,
    start: usize,
) -> Result<Row, Refusal>
    requires field { poly.now.order ≡ basis.now.order }
    requires within { start + degree_of poly.now.coefficients < length basis.now.rows }
    ensures { Answers None (IsPolynomialRow basis.now poly.now start) result }
{
    // `rows` is called for what it ensures: that there are no more rows than a matrix may have.
    prove!(start < basis.rows());
    let degree = poly.degree();
    let mut row = basis.row(start + degree).copy(alloc)?;
    for exponent in 0..degree {
        row.add_scaled(poly.coefficient(exponent), basis.row(start + exponent));
    }
    Ok(row)
}

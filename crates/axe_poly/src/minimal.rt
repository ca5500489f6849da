//! Minimal polynomials of row vectors, and bases of the spaces that these generate under a square matrix.

ghost use Rattle.std.specs.Prelude.{◌≡◌, ◌<◌, ◌≤◌, length, None, []};
ghost use Rattle.axe_row.specs.Operations.{IsZeroVector};
ghost use Rattle.axe_row.specs.Refusals.{Answers};
ghost use Rattle.axe_matrix.specs.Limits.{most_columns};
ghost use Rattle.axe_poly.specs.Polys.{IsMinimalPolynomialOf};
ghost use Rattle.axe_poly.specs.Powers.{IsCyclicBasis, IsNextPower, matrix_of_rows, power_less};

use crate::poly::Poly;
use axe_echelon::Echelon;
use axe_matrix::{Matrix, Refusal, Row};
use std::alloc::Global;

/// The basis v, v x, v x^2 and so on of the space that a row vector v generates under a square matrix x, as many rows
/// as the minimal polynomial of v under x has degrees; and that polynomial.
#[derive(Drop)]
pub struct CyclicBasis {
    pub rows: Matrix,
    pub minimal: Poly,
}

/// The minimal polynomial of a row vector v other than zero under a square matrix x: the monic polynomial f of least
/// degree with v f(x) = 0. It takes as many products of a vector with the matrix as the degree, and one elimination.
pub fn minimal_of_vector(alloc: Global, matrix: &Matrix, vector: &Row) -> Result<Poly, Refusal>
    requires field { vector.now.order ≡ matrix.now.order }
    requires square { length matrix.now.rows ≡ matrix.now.cols }
    requires fits { length vector.now.entries ≡ matrix.now.cols }
    requires nonzero { ¬ (IsZeroVector vector.now.entries) }
    ensures { Answers None (IsMinimalPolynomialOf matrix.now vector.now) result }
{
    Ok(cyclic_basis(alloc, matrix, vector)?.minimal)
}

/// The basis v, v x, v x^2 and so on of the space that a row vector v other than zero generates under a square matrix
/// x, and the minimal polynomial of v. The vector is over the matrix's field, and has as many entries as the matrix has
/// rows. It takes as many products of a vector with the matrix as the polynomial has degrees, and one elimination. It
/// refuses for want of memory alone.
pub fn cyclic_basis(alloc: Global, matrix: &Matrix, vector: &Row) -> Result<CyclicBasis, Refusal>
    requires field { vector.now.order ≡ matrix.now.order }
    requires square { length matrix.now.rows ≡ matrix.now.cols }
    requires fits { length vector.now.entries ≡ matrix.now.cols }
    requires nonzero { ¬ (IsZeroVector vector.now.entries) }
    ensures { Answers None (IsCyclicBasis matrix.now vector.now) result }
{
    // `len` is called for what it ensures beside the number: that the vector's entries are elements.
    prove!(vector.len() == matrix.cols());
    let mut powers = Echelon::new(alloc, *matrix.field(), matrix.cols());
    let mut rows = Matrix::empty(alloc, *matrix.field(), matrix.cols());
    let next = insert_powers(alloc, matrix, vector, &mut powers, &mut rows)?;
    // Called for what it ensures beside the number: that the rows are a matrix.
    prove!(rows.cols() == matrix.cols());
    match powers.coordinates(alloc, &next)? {
        Some(coordinates) => {
            let minimal = power_less(alloc, &coordinates)?;
            Ok(CyclicBasis { rows, minimal })
        }
        // The last power is in the span of those before it.
        None => unreachable!(),
    }
}

/// Inserts v, v x, v x^2 and so on into an echelon form without rows, up to the first that is in the span of those
/// before it, and hands that one out. A matrix without rows gets the same rows.
fn insert_powers(
    alloc: Global,
    matrix: &Matrix,
    vector: &Row,
    powers: &mut Echelon,
    rows: &mut Matrix,
) -> Result<Row, Refusal>
    requires field { vector.now.order ≡ matrix.now.order }
    requires square { length matrix.now.rows ≡ matrix.now.cols }
    requires fits { length vector.now.entries ≡ matrix.now.cols }
    requires nonzero { ¬ (IsZeroVector vector.now.entries) }
    requires none { powers.old ≡ record { order = matrix.now.order; cols = matrix.now.cols; rows = [] } }
    requires no_rows { rows.old ≡ matrix_of_rows powers.old }
    ensures next { Answers None (IsNextPower matrix.now vector.now.entries powers.new) result }
    ensures same_rows { Answers None (λ _. rows.new ≡ matrix_of_rows powers.new) result }
{
    // Called for what they ensure beside the numbers: that the two are a vector and an echelon form.
    prove!(vector.len() == powers.cols());
    let mut power = vector.copy(alloc)?;
    // There are no more independent rows than columns.
    for count in 0..matrix.cols() {
        let copy = power.copy(alloc)?;
        if !powers.insert(copy)? {
            return Ok(power);
        }
        let next = matrix.vec_mul(alloc, &power)?;
        rows.append(power)?;
        power = next;
    }
    Ok(power)
}

/// The power of x with as many coefficients before it as are given, less the polynomial with these coefficients.
fn power_less(alloc: Global, coefficients: &Row) -> Result<Poly, Refusal>
    requires some { 0 < length coefficients.now.entries }
    requires few { length coefficients.now.entries ≤ most_columns }
    ensures { Answers None (λ f. f ≡ power_less coefficients.now) result }
{
    let field = *coefficients.field();
    let mut negatives = Vec::with_capacity(alloc, coefficients.len() + 1)?;
    for index in 0..coefficients.len() {
        negatives.push(field.neg(coefficients.get(index)))?;
    }
    negatives.push(1)?;
    Ok(Poly::from_monic(field, negatives))
}

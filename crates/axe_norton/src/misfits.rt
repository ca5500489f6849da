//! Polynomials that are seen not to fit a square matrix, by null vectors of their values at it.

ghost use Rattle.std.specs.Prelude.{◌≡◌, ◌≤◌, IsTrue, IfSome, None};
ghost use Rattle.axe_algebra.specs.Lists.{IsSquareOver};
ghost use Rattle.axe_polynomial_algebra.specs.PolynomialsOfLists.{Fits};
ghost use Rattle.axe_field.specs.NumberFields.{number_field};
ghost use Rattle.axe_row.specs.Refusals.{Answers};
ghost use Rattle.axe_norton.specs.Misfits.{AreNullRows, IsBasisLike};

use crate::null_rows::null_rows;
use axe_echelon::Echelon;
use axe_matrix::{Matrix, Refusal, Row};
use axe_poly::{CyclicBasis, Poly, cyclic_basis};
use std::alloc::Global;

/// Whether an irreducible divisor p of the minimal polynomial of the first unit vector under a square matrix x is seen
/// not to fit x: whether more independent null vectors of p(x) are seen than p has degrees. Where they are not seen, p
/// may fit or not.
///
/// They are looked for in the spaces that the first two unit vectors generate, whose cyclic bases take the place of
/// products with p(x): that of the first is given, and that of the second is made where it is first asked for, and kept
/// for further polynomials. They are looked for only where the first unit vector generates no more than half of the
/// dimensions, a guess: else the second basis costs more than the null spaces of p(x) that it spares.
pub(crate) fn is_seen_not_to_fit(
    alloc: Global,
    matrix: &Matrix,
    poly: &Poly,
    first: &CyclicBasis,
    second: &mut Option<CyclicBasis>,
) -> Result<bool, Refusal>
    requires square { IsSquareOver (number_field matrix.now.order) matrix.now.cols matrix.now.rows }
    requires field { poly.now.order ≡ matrix.now.order }
    requires first { IsBasisLike matrix.now first.now }
    requires second { IfSome second.old (IsBasisLike matrix.now) }
    ensures seen { Answers None
        (λ seen. IsTrue seen → ¬ (Fits (number_field matrix.now.order) matrix.now.rows poly.now.coefficients)) result }
    ensures second { Answers None (λ _. IfSome second.new (IsBasisLike matrix.now)) result }
{
    // `cols` is called for what it ensures beside the number: that the matrix is one.
    prove!(matrix.rows() == matrix.cols());
    if first.minimal.degree() > matrix.cols() / 2 {
        return Ok(false);
    }
    let mut found = Echelon::new(alloc, *matrix.field(), matrix.cols());
    insert_from_basis(alloc, matrix, poly, first, &mut found)?;
    insert_from_second(alloc, matrix, poly, second, &mut found)?;
    Ok(found.rank() > poly.degree())
}

/// Inserts null vectors of p(x) from the space that the second unit vector generates. Its basis is made where there is
/// none.
fn insert_from_second(
    alloc: Global,
    matrix: &Matrix,
    poly: &Poly,
    second: &mut Option<CyclicBasis>,
    found: &mut Echelon,
) -> Result<(), Refusal>
    requires square { IsSquareOver (number_field matrix.now.order) matrix.now.cols matrix.now.rows }
    requires two { 2 ≤ matrix.now.cols }
    requires field { poly.now.order ≡ matrix.now.order }
    requires second { IfSome second.old (IsBasisLike matrix.now) }
    requires found { AreNullRows matrix.now poly.now found.old }
    ensures found { Answers None (λ _. AreNullRows matrix.now poly.now found.new) result }
    ensures second { Answers None (λ _. IfSome second.new (IsBasisLike matrix.now)) result }
{
    if let Some(basis) = &*second {
        return insert_from_basis(alloc, matrix, poly, basis, found);
    }
    let unit = Row::unit(alloc, *matrix.field(), matrix.cols(), 1)?;
    let basis = cyclic_basis(alloc, matrix, &unit)?;
    insert_from_basis(alloc, matrix, poly, &basis, found)?;
    *second = Some(basis);
    Ok(())
}

/// Inserts null vectors of p(x) from the space that a vector generates, by its cyclic basis: as many as p has degrees,
/// and until there are more of them than that.
fn insert_from_basis(
    alloc: Global,
    matrix: &Matrix,
    poly: &Poly,
    basis: &CyclicBasis,
    found: &mut Echelon,
) -> Result<(), Refusal>
    requires square { IsSquareOver (number_field matrix.now.order) matrix.now.cols matrix.now.rows }
    requires field { poly.now.order ≡ matrix.now.order }
    requires basis { IsBasisLike matrix.now basis.now }
    requires found { AreNullRows matrix.now poly.now found.old }
    ensures { Answers None (λ _. AreNullRows matrix.now poly.now found.new) result }
{
    let Some(rows) = null_rows(alloc, matrix, poly, basis)? else {
        return Ok(());
    };
    for place in 0..poly.degree() {
        if found.rank() > poly.degree() {
            return Ok(());
        }
        let row = rows.row(place).copy(alloc)?;
        found.insert(row)?;
    }
    Ok(())
}

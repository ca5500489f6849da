//! The first small factor of a square matrix that fits it.

ghost use Rattle.std.specs.Prelude.{◌≡◌, ◌+◌, ◌≤◌, IfSome, None, All};
ghost use Rattle.axe_algebra.specs.Lists.{IsSquareOver};
ghost use Rattle.axe_polynomial_algebra.specs.PolynomialsOfLists.{Divides};
ghost use Rattle.axe_field.specs.NumberFields.{number_field};
ghost use Rattle.axe_row.specs.Refusals.{Answers};
ghost use Rattle.axe_poly.specs.Limits.{greatest_degree};
ghost use Rattle.axe_poly.specs.Powers.{IsCyclicBasis};
ghost use Rattle.axe_norton.specs.Misfits.{IsBasisLike};
ghost use Rattle.axe_norton.specs.SmallFactors.{first_unit_row};
ghost use Rattle.axe_norton.specs.Searches.{FindsFitting, FindsFittingOf, FindsFittingIn, FindsFits};

use crate::cyclic::spaces_where_cyclic;
use crate::misfits::is_seen_not_to_fit;
use crate::value_spaces::ValueSpaces;
use axe_matrix::{Matrix, Refusal, Row};
use axe_poly::{CyclicBasis, Irreducibles, Poly, cyclic_basis, greatest_degree};
use axe_word::Tested;
use std::alloc::Global;

/// A polynomial p that fits a matrix x, and the spaces of p(x).
#[derive(Drop)]
pub(crate) struct Fitted {
    pub poly: Poly,
    pub spaces: ValueSpaces,
}

/// The first small factor that fits a square matrix x: of the irreducible divisors of the minimal polynomial of the
/// first unit vector under x that have at most the greatest degree, by degree and then by number, the first p whose
/// degree is the dimension of the null space of p(x). The table has the irreducible polynomials that were found for
/// other matrices, and keeps those that are found for this one.
pub(crate) fn first_fitting(
    alloc: Global,
    table: &mut Irreducibles,
    matrix: &Matrix,
) -> Result<Option<Fitted>, Refusal>
    requires field { table.old.order ≡ matrix.now.order }
    requires square { IsSquareOver (number_field matrix.now.order) matrix.now.cols matrix.now.rows }
    ensures found { Answers None (FindsFitting matrix.now) result }
    ensures same_field { table.new.order ≡ matrix.now.order }
{
    let unit = Row::unit(alloc, *matrix.field(), matrix.cols(), 0)?;
    let first = cyclic_basis(alloc, matrix, &unit)?;
    first_fitting_divisor(alloc, table, matrix, &first)
}

/// The first irreducible divisor of the minimal polynomial of the first unit vector under a square matrix that has at
/// most the greatest degree and fits the matrix. The cyclic basis of that vector has the polynomial.
fn first_fitting_divisor(
    alloc: Global,
    table: &mut Irreducibles,
    matrix: &Matrix,
    first: &CyclicBasis,
) -> Result<Option<Fitted>, Refusal>
    requires field { table.old.order ≡ matrix.now.order }
    requires square { IsSquareOver (number_field matrix.now.order) matrix.now.cols matrix.now.rows }
    requires first { IsCyclicBasis matrix.now (first_unit_row matrix.now) first.now }
    ensures found { Answers None (FindsFitting matrix.now) result }
    ensures same_field { table.new.order ≡ matrix.now.order }
{
    // The basis of the second unit vector is made where it is first asked for, and serves all polynomials.
    let mut second = None;
    let most = greatest_degree(matrix.field()).min(first.minimal.degree());
    for below in 0..most {
        let found = fitting_of_degree(alloc, table, matrix, first, &mut second, below + 1)?;
        if found.is_some() {
            return Ok(found);
        }
    }
    // A factor has at most the degree of the polynomial that it divides.
    Ok(None)
}

/// The first irreducible divisor of the minimal polynomial of the first unit vector that has a degree, the next one of
/// the table at most, and fits a square matrix.
fn fitting_of_degree(
    alloc: Global,
    table: &mut Irreducibles,
    matrix: &Matrix,
    first: &CyclicBasis,
    second: &mut Option<CyclicBasis>,
    degree: usize,
) -> Result<Option<Fitted>, Refusal>
    requires field { table.old.order ≡ matrix.now.order }
    requires first { IsCyclicBasis matrix.now (first_unit_row matrix.now) first.now }
    requires second { IfSome second.old (IsBasisLike matrix.now) }
    requires square { IsSquareOver (number_field matrix.now.order) matrix.now.cols matrix.now.rows }
    requires some { 1 ≤ degree }
    requires bounded { degree ≤ greatest_degree matrix.now.order }
    requires next { degree ≤ table.old.degree + 1 }
    ensures found { Answers None (FindsFittingOf matrix.now first.now.minimal degree) result }
    ensures second { Answers None (λ _. IfSome second.new (IsBasisLike matrix.now)) result }
    ensures same_field { table.new.order ≡ matrix.now.order }
    ensures reached { Answers None (λ _. degree ≤ table.new.degree) result }
{
    if table.degree() < degree {
        table.add_degree(alloc)?;
    }
    let factors = table.factors_of_degree(alloc, &first.minimal, degree)?;
    first_that_fits(alloc, matrix, first, second, &factors)
}

/// The first of some divisors of the minimal polynomial of the first unit vector that fits a square matrix.
fn first_that_fits(
    alloc: Global,
    matrix: &Matrix,
    first: &CyclicBasis,
    second: &mut Option<CyclicBasis>,
    polys: &[Poly],
) -> Result<Option<Fitted>, Refusal>
    requires first { IsCyclicBasis matrix.now (first_unit_row matrix.now) first.now }
    requires second { IfSome second.old (IsBasisLike matrix.now) }
    requires square { IsSquareOver (number_field matrix.now.order) matrix.now.cols matrix.now.rows }
    requires fields { All (λ p. p.order ≡ matrix.now.order) polys.now }
    requires divisors { All (λ p. Divides (number_field matrix.now.order) p.coefficients
        first.now.minimal.coefficients) polys.now }
    ensures found { Answers None (FindsFittingIn matrix.now polys.now) result }
    ensures second { Answers None (λ _. IfSome second.new (IsBasisLike matrix.now)) result }
{
    for index in 0..polys.len() {
        let candidate = &polys[index];
        if let Some(spaces) = spaces_where_fits(alloc, matrix, first, second, candidate)? {
            let poly = candidate.copy(alloc)?;
            return Ok(Some(Fitted { poly, spaces }));
        }
    }
    Ok(None)
}

/// The spaces of p(x) for such a divisor p and a square matrix x, where p fits x: where the null space of p(x) has as
/// many dimensions as p has degrees. Where the first unit vector is cyclic, p(x) need not be made for them.
fn spaces_where_fits(
    alloc: Global,
    matrix: &Matrix,
    first: &CyclicBasis,
    second: &mut Option<CyclicBasis>,
    poly: &Poly,
) -> Result<Option<ValueSpaces>, Refusal>
    requires square { IsSquareOver (number_field matrix.now.order) matrix.now.cols matrix.now.rows }
    requires field { poly.now.order ≡ matrix.now.order }
    requires first { IsCyclicBasis matrix.now (first_unit_row matrix.now) first.now }
    requires divides { Divides (number_field matrix.now.order) poly.now.coefficients first.now.minimal.coefficients }
    requires second { IfSome second.old (IsBasisLike matrix.now) }
    ensures found { Answers None (FindsFits matrix.now poly.now) result }
    ensures second { Answers None (λ _. IfSome second.new (IsBasisLike matrix.now)) result }
{
    if let Some(spaces) = spaces_where_cyclic(alloc, matrix, first, poly)? {
        return Ok(Some(spaces));
    }
    if is_seen_not_to_fit(alloc, matrix, poly, first, second)? {
        return Ok(None);
    }
    let tested = Tested::of(alloc, poly.value_at(alloc, matrix)?)?;
    if tested.null_space.rows() == poly.degree() {
        Ok(Some(ValueSpaces::of(tested)))
    } else {
        Ok(None)
    }
}

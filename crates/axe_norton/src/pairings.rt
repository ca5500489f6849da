//! Null vectors that are seen to generate everything without being spun.
//!
//! Let x be the value of a word, z a null vector of x that generates everything, and v another one, which generates a
//! proper space N. Then z is not in N, so x is singular on the quotient by N; and so is its transpose: some null vector
//! w other than zero of the transpose of x is orthogonal to N, that is to v a for all sums a of products of generators.
//! So where only zero among the null vectors of the transpose is orthogonal to some of these v a, v generates
//! everything. This is Norton's criterion with the module and the transposed module exchanged.
//!
//! All null vectors of x are taken together: their images under products of generators, and the dot products of these
//! with the null vectors of the transpose, the pairings, are products of matrices with few rows. Of each point a few
//! small vectors are left to be looked at.

ghost use Rattle.std.specs.Prelude.{◌≡◌, ◌≤◌, length, All, IsTrue, None};
ghost use Rattle.axe_algebra.specs.SpansOfLists.{SpansEverything};
ghost use Rattle.axe_field.specs.NumberFields.{number_field};
ghost use Rattle.axe_row.specs.Refusals.{Answers};
ghost use Rattle.axe_matrix.specs.Limits.{most_columns};
ghost use Rattle.axe_norton.specs.Pairings.{AreNullSpaces, IsPairing, TakesTo, combinations};

use axe_echelon::Subspace;
use axe_matrix::{Matrix, Refusal, Row};
use axe_spin::Module;
use std::alloc::Global;

/// How many more products of generators are taken than show that the first point generates everything: a guess.
const MORE_PRODUCTS: usize = 6;

/// How many products of generators are taken at most for each dimension of a null space and each of those more: a guess.
const PRODUCTS_PER_DIMENSION: usize = 4;

/// The dot products of the images of the rows of a basis with the rows of another: one matrix for each of some products
/// of generators, with a row for each row of the first and a column for each of the second.
///
/// The first point, the last row of the basis, generates everything, so that products are taken until it is seen to, and
/// then a few more. Where the word's value is 1 plus a product of generators, many pairings are alike, since vectors of
/// both null spaces are fixed by that product: so a number that goes by the dimension alone is too small for it.
pub(crate) fn pairings(
    alloc: Global,
    module: &Module,
    basis: &Matrix,
    transposed: &Matrix,
) -> Result<Vec<Matrix>, Refusal>
    requires spaces { AreNullSpaces «module».now basis.now transposed.now }
    ensures { Answers None
        (λ pairings. All (IsPairing «module».now basis.now transposed.now) pairings.items) result }
{
    let columns = transposed.transpose(alloc)?;
    let mut images = basis.copy(alloc)?;
    let mut found = Vec::new(alloc);
    let mut seen = Subspace::zero(alloc, *module.field(), transposed.rows());
    let mut more = MORE_PRODUCTS;
    for place in 0..PRODUCTS_PER_DIMENSION * (basis.rows() + MORE_PRODUCTS) {
        if seen.dim() == seen.cols() {
            if more == 0 {
                break;
            }
            more -= 1;
        }
        // The ones among the binary digits of a number make no stretch of generators repeat itself three times (Thue
        // 1912), so that the products differ.
        let number = place.count_ones() as usize % module.gens();
        images = images.mul(alloc, module.generator(number))?;
        let pairing = images.mul(alloc, &columns)?;
        let first = pairing.row(basis.rows() - 1).copy(alloc)?;
        seen.insert(first)?;
        found.push(pairing)?;
    }
    Ok(found)
}

/// Whether the combination of the rows of a basis with some coordinates is seen to generate everything: whether its
/// pairings, the combinations of the rows of these matrices, span all vectors of as many entries as the null space of
/// the transpose has dimensions.
pub(crate) fn is_seen_to_generate(
    alloc: Global,
    pairings: &[Matrix],
    dimension: usize,
    coordinates: &Row,
) -> Result<bool, Refusal>
    requires some_dimension { 1 ≤ dimension }
    requires dimension_fits { dimension ≤ most_columns }
    requires pairings { All (TakesTo coordinates.now dimension) pairings.now }
    ensures { Answers None (λ seen. IsTrue seen →
        SpansEverything (number_field coordinates.now.order) dimension
        (combinations coordinates.now pairings.now)) result }
{
    let mut span = Subspace::zero(alloc, *coordinates.field(), dimension);
    for pairing in pairings {
        span.insert(pairing.vec_mul(alloc, coordinates)?)?;
        if span.dim() == span.cols() {
            return Ok(true);
        }
    }
    Ok(false)
}

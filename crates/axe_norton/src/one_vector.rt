//! What a polynomial at the value of a word says of a module, by one vector.

ghost use Rattle.std.specs.Prelude.{◌≡◌, ◌≤◌, None, IfSome};
ghost use Rattle.axe_polynomial_algebra.specs.PolynomialsOfLists.{degree_of};
ghost use Rattle.axe_row.specs.Refusals.{Answers};
ghost use Rattle.axe_poly.specs.Limits.{greatest_degree};
ghost use Rattle.axe_spin.specs.Modules.{IsModule};
ghost use Rattle.axe_word.specs.Words.{IsWordIn};
ghost use Rattle.axe_word.specs.declared.tested.Tested.{Tested};
ghost use Rattle.axe_norton.specs.Searches.{IsSquareIn, TellsByFirst, IsKeptTranspose, AreSingularSpaces};
ghost use Rattle.axe_norton.specs.Verdicts.{IsTrueOf};
ghost use Rattle.axe_norton.specs.OneVector.{FitsWord, TellsByOne, SaysByPoly, SaysWhereFits};

use crate::factors::first_fitting;
use crate::fitting::tested_where_word_fits;
use crate::spaces::{proper_space, transposed_point, transposed_space};
use crate::value_spaces::ValueSpaces;
use crate::verdicts::At;
use axe_matrix::{Matrix, Refusal};
use axe_poly::{Irreducibles, Poly};
use axe_spin::Module;
use axe_word::{Word, first_point};
use std::alloc::Global;

/// What an irreducible polynomial p says of a module by a word of it, at whose value x it fits: the degree of p is the
/// dimension of the null space of p(x). This is Holt and Rees's one-vector rule. Where the first point of that null
/// space generates a proper space, the module is reducible, by the reduced basis of that space. Else so it is where the
/// first point of the null space of the transpose of p(x) generates a proper space in the transposed module, by the
/// annihilator of that space. Else the module is irreducible. It is never left open.
pub fn decide_poly(alloc: Global, module: &Module, word: &Word, poly: &Poly) -> Result<At, Refusal>
    requires word { IsWordIn «module».now word.now }
    requires poly { FitsWord «module».now word.now poly.now }
    ensures says { Answers None (SaysByPoly «module».now word.now poly.now) result }
    ensures holds { Answers None (IsTrueOf «module».now) result }
{
    let tested = word.tested_by_poly(alloc, module, poly)?;
    let poly = poly.copy(alloc)?;
    let spaces = ValueSpaces::of(tested);
    test_by_one(alloc, module, poly, spaces, &mut None)
}

/// What [`decide_poly`] says by a polynomial p over the module's field, of at most the greatest degree; nothing exactly
/// where p is not irreducible or doesn't fit the word's value, as [`crate::fits`] tells.
pub fn decide_poly_where_fits(
    alloc: Global,
    module: &Module,
    word: &Word,
    poly: &Poly,
) -> Result<Option<At>, Refusal>
    requires word { IsWordIn «module».now word.now }
    requires field { poly.now.order ≡ «module».now.order }
    requires small { degree_of poly.now.coefficients ≤ greatest_degree «module».now.order }
    ensures says { Answers None (SaysWhereFits «module».now word.now poly.now) result }
    ensures holds { Answers None (λ said. IfSome said (IsTrueOf «module».now)) result }
{
    let Some(tested) = tested_where_word_fits(alloc, module, word, poly)? else {
        return Ok(None);
    };
    let poly = poly.copy(alloc)?;
    let spaces = ValueSpaces::of(tested);
    Ok(Some(test_by_one(alloc, module, poly, spaces, &mut None)?))
}

/// What the first small factor that fits a square matrix tells of a module by one vector; the module is left open where
/// none fits.
pub(crate) fn test_by_factor(
    alloc: Global,
    module: &Module,
    table: &mut Irreducibles,
    matrix: &Matrix,
    kept: &mut Option<Module>,
) -> Result<At, Refusal>
    requires square { IsSquareIn «module».now matrix.now }
    requires field { table.old.order ≡ «module».now.order }
    requires kept { IsKeptTranspose «module».now kept.old }
    ensures tells { Answers None (TellsByFirst «module».now matrix.now) result }
    ensures well_formed { IsModule «module».now }
    ensures same_field { table.new.order ≡ «module».now.order }
    ensures kept { IsKeptTranspose «module».now kept.new }
{
    // `dim` is called for what it ensures beside the number: that the module is one.
    prove!(matrix.cols() == module.dim());
    match first_fitting(alloc, table, matrix)? {
        Some(found) => test_by_one(alloc, module, found.poly, found.spaces, kept),
        None => Ok(At::Left),
    }
}

/// What a polynomial p that fits a square matrix x tells of a module by the first points of the null spaces of p(x) and
/// of its transpose. The spaces are those of p(x), which is singular.
fn test_by_one(
    alloc: Global,
    module: &Module,
    poly: Poly,
    spaces: ValueSpaces,
    kept: &mut Option<Module>,
) -> Result<At, Refusal>
    requires spaces { (t : Tested) × AreSingularSpaces «module».now t spaces }
    requires kept { IsKeptTranspose «module».now kept.old }
    ensures tells { (t : Tested) → AreSingularSpaces «module».now t spaces →
        Answers None (TellsByOne «module».now poly t.matrix t.null_space) result }
    ensures well_formed { IsModule «module».now }
    ensures kept { IsKeptTranspose «module».now kept.new }
{
    let ValueSpaces { null_space, rows } = spaces;
    // `dim` and `cols` are called for what they ensure beside the numbers: that the two are a module and a matrix.
    prove!(rows.cols() == module.dim());
    let point = first_point(alloc, &null_space)?;
    // Its memory is free again before the point is spun.
    drop(null_space);
    let vector = point.copy(alloc)?;
    if let Some(space) = proper_space(alloc, module, point)? {
        return Ok(At::Reducible(space));
    }
    let transposed = transposed_point(alloc, &rows)?;
    // Their memory is free again before the transposed module is made.
    drop(rows);
    if let Some(space) = transposed_space(alloc, module, transposed, kept)? {
        return Ok(At::Reducible(space));
    }
    Ok(At::Irreducible {
        poly: Some(poly),
        vector,
    })
}

//! What a word says of a module, and what words of a seed decide.

ghost use Rattle.std.specs.Prelude.{◌≡◌, ◌↔◌, ℕ, ◌<◌, ◌≤◌, [], length, None, IsTrue};
ghost use Rattle.axe_field.specs.Order.{order_number};
ghost use Rattle.axe_row.specs.Operations.{IsZeroVector};
ghost use Rattle.axe_row.specs.Refusals.{Answers};
ghost use Rattle.axe_spin.specs.Modules.{IsModule};
ghost use Rattle.axe_word.specs.Drawing.{IsOrder};
ghost use Rattle.axe_word.specs.Words.{IsWordIn, IsValueOf};
ghost use Rattle.axe_word.specs.KeptProducts.{AreProductsOf};
ghost use Rattle.axe_word.specs.PointsOfMatrix.{point_count, most_points};
ghost use Rattle.axe_norton.specs.Known.{IsKnownOf};
ghost use Rattle.axe_norton.specs.Searches.{IsValueOfWord, IsTestedWord, IsFirstOfMany, TellsByNullSpace};
ghost use Rattle.axe_norton.specs.Searches.{FindsProper, IsKeptTranspose};
ghost use Rattle.axe_norton.specs.Spaces.{GeneratesModule, LastGenerates, HasFewPoints};
ghost use Rattle.axe_norton.specs.Verdicts.{last_word, word_of_seed, TellsByPoints, Says, IsTrueOf, Decides};
ghost use Rattle.axe_norton.specs.Verdicts.{IsTrueVerdict};

use crate::MOST_POINTS;
use crate::known::Known;
use crate::one_vector::test_by_factor;
use crate::spaces::{Tried, proper_space, transposed_point, transposed_space, tried_points};
use crate::verdicts::{At, Verdict};
use axe_echelon::{NullPoints, null_points};
use axe_matrix::{Matrix, Refusal, Row};
use axe_poly::Irreducibles;
use axe_spin::Module;
use axe_word::{Products, Word, few_points, first_point, nth_word};
use std::alloc::Global;

/// What a word says of a module, of which it is one as [`Word::is_word_in`] says, by its value x (Norton's test: Parker
/// 1984; Holt and Rees 1994). First what the points of null spaces tell. Where x is invertible they leave the module
/// open. Else the points of the null space of x are tried in order, or the first alone where there are more than
/// [`MOST_POINTS`]: the first that generates a proper space shows the module to be reducible, by the reduced basis of
/// that space. Where none does, so does the first point of the null space of the transpose of x, where it generates a
/// proper space in the transposed module, by the annihilator of that space. Where that generates everything, too, the
/// module is irreducible if all points were tried, and else left open.
///
/// Where the points leave the module open, the irreducible divisors of the minimal polynomial of the first unit vector
/// under x that have at most the greatest degree are gone over, by degree and then by number. The first p that fits x,
/// so that the degree of p is the dimension of the null space of p(x), says what [`crate::decide_poly`] tells by it.
/// Where none fits, the word leaves the module open.
pub fn decide_at(alloc: Global, module: &Module, word: &Word) -> Result<At, Refusal>
    requires word { IsWordIn «module».now word.now }
    ensures says { Answers None (Says «module».now word.now) result }
    ensures holds { Answers None (IsTrueOf «module».now) result }
{
    let mut table = Irreducibles::new(alloc, *module.field());
    let mut products = Products::new(alloc);
    decide_at_with(alloc, module, &mut table, &mut products, word)
}

/// What the words 0 to `words` of a seed decide of a module: what the first of them says that doesn't leave the module
/// open, as [`decide_at`] tells it, with the number of that word where it shows the module to be irreducible. It is
/// undecided exactly where each of them leaves it open; word 0, whose value is zero, decides every module with at most
/// [`MOST_POINTS`] points. There are at most [`crate::MAX_WORDS`] words beside word 0.
pub fn decide(alloc: Global, module: &Module, seed: u64, words: u32) -> Result<Verdict, Refusal>
    requires words { words ≤ last_word }
    ensures decides { Answers None (Decides «module».now seed words) result }
    ensures holds { Answers None (IsTrueVerdict «module».now) result }
{
    let mut table = Irreducibles::new(alloc, *module.field());
    decide_with(alloc, module, &mut table, seed, words)
}

/// What [`decide`] tells, with a table of irreducible polynomials over the module's field. It has those that were found
/// for other modules, and keeps those that are found for this one.
pub fn decide_with(
    alloc: Global,
    module: &Module,
    table: &mut Irreducibles,
    seed: u64,
    words: u32,
) -> Result<Verdict, Refusal>
    requires words { words ≤ last_word }
    requires field { table.old.order ≡ «module».now.order }
    ensures decides { Answers None (Decides «module».now seed words) result }
    ensures holds { Answers None (IsTrueVerdict «module».now) result }
    ensures same_field { table.new.order ≡ «module».now.order }
{
    let mut known = Known::nothing(alloc);
    decide_knowing(alloc, module, &mut known, table, seed, words)
}

/// What [`decide_with`] tells, where something may be known of the module for the seed. A last unit vector, the first
/// point of the null space of word 0, is not spun where it is known to generate everything; values of words that are
/// known are not made, and those of others are kept where they are few.
pub fn decide_knowing(
    alloc: Global,
    module: &Module,
    known: &mut Known,
    table: &mut Irreducibles,
    seed: u64,
    words: u32,
) -> Result<Verdict, Refusal>
    requires words { words ≤ last_word }
    requires known { IsKnownOf «module».now seed known.old }
    requires field { table.old.order ≡ «module».now.order }
    ensures decides { Answers None (Decides «module».now seed words) result }
    ensures holds { Answers None (IsTrueVerdict «module».now) result }
    ensures same_field { table.new.order ≡ «module».now.order }
    ensures known { IsKnownOf «module».now seed known.new }
{
    let order = module.field().order();
    // Words share products of generators.
    let mut products = Products::new(alloc);
    let mut kept = None;
    for number in 0..words + 1 {
        let said = if number == 0 && !few_points(order, module.dim(), MOST_POINTS) {
            decide_zero(alloc, module, known.last_generates, &mut kept)?
        } else {
            let numbered = Numbered { seed, number };
            decide_numbered(
                alloc,
                module,
                known,
                table,
                &mut products,
                &mut kept,
                numbered,
            )?
        };
        match said {
            At::Irreducible { poly, vector } => {
                return Ok(Verdict::Irreducible {
                    word: number,
                    poly,
                    vector,
                })
            }
            At::Reducible(space) => return Ok(Verdict::Reducible(space)),
            At::Left => {}
        }
    }
    Ok(Verdict::Undecided)
}

/// A word by its seed and its number.
#[derive(Clone, Copy)]
struct Numbered {
    seed: u64,
    number: u32,
}

/// What a word of a seed says of a module, by its value where that is known; else the value is made, and kept where it
/// may be.
fn decide_numbered(
    alloc: Global,
    module: &Module,
    known: &mut Known,
    table: &mut Irreducibles,
    products: &mut Products,
    kept: &mut Option<Module>,
    numbered: Numbered,
) -> Result<At, Refusal>
    requires known { IsKnownOf «module».now numbered.seed known.old }
    requires products { AreProductsOf «module».now products.old }
    requires field { table.old.order ≡ «module».now.order }
    requires kept { IsKeptTranspose «module».now kept.old }
    ensures says { Answers None (Says «module».now (word_of_seed «module».now numbered.seed numbered.number)) result }
    ensures holds { Answers None (IsTrueOf «module».now) result }
    ensures known { IsKnownOf «module».now numbered.seed known.new }
    ensures same_field { table.new.order ≡ «module».now.order }
    ensures products { AreProductsOf «module».now products.new }
    ensures kept { IsKeptTranspose «module».now kept.new }
{
    let word = nth_word(
        numbered.seed,
        numbered.number,
        module.field().order(),
        module.gens() as u8,
    );
    if let Some(value) = known.value(numbered.number) {
        return decide_value(alloc, module, table, kept, &word, value);
    }
    let value = word.value_with(alloc, module, products)?;
    let said = decide_value(alloc, module, table, kept, &word, &value)?;
    known.keep(numbered.number, value)?;
    Ok(said)
}

/// What [`decide_at`] tells, with a table of irreducible polynomials as [`decide_with`] takes it, and with the products
/// of generators that were kept for other words of this module; those that are made are kept, too.
pub fn decide_at_with(
    alloc: Global,
    module: &Module,
    table: &mut Irreducibles,
    products: &mut Products,
    word: &Word,
) -> Result<At, Refusal>
    requires word { IsWordIn «module».now word.now }
    requires products { AreProductsOf «module».now products.old }
    requires field { table.old.order ≡ «module».now.order }
    ensures says { Answers None (Says «module».now word.now) result }
    ensures holds { Answers None (IsTrueOf «module».now) result }
    ensures same_field { table.new.order ≡ «module».now.order }
    ensures products { AreProductsOf «module».now products.new }
{
    let mut kept = None;
    let value = word.value_with(alloc, module, products)?;
    decide_value(alloc, module, table, &mut kept, word, &value)
}

/// What a word says of a module, by its value, with the transposed module where it is kept from other words; it is kept
/// for further ones where it is small.
fn decide_value(
    alloc: Global,
    module: &Module,
    table: &mut Irreducibles,
    kept: &mut Option<Module>,
    word: &Word,
    value: &Matrix,
) -> Result<At, Refusal>
    requires word { IsWordIn «module».now word.now }
    requires value { IsValueOf «module».now word.now value.now }
    requires field { table.old.order ≡ «module».now.order }
    requires kept { IsKeptTranspose «module».now kept.old }
    ensures says { Answers None (Says «module».now word.now) result }
    ensures holds { Answers None (IsTrueOf «module».now) result }
    ensures same_field { table.new.order ≡ «module».now.order }
    ensures kept { IsKeptTranspose «module».now kept.new }
{
    match test_null_space(alloc, module, value, kept)? {
        At::Left => test_by_factor(alloc, module, table, value, kept),
        told => Ok(told),
    }
}

/// What word 0 says of a module that has more than few points. The word has no terms and its value is zero, so that all
/// vectors are null vectors, and the first point is the last unit vector, as it is for the transpose. It is not spun
/// where it is known to generate everything; no polynomial fits zero.
fn decide_zero(
    alloc: Global,
    module: &Module,
    last_generates: bool,
    kept: &mut Option<Module>,
) -> Result<At, Refusal>
    requires many { most_points < point_count (order_number «module».now.order) «module».now.dim }
    requires last { IsTrue last_generates → LastGenerates «module».now }
    requires kept { IsKeptTranspose «module».now kept.old }
    ensures says { Answers None (Says «module».now []) result }
    ensures holds { Answers None (IsTrueOf «module».now) result }
    ensures kept { IsKeptTranspose «module».now kept.new }
{
    let (field, dim) = (*module.field(), module.dim());
    let last = Row::unit(alloc, field, dim, dim - 1)?;
    if let Some(space) = proper_last(alloc, module, last, last_generates)? {
        return Ok(At::Reducible(space));
    }
    let last = Row::unit(alloc, field, dim, dim - 1)?;
    match transposed_space(alloc, module, last, kept)? {
        Some(space) => Ok(At::Reducible(space)),
        None => Ok(At::Left),
    }
}

/// What the points of the null spaces of the value of a word and of its transpose tell of a module. Of a null space
/// with more than few points no basis is made, since the first point alone is tried.
fn test_null_space(
    alloc: Global,
    module: &Module,
    matrix: &Matrix,
    kept: &mut Option<Module>,
) -> Result<At, Refusal>
    requires value { IsValueOfWord «module».now matrix.now }
    requires kept { IsKeptTranspose «module».now kept.old }
    ensures tells { Answers None (TellsByNullSpace «module».now matrix.now) result }
    ensures well_formed { IsModule «module».now }
    ensures kept { IsKeptTranspose «module».now kept.new }
{
    let most = most_dimensions(module.field().order());
    match null_points(alloc, matrix, most)? {
        NullPoints::Basis(null_space) => test_points(alloc, module, matrix, &null_space, kept),
        NullPoints::First(point) => test_first(alloc, module, matrix, point, kept),
    }
}

/// The same, with the reduced basis of a null space that has few points.
fn test_points(
    alloc: Global,
    module: &Module,
    matrix: &Matrix,
    null_space: &Matrix,
    kept: &mut Option<Module>,
) -> Result<At, Refusal>
    requires value { IsTestedWord «module».now (record { matrix = matrix.now; null_space = null_space.now }) }
    requires few { HasFewPoints null_space.now }
    requires kept { IsKeptTranspose «module».now kept.old }
    ensures tells { Answers None (TellsByPoints «module».now matrix.now null_space.now) result }
    ensures kept { IsKeptTranspose «module».now kept.new }
{
    if null_space.rows() == 0 {
        return Ok(At::Left);
    }
    let first = first_point(alloc, null_space)?;
    let transposed = match tried_points(alloc, module, matrix, null_space)? {
        Tried::Proper(space) => return Ok(At::Reducible(space)),
        Tried::Generate(transposed) => transposed,
    };
    match transposed_space(alloc, module, transposed, kept)? {
        Some(space) => Ok(At::Reducible(space)),
        None => Ok(At::Irreducible {
            poly: None,
            vector: first,
        }),
    }
}

/// The same, with the first point of a null space that has more than few points: what that tells, and the first point of
/// the null space of the transpose.
fn test_first(
    alloc: Global,
    module: &Module,
    matrix: &Matrix,
    point: Row,
    kept: &mut Option<Module>,
) -> Result<At, Refusal>
    requires value { IsFirstOfMany «module».now matrix.now point }
    requires kept { IsKeptTranspose «module».now kept.old }
    ensures tells { Answers None (TellsByNullSpace «module».now matrix.now) result }
    ensures kept { IsKeptTranspose «module».now kept.new }
{
    if let Some(space) = proper_space(alloc, module, point)? {
        return Ok(At::Reducible(space));
    }
    let transposed = transposed_point(alloc, matrix)?;
    match transposed_space(alloc, module, transposed, kept)? {
        Some(space) => Ok(At::Reducible(space)),
        None => Ok(At::Left),
    }
}

/// The reduced basis of the space that the last unit vector generates, or `None` where that is everything. It is not
/// spun where it is known to generate everything.
fn proper_last(
    alloc: Global,
    module: &Module,
    last: Row,
    last_generates: bool,
) -> Result<Option<Matrix>, Refusal>
    requires field { last.order ≡ «module».now.order }
    requires fits { length last.entries ≡ «module».now.dim }
    requires nonzero { ¬ (IsZeroVector last.entries) }
    requires last { IsTrue last_generates → GeneratesModule «module».now last.entries }
    ensures { Answers None (FindsProper «module».now last.entries) result }
{
    if last_generates {
        return Ok(None);
    }
    proper_space(alloc, module, last)
}

/// The most dimensions of a space over a field of an order that has few points, no more than [`MOST_POINTS`].
fn most_dimensions(order: u8) -> usize
    requires { IsOrder order }
    ensures { (d : ℕ) → (d ≤ result) ↔ (point_count order d ≤ most_points) }
{
    let mut most = 0;
    while few_points(order, most + 1, MOST_POINTS) {
        most += 1;
    }
    most
}

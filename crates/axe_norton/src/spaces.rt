//! The spaces that points of null spaces generate in a module and in the transposed one.

ghost use Rattle.std.specs.Prelude.{◌≡◌, ◌<◌, length, All, None};
ghost use Rattle.axe_row.specs.Operations.{IsZeroVector};
ghost use Rattle.axe_row.specs.Refusals.{Answers};
ghost use Rattle.axe_matrix.specs.Matrices.{vector_product};
ghost use Rattle.axe_spin.specs.Modules.{ModuleValue};
ghost use Rattle.axe_action.specs.Actions.{dual_module};
ghost use Rattle.axe_word.specs.PointsOfMatrix.{points_of};
ghost use Rattle.axe_norton.specs.Spaces.{GeneratesModule, HasFewPoints, point_of};
ghost use Rattle.axe_norton.specs.Searches.{IsTestedWord, FindsProper, FindsProperSpace, FindsFirstOf, FindsTried};
ghost use Rattle.axe_norton.specs.Searches.{HasOrthogonalVector, IsTransposedPointRow, FindsTransposed, IsKeptTranspose};
ghost use Rattle.axe_norton.specs.Pairings.{AreNullSpaces, AreCoordinatesOfPoint, IsPairing};

use crate::pairings::{is_seen_to_generate, pairings};
use axe_action::{annihilator, dual};
use axe_echelon::{Subspace, orthogonal_point, orthogonal_space};
use axe_matrix::{Matrix, Refusal, Row};
use axe_spin::{Module, generated_space};
use axe_word::{Points, first_point};
use std::alloc::Global;

/// The most dimensions of a transposed module that is kept while further words are asked: it takes as much memory as
/// the module.
const KEPT_DIMENSIONS: usize = 1_024;

/// What came of trying the points of the null space of a matrix, which has few.
#[derive(Drop)]
pub(crate) enum Tried {
    /// The first that generates a proper space generates this one, of which this is the reduced basis.
    Proper(Matrix),
    /// Each point generates everything; this is the first point of the null space of the transpose.
    Generate(Row),
}

/// The space that a vector other than zero generates in a module, or `None` where that is everything.
fn proper_subspace(alloc: Global, module: &Module, vector: Row) -> Result<Option<Subspace>, Refusal>
    requires field { vector.order ≡ «module».now.order }
    requires fits { length vector.entries ≡ «module».now.dim }
    requires nonzero { ¬ (IsZeroVector vector.entries) }
    ensures { Answers None (FindsProperSpace «module».now vector.entries) result }
{
    let mut seed = Matrix::empty(alloc, *module.field(), module.dim());
    seed.append(vector)?;
    let space = generated_space(alloc, module, &seed)?;
    if space.dim() == module.dim() {
        Ok(None)
    } else {
        Ok(Some(space))
    }
}

/// The reduced basis of the space that a vector other than zero generates in a module, or `None` where that is
/// everything.
pub(crate) fn proper_space(
    alloc: Global,
    module: &Module,
    vector: Row,
) -> Result<Option<Matrix>, Refusal>
    requires field { vector.order ≡ «module».now.order }
    requires fits { length vector.entries ≡ «module».now.dim }
    requires nonzero { ¬ (IsZeroVector vector.entries) }
    ensures { Answers None (FindsProper «module».now vector.entries) result }
{
    match proper_subspace(alloc, module, vector)? {
        Some(space) => Ok(Some(space.into_reduced(alloc)?)),
        None => Ok(None),
    }
}

/// What the first point of the null space of the value of a word that generates a proper space generates; or that each
/// point generates everything. The null space has few points.
pub(crate) fn tried_points(
    alloc: Global,
    module: &Module,
    matrix: &Matrix,
    null_space: &Matrix,
) -> Result<Tried, Refusal>
    requires value { IsTestedWord «module».now (record { matrix = matrix.now; null_space = null_space.now }) }
    requires some_row { 0 < length null_space.now.rows }
    requires few { HasFewPoints null_space.now }
    ensures { Answers None (FindsTried «module».now matrix.now null_space.now) result }
{
    let point = first_point(alloc, null_space)?;
    if null_space.rows() > 1 {
        return all_points(alloc, module, matrix, null_space, point);
    }
    if let Some(space) = proper_space(alloc, module, point)? {
        return Ok(Tried::Proper(space));
    }
    Ok(Tried::Generate(transposed_point(alloc, matrix)?))
}

/// The same of a null space of more dimensions than one, of which this is the first point.
fn all_points(
    alloc: Global,
    module: &Module,
    matrix: &Matrix,
    null_space: &Matrix,
    first: Row,
) -> Result<Tried, Refusal>
    requires value { IsTestedWord «module».now (record { matrix = matrix.now; null_space = null_space.now }) }
    requires some_row { 0 < length null_space.now.rows }
    requires few { HasFewPoints null_space.now }
    requires first { first ≡ record { order = null_space.now.order; entries = point_of null_space.now 0 } }
    ensures { Answers None (FindsTried «module».now matrix.now null_space.now) result }
{
    if let Some(space) = proper_space(alloc, module, first)? {
        return Ok(Tried::Proper(space));
    }
    let transposed = orthogonal_space(alloc, matrix)?;
    if let Some(space) = later_proper_space(alloc, module, null_space, &transposed)? {
        return Ok(Tried::Proper(space));
    }
    Ok(Tried::Generate(first_point(alloc, &transposed)?))
}

/// What the first point of a null space that generates a proper space generates, or `None` where all generate
/// everything, as the first does. Only those are spun that are not seen to generate everything by pairings with the
/// null space of the transpose.
fn later_proper_space(
    alloc: Global,
    module: &Module,
    null_space: &Matrix,
    transposed: &Matrix,
) -> Result<Option<Matrix>, Refusal>
    requires spaces { AreNullSpaces «module».now null_space.now transposed.now }
    requires few { HasFewPoints null_space.now }
    requires first { GeneratesModule «module».now (point_of null_space.now 0) }
    ensures { Answers None (FindsFirstOf «module».now (points_of null_space.now)) result }
{
    let pairings = pairings(alloc, module, null_space, transposed)?;
    // The points of the space of all vectors of coordinates are the coordinates of the points.
    let identity = Matrix::identity(alloc, *module.field(), null_space.rows())?;
    for coordinates in Points::new(alloc, &identity) {
        let coordinates = coordinates?;
        let space = proper_combination(
            alloc,
            module,
            null_space,
            transposed,
            &pairings,
            &coordinates,
        )?;
        if space.is_some() {
            return Ok(space);
        }
    }
    // Each of them generates everything.
    Ok(None)
}

/// What the point of a null space with these coordinates generates, or `None` where that is everything. It is spun only
/// where it is not seen to generate everything.
fn proper_combination(
    alloc: Global,
    module: &Module,
    null_space: &Matrix,
    transposed: &Matrix,
    pairings: &[Matrix],
    coordinates: &Row,
) -> Result<Option<Matrix>, Refusal>
    requires spaces { AreNullSpaces «module».now null_space.now transposed.now }
    requires first { GeneratesModule «module».now (point_of null_space.now 0) }
    requires pairings { All (IsPairing «module».now null_space.now transposed.now) pairings.now }
    requires coordinates { AreCoordinatesOfPoint «module».now null_space.now coordinates.now }
    ensures { Answers None
        (FindsProper «module».now (vector_product coordinates.now null_space.now).entries) result }
{
    // `dim` is called for what it ensures beside the number: that the module is one.
    prove!(null_space.cols() == module.dim());
    if is_seen_to_generate(alloc, pairings, transposed.rows(), coordinates)? {
        return Ok(None);
    }
    let point = null_space.vec_mul(alloc, coordinates)?;
    proper_space(alloc, module, point)
}

/// The first point of the null space of the transpose of a matrix with these rows, or with others that span the same. It
/// need not be square, but something other than zero is orthogonal to the rows.
pub(crate) fn transposed_point(alloc: Global, rows: &Matrix) -> Result<Row, Refusal>
    requires { HasOrthogonalVector rows.now }
    ensures { Answers None (IsTransposedPointRow rows.now) result }
{
    // `cols` is called for what it ensures beside the number: that the matrix is one.
    prove!(rows.cols() >= 1);
    match orthogonal_point(alloc, rows)? {
        Some(point) => Ok(point),
        None => unreachable!(),
    }
}

/// The reduced basis of the annihilator of the space that a vector other than zero generates in the transposed module,
/// or `None` where it generates everything there. The transposed module is made where it is not kept, and kept for
/// further words where it is small.
pub(crate) fn transposed_space(
    alloc: Global,
    module: &Module,
    vector: Row,
    kept: &mut Option<Module>,
) -> Result<Option<Matrix>, Refusal>
    requires field { vector.order ≡ «module».now.order }
    requires fits { length vector.entries ≡ «module».now.dim }
    requires nonzero { ¬ (IsZeroVector vector.entries) }
    requires kept { IsKeptTranspose «module».now kept.old }
    ensures found { Answers None (FindsTransposed «module».now vector.entries) result }
    ensures kept { IsKeptTranspose «module».now kept.new }
{
    let transposed = match kept.take() {
        Some(transposed) => transposed,
        None => dual(alloc, module)?,
    };
    let generated = proper_subspace(alloc, &transposed, vector)?;
    keep_where_small(transposed, kept);
    let Some(space) = generated else {
        return Ok(None);
    };
    let basis = space.into_reduced(alloc)?;
    Ok(Some(annihilator(alloc, &basis)?))
}

/// Keeps a transposed module for further words, where it is small; the memory of a larger one is free again.
fn keep_where_small(transposed: Module, kept: &mut Option<Module>)
    requires { kept.old ≡ None }
    ensures { (m : ModuleValue) → transposed ≡ dual_module m → IsKeptTranspose m kept.new }
{
    if transposed.dim() <= KEPT_DIMENSIONS {
        *kept = Some(transposed);
    }
}

//! Modules that are matched with forms.

ghost use Rattle.std.specs.Prelude.{◌≡◌, ◌≢◌, ◌+◌, ◌<◌, ◌≤◌, ◌↔◌, [], length, get_or, IsTrue, MatchOption, None, Ok};
ghost use Rattle.axe_algebra.specs.SpansOfLists.{IsSpanned};
ghost use Rattle.axe_field.specs.NumberFields.{number_field};
ghost use Rattle.axe_row.specs.Refusals.{Answers};
ghost use Rattle.axe_matrix.specs.Limits.{most_rows};
ghost use Rattle.axe_matrix.specs.Matrices.{IsMatrix};
ghost use Rattle.axe_iso.specs.Following.{AreFormMatrices, FollowsImage, FollowsRow};
ghost use Rattle.axe_iso.specs.Following.{IsBasisWithMatrices, IsFollowedBasis};
ghost use Rattle.axe_iso.specs.Forms.{IsNullSpaceOf};
ghost use Rattle.axe_iso.specs.Images.{IsSpaceOfImages};
ghost use Rattle.axe_iso.specs.Matches.{HasStandardMatrices, IsMatch};

use crate::form::Form;
use crate::images::images_of_first;
use crate::null_space::null_space_of;
use axe_echelon::{Subspace, row_space, span_of};
use axe_matrix::{Matrix, Refusal, Row};
use axe_spin::Module;
use axe_word::{MAX_POINTS, Points, few_points};
use std::alloc::Global;

/// The isomorphism T from a module to a form's matrices that the form gives: T is invertible, and `T g' = g T` for each
/// generator g' of the module and of the form's matrices g. It is the standard basis of the first point, of the null
/// space of the form's deciding matrix in the module, whose standard matrices are the form's. `None` where the module
/// is not isomorphic to the form's matrices; for another dimension at once. The module is over the form's field and has
/// as many generators. The form's matrices tell which images of rows are the next rows of a point's standard basis, and
/// which combinations of earlier rows the others are. Where the null space has more than one point, this is first asked
/// of all of its vectors at once, and only points to which a homomorphism can take the form's first unit vector are
/// followed; a point is given up at its first image that is another vector, and no point is tried past the one that
/// matches: all this is so by the code alone, and no clause says it.
pub fn matches(alloc: Global, form: &Form, module: &Module) -> Result<Option<Matrix>, Refusal>
    requires field { «module».now.order ≡ form.now.matrices.order }
    requires generators { length «module».now.generators ≡ length form.now.matrices.generators }
    ensures answer { Answers None (IsMatch form.now «module».now) result }
    ensures other_dimension { «module».now.dim ≢ form.now.matrices.dim → result ≡ Ok None }
{
    if module.dim() != form.matrices().dim() {
        return Ok(None);
    }
    let space = null_space_of(alloc, module, form.seed(), form.word(), form.poly())?;
    first_match(alloc, form, module, &space)
}

/// The isomorphism that a form gives, as [`matches`] answers it, by the null space of the form's deciding matrix in the
/// module. The points of the null space are followed in order.
pub(crate) fn first_match(
    alloc: Global,
    form: &Form,
    module: &Module,
    space: &Matrix,
) -> Result<Option<Matrix>, Refusal>
    requires field { «module».now.order ≡ form.now.matrices.order }
    requires generators { length «module».now.generators ≡ length form.now.matrices.generators }
    requires dimension { «module».now.dim ≡ form.now.matrices.dim }
    requires space { IsNullSpaceOf «module».now form.now.seed form.now.word form.now.poly space.now }
    ensures { Answers None (IsMatch form.now «module».now) result }
{
    prove!(module.dim() == form.matrices().dim());
    // The form's deciding matrix has a null space with fewer points in the form's matrices.
    if !few_points(module.field().order(), space.rows(), MAX_POINTS) {
        return Ok(None);
    }
    let images = possible_images(alloc, form.matrices(), module, space)?;
    // No homomorphism but zero takes the form's first unit vector into the space.
    if images.dim() == 0 {
        return Ok(None);
    }
    for point in Points::new(alloc, space) {
        let point = point?;
        if !contains(alloc, &images, &point)? {
            continue;
        }
        if let Some(basis) = followed_basis(alloc, form.matrices(), module, point)? {
            return Ok(Some(basis));
        }
    }
    Ok(None)
}

/// A space that has each vector of a space of which a form's matrices are the standard matrices. The one point of a
/// space of one dimension is followed anyway.
fn possible_images(
    alloc: Global,
    matrices: &Module,
    module: &Module,
    space: &Matrix,
) -> Result<Subspace, Refusal>
    requires matrices { AreFormMatrices «module».now matrices.now }
    requires field { space.now.order ≡ «module».now.order }
    requires columns { space.now.cols ≡ «module».now.dim }
    ensures { Answers None (IsSpaceOfImages «module».now matrices.now space.now) result }
{
    if space.rows() <= 1 {
        return row_space(alloc, space);
    }
    row_space(alloc, &images_of_first(alloc, matrices, module, space)?)
}

/// Whether a vector is in a space.
fn contains(alloc: Global, space: &Subspace, vector: &Row) -> Result<bool, Refusal>
    requires field { vector.now.order ≡ space.now.order }
    requires fits { length vector.now.entries ≡ space.now.cols }
    ensures { Answers None
        (λ is. IsTrue is ↔ IsSpanned (number_field space.now.order) space.now.rows vector.now.entries) result }
{
    let mut rest = vector.copy(alloc)?;
    space.reduce(&mut rest);
    Ok(rest.is_zero())
}

/// The standard basis of a point in a module where its standard matrices are a form's, and else `None`. The form's are
/// the standard matrices of their own first unit vector: so where a row of them goes past the rows so far, it is the
/// unit vector of the next row.
fn followed_basis(
    alloc: Global,
    matrices: &Module,
    module: &Module,
    point: Row,
) -> Result<Option<Matrix>, Refusal>
    requires matrices { AreFormMatrices «module».now matrices.now }
    requires field { point.order ≡ «module».now.order }
    requires fits { length point.entries ≡ «module».now.dim }
    ensures { Answers None (λ basis. MatchOption basis (¬ (HasStandardMatrices «module».now point.entries matrices.now))
        (IsBasisWithMatrices «module».now point matrices.now)) result }
{
    let mut basis = Matrix::with_capacity(alloc, *module.field(), module.dim(), module.dim())?;
    basis.append(point)?;
    for source in 0..module.dim() {
        if !follow_row(alloc, matrices, module, &mut basis, source)? {
            return Ok(None);
        }
    }
    // The images are as the matrices tell, but rows that are dependent are no basis.
    if span_of(alloc, &basis)?.rank() != module.dim() {
        return Ok(None);
    }
    Ok(Some(basis))
}

/// Takes the images of one row under the generators in order, and answers whether they are as a form's matrices tell:
/// `false` at the first that is not.
fn follow_row(
    alloc: Global,
    matrices: &Module,
    module: &Module,
    basis: &mut Matrix,
    source: usize,
) -> Result<bool, Refusal>
    requires matrices { AreFormMatrices «module».now matrices.now }
    requires source { source < «module».now.dim }
    requires basis { IsFollowedBasis «module».now matrices.now (get_or basis.old.rows 0 []) basis.old source 0 }
    ensures { Answers None
        (FollowsRow «module».now matrices.now (get_or basis.old.rows 0 []) basis.new (source + 1)) result }
{
    for number in 0..module.gens() {
        let image = module.generator(number).vec_mul(alloc, basis.row(source))?;
        let coefficients = matrices.generator(number).row(source);
        if !follow_image(alloc, coefficients, image, basis)? {
            return Ok(false);
        }
    }
    Ok(true)
}

/// Appends an image to the rows of a basis where its coefficients go past them: it is the next row then. Else the rows
/// stay. The answer is whether the image is as its coefficients tell: the next row, or the combination of the rows.
fn follow_image(
    alloc: Global,
    coefficients: &Row,
    image: Row,
    basis: &mut Matrix,
) -> Result<bool, Refusal>
    requires well_formed { IsMatrix basis.old }
    requires coefficients_field { coefficients.now.order ≡ basis.old.order }
    requires enough { length basis.old.rows ≤ length coefficients.now.entries }
    requires room { length coefficients.now.entries ≤ most_rows }
    requires image_field { image.order ≡ basis.old.order }
    requires fits { length image.entries ≡ basis.old.cols }
    ensures follows { Answers None
        (FollowsImage coefficients.now.entries image.entries basis.old basis.new) result }
    ensures well_formed { Answers None (λ _. IsMatrix basis.new) result }
{
    if coefficients.next_nonzero(basis.rows()).is_some() {
        basis.append(image)?;
        return Ok(true);
    }
    let first = coefficients.part(alloc, 0, basis.rows())?;
    let combination = basis.vec_mul(alloc, &first)?;
    Ok(image.same(&combination))
}

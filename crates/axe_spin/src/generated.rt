//! The spaces that rows generate in a module.

ghost use Rattle.std.specs.Prelude.{◌≡◌, ℕ, ◌+◌, ◌<◌, ◌≤◌, ◌↔◌, length, None, Some, IfOk, IsTrue};
ghost use Rattle.axe_algebra.specs.SpansOfLists.{IsSpanned};
ghost use Rattle.axe_field.specs.NumberFields.{number_field};
ghost use Rattle.axe_row.specs.Refusals.{Answers, unless_refused};
ghost use Rattle.axe_matrix.specs.Matrices.{IsMatrix};
ghost use Rattle.axe_spin.specs.Modules.{IsModule};
ghost use Rattle.axe_echelon.specs.Echelons.{IsEchelon};
ghost use Rattle.axe_spin.specs.Blocks.{block_of_rows, SpansMore};
ghost use Rattle.axe_spin.specs.Postponed.{AreImagesSpannedBut, AreTakenBut};
ghost use Rattle.axe_spin.specs.Spaces.{IsSubspaceOf, IsEnlarged, AreImagesSpanned};
ghost use Rattle.axe_spin.specs.Spun.{image_of_row};
ghost use Rattle.axe_spin.specs.Spinning.{seed_refusal, IsGeneratedSpace, IsGeneratedMatrix};

use crate::blocks::{block_length, rows_one_by_one};
use crate::module::Module;
use crate::trail::Trail;
use axe_echelon::{Subspace, row_space};
use axe_matrix::{Matrix, Refusal};
use std::alloc::Global;

/// The space that the rows of a matrix, the seed, generate in a module, as its reduced basis: the span of these rows
/// times all products of generators, which is the least invariant space with these rows. A seed over another field than
/// the module is refused as FieldsDiffer, else one with another number of columns than the module's dimension as
/// ShapesDiffer, else one without a row other than zero as ZeroSeed.
pub fn generate(alloc: Global, module: &Module, seed: &Matrix) -> Result<Matrix, Refusal>
    ensures basis { Answers (seed_refusal «module».now seed.now) (IsGeneratedMatrix «module».now seed.now) result }
    ensures well_formed { IfOk result IsMatrix }
{
    generated_space(alloc, module, seed)?.into_reduced(alloc)
}

/// The same space as [`generate`] gives, by an echelon form of it. The refusals are the same.
pub fn generated_space(alloc: Global, module: &Module, seed: &Matrix) -> Result<Subspace, Refusal>
    ensures { Answers (seed_refusal «module».now seed.now) (IsGeneratedSpace «module».now seed.now.rows) result }
{
    check_seed(module, seed)?;
    let mut space = row_space(alloc, seed)?;
    // Room for as many rows as there can be: a list that grows by doubling is there twice while it is copied.
    space.reserve(module.dim().saturating_sub(space.dim()))?;
    make_invariant(alloc, module, &mut space)?;
    Ok(space)
}

/// Refuses a matrix that is no seed in a module.
fn check_seed(module: &Module, seed: &Matrix) -> Result<(), Refusal>
    ensures refusal { result ≡ unless_refused (seed_refusal «module».now seed.now) tt }
    ensures seed_well_formed { IsMatrix seed.now }
{
    module.check_rows(seed)?;
    if seed.has_only_zeros() {
        return Err(Refusal::ZeroSeed);
    }
    Ok(())
}

/// Enlarges a space of vectors of a module to the least invariant space with it. Images that are likely to be in the space
/// already are postponed to the end: where the rows come to span everything before, none of them is made.
fn make_invariant(alloc: Global, module: &Module, space: &mut Subspace) -> Result<(), Refusal>
    requires { IsSubspaceOf «module».now space.old }
    ensures generated { Answers None (λ _. IsGeneratedSpace «module».now space.old.rows space.new) result }
    ensures module_well_formed { IsModule «module».now }
{
    // `dim` is called for what it ensures beside the number: that the module is well formed.
    prove!(space.cols() == module.dim());
    let postponed = take_likely_images(alloc, module, space)?;
    insert_postponed(alloc, module, space, &postponed)?;
    take_images_from(alloc, module, space, postponed.len())?;
    Ok(())
}

/// Takes the rows of the echelon form of a space in turn, those that it adds among them, and inserts the images of each
/// under the generators, but for those that are postponed. It answers for each row the generator whose image is. In
/// modules of many dimensions, whose rows are taken by blocks, it takes none.
fn take_likely_images(
    alloc: Global,
    module: &Module,
    space: &mut Subspace,
) -> Result<Vec<Option<usize>>, Refusal>
    requires { IsSubspaceOf «module».now space.old }
    ensures enlarged { Answers None (λ _. IsEnlarged «module».now space.old space.new) result }
    ensures within { Answers None (λ postponed. length postponed.items ≤ length space.new.rows) result }
    ensures taken { Answers None (λ postponed. AreTakenBut «module».now space.new.rows postponed.items) result }
{
    let mut trail = Trail::new(alloc, module.gens(), space.dim())?;
    let mut postponed = Vec::new(alloc);
    for source in 0..rows_one_by_one(module) {
        if source == space.dim() {
            break;
        }
        let unlikely = trail.unlikely(source);
        insert_likely_images(alloc, module, space, source, unlikely, &mut trail)?;
        postponed.push(unlikely)?;
    }
    Ok(postponed)
}

/// Inserts the images of one row of the echelon form under the generators, but for the one that is postponed.
fn insert_likely_images(
    alloc: Global,
    module: &Module,
    space: &mut Subspace,
    source: usize,
    postponed: Option<usize>,
    trail: &mut Trail,
) -> Result<(), Refusal>
    requires subspace { IsSubspaceOf «module».now space.old }
    requires within { source < length space.old.rows }
    ensures enlarged { Answers None (λ _. IsEnlarged «module».now space.old space.new) result }
    ensures images { Answers None (λ _.
        AreImagesSpannedBut «module».now space.new.rows postponed source (length «module».now.generators)) result }
{
    for number in 0..module.gens() {
        // Once the rows span everything, no image is new.
        if is_whole(module, space) {
            break;
        }
        if !is_postponed(postponed, number) {
            let is_new = insert_image(alloc, module, space, source, number)?;
            trail.note(source, number, is_new)?;
        }
    }
    Ok(())
}

/// Whether the image under a generator is the one that is postponed.
fn is_postponed(postponed: Option<usize>, number: usize) -> bool
    ensures { IsTrue result ↔ (postponed ≡ Some number) }
{
    match postponed {
        Some(other) => other == number,
        None => false,
    }
}

/// Inserts the images of rows that were postponed, for each of the first rows the one that the list has.
fn insert_postponed(
    alloc: Global,
    module: &Module,
    space: &mut Subspace,
    postponed: &[Option<usize>],
) -> Result<(), Refusal>
    requires subspace { IsSubspaceOf «module».now space.old }
    requires within { length postponed.now ≤ length space.old.rows }
    requires taken { AreTakenBut «module».now space.old.rows postponed.now }
    ensures enlarged { Answers None (λ _. IsEnlarged «module».now space.old space.new) result }
    ensures images { Answers None (λ _. (r : ℕ) → r < length postponed.now →
        AreImagesSpanned «module».now space.new.rows r (length «module».now.generators)) result }
{
    // `dim` is called for what it ensures beside the number: that the module is well formed.
    prove!(space.cols() == module.dim());
    for source in 0..postponed.len() {
        // Once the rows span everything, no image is new.
        if is_whole(module, space) {
            break;
        }
        insert_postponed_image(alloc, module, space, source, postponed[source])?;
    }
    Ok(())
}

/// Inserts the image of a row that was postponed, where one was.
fn insert_postponed_image(
    alloc: Global,
    module: &Module,
    space: &mut Subspace,
    source: usize,
    postponed: Option<usize>,
) -> Result<(), Refusal>
    requires subspace { IsSubspaceOf «module».now space.old }
    requires within { source < length space.old.rows }
    requires images { AreImagesSpannedBut «module».now space.old.rows postponed source (length «module».now.generators) }
    ensures enlarged { Answers None (λ _. IsEnlarged «module».now space.old space.new) result }
    ensures images { Answers None
        (λ _. AreImagesSpanned «module».now space.new.rows source (length «module».now.generators)) result }
{
    let Some(number) = postponed else {
        return Ok(());
    };
    if number < module.gens() {
        insert_image(alloc, module, space, source, number)?;
    }
    Ok(())
}

/// Enlarges a space of vectors of a module to the least invariant space with it, where the images of the first `start` rows
/// of its echelon form are in it. It takes the other rows in turn, those that it adds among them, and inserts the images
/// of each under the generators.
fn take_images_from(
    alloc: Global,
    module: &Module,
    space: &mut Subspace,
    start: usize,
) -> Result<(), Refusal>
    requires subspace { IsSubspaceOf «module».now space.old }
    requires within { start ≤ length space.old.rows }
    requires images { (r : ℕ) → r < start →
        AreImagesSpanned «module».now space.old.rows r (length «module».now.generators) }
    ensures enlarged { Answers None (λ _. IsEnlarged «module».now space.old space.new) result }
    ensures images { Answers None (λ _. (r : ℕ) → r < length space.new.rows →
        AreImagesSpanned «module».now space.new.rows r (length «module».now.generators)) result }
{
    let mut taken = start;
    // There are no more independent rows than the dimension, and each step takes one or more.
    for _ in 0..module.dim() {
        if taken == space.dim() {
            break;
        }
        let count = block_length(module, space.dim(), taken);
        if count == 1 {
            insert_images(alloc, module, space, taken)?;
        } else {
            insert_images_of_block(alloc, module, space, taken, count)?;
        }
        taken += count;
    }
    Ok(())
}

/// Inserts the images of one row of the echelon form under the generators.
fn insert_images(
    alloc: Global,
    module: &Module,
    space: &mut Subspace,
    source: usize,
) -> Result<(), Refusal>
    requires subspace { IsSubspaceOf «module».now space.old }
    requires within { source < length space.old.rows }
    ensures enlarged { Answers None (λ _. IsEnlarged «module».now space.old space.new) result }
    ensures images { Answers None
        (λ _. AreImagesSpanned «module».now space.new.rows source (length «module».now.generators)) result }
{
    for generator in 0..module.gens() {
        // Once the rows span everything, no image is new.
        if is_whole(module, space) {
            break;
        }
        insert_image(alloc, module, space, source, generator)?;
    }
    Ok(())
}

/// Inserts the image of one row of the echelon form under a generator, and answers whether it is new.
#[inline(always)]
fn insert_image(
    alloc: Global,
    module: &Module,
    space: &mut Subspace,
    source: usize,
    number: usize,
) -> Result<bool, Refusal>
    requires subspace { IsSubspaceOf «module».now space.old }
    requires within { source < length space.old.rows }
    requires number { number < length «module».now.generators }
    ensures enlarged { Answers None (λ _. IsEnlarged «module».now space.old space.new) result }
    ensures image { Answers None (λ _. IsSpanned (number_field «module».now.order) space.new.rows
        (image_of_row «module».now space.new.rows source number)) result }
    ensures exactly { IfOk result
        (λ is_new. IsTrue is_new ↔ ¬ (IsSpanned (number_field «module».now.order) space.old.rows
        (image_of_row «module».now space.old.rows source number))) }
{
    let image = module.generator(number).vec_mul(alloc, space.row(source))?;
    space.insert(image)
}

/// Whether a space of vectors of a module is that of all of them.
#[inline(always)]
fn is_whole(module: &Module, space: &Subspace) -> bool
    ensures { IsTrue result ↔ (length space.now.rows ≡ «module».now.dim) }
{
    space.dim() == module.dim()
}

/// Inserts the images of `count` rows of the echelon form under the generators, those from row `source` on, by products.
fn insert_images_of_block(
    alloc: Global,
    module: &Module,
    space: &mut Subspace,
    source: usize,
    count: usize,
) -> Result<(), Refusal>
    requires subspace { IsSubspaceOf «module».now space.old }
    requires within { source + count ≤ length space.old.rows }
    ensures enlarged { Answers None (λ _. IsEnlarged «module».now space.old space.new) result }
    ensures images { Answers None (λ _. (r : ℕ) → source ≤ r → r < source + count →
        AreImagesSpanned «module».now space.new.rows r (length «module».now.generators)) result }
{
    let block = block_of(alloc, space, source, count)?;
    for index in 0..module.gens() {
        // Once the rows span everything, no image is new.
        if space.dim() == space.cols() {
            break;
        }
        let images = block.mul(alloc, module.generator(index))?;
        insert_rows(space, images)?;
    }
    Ok(())
}

/// The matrix of `count` rows of the echelon form of a space, those from row `source` on.
fn block_of(alloc: Global, space: &Subspace, source: usize, count: usize) -> Result<Matrix, Refusal>
    requires within { source + count ≤ length space.now.rows }
    ensures block { Answers None (λ block. block ≡ block_of_rows space.now source count) result }
    ensures well_formed { IfOk result IsMatrix }
{
    let mut block = Matrix::with_capacity(alloc, *space.field(), space.cols(), count)?;
    for index in source..source + count {
        let row = space.row(index).copy(alloc)?;
        block.append(row)?;
    }
    Ok(block)
}

/// Inserts the rows of a matrix into a space of vectors of their length over their field.
fn insert_rows(space: &mut Subspace, rows: Matrix) -> Result<(), Refusal>
    requires field { rows.order ≡ space.old.order }
    requires columns { rows.cols ≡ space.old.cols }
    ensures inserted { Answers None (λ _. SpansMore space.old rows.rows space.new) result }
    ensures well_formed { IsEchelon space.new }
{
    // `cols` is called for what it ensures beside their number: that the space's rows are an echelon form.
    prove!(rows.cols() == space.cols());
    for row in rows.into_rows() {
        space.insert(row)?;
    }
    Ok(())
}

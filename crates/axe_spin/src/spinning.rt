//! Spinning: rows and the images of rows under the generators of a module, taken in order, until their span is
//! invariant.

ghost use Rattle.std.specs.Prelude.{◌≡◌, ◌+◌, ◌<◌, ◌≤◌, length, None, if◌then◌else◌};
ghost use Rattle.axe_row.specs.Refusals.{Answers};
ghost use Rattle.axe_matrix.specs.Matrices.{IsMatrix};
ghost use Rattle.axe_echelon.specs.Subspaces.{BeginWith};
ghost use Rattle.axe_spin.specs.Images.{AreImagesOfBlock, AreImagesAt};
ghost use Rattle.axe_spin.specs.Origins.{HaveOrigins};
ghost use Rattle.axe_spin.specs.Spun.{IsSpanOf, IsOffered, IsSpunMatrix, SpinsOn, with_row};

use crate::blocks::block_length;
use crate::module::Module;
use axe_echelon::Subspace;
use axe_matrix::{Matrix, Refusal, Row};
use std::alloc::Global;

/// Where a row of a standard basis after the first comes from: it is the image of an earlier row under a generator.
#[derive(Clone, Copy)]
pub struct Origin {
    /// The number of the earlier row, counted from 0.
    pub source: usize,
    /// The number of the generator, counted from 0.
    pub generator: usize,
}

/// Appends a row to independent rows, and enlarges their span by it, where it is not in that span. Tells whether it was
/// appended.
pub(crate) fn offer(
    alloc: Global,
    span: &mut Subspace,
    rows: &mut Matrix,
    row: Row,
) -> Result<bool, Refusal>
    requires well_formed { IsMatrix rows.old }
    requires span { IsSpanOf span.old rows.old }
    requires field { row.order ≡ rows.old.order }
    requires fits { length row.entries ≡ rows.old.cols }
    ensures offered { Answers None (λ _. IsOffered rows.old row.entries rows.new) result }
    ensures told { Answers None
        (λ appended. rows.new ≡ (if appended then with_row rows.old row.entries else rows.old)) result }
    ensures span { Answers None (λ _. IsSpanOf span.new rows.new) result }
    ensures well_formed { Answers None (λ _. IsMatrix rows.new) result }
{
    let copy = row.copy(alloc)?;
    let outside = span.insert(copy)?;
    if outside {
        rows.append(row)?;
    }
    Ok(outside)
}

/// Spins independent rows in a module: takes the rows in turn, and for each the generators in order; an image that is
/// not in the span so far is appended, and its origin to the origins.
pub(crate) fn spin(
    alloc: Global,
    module: &Module,
    span: &mut Subspace,
    rows: &mut Matrix,
    origins: &mut Vec<Origin>,
) -> Result<(), Refusal>
    requires well_formed { IsMatrix rows.old }
    requires span { IsSpanOf span.old rows.old }
    requires field { rows.old.order ≡ «module».now.order }
    requires fits { rows.old.cols ≡ «module».now.dim }
    requires origins { HaveOrigins «module».now rows.old.rows origins.old.items }
    ensures spun { Answers None (λ _. IsSpunMatrix «module».now rows.old rows.new) result }
    ensures span { Answers None (λ _. IsSpanOf span.new rows.new) result }
    ensures well_formed { Answers None (λ _. IsMatrix rows.new) result }
    ensures origins { Answers None (λ _. HaveOrigins «module».now rows.new.rows origins.new.items) result }
{
    let mut taken = 0;
    // There are no more independent rows than columns, and each step takes one or more.
    for _ in 0..span.cols() {
        if taken == rows.rows() {
            break;
        }
        let count = block_length(module, rows.rows(), taken);
        if count == 1 {
            take_images(alloc, module, span, rows, origins, taken)?;
        } else {
            take_images_of_block(alloc, module, span, rows, origins, taken, count)?;
        }
        taken += count;
    }
    Ok(())
}

/// Offers the images of one row under the generators, in order, and keeps the origins of those that are appended.
fn take_images(
    alloc: Global,
    module: &Module,
    span: &mut Subspace,
    rows: &mut Matrix,
    origins: &mut Vec<Origin>,
    source: usize,
) -> Result<(), Refusal>
    requires well_formed { IsMatrix rows.old }
    requires span { IsSpanOf span.old rows.old }
    requires field { rows.old.order ≡ «module».now.order }
    requires fits { rows.old.cols ≡ «module».now.dim }
    requires origins { HaveOrigins «module».now rows.old.rows origins.old.items }
    requires within { source < length rows.old.rows }
    ensures taken { Answers None (λ _. SpinsOn «module».now rows.old rows.new source 0 (source + 1) 0) result }
    ensures span { Answers None (λ _. IsSpanOf span.new rows.new) result }
    ensures well_formed { Answers None (λ _. IsMatrix rows.new) result }
    ensures origins { Answers None (λ _. HaveOrigins «module».now rows.new.rows origins.new.items) result }
{
    for number in 0..module.gens() {
        // Once the rows span everything, no image is new.
        if span.dim() == module.dim() {
            break;
        }
        let image = module.generator(number).vec_mul(alloc, rows.row(source))?;
        if offer(alloc, span, rows, image)? {
            origins.push(Origin {
                source,
                generator: number,
            })?;
        }
    }
    Ok(())
}

/// Offers the images of `count` rows under the generators, from row `source` on: of each row in turn those under the
/// generators, in order. They are made by products. Keeps the origins of those that are appended.
fn take_images_of_block(
    alloc: Global,
    module: &Module,
    span: &mut Subspace,
    rows: &mut Matrix,
    origins: &mut Vec<Origin>,
    source: usize,
    count: usize,
) -> Result<(), Refusal>
    requires well_formed { IsMatrix rows.old }
    requires span { IsSpanOf span.old rows.old }
    requires field { rows.old.order ≡ «module».now.order }
    requires fits { rows.old.cols ≡ «module».now.dim }
    requires origins { HaveOrigins «module».now rows.old.rows origins.old.items }
    requires within { source + count ≤ length rows.old.rows }
    ensures taken { Answers None (λ _. SpinsOn «module».now rows.old rows.new source 0 (source + count) 0) result }
    ensures span { Answers None (λ _. IsSpanOf span.new rows.new) result }
    ensures well_formed { Answers None (λ _. IsMatrix rows.new) result }
    ensures origins { Answers None (λ _. HaveOrigins «module».now rows.new.rows origins.new.items) result }
{
    let images = images_of_block(alloc, module, rows, source, count)?;
    for index in 0..count {
        take_made_images(
            alloc,
            module,
            span,
            rows,
            origins,
            source + index,
            &images,
            index,
        )?;
    }
    Ok(())
}

/// The images of `count` rows of a matrix under each generator, from row `source` on.
fn images_of_block(
    alloc: Global,
    module: &Module,
    rows: &Matrix,
    source: usize,
    count: usize,
) -> Result<Vec<Matrix>, Refusal>
    requires well_formed { IsMatrix rows.now }
    requires field { rows.now.order ≡ «module».now.order }
    requires fits { rows.now.cols ≡ «module».now.dim }
    requires within { source + count ≤ length rows.now.rows }
    ensures images { Answers None
        (λ images. AreImagesOfBlock «module».now rows.now.rows source count images.items) result }
{
    let block = rows.block(alloc, source, count, 0, rows.cols())?;
    let mut images = Vec::with_capacity(alloc, module.gens())?;
    for number in 0..module.gens() {
        let image = block.mul(alloc, module.generator(number))?;
        images.push(image)?;
    }
    Ok(images)
}

/// Offers the images of one row under the generators, in order, where they were made: each is the row at an index of the
/// matrix of that generator. Keeps the origins of those that are appended.
fn take_made_images(
    alloc: Global,
    module: &Module,
    span: &mut Subspace,
    rows: &mut Matrix,
    origins: &mut Vec<Origin>,
    source: usize,
    images: &[Matrix],
    index: usize,
) -> Result<(), Refusal>
    requires well_formed { IsMatrix rows.old }
    requires span { IsSpanOf span.old rows.old }
    requires field { rows.old.order ≡ «module».now.order }
    requires fits { rows.old.cols ≡ «module».now.dim }
    requires origins { HaveOrigins «module».now rows.old.rows origins.old.items }
    requires within { source < length rows.old.rows }
    requires images { AreImagesAt «module».now rows.old.rows source index images.now }
    ensures taken { Answers None (λ _. SpinsOn «module».now rows.old rows.new source 0 (source + 1) 0) result }
    ensures begins { Answers None (λ _. BeginWith rows.old.rows rows.new.rows) result }
    ensures span { Answers None (λ _. IsSpanOf span.new rows.new) result }
    ensures well_formed { Answers None (λ _. IsMatrix rows.new) result }
    ensures origins { Answers None (λ _. HaveOrigins «module».now rows.new.rows origins.new.items) result }
{
    for (generator, made) in images.iter().enumerate() {
        // Once the rows span everything, no image is new.
        if module.dim() == span.dim() {
            break;
        }
        let image = made.row(index).copy(alloc)?;
        if offer(alloc, span, rows, image)? {
            origins.push(Origin { source, generator })?;
        }
    }
    Ok(())
}

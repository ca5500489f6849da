//! The blocks of the conjugated generators.

ghost use Rattle.std.specs.Prelude.{◌≡◌, ◌+◌, ◌≤◌, ◌<◌, ◌↔◌, length, All, None, IsTrue};
ghost use Rattle.axe_row.specs.Refusals.{Answers};
ghost use Rattle.axe_algebra.specs.Blocks.{AreBlockSizes};
ghost use Rattle.axe_spin.specs.Modules.{ModuleValue};
ghost use Rattle.axe_series.specs.Series.{sizes_of_places};
ghost use Rattle.axe_check.specs.Steps.{Passes, HasBlockAt, HasZerosAt, HasBlocksAt, HasAllBlocks, IsBlockReason};
ghost use Rattle.axe_check.specs.Steps.{IsLikeModule};

use crate::reasons::Stop;
use axe_matrix::{Matrix, Refusal};
use axe_report::Reason;
use axe_spin::Module;
use std::alloc::Global;

/// Whether the conjugated generators are block lower triangular with the factors of a series on their diagonal, by
/// these places among the factors.
pub(crate) fn check_blocks(
    alloc: Global,
    conjugates: &Module,
    factors: &[Module],
    series: &[u16],
) -> Result<(), Stop>
    requires sizes { AreBlockSizes conjugates.now.dim (sizes_of_places factors.now series.now) }
    requires places { All (λ number. number < length factors.now) series.now }
    requires like { All (IsLikeModule conjugates.now) factors.now }
    ensures { Passes (λ _. HasAllBlocks conjugates.now factors.now series.now)
        (IsBlockReason conjugates.now factors.now series.now) result }
{
    // Called for what it ensures beside the number: that the module is one.
    prove!(conjugates.dim() >= 1);
    let mut start = 0;
    for &number in series {
        let factor = &factors[usize::from(number)];
        if !has_blocks_at(alloc, conjugates, start, factor)? {
            return Err(Stop::Because(Reason::Blocks));
        }
        start += factor.dim();
    }
    Ok(())
}

/// Whether each generator of a module has, in the rows from `start` on, a factor's generator from column `start` on,
/// and zeros after it.
fn has_blocks_at(
    alloc: Global,
    conjugates: &Module,
    start: usize,
    factor: &Module,
) -> Result<bool, Refusal>
    requires like { IsLikeModule conjugates.now factor.now }
    requires fits { start + factor.now.dim ≤ conjugates.now.dim }
    ensures { Answers None (λ has. IsTrue has ↔ HasBlocksAt conjugates.now start factor.now) result }
{
    for index in 0..conjugates.gens() {
        let (matrix, block) = (conjugates.generator(index), factor.generator(index));
        if !has_block_at(alloc, matrix, start, block)? {
            return Ok(false);
        }
    }
    Ok(true)
}

/// Whether the rows of a matrix from `start` on have the entries of a square block from column `start` on, and zeros
/// after these.
fn has_block_at(
    alloc: Global,
    matrix: &Matrix,
    start: usize,
    block: &Matrix,
) -> Result<bool, Refusal>
    requires field { block.now.order ≡ matrix.now.order }
    requires square { length block.now.rows ≡ block.now.cols }
    requires rows { start + length block.now.rows ≤ length matrix.now.rows }
    requires columns { start + length block.now.rows ≤ matrix.now.cols }
    ensures { Answers None (λ has. IsTrue has ↔ HasBlockAt matrix.now start block.now) result }
{
    let size = block.rows();
    // `cols` is called for what it ensures beside the number: that the block is a matrix.
    prove!(block.cols() >= 1);
    let diagonal = matrix.block(alloc, start, size, start, size)?;
    if !diagonal.same(block) {
        return Ok(false);
    }
    has_zeros_at(alloc, matrix, start, size)
}

/// Whether the rows of a matrix from `start` on, so many, have zeros from column `start + size` on.
fn has_zeros_at(alloc: Global, matrix: &Matrix, start: usize, size: usize) -> Result<bool, Refusal>
    requires rows { start + size ≤ length matrix.now.rows }
    requires columns { start + size ≤ matrix.now.cols }
    ensures { Answers None (λ has. IsTrue has ↔ HasZerosAt matrix.now start size) result }
{
    let cols = matrix.cols();
    let end = start + size;
    if end == cols {
        return Ok(true);
    }
    let right = matrix.block(alloc, start, size, end, cols - end)?;
    Ok(right.has_only_zeros())
}

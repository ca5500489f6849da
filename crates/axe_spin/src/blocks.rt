//! Blocks: rows of a module that wait together for their images.

ghost use Rattle.std.specs.Prelude.{◌≡◌, ◌+◌, ◌<◌, ◌≤◌};

use crate::module::Module;

/// The least dimension of a module whose rows are multiplied by a generator many at once. In smaller ones a product
/// takes as long as the images of its rows one by one.
const MANY_DIMENSIONS: usize = 1024;

/// The least number of rows for which a product is made.
const MANY_ROWS: usize = 32;

/// How many rows are multiplied by a module's generators next, where there are `rows` and the images of the first `taken`
/// were made: one, or in a module of many dimensions as many as wait. They are no more than have images enough to make
/// the rows as many as the dimension; and fewer than [`MANY_ROWS`] are taken one by one.
pub(crate) fn block_length(module: &Module, rows: usize, taken: usize) -> usize
    requires { taken < rows }
    ensures some { 1 ≤ result }
    ensures within { taken + result ≤ rows }
{
    if module.dim() < MANY_DIMENSIONS {
        return 1;
    }
    let missing = module.dim().saturating_sub(rows);
    let count = (rows - taken).min(missing.div_ceil(module.gens()));
    if count < MANY_ROWS { 1 } else { count }
}

/// How many rows are taken one by one in a module, at most: all of them, or none where they are taken by blocks.
pub(crate) fn rows_one_by_one(module: &Module) -> usize {
    if module.dim() < MANY_DIMENSIONS {
        module.dim()
    } else {
        0
    }
}

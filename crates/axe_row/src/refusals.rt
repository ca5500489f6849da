//! Why an operation on rows or matrices is refused.

use std::alloc::{AllocError, AllocFailed};
use thiserror::Error;

/// Why an operation on rows or matrices gives no result. Each operation names those that it may answer, in the order in
/// which it looks for them.
#[derive(Debug, Clone, Copy, PartialEq, Eq, Error)]
pub enum Refusal {
    /// The operands are not over one field.
    #[error("the operands are over different fields")]
    FieldsDiffer,
    /// The shapes of the operands don't fit.
    #[error("the shapes of the operands do not fit")]
    ShapesDiffer,
    /// A matrix has not as many rows as columns.
    #[error("the matrix is not square")]
    NotSquare,
    /// A matrix has no inverse.
    #[error("the matrix has no inverse")]
    Singular,
    /// A space is not mapped into itself.
    #[error("the space is not invariant")]
    NotInvariant,
    /// A space is everything, where a smaller one is asked for.
    #[error("the space is the whole space")]
    WholeSpace,
    /// A seed has no row other than zero.
    #[error("the seed has no nonzero row")]
    ZeroSeed,
    /// A matrix has no rows.
    #[error("the matrix has no rows")]
    NoRows,
    /// A space is zero, where a larger one is asked for.
    #[error("the space is zero")]
    ZeroSpace,
    /// There was no memory for the result.
    #[error("out of memory")]
    Memory,
}

impl From<AllocError> for Refusal {
    ghost use Rattle.std.specs.Prelude.{◌≡◌};
    ghost use Rattle.axe_row.specs.declared.refusals.Refusal.TheVariants.{Memory};

    ghost from_gives = { λ _ refusal. refusal ≡ Memory };

    fn from(_error: AllocError) -> Refusal {
        Refusal::Memory
    }
}

impl<T: Drop> From<AllocFailed<T>> for Refusal {
    ghost use Rattle.std.specs.Prelude.{◌≡◌};
    ghost use Rattle.axe_row.specs.declared.refusals.Refusal.TheVariants.{Memory};

    ghost from_gives = { λ _ refusal. refusal ≡ Memory };

    fn from(_error: AllocFailed<T>) -> Refusal {
        Refusal::Memory
    }
}

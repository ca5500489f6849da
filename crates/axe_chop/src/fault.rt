//! Why there is no composition series.

use axe_matrix::{Matrix, Refusal};

/// Why there is no composition series.
#[derive(Drop)]
pub enum ChopFault {
    /// No word decides a section. Conjugated by the basis the generators are block lower triangular, and the diagonal
    /// block of `dim` rows from row `offset` on is the section's.
    Undecided {
        /// The basis: square and invertible.
        basis: Matrix,
        /// How many rows stand before the section's.
        offset: usize,
        /// The section's dimension.
        dim: usize,
    },
    /// Memory was refused.
    Memory,
}

impl From<Refusal> for ChopFault {
    ghost use Rattle.std.specs.Prelude.{◌≡◌};
    ghost use Rattle.axe_chop.specs.declared.fault.ChopFault.TheVariants.{Memory};

    ghost from_gives = { λ _ fault. fault ≡ Memory };

    fn from(_refusal: Refusal) -> ChopFault {
        ChopFault::Memory
    }
}

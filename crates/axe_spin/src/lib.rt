//! Modules over a small finite field: the spaces that rows generate in them, and standard bases.
#![tactic(auto)]

mod blocks;
mod generated;
mod laws;
mod limits;
mod module;
mod spinning;
mod standard;
mod trail;

pub use generated::{generate, generated_space};
pub use laws::{isomorphism_carries_standard_basis, multiple_has_the_same_standard_matrices};
pub use limits::limits_are_named;
pub use module::Module;
pub use spinning::Origin;
pub use standard::{first_nonzero_row, standard_basis, standard_basis_with_origins, standard_rows};

/// The most generators that a module has. It has at least one.
pub const MAX_GENERATORS: usize = 16;

//! How a module acts on its invariant spaces and modulo them; duals, annihilators, extended bases and conjugates.
#![tactic(auto)]

mod bases;
mod blocks;
mod columns;
mod conjugates;
mod duals;
mod known_rows;
mod leading;
mod quotients;
mod standard;
mod submodules;
mod subspaces;

pub use bases::extend_basis;
pub use conjugates::{change_basis, conjugate};
pub use duals::{annihilator, dual};
pub use quotients::quotient_action;
pub use standard::change_standard_basis;
pub use submodules::{Split, split_by_submodule};
pub use subspaces::{basis_action, sub_action};

//! Inverses, by the reduction of augmented matrices: of few rows one after the other, and of more half of them after
//! the other.
#![tactic(auto)]

mod augmented;
mod augmented_row;
mod few;
mod reduction;
mod solutions;

pub use solutions::inverse_of;

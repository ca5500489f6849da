//! How a command fails: the fault, its exit status, its number and the line that is printed of it.
#![tactic(auto)]

mod fault;
mod printed;

pub use fault::Fault;
pub use printed::{line, number, status};

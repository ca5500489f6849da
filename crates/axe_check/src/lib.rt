//! Certificates of composition series, checked: whether what `chop` writes beside a module is a composition series of
//! it.
#![tactic(auto)]

mod blocks;
mod checking;
pub mod laws;
mod pairs;
mod reasons;
mod shapes;
mod words;

pub use axe_report::Reason;
pub use checking::check;

//! Composition series of modules: what they are stands in `axe_series`; here they are found.
#![tactic(auto)]

mod chopped;
mod chopping;
mod fault;
mod found;
mod lifted;
mod reported;
mod search;
mod section;

pub use chopped::{Chopped, Factor};
pub use chopping::{chop, chop_owned};
pub use fault::ChopFault;
pub use reported::{header_of, report_of, report_under, series_have_reports};

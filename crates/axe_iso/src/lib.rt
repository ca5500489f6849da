//! Standard forms of modules, and isomorphisms that they give.
#![tactic(auto)]

mod form;
mod images;
pub mod laws;
mod matching;
mod null_space;

pub use form::{Form, form_of, form_of_owned};
pub use matching::matches;

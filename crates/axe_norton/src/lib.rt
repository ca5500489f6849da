//! Norton's test: whether a module is irreducible, and a submodule where it is not.
#![tactic(auto)]

mod cyclic;
mod decisions;
mod factors;
mod fitting;
mod known;
pub mod laws;
mod misfits;
mod null_rows;
mod one_vector;
mod pairings;
mod spaces;
mod value_spaces;
mod verdicts;

pub use decisions::{decide, decide_at, decide_at_with, decide_knowing, decide_with};
pub use fitting::fits;
pub use known::Known;
pub use one_vector::{decide_poly, decide_poly_where_fits};
pub use verdicts::{At, Verdict};

/// The most points of a null space that are all tried. Of a null space with more points the first alone is.
pub const MOST_POINTS: usize = 1000;

/// The greatest number of a last word.
pub const MAX_WORDS: u32 = 10_000;

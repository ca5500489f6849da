//! Words in the generators of a module, their values, and words that are drawn.
#![tactic(auto)]

mod drawing;
mod laws;
mod limits;
mod points;
mod products;
mod stored;
mod tested;
mod value;
mod word;

pub use drawing::nth_word;
pub use laws::{drawn_words_are_words, words_have_one_value};
pub use limits::limits_are_named;
pub use points::{MAX_POINTS, Points, few_points, first_point};
pub use products::Products;
pub use tested::Tested;
pub use word::{Term, Word};

/// The most terms that a word has. It may have none.
pub const MAX_TERMS: usize = 4;

/// The most generator numbers that a term of a word has. It may have none.
pub const MAX_NUMBERS: usize = 6;

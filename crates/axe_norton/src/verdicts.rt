//! What a word says of a module, and what words decide.

use axe_matrix::{Matrix, Row};
use axe_poly::Poly;

/// What a word says of a module.
#[derive(Drop)]
pub enum At {
    /// The module is irreducible.
    Irreducible {
        /// The polynomial p that shows it at the word's value x, where one does: it fits x, so that the degree of p is
        /// the dimension of the null space of p(x).
        poly: Option<Poly>,
        /// The first point of the null space of p(x), or of x where there is no p.
        vector: Row,
    },
    /// The module is reducible; the reduced basis of a submodule that is neither zero nor everything.
    Reducible(Matrix),
    /// The word leaves the module open.
    Left,
}

/// What the words of a seed decide of a module.
#[derive(Drop)]
pub enum Verdict {
    /// The module is irreducible.
    Irreducible {
        /// The number of the word that shows it.
        word: u32,
        /// The polynomial p that shows it at that word's value x, where one does: it fits x, so that the degree of p is
        /// the dimension of the null space of p(x).
        poly: Option<Poly>,
        /// The first point of the null space of p(x), or of x where there is no p.
        vector: Row,
    },
    /// The module is reducible; the reduced basis of a submodule that is neither zero nor everything.
    Reducible(Matrix),
    /// Each of the words leaves the module open.
    Undecided,
}

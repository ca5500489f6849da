//! Polynomials over a small finite field: monic ones of degree at least 1, their values at matrices, the minimal
//! polynomials of row vectors, and irreducible divisors of small degree.
#![tactic(auto)]

mod digits;
mod divisor;
mod factors;
mod irreducibles;
mod lanes;
mod limits;
mod minimal;
mod poly;
mod products;
mod sieve;
mod value;
mod windows;

pub use factors::factors_up_to;
pub use irreducibles::Irreducibles;
pub use limits::{degrees_are_greatest, greatest_degree};
pub use minimal::{CyclicBasis, cyclic_basis, minimal_of_vector};
pub use poly::Poly;

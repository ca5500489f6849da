//! Polynomials over a finite field, their values at square matrices, and the rule that decides a module by one vector.
//! The crate has no code but law functions, whose contracts are the theorems.
#![tactic(auto)]

pub mod division;
pub mod factors;
pub mod lists;
pub mod minimal;
pub mod products;
pub mod rule;
pub mod values;

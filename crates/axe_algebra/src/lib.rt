//! Linear algebra over a finite field: what the words of the other crates' contracts mean, and the theorems that tie
//! them together. The crate has no code but law functions, whose contracts are the theorems.
#![tactic(auto)]

pub mod inverses;
pub mod lists;
pub mod modules;
pub mod norton;
pub mod points;
pub mod products;
pub mod reduced_bases;
pub mod spans;
pub mod standard;
pub mod words;

//! Worked calls of the libraries below modules, from matrices on: matrices, echelon forms, their files, reports, and
//! folders of them. Each answer is compared with a value that was worked out by hand. What the crates prove is not
//! tested again; this crate shows that the definitions mean what they should, and that memory is not refused where
//! there is enough.
//!
//! The calls stand in tables, one on a line. `axe_test_values` says how a line and the values on it are written; a
//! module for each topic has its tables, and a small function for calls that are given the same values.
#![tactic(auto)]

#[cfg(test)]
mod changed;
#[cfg(test)]
mod echelons;
#[cfg(test)]
mod files;
#[cfg(test)]
mod folders;
#[cfg(test)]
mod matrices;
#[cfg(test)]
mod module_files;
#[cfg(test)]
mod polynomials;
#[cfg(test)]
mod reports;
#[cfg(test)]
mod tables;

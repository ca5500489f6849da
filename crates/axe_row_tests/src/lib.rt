//! Worked calls of the libraries below matrices: kernels, fields, rows, and tables of the combinations of rows. Each
//! answer is compared with a value that was worked out by hand, or with one that is made entry by entry. What the
//! crates prove is not tested again; this crate shows that the definitions mean what they should, and that memory is
//! not refused where there is enough.
//!
//! The calls stand in tables, one on a line. `axe_test_values` says how a line and the values on it are written; a
//! module for each topic has its tables, and a small function for calls that are given the same values.
#![tactic(auto)]

#[cfg(test)]
mod combos;
#[cfg(test)]
mod fields;
#[cfg(test)]
mod held_rows;
#[cfg(test)]
mod lanes;
#[cfg(test)]
mod packed;
#[cfg(test)]
mod places;
#[cfg(test)]
mod row_sums;
#[cfg(test)]
mod row_sweep;
#[cfg(test)]
mod rows;
#[cfg(test)]
mod tables;
#[cfg(test)]
mod trits;

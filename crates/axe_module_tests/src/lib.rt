//! Worked calls of the libraries from modules on: spinning, actions, words, points, Norton's test, standard forms,
//! matches and composition series. Each answer is compared with a value that was worked out by hand. What the crates
//! prove is not tested again; this crate shows that the definitions mean what they should, and that memory is not
//! refused where there is enough.
//!
//! The calls stand in tables, one on a line. `axe_test_values` says how a line and the values on it are written, and
//! `values` how a module is; a module for each topic has its tables, and a small function for calls that are given the
//! same values.
#![tactic(auto)]

#[cfg(test)]
mod actions;
#[cfg(test)]
mod certificates;
#[cfg(test)]
mod chops;
#[cfg(test)]
mod decisions;
#[cfg(test)]
mod forms;
#[cfg(test)]
mod modules;
#[cfg(test)]
mod points;
#[cfg(test)]
mod spinning;
#[cfg(test)]
mod tables;
#[cfg(test)]
mod values;
#[cfg(test)]
mod words;

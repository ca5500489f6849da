//! Worked calls of which any growth of memory may be refused. Each answers what its line says or Memory, and nothing
//! else, and leaves its operands as they were. Where memory is not refused each test passes all the same.
//!
//! `tests/memory` runs each test with its first growth of memory refused, with its second, and so on up to a run that
//! has no more growths. It does the same with command lines of the program, and so with what only these call: words
//! that are taken apart, composition series and their reports, plans that are carried out, and lines of faults.
//!
//! The calls stand in tables, one on a line. `axe_test_values` says how a line and the values on it are written. A
//! line of which a value can't be made for want of memory is left out of that run, and others follow it.
#![tactic(auto)]

#[cfg(test)]
mod certificates;
#[cfg(test)]
mod decisions;
#[cfg(test)]
mod files;
#[cfg(test)]
mod folders;
#[cfg(test)]
mod growing;
#[cfg(test)]
mod matrices;
#[cfg(test)]
mod modules;
#[cfg(test)]
mod points;
#[cfg(test)]
mod polynomials;
#[cfg(test)]
mod tables;
#[cfg(test)]
mod values;

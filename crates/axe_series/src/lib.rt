//! Composition series of modules: what they are, how they are found, and that what is found is one.
#![tactic(auto)]

pub mod laws;

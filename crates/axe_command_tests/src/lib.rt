//! Worked command lines: the words of each are taken apart, carried out on files, and its status, its text and its
//! files compared with values that were worked out by hand. Beside these, which words give which command or which text,
//! and which texts are names. What the other crates prove is not tested again; this crate shows that the whole answers,
//! that the definitions mean what they should, and that memory is not refused where there is enough.
//!
//! The rows are text, in constants: `script` says how a worked command line is written and plays it, `parsing` has the
//! tables of words, and `spelling` says how words and texts are spelled in both. So a new row is a line of text.
#![tactic(auto)]

#[cfg(test)]
mod chopping;
#[cfg(test)]
mod directory;
#[cfg(test)]
mod failing;
#[cfg(test)]
mod modules;
#[cfg(test)]
mod names;
#[cfg(test)]
mod null_spaces;
#[cfg(test)]
mod parsing;
#[cfg(test)]
mod products;
#[cfg(test)]
mod script;
#[cfg(test)]
mod spelling;
#[cfg(test)]
mod spinning;
#[cfg(test)]
mod sums;
#[cfg(test)]
mod texts;
#[cfg(test)]
mod verifying;
#[cfg(test)]
mod watched;

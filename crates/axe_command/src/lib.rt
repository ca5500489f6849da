//! The front of `axe`: all that the program uses to get from the words of a command line to an exit status.
//!
//! `parse` makes a `Command` of the words, `execute` carries it out on a folder and answers what is to be shown, and
//! `line` and `status` say what is printed and answered where that fails. Each part stands in a crate of its own.
#![tactic(auto)]

pub use axe_arguments::{
    Command, GeneratorCount, ModuleFiles, ModuleLayout, Name, NameFault, WordCount,
};
pub use axe_execute::{Shown, execute};
pub use axe_fault::{Fault, line, status};
pub use axe_parse::{ParseFault, parse};

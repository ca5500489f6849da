//! What the commands do: from a `Command` and a folder to the files that it puts, the text that it shows, or a fault.
//!
//! Each file that a command reads is fetched and read in turn; then come the refusals of its operation; then all bytes,
//! names and text are made; and only then the folder is changed.
#![tactic(auto)]

mod chopping;
mod conversion;
mod execution;
mod laws;
mod operations;
mod planning;
mod quotients;
mod series_files;
mod spinning;
mod verifying;

pub use execution::{Shown, execute};
pub use laws::{
    chop_decides_small_modules, chop_leaves_no_wrong_report, chop_writes_a_series,
    commands_have_one_meaning, verify_finds_a_series,
};

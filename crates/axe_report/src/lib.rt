//! Reports of composition series: the text that `chop` writes beside its files, written and read.
#![tactic(auto)]

mod checks;
mod constituents;
mod fault;
mod first_line;
mod last_line;
mod laws;
mod names;
mod parts;
mod reading;
mod reasons;
mod report;
mod witnesses;
mod writing;

pub use fault::ReportFault;
pub use laws::{
    bytes_are_a_report_or_fail, limits_are_named, names_tell_constituents, one_line_fails_first,
    prefixes_are_no_reports, reports_are_apart, reports_keep_the_limit,
};
pub use names::constituent_name;
pub use reading::read_report;
pub use reasons::Reason;
pub use report::{FactorWitness, Report, ReportFactor, ReportHeader, Version};
pub use writing::write_report;

/// The greatest dimension that a report names.
pub const MAX_DIMENSION: usize = 4_096;

/// The most generators that a report names.
pub const MAX_GENERATORS: usize = 16;

/// The greatest number of a word that a report names.
pub const MAX_WORDS: u32 = 10_000;

/// The polynomial of a witness has order ^ degree no greater than this.
pub const MAX_POLYNOMIALS: usize = 4_096;

/// No report is longer than this, in bytes.
pub const REPORT_LIMIT: usize = 1_048_576;

//! What is wrong with the bytes of a report.

use std::alloc::{AllocError, AllocFailed};
use thiserror::Error;

/// Why bytes are no report.
#[derive(Debug, Clone, Copy, PartialEq, Eq, Error)]
pub enum ReportFault {
    /// This line, counted from 1, is the first that fails. The rest of the bytes after a whole report counts as a line
    /// that fails.
    #[error("BadReport line {0}")]
    BadReport(usize),
    /// It is a report of version 1, which does not tell how the factors were seen to be irreducible. A reader of both
    /// versions never answers this.
    #[error("OldReport")]
    OldReport,
    /// There was no memory for the report or for its bytes.
    #[error("Memory")]
    Memory,
}

impl From<AllocError> for ReportFault {
    ghost use Rattle.std.specs.Prelude.{◌≡◌};
    ghost use Rattle.axe_report.specs.declared.fault.ReportFault.TheVariants.{Memory};

    ghost from_gives = { λ _ fault. fault ≡ Memory };

    fn from(_error: AllocError) -> ReportFault {
        ReportFault::Memory
    }
}

impl<T: Drop> From<AllocFailed<T>> for ReportFault {
    ghost use Rattle.std.specs.Prelude.{◌≡◌};
    ghost use Rattle.axe_report.specs.declared.fault.ReportFault.TheVariants.{Memory};

    ghost from_gives = { λ _ fault. fault ≡ Memory };

    fn from(_error: AllocFailed<T>) -> ReportFault {
        ReportFault::Memory
    }
}

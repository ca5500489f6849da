//! Why a line of a table has no answer.
use axe_matrix::Refusal;
use std::alloc::{AllocError, AllocFailed};
use thiserror::Error;

/// Why a line of a table could not be compared with what its call answers.
#[derive(Debug, Clone, Copy, PartialEq, Eq, Error)]
pub enum TableFault {
    /// A line or a value is not written as it should be.
    #[error("not written as lines and values are")]
    NotWritten,
    /// A value could not be made, or a step on the way was refused.
    #[error("{0}")]
    Refused(Refusal),
}

impl From<Refusal> for TableFault {
    fn from(refusal: Refusal) -> TableFault {
        TableFault::Refused(refusal)
    }
}

impl From<AllocError> for TableFault {
    fn from(_error: AllocError) -> TableFault {
        TableFault::Refused(Refusal::Memory)
    }
}

impl<T: Drop> From<AllocFailed<T>> for TableFault {
    fn from(_error: AllocFailed<T>) -> TableFault {
        TableFault::Refused(Refusal::Memory)
    }
}

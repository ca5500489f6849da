//! How a call of a folder fails.
use std::alloc::{AllocError, AllocFailed};
use thiserror::Error;

/// Why a folder could not do what it was asked to.
#[derive(Debug, Clone, Copy, PartialEq, Eq, Error)]
pub enum FolderFault {
    /// There is no file of this name.
    #[error("Missing")]
    Missing,
    /// The file is longer than the caller's limit.
    #[error("TooLong")]
    TooLong,
    /// The device on which the files lie failed.
    #[error("Device")]
    Device,
    /// There was no memory for the bytes or for a name.
    #[error("Memory")]
    Memory,
}

impl From<AllocError> for FolderFault {
    ghost use Rattle.std.specs.Prelude.{◌≡◌};
    ghost use Rattle.axe_folder.specs.declared.fault.FolderFault.TheVariants.{Memory};

    ghost from_gives = { λ _ fault. fault ≡ Memory };

    fn from(_error: AllocError) -> FolderFault {
        FolderFault::Memory
    }
}

impl<T: Drop> From<AllocFailed<T>> for FolderFault {
    ghost use Rattle.std.specs.Prelude.{◌≡◌};
    ghost use Rattle.axe_folder.specs.declared.fault.FolderFault.TheVariants.{Memory};

    ghost from_gives = { λ _ fault. fault ≡ Memory };

    fn from(_error: AllocFailed<T>) -> FolderFault {
        FolderFault::Memory
    }
}

//! How a command fails.
use axe_file::FileFault;
use axe_folder::FolderFault;
use axe_matrix::Matrix;
use axe_report::{Reason, ReportFault};
use axe_row::Refusal;
use std::alloc::{AllocError, AllocFailed};
use std::fmt;
use thiserror::Error;

/// Why a command could not be executed.
#[derive(Drop, Error)]
pub enum Fault {
    /// The bytes of a file are not a spelling of what the command asks for.
    #[error("{name}: {fault}")]
    File {
        /// The file's name.
        name: String,
        /// What is wrong with its bytes.
        fault: FileFault,
    },
    /// The bytes of a file are no report that the command can use.
    #[error("{name}: {fault}")]
    Report {
        /// The file's name.
        name: String,
        /// What is wrong with its bytes.
        fault: ReportFault,
    },
    /// The folder could not give or take a file.
    #[error("{name}: {fault}")]
    Folder {
        /// The file's name.
        name: String,
        /// Why the folder failed.
        fault: FolderFault,
    },
    /// The operation is not defined for its operands.
    #[error("{0}")]
    Refused(Refusal),
    /// No word decides a section of the module. Conjugated by the basis the generators are block lower triangular, and
    /// the diagonal block of `dim` rows from row `offset` on is the section's.
    #[error("Undecided offset={offset} dim={dim}")]
    Undecided {
        /// The basis: square and invertible.
        basis: Matrix,
        /// How many rows stand before the section's.
        offset: usize,
        /// The section's dimension.
        dim: usize,
    },
    /// What stands beside a report is no composition series of the module, for this reason.
    #[error("NotVerified")]
    NotVerified(Reason),
    /// The words are no command; the text is what is printed.
    #[error("{0}")]
    Usage(String),
    /// There was no memory.
    #[error("Memory")]
    Memory,
}

/// A fault is shown as its text is printed.
impl fmt::Debug for Fault {
    fn fmt<W: fmt::Write>(&self, f: &mut fmt::Formatter<W>) -> fmt::Result {
        write!(f, "{self}")
    }
}

impl From<AllocError> for Fault {
    ghost use Rattle.std.specs.Prelude.{◌≡◌};
    ghost use Rattle.axe_fault.specs.declared.fault.Fault.TheVariants.{Memory};

    ghost from_gives = { λ _ fault. fault ≡ Memory };

    fn from(_error: AllocError) -> Fault {
        Fault::Memory
    }
}

impl<T: Drop> From<AllocFailed<T>> for Fault {
    ghost use Rattle.std.specs.Prelude.{◌≡◌};
    ghost use Rattle.axe_fault.specs.declared.fault.Fault.TheVariants.{Memory};

    ghost from_gives = { λ _ fault. fault ≡ Memory };

    fn from(_error: AllocFailed<T>) -> Fault {
        Fault::Memory
    }
}

impl From<Refusal> for Fault {
    ghost use Rattle.std.specs.Prelude.{◌≡◌};
    ghost use Rattle.axe_fault.specs.Faults.{refusal_fault};

    ghost from_gives = { λ refusal fault. fault ≡ refusal_fault refusal };

    fn from(refusal: Refusal) -> Fault {
        match refusal {
            Refusal::Memory => Fault::Memory,
            refusal => Fault::Refused(refusal),
        }
    }
}

impl Fault {
    ghost use Rattle.std.specs.Prelude.{◌≡◌};
    ghost use Rattle.axe_fault.specs.Faults.{file_fault, report_fault, folder_fault};

    /// The fault of a command from that of a file's bytes. Memory is Memory whatever the file.
    pub fn of_file(name: String, fault: FileFault) -> Fault
        ensures { result ≡ file_fault name fault }
    {
        match fault {
            FileFault::Memory => Fault::Memory,
            fault => Fault::File { name, fault },
        }
    }

    /// The fault of a command from that of a report's bytes. Memory is Memory whatever the file.
    pub fn of_report(name: String, fault: ReportFault) -> Fault
        ensures { result ≡ report_fault name fault }
    {
        match fault {
            ReportFault::Memory => Fault::Memory,
            fault => Fault::Report { name, fault },
        }
    }

    /// The fault of a command from that of a folder. Memory is Memory whatever the file.
    pub fn of_folder(name: String, fault: FolderFault) -> Fault
        ensures { result ≡ folder_fault name fault }
    {
        match fault {
            FolderFault::Memory => Fault::Memory,
            fault => Fault::Folder { name, fault },
        }
    }
}

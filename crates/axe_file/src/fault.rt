//! What is wrong with a file.

use std::alloc::{AllocError, AllocFailed};
use thiserror::Error;

/// Why the bytes of a file are no matrix, or no module. Offsets count bytes from the beginning of the file.
#[derive(Debug, Clone, Copy, PartialEq, Eq, Error)]
pub enum FileFault {
    /// There are fewer bytes than a header has.
    #[error("ShortHeader")]
    ShortHeader,
    /// The file does not begin with the magic bytes.
    #[error("BadMagic")]
    BadMagic,
    /// There is no field of the order that the header names.
    #[error("BadField")]
    BadField,
    /// The header of a module names no generators, or too many.
    #[error("BadGens")]
    BadGens,
    /// A reserved byte of the header is not 0.
    #[error("BadReserved")]
    BadReserved,
    /// The header of a matrix names too many rows, or that of a module no dimension or one that is too great.
    #[error("BadRows")]
    BadRows,
    /// The header names no columns, or too many.
    #[error("BadCols")]
    BadCols,
    /// There are fewer bytes than the rows take.
    #[error("Truncated")]
    Truncated,
    /// The byte at this offset is more than its marks can make.
    #[error("BadByte at {0}")]
    BadByte(usize),
    /// A mark past the last column, in the byte at this offset, is not 0.
    #[error("BadPadding at {0}")]
    BadPadding(usize),
    /// Bytes stand after the last row.
    #[error("TrailingBytes")]
    TrailingBytes,
    /// The bytes up to and including the one at this offset begin no header, or the text ends here before its header
    /// does.
    #[error("BadHeader at {0}")]
    BadHeader(usize),
    /// The header is of a mode other than 1.
    #[error("BadMode")]
    BadMode,
    /// The byte at this offset is neither white space nor the digit of an element, and digits are still wanted.
    #[error("BadDigit at {0}")]
    BadDigit(usize),
    /// The text ends before the last digit.
    #[error("TooFewDigits")]
    TooFewDigits,
    /// The byte at this offset, after the last digit, is no white space.
    #[error("TrailingText at {0}")]
    TrailingText(usize),
    /// There was no memory for what the bytes spell, or for the bytes.
    #[error("Memory")]
    Memory,
}

impl From<AllocError> for FileFault {
    ghost use Rattle.std.specs.Prelude.{◌≡◌};
    ghost use Rattle.axe_file.specs.declared.fault.FileFault.TheVariants.{Memory};

    ghost from_gives = { λ _ fault. fault ≡ Memory };

    fn from(_error: AllocError) -> FileFault {
        FileFault::Memory
    }
}

impl<T: Drop> From<AllocFailed<T>> for FileFault {
    ghost use Rattle.std.specs.Prelude.{◌≡◌};
    ghost use Rattle.axe_file.specs.declared.fault.FileFault.TheVariants.{Memory};

    ghost from_gives = { λ _ fault. fault ≡ Memory };

    fn from(_error: AllocFailed<T>) -> FileFault {
        FileFault::Memory
    }
}

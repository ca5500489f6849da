//! Files of which a byte is changed, or whose end is cut off: refused, or the spelling of another value.
use crate::reports::{REPORT, WITNESSED};
use axe_file::{FileFault, read_packed, write_packed};
use axe_report::{ReportFault, read_report, write_report};
use std::alloc::{AllocError, Global};
use std::process::Abort;

/// `12/01` over the field of three elements, packed.
const PACKED: &[u8] = b"AXP1\x03\0\0\0\x02\0\0\0\x02\0\0\0\x87\x1B";

/// How many of its bytes are the header.
const HEADER: usize = 16;

/// The bytes with this one in a place.
pub(crate) fn with_byte(
    alloc: Global,
    bytes: &[u8],
    place: usize,
    byte: u8,
) -> Result<Vec<u8>, AllocError> {
    bytes
        .iter()
        .enumerate()
        .map(|(index, &old)| if index == place { byte } else { old })
        .collect(alloc)
}

/// Whether the bytes are no packed file, or the one of the matrix that they give.
fn is_refused_or_packed(alloc: Global, bytes: &[u8]) -> Result<bool, FileFault> {
    match read_packed(alloc, bytes) {
        Ok(matrix) => Ok(write_packed(alloc, &matrix)?.as_slice() == bytes),
        Err(FileFault::Memory) => Err(FileFault::Memory),
        Err(_) => Ok(true),
    }
}

/// Whether the bytes are no report, or the one that is written of the fields that they give.
fn is_refused_or_reported(alloc: Global, bytes: &[u8]) -> Result<bool, ReportFault> {
    match read_report(alloc, bytes) {
        Ok(report) => Ok(write_report(alloc, &report)?.as_slice() == bytes),
        Err(ReportFault::Memory) => Err(ReportFault::Memory),
        Err(ReportFault::BadReport(_)) => Ok(true),
        // No reader answers this one.
        Err(ReportFault::OldReport) => Ok(false),
    }
}

#[test]
fn a_packed_file_with_another_byte_is_refused_or_another_file(
    rt: HostRuntime,
) -> Result<(), FileFault> {
    for place in 0..PACKED.len() {
        for byte in 0..=u8::MAX {
            let bytes = with_byte(rt.alloc(), PACKED, place, byte)?;
            assert!(&rt;
                is_refused_or_packed(rt.alloc(), &bytes)?,
                "{byte} at {place}"
            );
        }
    }
    Ok(())
}

#[test]
fn a_report_with_another_byte_is_refused_or_another_report(
    rt: HostRuntime,
) -> Result<(), ReportFault> {
    for report in [REPORT, WITNESSED] {
        for place in 0..report.len() {
            for byte in 0..=u8::MAX {
                let bytes = with_byte(rt.alloc(), report.as_bytes(), place, byte)?;
                assert!(&rt;
                    is_refused_or_reported(rt.alloc(), &bytes)?,
                    "{byte} at {place}"
                );
            }
        }
    }
    Ok(())
}

#[test]
fn a_packed_file_that_is_cut_is_refused(rt: HostRuntime) {
    for length in 0..PACKED.len() {
        let wanted = if length < HEADER {
            FileFault::ShortHeader
        } else {
            FileFault::Truncated
        };
        let answer = read_packed(rt.alloc(), &PACKED[..length]);
        assert!(&rt; answer.err() == Some(wanted), "{length} bytes");
    }
}

#[test]
fn a_report_that_is_cut_is_refused(rt: HostRuntime) {
    for report in [REPORT, WITNESSED] {
        for length in 0..report.len() {
            let answer = read_report(rt.alloc(), &report.as_bytes()[..length]);
            assert!(&rt;
                matches!(answer, Err(ReportFault::BadReport(_))),
                "{length} bytes"
            );
        }
    }
}

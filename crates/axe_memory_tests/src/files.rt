//! Files and reports, read and written.

use axe_file::{
    FileFault, read_module, read_packed, read_text, write_module, write_packed, write_text,
};
use axe_matrix::Matrix;
use axe_report::{ReportFault, read_report, write_report};
use axe_test_values::{TableFault, matrix_of};
use std::alloc::Global;
use std::process::Abort;

/// `01/11` over the field of two elements, packed.
const PACKED: &[u8] = b"AXP1\x02\0\0\0\x02\0\0\0\x02\0\0\0\x40\xC0";

/// A module of the generators `01/11` and `01/10`, packed.
const MODULE: &[u8] = b"AXP2\x02\x02\0\0\x02\0\0\0\0\0\0\0\x40\xC0\x40\x80";

/// The matrix as a text.
const TEXT: &[u8] = b"matrix field=2 rows=2 cols=2\n01\n11\n";

/// A report.
const REPORT: &[u8] = b"\
chop 2 field=2 dim=3 gens=2 seed=1 words=400
factor 2a dim=2 mult=1 word=7 poly=111
factor 1a dim=1 mult=1 word=0
series 2a 1a
";

/// Bytes that are no packed file, and their first fault.
const BAD_PACKED: [(&[u8], FileFault); 10] = [
    (b"AXP1\x02\0\0\0\x01\0\0\0\x01\0\0", FileFault::ShortHeader),
    (b"AXP2\0\0\0\0\0\0\0\0\0\0\0\0", FileFault::BadMagic),
    (b"AXP1\x06\x01\0\0\0\0\0\0\0\0\0\0", FileFault::BadField),
    (b"AXP1\x02\x01\0\0\0\0\0\0\0\0\0\0", FileFault::BadReserved),
    (b"AXP1\x02\0\0\0\x01\x10\0\0\0\0\0\0", FileFault::BadRows),
    (b"AXP1\x02\0\0\0\x01\0\0\0\0\0\0\0", FileFault::BadCols),
    (
        b"AXP1\x02\0\0\0\x02\0\0\0\x02\0\0\0\x40",
        FileFault::Truncated,
    ),
    (
        b"AXP1\x05\0\0\0\x01\0\0\0\x01\0\0\0\x7D",
        FileFault::BadByte(16),
    ),
    (
        b"AXP1\x05\0\0\0\x01\0\0\0\x01\0\0\0\x65",
        FileFault::BadPadding(16),
    ),
    (
        b"AXP1\x02\0\0\0\x01\0\0\0\x01\0\0\0\x80\0",
        FileFault::TrailingBytes,
    ),
];

/// Bytes that are no packed module, and their first fault.
const BAD_MODULES: [(&[u8], FileFault); 9] = [
    (b"AXP2\x02\x01\0\0\x01\0\0\0\0\0\0", FileFault::ShortHeader),
    (b"AXP1\0\0\0\0\0\0\0\0\0\0\0\0", FileFault::BadMagic),
    (b"AXP2\x06\0\0\0\0\0\0\0\0\0\0\0", FileFault::BadField),
    (b"AXP2\x02\x11\x01\0\0\0\0\0\0\0\0\0", FileFault::BadGens),
    (
        b"AXP2\x02\x01\0\0\0\0\0\0\x01\0\0\0",
        FileFault::BadReserved,
    ),
    (b"AXP2\x02\x01\0\0\x01\x10\0\0\0\0\0\0", FileFault::BadRows),
    (
        b"AXP2\x02\x02\0\0\x01\0\0\0\0\0\0\0\x80",
        FileFault::Truncated,
    ),
    (
        b"AXP2\x02\x02\0\0\x01\0\0\0\0\0\0\0\x80\x40",
        FileFault::BadPadding(17),
    ),
    (
        b"AXP2\x02\x01\0\0\x01\0\0\0\0\0\0\0\x80\0",
        FileFault::TrailingBytes,
    ),
];

/// Bytes that are no text, and their first fault.
const BAD_TEXT: [(&[u8], FileFault); 10] = [
    (b"", FileFault::BadHeader(0)),
    (b"1 2 1", FileFault::BadHeader(5)),
    (b"matrix field=2 rows=1 col=1", FileFault::BadHeader(25)),
    (b"2 3 2 2\n12\n01", FileFault::BadMode),
    (b"1 6 1 1\n0", FileFault::BadField),
    (b"1 2 4097 1", FileFault::BadRows),
    (b"1 2 1 0", FileFault::BadCols),
    (b"1 3 2 2\n13\n01\n", FileFault::BadDigit(9)),
    (b"1 3 2 2\n12\n0", FileFault::TooFewDigits),
    (b"1 3 2 2\n12\n01\nx", FileFault::TrailingText(14)),
];

/// Whether an answer is this matrix, or Memory.
fn is_read(answer: Result<Matrix, FileFault>, wanted: &Matrix) -> bool {
    match answer {
        Ok(matrix) => matrix.same(wanted),
        Err(fault) => fault == FileFault::Memory,
    }
}

/// Whether an answer has these bytes, or is Memory.
fn is_written(answer: Result<Vec<u8>, FileFault>, wanted: &[u8]) -> bool {
    match answer {
        Ok(bytes) => bytes.as_slice() == wanted,
        Err(fault) => fault == FileFault::Memory,
    }
}

/// Asserts that a matrix is read and written, or there is no memory.
fn assert_spelled(rt: &impl Abort, alloc: Global) -> Result<(), TableFault> {
    let matrix = matrix_of(alloc, "2: 01/11")?;
    let before = matrix.copy(alloc)?;
    assert!(rt; is_read(read_packed(alloc, PACKED), &before));
    assert!(rt; is_read(read_text(alloc, TEXT), &before));
    assert!(rt; is_written(write_packed(alloc, &matrix), PACKED));
    assert!(rt; is_written(write_text(alloc, &matrix), TEXT));
    assert!(rt; matrix.same(&before));
    Ok(())
}

#[test]
fn matrices_are_spelled_or_there_is_no_memory(rt: HostRuntime) {
    let _ = assert_spelled(&rt, rt.alloc());
}

/// The bytes that are written of the module that is read.
fn rewritten_module(alloc: Global) -> Result<Vec<u8>, FileFault> {
    let generators = read_module(alloc, MODULE)?;
    write_module(alloc, &generators)
}

#[test]
fn modules_are_spelled_or_there_is_no_memory(rt: HostRuntime) {
    assert!(&rt; is_written(rewritten_module(rt.alloc()), MODULE));
}

#[test]
fn faults_need_no_memory(rt: HostRuntime) {
    for (bytes, fault) in BAD_MODULES {
        assert!(&rt; read_module(rt.alloc(), bytes).err() == Some(fault));
    }
    for (bytes, fault) in BAD_PACKED {
        assert!(&rt; read_packed(rt.alloc(), bytes).err() == Some(fault));
    }
    for (bytes, fault) in BAD_TEXT {
        assert!(&rt; read_text(rt.alloc(), bytes).err() == Some(fault));
    }
}

/// The report that is written of the one that is read.
fn rewritten(alloc: Global) -> Result<Vec<u8>, ReportFault> {
    let report = read_report(alloc, REPORT)?;
    write_report(alloc, &report)
}

#[test]
fn reports_are_spelled_or_there_is_no_memory(rt: HostRuntime) {
    match rewritten(rt.alloc()) {
        Ok(bytes) => assert!(&rt; bytes.as_slice() == REPORT),
        Err(fault) => assert!(&rt; fault == ReportFault::Memory),
    }
}

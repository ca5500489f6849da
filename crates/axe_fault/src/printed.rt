//! What is printed of a fault, and the status with which the program ends.
ghost use Rattle.std.specs.Prelude.{◌≡◌, IfOk, IfErr, string_bytes};
ghost use Rattle.axe_fault.specs.Printed.{file_status, folder_status, refusal_status, status_of};
ghost use Rattle.axe_fault.specs.Printed.{file_number, folder_number, refusal_number, fault_number};
ghost use Rattle.axe_fault.specs.Printed.{file_text, folder_text, refusal_text, file_offset, program_line, file_line};
ghost use Rattle.axe_fault.specs.Printed.{report_number, report_status, report_text, report_line, reason_line};
ghost use Rattle.axe_fault.specs.Printed.{undecided_text, line_of};

use crate::fault::Fault;
use axe_file::FileFault;
use axe_folder::FolderFault;
use axe_report::{Reason, ReportFault};
use axe_row::Refusal;
use itoa::Buffer;
use std::alloc::{AllocError, Global};

/// The exit status for a fault: 2 for words that are no command, 3 for the bytes of a file or of a report, 4 for a
/// refusal, 5 for a section that no word decides, 6 for the folder, 7 for want of memory wherever it arose, and 8 for
/// what is no composition series.
pub fn status(fault: &Fault) -> u8
    ensures { result ≡ status_of fault.now }
{
    match fault {
        Fault::File { fault, .. } => file_status(*fault),
        Fault::Report { fault, .. } => report_status(*fault),
        Fault::Folder { fault, .. } => folder_status(*fault),
        Fault::Refused(refusal) => refusal_status(*refusal),
        Fault::Undecided { .. } => 5,
        Fault::NotVerified(_) => 8,
        Fault::Usage(_) => 2,
        Fault::Memory => 7,
    }
}

/// The exit status for a fault in the bytes of a file.
fn file_status(fault: FileFault) -> u8
    ensures { result ≡ file_status fault }
{
    match fault {
        FileFault::Memory => 7,
        _ => 3,
    }
}

/// The exit status for a fault in the bytes of a report.
fn report_status(fault: ReportFault) -> u8
    ensures { result ≡ report_status fault }
{
    match fault {
        ReportFault::Memory => 7,
        _ => 3,
    }
}

/// The exit status for a folder's fault.
fn folder_status(fault: FolderFault) -> u8
    ensures { result ≡ folder_status fault }
{
    match fault {
        FolderFault::Memory => 7,
        _ => 6,
    }
}

/// The exit status for a refusal.
fn refusal_status(refusal: Refusal) -> u8
    ensures { result ≡ refusal_status refusal }
{
    match refusal {
        Refusal::Memory => 7,
        _ => 4,
    }
}

/// The number of a fault.
pub fn number(fault: &Fault) -> u8
    ensures { result ≡ fault_number fault.now }
{
    match fault {
        Fault::File { fault, .. } => file_number(*fault),
        Fault::Report { fault, .. } => report_number(*fault),
        Fault::Folder { fault, .. } => folder_number(*fault),
        Fault::Refused(refusal) => refusal_number(*refusal),
        Fault::Undecided { .. } => 30,
        Fault::NotVerified(_) => 63,
        Fault::Usage(_) => 60,
        Fault::Memory => 50,
    }
}

/// The number of a fault in a file's bytes.
fn file_number(fault: FileFault) -> u8
    ensures { result ≡ file_number fault }
{
    match fault {
        FileFault::ShortHeader => 1,
        FileFault::BadMagic => 2,
        FileFault::BadField => 3,
        FileFault::BadReserved => 4,
        FileFault::BadRows => 5,
        FileFault::BadCols => 6,
        FileFault::Truncated => 7,
        FileFault::BadByte(_) => 8,
        FileFault::BadPadding(_) => 9,
        FileFault::TrailingBytes => 10,
        FileFault::BadHeader(_) => 11,
        FileFault::BadMode => 12,
        FileFault::BadDigit(_) => 13,
        FileFault::TooFewDigits => 14,
        FileFault::TrailingText(_) => 15,
        FileFault::BadGens => 16,
        FileFault::Memory => 50,
    }
}

/// The number of a fault in a report's bytes.
fn report_number(fault: ReportFault) -> u8
    ensures { result ≡ report_number fault }
{
    match fault {
        ReportFault::BadReport(_) => 61,
        ReportFault::OldReport => 62,
        ReportFault::Memory => 50,
    }
}

/// The number of a refusal.
fn refusal_number(refusal: Refusal) -> u8
    ensures { result ≡ refusal_number refusal }
{
    match refusal {
        Refusal::FieldsDiffer => 20,
        Refusal::ShapesDiffer => 21,
        Refusal::NotSquare => 22,
        Refusal::Singular => 23,
        Refusal::NotInvariant => 24,
        Refusal::WholeSpace => 25,
        Refusal::ZeroSeed => 26,
        Refusal::NoRows => 27,
        Refusal::ZeroSpace => 28,
        Refusal::Memory => 50,
    }
}

/// The number of a folder's fault.
fn folder_number(fault: FolderFault) -> u8
    ensures { result ≡ folder_number fault }
{
    match fault {
        FolderFault::Missing => 40,
        FolderFault::TooLong => 41,
        FolderFault::Device => 42,
        FolderFault::Memory => 50,
    }
}

/// The line that is printed of a fault, with its line feed. The only fault of this call is `Memory`.
pub fn line(alloc: Global, fault: &Fault) -> Result<Vec<u8>, Fault>
    ensures line { IfOk result (λ line. line.items ≡ line_of fault.now) }
    ensures memory { IfErr result (λ refused. refused ≡ Fault.Memory) }
{
    let line = match fault {
        Fault::File { name, fault } => file_line(
            alloc,
            name,
            file_text(*fault),
            file_offset(*fault),
        )?,
        Fault::Report { name, fault } => report_line(alloc, name, *fault)?,
        Fault::Folder { name, fault } => file_line(alloc, name, folder_text(*fault), None)?,
        Fault::Refused(refusal) => program_line(alloc, refusal_text(*refusal))?,
        Fault::Undecided { offset, dim, .. } => undecided_line(alloc, *offset, *dim)?,
        Fault::NotVerified(reason) => reason_line(alloc, reason)?,
        Fault::Usage(text) => Vec::from_slice(alloc, text.as_bytes())?,
        Fault::Memory => program_line(alloc, "Memory")?,
    };
    Ok(line)
}

/// A line of the program.
fn program_line(alloc: Global, text: &str) -> Result<Vec<u8>, AllocError>
    ensures { IfOk result (λ line. line.items ≡ program_line text.now) }
{
    let mut line = Vec::from_slice(alloc, b"axe: ")?;
    line.extend_from_slice(text.as_bytes())?;
    line.extend_from_slice(b"\n")?;
    Ok(line)
}

/// The line of a section that no word decides.
fn undecided_line(alloc: Global, offset: usize, dim: usize) -> Result<Vec<u8>, AllocError>
    ensures { IfOk result (λ line. line.items ≡ program_line (undecided_text offset dim)) }
{
    let line = format!(in alloc; "axe: Undecided offset={offset} dim={dim}\n")?;
    Ok(line.into_bytes())
}

/// The line of a reason why a certificate is not right.
fn reason_line(alloc: Global, reason: &Reason) -> Result<Vec<u8>, AllocError>
    ensures { IfOk result (λ line. line.items ≡ reason_line reason.now) }
{
    let text = reason.text(alloc)?;
    let mut line = Vec::from_slice(alloc, b"axe: NotVerified ")?;
    line.extend_from_slice(text.as_bytes())?;
    line.extend_from_slice(b"\n")?;
    Ok(line)
}

/// A line of the program on a report.
fn report_line(alloc: Global, name: &str, fault: ReportFault) -> Result<Vec<u8>, AllocError>
    ensures { IfOk result (λ line. line.items ≡ report_line name.now fault) }
{
    let text = report_text(alloc, fault)?;
    file_line(alloc, name, text.as_str(), None)
}

/// How a fault in a report's bytes is printed.
fn report_text(alloc: Global, fault: ReportFault) -> Result<String, AllocError>
    ensures { IfOk result (λ text. string_bytes text ≡ report_text fault) }
{
    match fault {
        ReportFault::BadReport(line) => format!(in alloc; "BadReport line {line}"),
        ReportFault::OldReport => String::from_str(alloc, "OldReport"),
        ReportFault::Memory => String::from_str(alloc, "Memory"),
    }
}

/// A line of the program on a file.
fn file_line(
    alloc: Global,
    name: &str,
    text: &str,
    offset: Option<usize>,
) -> Result<Vec<u8>, AllocError>
    ensures { IfOk result (λ line. line.items ≡ file_line name.now text.now offset) }
{
    let mut line = Vec::from_slice(alloc, b"axe: ")?;
    line.extend_from_slice(name.as_bytes())?;
    line.extend_from_slice(b": ")?;
    line.extend_from_slice(text.as_bytes())?;
    if let Some(offset) = offset {
        line.extend_from_slice(b" at ")?;
        line.extend_from_slice(Buffer::new().format(offset).as_bytes())?;
    }
    line.extend_from_slice(b"\n")?;
    Ok(line)
}

/// The printed name of a fault in a file's bytes.
fn file_text(fault: FileFault) -> &'static str
    ensures { result.now ≡ file_text fault }
{
    match fault {
        FileFault::ShortHeader => "ShortHeader",
        FileFault::BadMagic => "BadMagic",
        FileFault::BadField => "BadField",
        FileFault::BadGens => "BadGens",
        FileFault::BadReserved => "BadReserved",
        FileFault::BadRows => "BadRows",
        FileFault::BadCols => "BadCols",
        FileFault::Truncated => "Truncated",
        FileFault::BadByte(_) => "BadByte",
        FileFault::BadPadding(_) => "BadPadding",
        FileFault::TrailingBytes => "TrailingBytes",
        FileFault::BadHeader(_) => "BadHeader",
        FileFault::BadMode => "BadMode",
        FileFault::BadDigit(_) => "BadDigit",
        FileFault::TooFewDigits => "TooFewDigits",
        FileFault::TrailingText(_) => "TrailingText",
        FileFault::Memory => "Memory",
    }
}

/// The place in a file's bytes where a fault stands.
fn file_offset(fault: FileFault) -> Option<usize>
    ensures { result ≡ file_offset fault }
{
    match fault {
        FileFault::BadByte(offset)
        | FileFault::BadPadding(offset)
        | FileFault::BadHeader(offset)
        | FileFault::BadDigit(offset)
        | FileFault::TrailingText(offset) => Some(offset),
        _ => None,
    }
}

/// The printed name of a folder's fault.
fn folder_text(fault: FolderFault) -> &'static str
    ensures { result.now ≡ folder_text fault }
{
    match fault {
        FolderFault::Missing => "Missing",
        FolderFault::TooLong => "TooLong",
        FolderFault::Device => "Device",
        FolderFault::Memory => "Memory",
    }
}

/// The printed name of a refusal.
fn refusal_text(refusal: Refusal) -> &'static str
    ensures { result.now ≡ refusal_text refusal }
{
    match refusal {
        Refusal::FieldsDiffer => "FieldsDiffer",
        Refusal::ShapesDiffer => "ShapesDiffer",
        Refusal::NotSquare => "NotSquare",
        Refusal::Singular => "Singular",
        Refusal::NotInvariant => "NotInvariant",
        Refusal::WholeSpace => "WholeSpace",
        Refusal::ZeroSeed => "ZeroSeed",
        Refusal::NoRows => "NoRows",
        Refusal::ZeroSpace => "ZeroSpace",
        Refusal::Memory => "Memory",
    }
}

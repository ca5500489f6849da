//! Reports, read: line after line, each from the front of what is left.

ghost use Rattle.std.specs.Prelude.{◌≡◌, IfOk, IfErr};
ghost use Rattle.axe_report.specs.Reports.{IsReport};
ghost use Rattle.axe_report.specs.Spelling.{report_bytes};
ghost use Rattle.axe_report.specs.Passing.{FailsFirstAt, RefusesReport};

use crate::checks::is_series_of;
use crate::constituents::factors;
use crate::fault::ReportFault;
use crate::first_line::header;
use crate::last_line::series;
use crate::report::Report;
use std::alloc::Global;

/// The report of which these are the bytes. `BadReport` names the first line that fails, counted from 1. Where that is
/// line 1 it is answered whatever the memory, and where it is a later one it is answered, or `Memory`.
pub fn read_report(alloc: Global, bytes: &[u8]) -> Result<Report, ReportFault>
    ensures report { IfOk result (λ report. IsReport report × (bytes.now ≡ report_bytes report)) }
    ensures fault { IfErr result (λ fault. RefusesReport bytes.now fault) }
    ensures first_line { FailsFirstAt bytes.now 1 → result ≡ Err (ReportFault.BadReport 1) }
{
    let Some((header, text)) = header(bytes) else {
        return Err(ReportFault::BadReport(1));
    };
    let (factors, text, room) = factors(alloc, text, &header)?;
    let line = factors.len() + 2;
    let Some((series, rest)) = series(alloc, text, &factors)? else {
        return Err(ReportFault::BadReport(line));
    };
    if room > 0 || !is_series_of(&factors, &series) {
        return Err(ReportFault::BadReport(line));
    }
    if !rest.is_empty() {
        return Err(ReportFault::BadReport(line + 1));
    }
    Ok(Report::new(header, factors, series))
}

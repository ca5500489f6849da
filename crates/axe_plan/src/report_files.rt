//! Reports, fetched from a folder and read.
ghost use Rattle.std.specs.Prelude.{IsTrue, [], ◌∷◌};
ghost use Rattle.axe_plan.specs.Outcome.{Reads};
ghost use Rattle.axe_plan.specs.ReportFiles.{ReportIn};

use crate::reading::fetch;
use axe_fault::Fault;
use axe_folder::Folder;
use axe_report::{REPORT_LIMIT, Report, read_report};
use std::alloc::Global;

/// The report that a file spells.
pub fn read_report_file<F: Folder>(
    alloc: Global,
    folder: &mut F,
    file: &str,
) -> Result<Report, Fault>
    ensures { IsTrue F.tells → Reads F.files F.tally folder.old folder.new (file.now ∷ [])
        (λ report. report) result (ReportIn file.now) }
{
    let bytes = fetch(alloc, folder, file, REPORT_LIMIT)?;
    match read_report(alloc, &bytes) {
        Ok(report) => Ok(report),
        Err(fault) => Err(Fault::of_report(String::from_str(alloc, file)?, fault)),
    }
}

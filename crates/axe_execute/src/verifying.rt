//! `verify`: whether what lies beside a module is a composition series of it.
ghost use Rattle.std.specs.Prelude.{◌≡◌, ℕ, List, IsTrue, [], ◌∷◌, Ok, IfOk, length};
ghost use Rattle.axe_report.specs.Reports.{names};
ghost use Rattle.axe_report.specs.declared.report.Version.TheVariants.{Two};
ghost use Rattle.axe_check.specs.Certificates.{certificate, lists_of};
ghost use Rattle.axe_arguments.specs.Layouts.{files_with};
ghost use Rattle.axe_plan.specs.Meanings.{Is};
ghost use Rattle.axe_plan.specs.Outcome.{Agrees, Reads};
ghost use Rattle.axe_plan.specs.Drafts.{plan_in};
ghost use Rattle.axe_execute.specs.SeriesFiles.{factor_files};
ghost use Rattle.axe_execute.specs.VerifyCommand.{CurrentReport, constituents_in, verified_plan, Verifies, ReportedPlan};
ghost use Rattle.axe_execute.specs.VerifyCommand.{VerifyPlan, reported_files, AreReadToVerify};

use crate::series_files::{basis_file, factor_name, report_file};
use axe_arguments::{GeneratorCount, ModuleFiles, ModuleLayout, Name};
use axe_check::check;
use axe_fault::Fault;
use axe_folder::Folder;
use axe_matrix::Matrix;
use axe_plan::{Draft, module_of, read_matrix_file, read_report_file, read_stored};
use axe_report::{Report, ReportFactor, ReportFault, Version};
use axe_spin::Module;
use std::alloc::Global;

/// The draft of `verify`: the word that is shown where what lies beside the module of a name is a composition series of
/// it.
pub(crate) fn verify_draft<F: Folder>(
    alloc: Global,
    layout: ModuleLayout,
    name: &Name,
    folder: &mut F,
) -> Result<Draft, Fault>
    ensures { IsTrue F.tells → (read : List (List ℕ)) × AreReadToVerify layout name.now (F.files folder.old) read
        × Reads F.files F.tally folder.old folder.new read plan_in result (VerifyPlan layout name.now) }
{
    let file = report_file(alloc, name.as_str())?;
    let report = read_current_report(alloc, folder, &file)?;
    let files = reported_layout(layout, &report);
    reported_draft(alloc, folder, &files, name.as_str(), &report)
}

/// The report of a file, which is refused where it is of version 1.
#[tactic(auto, unfolding(crate::specs::VerifyCommand::CurrentReport))]
fn read_current_report<F: Folder>(
    alloc: Global,
    folder: &mut F,
    file: &str,
) -> Result<Report, Fault>
    ensures reads { IsTrue F.tells → Reads F.files F.tally folder.old folder.new (file.now ∷ [])
        (λ report. report) result (CurrentReport file.now) }
    ensures version { IfOk result (λ report. report.header.version ≡ Two) }
{
    let report = read_report_file(alloc, folder, file)?;
    match report.version() {
        Version::One => Err(Fault::Report {
            name: String::from_str(alloc, file)?,
            fault: ReportFault::OldReport,
        }),
        Version::Two => Ok(report),
    }
}

/// The files of the module of a report, and of each of its constituents.
fn reported_layout(layout: ModuleLayout, report: &Report) -> ModuleFiles
    ensures { result ≡ files_with layout report.now.header.gens }
{
    let Some(count) = GeneratorCount::new(report.header().gens as u8) else {
        // A report names 1 to 16 generators.
        unreachable!()
    };
    layout.files(count)
}

/// The draft of `verify` with a report, by the files that it speaks of.
#[tactic(auto, unfolding(crate::specs::VerifyCommand::ReportedPlan))]
fn reported_draft<F: Folder>(
    alloc: Global,
    folder: &mut F,
    files: &ModuleFiles,
    name: &str,
    report: &Report,
) -> Result<Draft, Fault>
    requires version { report.now.header.version ≡ Two }
    ensures { IsTrue F.tells → Reads F.files F.tally folder.old folder.new
        (reported_files files.now name.now (names report.now.factors)) plan_in result
        (ReportedPlan files.now name.now report.now) }
{
    let basis = basis_file(alloc, name)?;
    let generators = read_stored(alloc, folder, name, files)?;
    let basis = read_matrix_file(alloc, folder, &basis)?;
    let factors = read_constituents(alloc, folder, files, name, report.factors())?;
    let module = module_of(generators)?;
    verified_draft(alloc, report, &module, &basis, &factors)
}

/// The matrices of the constituents of a report, each of which stands under the module's name and then its own.
fn read_constituents<F: Folder>(
    alloc: Global,
    folder: &mut F,
    files: &ModuleFiles,
    name: &str,
    factors: &[ReportFactor],
) -> Result<Vec<Vec<Matrix>>, Fault>
    ensures reads { IsTrue F.tells → Reads F.files F.tally folder.old folder.new
        (factor_files files.now name.now (names factors.now)) (λ lists. lists_of lists.items) result
        (λ folder. Is (constituents_in files.now name.now (names factors.now) folder)) }
    ensures many { IfOk result (λ lists. length lists.items ≡ length factors.now) }
{
    let mut lists = Vec::new(alloc);
    for factor in factors {
        let stem = factor_name(alloc, name, factor.name())?;
        let list = read_stored(alloc, folder, &stem, files)?;
        lists.push(list)?;
    }
    Ok(lists)
}

/// The draft of what a report, a module, a basis and the matrices of constituents certify.
fn verified_draft(
    alloc: Global,
    report: &Report,
    module: &Module,
    basis: &Matrix,
    factors: &[Vec<Matrix>],
) -> Result<Draft, Fault>
    requires version { report.now.header.version ≡ Two }
    requires lists { length factors.now ≡ length report.now.factors }
    ensures { Agrees [] plan_in result (Verifies (certificate report.now «module».now basis.now factors.now)) }
{
    match check(alloc, report, module, basis, factors) {
        Ok(None) => yes_draft(alloc),
        Ok(Some(reason)) => Err(Fault::NotVerified(reason)),
        Err(_) => Err(Fault::Memory),
    }
}

/// The draft of a yes.
fn yes_draft(alloc: Global) -> Result<Draft, Fault>
    ensures { Agrees [] plan_in result (Is (Ok verified_plan)) }
{
    let mut draft = Draft::new(alloc);
    draft.text = Vec::from_slice(alloc, b"verified\n")?;
    Ok(draft)
}

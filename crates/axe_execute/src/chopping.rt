//! `chop`: a composition series of a module.
ghost use Rattle.std.specs.Prelude.{◌≡◌, IsTrue, [], map, Ok, IfOk, IfErr, OnOk, string_bytes};
ghost use Rattle.indexmap.specs.IndexMap.{keys, values};
ghost use Rattle.axe_arguments.specs.Counts.{IsWordCount};
ghost use Rattle.axe_chop.specs.Answers.{factor_modules};
ghost use Rattle.axe_chop.specs.Reported.{IsFoundUnder, factor_witnesses};
ghost use Rattle.axe_chop.specs.declared.chopped.Factor.{Factor};
ghost use Rattle.axe_fault.specs.declared.fault.Fault.TheVariants.{Memory};
ghost use Rattle.axe_file.specs.Packed.{packed};
ghost use Rattle.axe_report.specs.Reports.{IsReportHeader};
ghost use Rattle.axe_plan.specs.Meanings.{Is};
ghost use Rattle.axe_plan.specs.Inputs.{module_names};
ghost use Rattle.axe_plan.specs.Outcome.{Agrees, Reads};
ghost use Rattle.axe_plan.specs.Plans.{Put, Remove};
ghost use Rattle.axe_plan.specs.Drafts.{plan_in, with_step, with_steps};
ghost use Rattle.axe_execute.specs.SeriesFiles.{report_file, basis_file, series_report_bytes};
ghost use Rattle.axe_execute.specs.ChopCommand.{put_factors, series_steps, series_plan};
ghost use Rattle.axe_execute.specs.ChopCommand.{FoundPlan, ChopPlan};

use crate::series_files::{basis_file, factor_name, report_file};
use axe_arguments::{ModuleFiles, Name, WordCount};
use axe_chop::{ChopFault, Chopped, Factor, chop_owned, header_of, report_under};
use axe_fault::Fault;
use axe_folder::Folder;
use axe_matrix::Matrix;
use axe_plan::{Draft, read_module};
use axe_report::{ReportFault, ReportHeader, write_report};
use axe_spin::Module;
use indexmap::IndexMap;
use std::alloc::Global;

/// The draft of `chop`: a composition series of a module, by the words of a seed.
pub(crate) fn chop_draft<F: Folder>(
    alloc: Global,
    files: &ModuleFiles,
    seed: u64,
    words: WordCount,
    name: &Name,
    folder: &mut F,
) -> Result<Draft, Fault>
    ensures { IsTrue F.tells → Reads F.files F.tally folder.old folder.new
        (module_names files.now name.now) plan_in result (ChopPlan files.now seed words name.now) }
{
    let module = read_module(alloc, folder, name, files)?;
    found_draft(alloc, files, name, module, seed, words.get())
}

/// The draft of what the words 0 to `words` of a seed find of a module: its composition series, unless a section stays
/// undecided.
fn found_draft(
    alloc: Global,
    files: &ModuleFiles,
    name: &Name,
    module: Module,
    seed: u64,
    words: u32,
) -> Result<Draft, Fault>
    requires words { IsWordCount words }
    ensures { Agrees [] plan_in result (FoundPlan files.now name.now «module» seed words) }
{
    let header = header_of(&module, seed, words);
    match chop_owned(alloc, module, seed, words) {
        Ok(chopped) => series_draft(alloc, files, name, header, &chopped),
        Err(ChopFault::Undecided { basis, offset, dim }) => {
            Err(Fault::Undecided { basis, offset, dim })
        }
        Err(ChopFault::Memory) => Err(Fault::Memory),
    }
}

/// The draft of a composition series with a header for its report: an earlier report is taken away, the basis is put,
/// then each factor, and last the report, which is shown, too.
fn series_draft(
    alloc: Global,
    files: &ModuleFiles,
    name: &Name,
    header: ReportHeader,
    chopped: &Chopped,
) -> Result<Draft, Fault>
    requires relations { IsReportHeader header }
    requires found { IsFoundUnder header chopped.now }
    ensures { Agrees [] plan_in result (Is (Ok (series_plan files.now name.now header chopped.now.basis
        (factor_modules chopped.now) (factor_witnesses chopped.now) chopped.now.series.items))) }
{
    let Ok(report) = report_text(alloc, header, chopped) else {
        return Err(Fault::Memory);
    };
    let mut draft = Draft::new(alloc);
    put_series(alloc, &mut draft, files, name.as_str(), chopped, &report)?;
    draft.text = report;
    Ok(draft)
}

/// Adds what a composition series changes under a name, with this text for its report.
fn put_series(
    alloc: Global,
    draft: &mut Draft,
    files: &ModuleFiles,
    name: &str,
    chopped: &Chopped,
    report: &[u8],
) -> Result<(), Fault>
    ensures put { OnOk result (plan_in draft.new ≡ with_steps (plan_in draft.old) (series_steps files.now
        name.now chopped.now.basis (map string_bytes (keys chopped.now.factors)) (factor_modules chopped.now)
        report.now)) }
    ensures memory { IfErr result (λ fault. fault ≡ Memory) }
{
    remove_report(alloc, draft, name)?;
    put_basis(alloc, draft, name, &chopped.basis)?;
    put_factors(alloc, draft, files, name, &chopped.factors)?;
    put_report(alloc, draft, name, report)?;
    Ok(())
}

/// Adds that the file of the report is taken away.
fn remove_report(alloc: Global, draft: &mut Draft, name: &str) -> Result<(), Fault>
    ensures removed { OnOk result
        (plan_in draft.new ≡ with_step (plan_in draft.old) (Remove (report_file name.now))) }
    ensures memory { IfErr result (λ fault. fault ≡ Memory) }
{
    let report = report_file(alloc, name)?;
    draft.remove(report)?;
    Ok(())
}

/// Adds that the file of the basis is given its packed spelling.
fn put_basis(alloc: Global, draft: &mut Draft, name: &str, basis: &Matrix) -> Result<(), Fault>
    ensures put { OnOk result
        (plan_in draft.new ≡ with_step (plan_in draft.old) (Put (basis_file name.now) (packed basis.now))) }
    ensures memory { IfErr result (λ fault. fault ≡ Memory) }
{
    let file = basis_file(alloc, name)?;
    draft.put_packed_file(alloc, file, basis)?;
    Ok(())
}

/// Adds that the file of the report is given a copy of its text.
fn put_report(alloc: Global, draft: &mut Draft, name: &str, report: &[u8]) -> Result<(), Fault>
    ensures put { OnOk result
        (plan_in draft.new ≡ with_step (plan_in draft.old) (Put (report_file name.now) report.now)) }
    ensures memory { IfErr result (λ fault. fault ≡ Memory) }
{
    let file = report_file(alloc, name)?;
    let copy = Vec::from_slice(alloc, report)?;
    draft.put(file, copy)?;
    Ok(())
}

/// The text of the report of a composition series.
fn report_text(
    alloc: Global,
    header: ReportHeader,
    chopped: &Chopped,
) -> Result<Vec<u8>, ReportFault>
    requires relations { IsReportHeader header }
    requires found { IsFoundUnder header chopped.now }
    ensures { IfOk result (λ text. text.items
        ≡ series_report_bytes header (factor_modules chopped.now) (factor_witnesses chopped.now)
        chopped.now.series.items) }
{
    let report = report_under(alloc, header, chopped)?;
    write_report(alloc, &report)
}

/// Adds that each factor, in order, is put as a module under the module's name and then the factor's.
fn put_factors(
    alloc: Global,
    draft: &mut Draft,
    files: &ModuleFiles,
    name: &str,
    factors: &IndexMap<String, Factor>,
) -> Result<(), Fault>
    ensures put { OnOk result (plan_in draft.new ≡ with_steps (plan_in draft.old)
        (put_factors files.now name.now (map string_bytes (keys factors.now))
        (map (λ (factor : Factor). factor.form.matrices) (values factors.now)))) }
    ensures memory { IfErr result (λ fault. fault ≡ Memory) }
{
    for (constituent, factor) in factors.iter() {
        let stem = factor_name(alloc, name, constituent)?;
        draft.put_module(alloc, files, &stem, factor.form.matrices())?;
    }
    Ok(())
}

//! Reports of composition series.

ghost use Rattle.std.specs.Prelude.{◌≡◌, ◌<◌, ◌≤◌, ◌^◌, ℕ, List, map, IfOk, IfErr};
ghost use Rattle.axe_matrix.specs.Matrices.{MatrixValue};
ghost use Rattle.axe_spin.specs.Modules.{ModuleValue, IsModule};
ghost use Rattle.axe_norton.specs.Verdicts.{last_word};
ghost use Rattle.axe_series.specs.Series.{IsSeries};
ghost use Rattle.axe_report.specs.Limits.{most_words};
ghost use Rattle.axe_report.specs.Reports.{WitnessValue, IsReportHeader, IsReport};
ghost use Rattle.axe_report.specs.declared.fault.ReportFault.TheVariants.{Memory};
ghost use Rattle.axe_chop.specs.Answers.{IsChopped, factor_modules};
ghost use Rattle.axe_chop.specs.Reported.{entry_factor, module_header, series_report, IsFoundUnder};
ghost use Rattle.axe_chop.specs.Reported.{witness_of, factor_witnesses, AreWitnessesOf};
ghost use Rattle.axe_chop.specs.declared.chopped.Chopped.{Chopped};

use crate::chopped::{Chopped, Factor};
use axe_iso::Form;
use axe_poly::Poly;
use axe_report::{FactorWitness, Report, ReportFactor, ReportFault, ReportHeader, Version};
use axe_spin::Module;
use std::alloc::{AllocError, Global};

/// The report of the composition series that [`crate::chop`] found of a module by the words 0 to `words` of a seed. Its
/// only fault is Memory.
pub fn report_of(
    alloc: Global,
    module: &Module,
    chopped: &Chopped,
    seed: u64,
    words: u32,
) -> Result<Report, ReportFault>
    requires words { words ≤ last_word }
    requires chopped { IsChopped «module».now seed words chopped.now }
    ensures report { IfOk result (λ report. report
        ≡ series_report (module_header «module».now seed words) (factor_modules chopped.now)
        (factor_witnesses chopped.now) chopped.now.series.items) }
    ensures memory { IfErr result (λ fault. fault ≡ Memory) }
{
    report_under(alloc, header_of(module, seed, words), chopped)
}

/// The header of the report of a composition series of a module that is found by the words 0 to `words` of a seed.
pub fn header_of(module: &Module, seed: u64, words: u32) -> ReportHeader
    requires words { words ≤ last_word }
    ensures header { result ≡ module_header «module».now seed words }
    ensures relations { IsReportHeader result }
    ensures well_formed { IsModule «module».now }
{
    ReportHeader {
        version: Version::Two,
        field: *module.field(),
        dim: module.dim(),
        gens: module.gens(),
        seed,
        words,
    }
}

/// The report of a composition series under the header that [`header_of`] gave before the module was given away to
/// [`crate::chop_owned`]. Its only fault is Memory.
pub fn report_under(
    alloc: Global,
    header: ReportHeader,
    chopped: &Chopped,
) -> Result<Report, ReportFault>
    requires relations { IsReportHeader header }
    requires found { IsFoundUnder header chopped.now }
    ensures report { IfOk result (λ report. report
        ≡ series_report header (factor_modules chopped.now) (factor_witnesses chopped.now)
        chopped.now.series.items) }
    ensures memory { IfErr result (λ fault. fault ≡ Memory) }
{
    let factors = report_factors(alloc, chopped)?;
    let series = chopped.series.clone()?;
    Ok(Report::new(header, factors, series))
}

/// What a report says of the factors of a composition series, in their order.
fn report_factors(alloc: Global, chopped: &Chopped) -> Result<Vec<ReportFactor>, AllocError>
    ensures { IfOk result (λ factors. factors.items ≡ map entry_factor chopped.now.factors.entries) }
{
    let mut factors = Vec::new(alloc);
    for (name, factor) in &chopped.factors {
        factors.push(report_factor(alloc, name, factor)?)?;
    }
    Ok(factors)
}

/// What a report says of a factor under its name.
fn report_factor(alloc: Global, name: &String, factor: &Factor) -> Result<ReportFactor, AllocError>
    ensures { IfOk result (λ reported. reported ≡ entry_factor (name.now, factor.now)) }
{
    let dim = factor.form.matrices().dim();
    let witness = witness_of(alloc, &factor.form)?;
    let reported = ReportFactor::new(name.clone()?, dim, factor.multiplicity, Some(witness));
    Ok(reported)
}

/// By what a form shows its factor to be irreducible.
fn witness_of(alloc: Global, form: &Form) -> Result<FactorWitness, AllocError>
    ensures { IfOk result (λ witness. witness ≡ witness_of form.now) }
{
    let poly = match form.poly() {
        None => None,
        Some(poly) => Some(digits_of(alloc, poly)?),
    };
    Ok(FactorWitness::new(form.word(), poly))
}

/// The digits of a polynomial: the numbers of its coefficients, the constant one first.
fn digits_of(alloc: Global, poly: &Poly) -> Result<Vec<u8>, AllocError>
    ensures { IfOk result (λ digits. digits.items ≡ poly.now.coefficients) }
{
    let mut digits = Vec::new(alloc);
    for exponent in 0..poly.degree() {
        digits.push(poly.coefficient(exponent))?;
    }
    digits.push(poly.coefficient(poly.degree()))?;
    Ok(digits)
}

/// Each composition series of a module has a report, whatever the seed and the number of the last word, with any
/// witnesses of its factors; and what [`crate::chop`] finds has witnesses.
pub fn series_have_reports()
    ensures reports { (m : ModuleValue) (seed words : ℕ) (basis : MatrixValue) (factors : List ModuleValue)
        (witnesses : List WitnessValue) (places : List ℕ) →
        IsModule m → seed < 2 ^ 64 → words ≤ most_words → IsSeries m basis factors places →
        AreWitnessesOf (module_header m seed words) factors witnesses →
        IsReport (series_report (module_header m seed words) factors witnesses places) }
    ensures witnesses { (m : ModuleValue) (seed words : ℕ) (chopped : Chopped) →
        IsModule m → IsChopped m seed words chopped →
        AreWitnessesOf (module_header m seed words) (factor_modules chopped) (factor_witnesses chopped) }
{}

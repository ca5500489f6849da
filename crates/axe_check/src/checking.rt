//! Certificates, checked step by step.

ghost use Rattle.std.specs.Prelude.{◌≡◌, length, IfOk, IfErr, MatchOption};
ghost use Rattle.axe_matrix.specs.Matrices.{IsMatrix};
ghost use Rattle.axe_spin.specs.Modules.{IsModule};
ghost use Rattle.axe_action.specs.Actions.{IsConjugateModule};
ghost use Rattle.axe_report.specs.declared.report.Version.TheVariants.{Two};
ghost use Rattle.axe_report.specs.declared.fault.ReportFault.TheVariants.{Memory};
ghost use Rattle.axe_check.specs.Certificates.{certificate, HasHeader, IsBasisOf, IsCertified};
ghost use Rattle.axe_check.specs.Reasons.{IsFirstReason};
ghost use Rattle.axe_check.specs.Steps.{Passes, IsHeaderReason, IsBasisReason};

use crate::blocks::check_blocks;
use crate::pairs::check_pairs;
use crate::reasons::Stop;
use crate::shapes::shaped_modules;
use crate::words::seen_forms;
use axe_action::conjugate;
use axe_matrix::{Matrix, Refusal};
use axe_report::{Reason, Report, ReportFault};
use axe_spin::Module;
use std::alloc::Global;

/// Checks a certificate that what `chop` wrote beside a module is a composition series of it: the report, which is of
/// version 2, the basis, and for each constituent of the report the list of its matrices. No field and no shape is
/// asked of these: they are checked. `None` says that the certificate is right: the report is of the module's field,
/// dimension and number of generators; the basis, the constituents' matrices and the report's series are a composition
/// series; and no word that the report names leaves its constituent open. Where it is not right the first reason is
/// answered, in this order: [`Reason::Header`]; [`Reason::Basis`]; [`Reason::Shape`] of the first constituent of which
/// it holds; [`Reason::Blocks`]; then for each constituent in order [`Reason::Open`] and [`Reason::Reducible`]; and
/// [`Reason::Same`] of the first pair, in order of the first and then of the second.
///
/// A constituent's word is that of the report's seed and of the number that the report names. A polynomial that is
/// named beside it, is irreducible and fits the word's value tells as [`axe_norton::decide_poly`] does; else the word
/// tells as [`axe_norton::decide_at`] does, by [`axe_norton::decide_at_with`]. The only fault is Memory.
pub fn check(
    alloc: Global,
    report: &Report,
    module: &Module,
    basis: &Matrix,
    factors: &[Vec<Matrix>],
) -> Result<Option<Reason>, ReportFault>
    requires version { report.now.header.version ≡ Two }
    requires lists { length factors.now ≡ length report.now.factors }
    ensures answer { IfOk result (λ answer. MatchOption answer
        (IsCertified (certificate report.now «module».now basis.now factors.now))
        (IsFirstReason (certificate report.now «module».now basis.now factors.now))) }
    ensures memory { IfErr result (λ fault. fault ≡ Memory) }
{
    match check_steps(alloc, report, module, basis, factors) {
        Ok(()) => Ok(None),
        Err(Stop::Because(reason)) => Ok(Some(reason)),
        Err(Stop::Memory) => Err(ReportFault::Memory),
    }
}

/// Checks a certificate, and stops at the first reason why it is not right.
fn check_steps(
    alloc: Global,
    report: &Report,
    module: &Module,
    basis: &Matrix,
    factors: &[Vec<Matrix>],
) -> Result<(), Stop>
    requires version { report.now.header.version ≡ Two }
    requires lists { length factors.now ≡ length report.now.factors }
    ensures { Passes (λ _. IsCertified (certificate report.now «module».now basis.now factors.now))
        (IsFirstReason (certificate report.now «module».now basis.now factors.now)) result }
{
    check_header(report, module)?;
    let conjugates = conjugated(alloc, module, basis)?;
    let modules = shaped_modules(alloc, report.factors(), module, factors)?;
    check_blocks(alloc, &conjugates, &modules, report.series())?;
    // Their memory is free again before the constituents are looked at.
    drop(conjugates);
    let seed = report.header().seed;
    let forms = seen_forms(alloc, *module.field(), report.factors(), seed, &modules)?;
    check_pairs(alloc, report.factors(), &modules, &forms)
}

/// Whether a report is of a module's field, dimension and number of generators.
fn check_header(report: &Report, module: &Module) -> Result<(), Stop>
    ensures { Passes (λ _. HasHeader report.now.header «module».now)
        (IsHeaderReason report.now.header «module».now) result }
{
    let header = report.header();
    if header.field != *module.field()
        || header.dim != module.dim()
        || header.gens != module.gens()
    {
        return Err(Stop::Because(Reason::Header));
    }
    Ok(())
}

/// The module over the rows of a matrix as its basis, where they are one.
fn conjugated(alloc: Global, module: &Module, basis: &Matrix) -> Result<Module, Stop>
    ensures conjugates { Passes
        (λ conjugates. IsBasisOf «module».now basis.now × IsConjugateModule «module».now basis.now conjugates)
        (IsBasisReason «module».now basis.now) result }
    ensures well_formed { IfOk result IsModule }
    ensures basis_well_formed { IsMatrix basis.now }
    ensures module_well_formed { IsModule «module».now }
{
    // Called for what they ensure beside the numbers: that the matrix and the module are ones.
    prove!(basis.cols() >= 1);
    prove!(module.dim() >= 1);
    match conjugate(alloc, module, basis) {
        Ok(conjugates) => Ok(conjugates),
        Err(Refusal::Memory) => Err(Stop::Memory),
        Err(_) => Err(Stop::Because(Reason::Basis)),
    }
}

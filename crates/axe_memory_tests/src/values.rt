//! Modules, as they are written: their generators, as `2: 01/10, 2: 11/01`.

ghost use Rattle.std.specs.Prelude.{OnOk};
ghost use Rattle.axe_algebra.specs.SpansOfLists.{IsIndependent};
ghost use Rattle.axe_field.specs.NumberFields.{number_field};

use axe_echelon::Echelon;
use axe_matrix::{Matrix, Refusal};
use axe_spin::{MAX_GENERATORS, Module};
use axe_test_values::{TableFault, matrix_of};
use std::alloc::Global;
use std::process::Abort;

/// The matrices that are written so.
pub(crate) fn matrices_of(alloc: Global, text: &str) -> Result<Vec<Matrix>, TableFault> {
    let mut matrices = Vec::new(alloc);
    for matrix in text.split(", ") {
        matrices.push(matrix_of(alloc, matrix)?)?;
    }
    Ok(matrices)
}

/// The module that is written so.
pub(crate) fn module_of(alloc: Global, text: &str) -> Result<Module, TableFault> {
    let matrices = matrices_of(alloc, text)?;
    if matrices.is_empty() || matrices.len() > MAX_GENERATORS {
        return Err(TableFault::NotWritten);
    }
    match Module::new(matrices) {
        Ok(module) => Ok(module),
        Err(Refusal::Memory) => Err(TableFault::Refused(Refusal::Memory)),
        Err(_) => Err(TableFault::NotWritten),
    }
}

/// Whether two modules have the same generators.
fn same_generators(module: &Module, wanted: &Module) -> bool {
    if module.gens() != wanted.gens() {
        return false;
    }
    for index in 0..module.gens() {
        if index >= wanted.gens() || !module.generator(index).same(wanted.generator(index)) {
            return false;
        }
    }
    true
}

/// Whether a module is the one that is written so.
pub(crate) fn is_still_module(
    alloc: Global,
    module: &Module,
    text: &str,
) -> Result<bool, TableFault> {
    Ok(same_generators(module, &module_of(alloc, text)?))
}

/// Whether an answer is the module that is written so, or Memory.
pub(crate) fn is_module(
    alloc: Global,
    answer: Result<Module, Refusal>,
    text: &str,
) -> Result<bool, TableFault> {
    match answer {
        Ok(module) => is_still_module(alloc, &module, text),
        Err(refusal) => Ok(refusal == Refusal::Memory),
    }
}

/// Asserts that the rows of a matrix are independent.
pub(crate) fn assert_independent(
    rt: &impl Abort,
    alloc: Global,
    matrix: &Matrix,
) -> Result<(), Refusal>
    ensures { OnOk result (IsIndependent (number_field matrix.now.order) matrix.now.rows) }
{
    let mut span = Echelon::new(alloc, *matrix.field(), matrix.cols());
    for index in 0..matrix.rows() {
        let row = matrix.row(index).copy(alloc)?;
        let new = span.insert(row)?;
        assert!(rt; new);
    }
    Ok(())
}

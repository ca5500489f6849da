//! Modules of matrices: which matrices make one, and what it then tells.
use crate::tables::{Topic, each_call};
use crate::values::{is_module, module_of, module_with};
use axe_spin::Module;
use axe_test_values::{
    TableFault, first_field, is_fault, is_matrix, number_of, one_field, small_number_of,
    three_fields, two_fields,
};
use std::alloc::Global;
use std::process::Abort;

/// `new`: matrices, and why they make no module.
const REFUSED: &str = "\
new | 2: 0x3 | the matrix has no rows
new | 2: 2x3 | the matrix is not square
new | 2: 3x2 | the matrix is not square
new | 2: 2x2, 2: 0x2 | the matrix has no rows
new | 2: 2x2, 2: 2x3 | the matrix is not square
new | 2: 2x2, 3: 2x2 | the operands are over different fields
new | 2: 2x2, 2: 3x3 | the shapes of the operands do not fit
new | 2: 2x2, 3: 0x3 | the matrix has no rows
new | 2: 2x2, 3: 2x3 | the matrix is not square
new | 2: 2x2, 3: 3x3 | the operands are over different fields
new | 2: 1x2, 2: 0x2 | the matrix is not square
new | 2: 2x2, 2: 3x3, 2: 0x2 | the shapes of the operands do not fit
new | 2: 2x2, 3: 2x2, 2: 1x2 | the operands are over different fields
";

/// - `shape`: a module, and the order of the field, the dimension and the number of generators that it and its copy
/// have; - `generator`: a module, an index, and the generator there;
/// - `copy`: a module, and its copy.
const MODULES: &str = "\
# As many generators as there may be.
shape | 9: 0, 9: 0, 9: 0, 9: 0, 9: 0, 9: 0, 9: 0, 9: 0, 9: 0, 9: 0, 9: 0, 9: 0, 9: 0, 9: 0, 9: 0, 9: 0 | 9 | 1 | 16
shape | 2: 010/100/001, 2: 010/001/100 | 2 | 3 | 2
copy | 2: 010/100/001, 2: 010/001/100 | 2: 010/100/001, 2: 010/001/100
generator | 2: 010/100/001, 2: 010/001/100 | 0 | 2: 010/100/001
generator | 2: 010/100/001, 2: 010/001/100 | 1 | 2: 010/001/100
";

fn is_refused(alloc: Global, line: &str) -> Result<bool, TableFault> {
    let (matrices, refusal) = two_fields(line)?;
    match module_with(alloc, matrices) {
        Err(TableFault::Refused(refused)) => is_fault(alloc, &refused, refusal),
        Err(fault) => Err(fault),
        Ok(_) => Ok(false),
    }
}

/// Whether a module has this shape: the order of its field, its dimension, and the number of its generators.
fn has_shape(module: &Module, shape: (u8, usize, usize)) -> bool {
    let (order, dimension, generators) = shape;
    module.field().order() == order && module.dim() == dimension && module.gens() == generators
}

fn describes(alloc: Global, module: &Module, line: &str) -> Result<bool, TableFault> {
    let (order, dimension, generators) = three_fields(line)?;
    let shape = (
        small_number_of(order)?,
        number_of(dimension)?,
        number_of(generators)?,
    );
    Ok(has_shape(module, shape) && has_shape(&module.copy(alloc)?, shape))
}

fn gives_generator(
    rt: &impl Abort,
    alloc: Global,
    module: &Module,
    line: &str,
) -> Result<bool, TableFault> {
    let (index, wanted) = two_fields(line)?;
    let index = number_of(index)?;
    assert!(rt; index < module.gens());
    is_matrix(alloc, module.generator(index).copy(alloc), wanted)
}

/// The calls that are given a module.
fn answers_of_module(
    rt: &impl Abort,
    alloc: Global,
    call: &str,
    line: &str,
) -> Result<bool, TableFault> {
    let (module, line) = first_field(line)?;
    let module = module_of(alloc, module)?;
    match call {
        "shape" => describes(alloc, &module, line),
        "copy" => is_module(alloc, module.copy(alloc), one_field(line)?),
        "generator" => gives_generator(rt, alloc, &module, line),
        _ => Err(TableFault::NotWritten),
    }
}

/// Whether a call answers what its line says.
pub(crate) fn answers(
    rt: &impl Abort,
    alloc: Global,
    call: &str,
    line: &str,
) -> Result<bool, TableFault> {
    match call {
        "new" => is_refused(alloc, line),
        _ => answers_of_module(rt, alloc, call, line),
    }
}

#[test]
fn matrices_that_are_no_generators_are_refused(rt: HostRuntime) -> Result<(), TableFault> {
    each_call(&rt, rt.alloc(), Topic::Modules, REFUSED)
}

#[test]
fn modules_and_their_copies_tell_their_generators(rt: HostRuntime) -> Result<(), TableFault> {
    each_call(&rt, rt.alloc(), Topic::Modules, MODULES)
}

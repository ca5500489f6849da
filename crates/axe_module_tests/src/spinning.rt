//! Generated spaces and standard bases, in modules that were worked through by hand.
use crate::tables::{Topic, each_call};
use crate::values::module_of;
use axe_matrix::Matrix;
use axe_spin::{
    Module, Origin, first_nonzero_row, generate, standard_basis, standard_basis_with_origins,
    standard_rows,
};
use axe_test_values::{
    TableFault, first_field, is_fault, is_matrix, is_row, is_same_matrix, matrix_of, number_of,
    row_of_shape, three_fields, two_fields,
};
use std::alloc::Global;
use std::process::Abort;

/// `generate`: a module, rows, and the reduced basis of the space that they generate.
const GENERATED: &str = "\
generate | 2: 01/10 | 2: 11 | 2: 11
generate | 2: 01/10 | 2: 00/11 | 2: 11
generate | 2: 01/10 | 2: 01 | 2: 10/01
# The vectors of even weight.
generate | 2: 010/100/001, 2: 010/001/100 | 2: 011 | 2: 101/011
# Six points and the six that a permutation of order two takes them to: the images of these are the former, and the last ones wait.
generate | 2: 00000010000000/00000001000000/00000000100000/00000000010000/00000000001000/00000000000100/10000000000000/01000000000000/00100000000000/00010000000000/00001000000000/00000100000000/00000000000010/00000000000001 | 2: 10000000000000/01000000000000/00100000000000/00010000000000/00001000000000/00000100000000 | 2: 10000000000000/01000000000000/00100000000000/00010000000000/00001000000000/00000100000000/00000010000000/00000001000000/00000000100000/00000000010000/00000000001000/00000000000100
";

/// The refusals come in this order: the field, the shape, the zero seed.
const REFUSED: &str = "\
generate | 2: 01/10 | 2: 0x2 | the seed has no nonzero row
generate | 2: 01/10 | 2: 00 | the seed has no nonzero row
generate | 2: 01/10 | 3: 12 | the operands are over different fields
generate | 2: 01/10 | 2: 101 | the shapes of the operands do not fit
generate | 2: 01/10 | 3: 000 | the operands are over different fields
generate | 2: 01/10 | 2: 000 | the shapes of the operands do not fit
";

/// `standard_basis`: a module, a vector, and the standard basis of the space that it generates.
const STANDARD_BASES: &str = "\
# 01 goes to 10, and 10 to 11, their sum.
standard_basis | 2: 11/10 | 2: 01 | 2: 01/10
# The exchange takes 011 to 101; the other images of these two are their sum, or one of them.
standard_basis | 2: 010/100/001, 2: 010/001/100 | 2: 011 | 2: 011/101
# The exchange takes 010 to 100 before the other generator takes it to 001.
standard_basis | 2: 010/100/001, 2: 010/001/100 | 2: 010 | 2: 010/100/001
# 111 is fixed by both.
standard_basis | 2: 010/100/001, 2: 010/001/100 | 2: 111 | 2: 111
";

/// `standard_basis_with_origins`: the same, and for each row after the first the row and the generator that it comes from.
const ORIGINS: &str = "\
standard_basis_with_origins | 2: 11/10 | 2: 01 | 2: 01/10 | 0.0
standard_basis_with_origins | 2: 010/100/001, 2: 010/001/100 | 2: 010 | 2: 010/100/001 | 0.0 0.1
# One generator moves the unit vectors round: the last comes from the one before.
standard_basis_with_origins | 2: 010/001/100 | 2: 100 | 2: 100/010/001 | 0.0 1.0
standard_basis_with_origins | 2: 010/100/001, 2: 010/001/100 | 2: 111 | 2: 111 |
";

/// Which row of a matrix is the first that is not zero, which rows are vectors of a module, and the standard basis of
/// the first row of a seed that is not zero.
const SEEDS: &str = "\
first_nonzero_row | 2: 00/01/10 | 2: 01
first_nonzero_row | 2: 00/00 | none
check_rows | 2: 01/10 | 2: 11/00 | 2: 11/00
check_rows | 2: 01/10 | 3: 121 | the operands are over different fields
check_rows | 2: 01/10 | 2: 101 | the shapes of the operands do not fit
standard_rows | 2: 11/10 | 2: 00/01/11 | 2: 01/10
standard_rows | 2: 01/10 | 2: 00 | the seed has no nonzero row
standard_rows | 2: 01/10 | 3: 00 | the operands are over different fields
";

/// The calls that are given a module and a seed.
fn spins(
    alloc: Global,
    call: &str,
    module: &Module,
    seed: &Matrix,
    wanted: &str,
) -> Result<bool, TableFault> {
    let answer = match call {
        "generate" => generate(alloc, module, seed),
        _ => standard_rows(alloc, module, seed),
    };
    is_matrix(alloc, answer, wanted)
}

fn finds_standard_basis(
    rt: &impl Abort,
    alloc: Global,
    module: &Module,
    line: &str,
) -> Result<bool, TableFault> {
    let (vector, wanted) = two_fields(line)?;
    let vector = row_of_shape(alloc, vector, module.field(), module.dim())?;
    assert!(rt; !vector.is_zero());
    is_matrix(alloc, standard_basis(alloc, module, &vector), wanted)
}

/// Whether origins are those that are written so, with a space between two of them.
fn are_origins(origins: &[Origin], text: &str) -> Result<bool, TableFault> {
    let mut count = 0;
    for word in text.split_whitespace() {
        let (source, generator) = word.split_once('.').ok_or(TableFault::NotWritten)?;
        let (source, generator) = (number_of(source)?, number_of(generator)?);
        if count >= origins.len()
            || origins[count].source != source
            || origins[count].generator != generator
        {
            return Ok(false);
        }
        count += 1;
    }
    Ok(count == origins.len())
}

fn finds_origins(
    rt: &impl Abort,
    alloc: Global,
    module: &Module,
    line: &str,
) -> Result<bool, TableFault> {
    let (vector, wanted, wanted_origins) = three_fields(line)?;
    let vector = row_of_shape(alloc, vector, module.field(), module.dim())?;
    assert!(rt; !vector.is_zero());
    let (basis, origins) = standard_basis_with_origins(alloc, module, &vector)?;
    Ok(is_same_matrix(alloc, &basis, wanted)? && are_origins(&origins, wanted_origins)?)
}

fn finds_first_nonzero_row(alloc: Global, line: &str) -> Result<bool, TableFault> {
    let (matrix, wanted) = two_fields(line)?;
    let matrix = matrix_of(alloc, matrix)?;
    match first_nonzero_row(&matrix) {
        Some(row) => is_row(alloc, row, wanted),
        None => Ok(wanted == "none"),
    }
}

fn checks_rows(
    alloc: Global,
    module: &Module,
    rows: &Matrix,
    wanted: &str,
) -> Result<bool, TableFault> {
    match module.check_rows(rows) {
        Ok(()) => is_same_matrix(alloc, rows, wanted),
        Err(refusal) => is_fault(alloc, &refusal, wanted),
    }
}

/// The calls that are given a module and rows.
fn answers_of_rows(
    alloc: Global,
    call: &str,
    module: &Module,
    line: &str,
) -> Result<bool, TableFault> {
    let (rows, wanted) = two_fields(line)?;
    let rows = matrix_of(alloc, rows)?;
    match call {
        "generate" | "standard_rows" => spins(alloc, call, module, &rows, wanted),
        "check_rows" => checks_rows(alloc, module, &rows, wanted),
        _ => Err(TableFault::NotWritten),
    }
}

/// The calls that are given a module first.
fn answers_of_module(
    rt: &impl Abort,
    alloc: Global,
    call: &str,
    line: &str,
) -> Result<bool, TableFault> {
    let (module, line) = first_field(line)?;
    let module = module_of(alloc, module)?;
    match call {
        "standard_basis" => finds_standard_basis(rt, alloc, &module, line),
        "standard_basis_with_origins" => finds_origins(rt, alloc, &module, line),
        _ => answers_of_rows(alloc, call, &module, line),
    }
}

/// Whether a call answers what its line says.
pub(crate) fn answers(
    rt: &impl Abort,
    alloc: Global,
    call: &str,
    line: &str,
) -> Result<bool, TableFault> {
    match call {
        "first_nonzero_row" => finds_first_nonzero_row(alloc, line),
        _ => answers_of_module(rt, alloc, call, line),
    }
}

#[test]
fn rows_generate_spaces(rt: HostRuntime) -> Result<(), TableFault> {
    each_call(&rt, rt.alloc(), Topic::Spinning, GENERATED)
}

#[test]
fn seeds_are_refused(rt: HostRuntime) -> Result<(), TableFault> {
    each_call(&rt, rt.alloc(), Topic::Spinning, REFUSED)
}

#[test]
fn vectors_have_standard_bases(rt: HostRuntime) -> Result<(), TableFault> {
    each_call(&rt, rt.alloc(), Topic::Spinning, STANDARD_BASES)
}

#[test]
fn standard_bases_have_origins(rt: HostRuntime) -> Result<(), TableFault> {
    each_call(&rt, rt.alloc(), Topic::Spinning, ORIGINS)
}

#[test]
fn seeds_are_looked_at(rt: HostRuntime) -> Result<(), TableFault> {
    each_call(&rt, rt.alloc(), Topic::Spinning, SEEDS)
}

//! Calls that are given a module, or make one.

use crate::tables::{Topic, each_call, is_matrix, is_still};
use crate::values::{assert_independent, is_module, is_still_module, module_of};
use axe_action::{
    basis_action, change_basis, conjugate, dual, extend_basis, quotient_action, sub_action,
};
use axe_matrix::{Matrix, Refusal};
use axe_spin::{Module, generate, standard_basis, standard_rows};
use axe_test_values::{TableFault, matrix_of, three_fields};
use axe_word::{Term, Word};
use std::alloc::Global;
use std::process::Abort;

/// Calls that are given a module and rows, and answer rows.
const SPUN: &str = "\
generate | 2: 01/10 | 2: 00/11 | 2: 11
generate | 2: 010/100/001, 2: 010/001/100 | 2: 011 | 2: 101/011
standard_basis | 2: 11/10 | 2: 01 | 2: 01/10
standard_rows | 2: 11/10 | 2: 00/01/11 | 2: 01/10
extend_basis | 2: 100/010/001 | 2: 011 | 2: 011/100/001
value | 3: 12/01 | 3: 00 | 3: 01/00
";

/// Calls that are given a module and rows, and answer a module.
const ACTIONS: &str = "\
sub_action | 2: 01/10 | 2: 11 | 2: 1
basis_action | 2: 11/10 | 2: 01/10 | 2: 01/11
quotient_action | 2: 01/10 | 2: 11 | 2: 1
conjugate | 2: 010/100/001, 2: 010/001/100 | 2: 011/101/001 | 2: 010/100/001, 2: 010/110/011
change_basis | 2: 010/100/001, 2: 010/001/100 | 2: 011/101/001 | 2: 010/100/001, 2: 010/110/011
dual | 2: 00/01, 2: 11/01 | 2: 00 | 2: 00/01, 2: 10/11
copy | 2: 010/100/001, 2: 010/001/100 | 2: 0x3 | 2: 010/100/001, 2: 010/001/100
";

/// The value of the word 2 g + 1 in the first generator g.
fn value(rt: &impl Abort, alloc: Global, module: &Module) -> Result<Matrix, Refusal> {
    let generator = Term {
        coefficient: 2,
        gens: &[0],
    };
    let one = Term {
        coefficient: 1,
        gens: &[],
    };
    let word = Word::from_terms(&[generator, one]).expect(rt, "a word");
    assert!(rt; word.is_word_in(module));
    word.value(alloc, module)
}

/// The standard basis of the first of the rows.
fn standard(
    rt: &impl Abort,
    alloc: Global,
    module: &Module,
    rows: &Matrix,
) -> Result<Matrix, Refusal> {
    assert!(rt; 0 < rows.rows());
    let vector = rows.row(0);
    assert!(rt; vector.field() == module.field() && vector.len() == module.dim());
    assert!(rt; !vector.is_zero());
    standard_basis(alloc, module, vector)
}

/// What a call answers that is given a module and rows, and makes rows.
fn rows_of(
    rt: &impl Abort,
    alloc: Global,
    call: &str,
    module: &Module,
    rows: &Matrix,
) -> Result<Matrix, Refusal> {
    match call {
        "generate" => generate(alloc, module, rows),
        "standard_basis" => standard(rt, alloc, module, rows),
        "standard_rows" => standard_rows(alloc, module, rows),
        "extend_basis" => {
            assert_independent(rt, alloc, rows)?;
            extend_basis(alloc, rows)
        }
        _ => value(rt, alloc, module),
    }
}

/// A copy of the module, over rows that are a basis of everything.
fn changed(
    rt: &impl Abort,
    alloc: Global,
    module: &Module,
    rows: &Matrix,
) -> Result<Module, Refusal> {
    assert_independent(rt, alloc, rows)?;
    assert!(rt; rows.field().order() == module.field().order());
    assert!(rt; rows.rows() == module.dim() && rows.cols() == module.dim());
    change_basis(alloc, module.copy(alloc)?, rows)
}

/// What a call answers that is given a module and rows, and makes a module.
fn module_from(
    rt: &impl Abort,
    alloc: Global,
    call: &str,
    module: &Module,
    rows: &Matrix,
) -> Result<Module, Refusal> {
    match call {
        "sub_action" => sub_action(alloc, module, rows),
        "basis_action" => {
            assert_independent(rt, alloc, rows)?;
            basis_action(alloc, module, rows)
        }
        "quotient_action" => quotient_action(alloc, module, rows),
        "conjugate" => conjugate(alloc, module, rows),
        "change_basis" => changed(rt, alloc, module, rows),
        "dual" => dual(alloc, module),
        _ => module.copy(alloc),
    }
}

fn spins(rt: &impl Abort, alloc: Global, call: &str, line: &str) -> Result<bool, TableFault> {
    let (module_text, rows_text, wanted) = three_fields(line)?;
    let module = module_of(alloc, module_text)?;
    let rows = matrix_of(alloc, rows_text)?;
    let is_right = is_matrix(alloc, rows_of(rt, alloc, call, &module, &rows), wanted)?;
    let is_kept = is_still(alloc, &rows, rows_text)?;
    Ok(is_right && is_kept && is_still_module(alloc, &module, module_text)?)
}

fn acts(rt: &impl Abort, alloc: Global, call: &str, line: &str) -> Result<bool, TableFault> {
    let (module_text, rows_text, wanted) = three_fields(line)?;
    let module = module_of(alloc, module_text)?;
    let rows = matrix_of(alloc, rows_text)?;
    let is_right = is_module(alloc, module_from(rt, alloc, call, &module, &rows), wanted)?;
    let is_kept = is_still(alloc, &rows, rows_text)?;
    Ok(is_right && is_kept && is_still_module(alloc, &module, module_text)?)
}

/// Whether a call answers what its line says, or Memory.
pub(crate) fn answers(
    rt: &impl Abort,
    alloc: Global,
    call: &str,
    line: &str,
) -> Result<bool, TableFault> {
    match call {
        "generate" | "standard_basis" | "standard_rows" => spins(rt, alloc, call, line),
        "extend_basis" | "value" => spins(rt, alloc, call, line),
        _ => acts(rt, alloc, call, line),
    }
}

#[test]
fn rows_are_spun_or_there_is_no_memory(rt: HostRuntime) {
    each_call(&rt, rt.alloc(), Topic::Modules, SPUN);
}

#[test]
fn modules_act_or_there_is_no_memory(rt: HostRuntime) {
    each_call(&rt, rt.alloc(), Topic::Modules, ACTIONS);
}

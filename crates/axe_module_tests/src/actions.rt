//! Actions of modules on invariant spaces and modulo them, duals, annihilators, bases that are extended, and
//! conjugates.
use crate::tables::{Topic, each_call};
use crate::values::{assert_independent, is_module, module_of};
use axe_action::{
    Split, annihilator, basis_action, change_basis, change_standard_basis, conjugate, dual,
    extend_basis, quotient_action, split_by_submodule, sub_action,
};
use axe_matrix::{Matrix, Refusal};
use axe_spin::{Module, standard_basis_with_origins};
use axe_test_values::{
    TableFault, first_field, four_fields, is_matrix, matrix_of, number_of, one_field, row_of_shape,
    two_fields,
};
use std::alloc::Global;
use std::process::Abort;

/// - `sub_action`: a module, rows, and the action on the space that they span;
/// - `basis_action`: a module, independent rows, and the action over these rows;
/// - `quotient_action`: a module, rows, and the action modulo the space that they span.
const ACTIONS: &str = "\
sub_action | 2: 01/10 | 2: 11 | 2: 1
sub_action | 2: 01/10 | 2: 00/11/11 | 2: 1
basis_action | 2: 11/10 | 2: 01/10 | 2: 01/11
quotient_action | 2: 01/10 | 2: 11 | 2: 1
quotient_action | 2: 01/10 | 2: 0x2 | 2: 01/10
# In dimension three, on a line and modulo it.
sub_action | 3: 121/021/001 | 3: 022 | 3: 2
quotient_action | 3: 121/021/001 | 3: 022 | 3: 12/01
";

/// The same calls, with rows that are refused.
const REFUSED: &str = "\
sub_action | 2: 01/10 | 2: 00 | the space is zero
sub_action | 2: 01/10 | 2: 0x2 | the space is zero
sub_action | 2: 01/10 | 2: 10 | the space is not invariant
sub_action | 2: 01/10 | 3: 11 | the operands are over different fields
sub_action | 2: 01/10 | 3: 000 | the operands are over different fields
sub_action | 2: 01/10 | 2: 110 | the shapes of the operands do not fit
sub_action | 2: 01/10 | 2: 0 | the shapes of the operands do not fit
sub_action | 2: 01/10 | 2: 0x3 | the shapes of the operands do not fit
basis_action | 2: 11/10 | 2: 0x2 | the space is zero
basis_action | 2: 11/10 | 2: 11 | the space is not invariant
basis_action | 2: 11/10 | 3: 11 | the operands are over different fields
basis_action | 2: 11/10 | 2: 110 | the shapes of the operands do not fit
quotient_action | 2: 01/10 | 2: 10/01 | the space is the whole space
quotient_action | 2: 01/10 | 2: 10 | the space is not invariant
quotient_action | 2: 01/10 | 3: 11 | the operands are over different fields
quotient_action | 2: 01/10 | 3: 0x3 | the operands are over different fields
quotient_action | 2: 01/10 | 2: 110 | the shapes of the operands do not fit
";

/// - `split_by_submodule`: a copy of the module, which is given away, rows that span a submodule, the action on it over
///   these rows, the action modulo it, and the columns that are no pivots.
///
/// The permutations of three points: rows that are no reduced basis, and the reduced basis of the same space.
const SPLITS: &str = "\
split_by_submodule | 2: 010/100/001, 2: 010/001/100 | 2: 110/011 | 2: 10/11, 2: 01/11 | 2: 1, 2: 1 | 2
split_by_submodule | 2: 010/100/001, 2: 010/001/100 | 2: 101/011 | 2: 01/10, 2: 11/10 | 2: 1, 2: 1 | 2
# The space of the sum of all points: on it everything is fixed.
split_by_submodule | 2: 010/100/001, 2: 010/001/100 | 2: 111 | 2: 1, 2: 1 | 2: 11/01, 2: 01/11 | 1 2
";

/// - `dual`: a module, and the module with the transposes;
/// - `annihilator`: rows, and a basis of the vectors that are orthogonal to them;
/// - `extend_basis`: independent rows, and these with the unit vectors that make them a basis.
const DUALS: &str = "\
dual | 2: 00/01, 2: 11/01 | 2: 00/01, 2: 10/11
annihilator | 2: 100 | 2: 010/001
annihilator | 2: 0x2 | 2: 10/01
annihilator | 2: 10/01 | 2: 0x2
extend_basis | 2: 011 | 2: 011/100/001
";

/// - `conjugate`: a module, a basis, and the module over that basis;
/// - `conjugate_copy`: the same call with a copy of the module;
/// - `change_basis`: a copy of the module, which is given away, over that basis;
/// - `change_standard_basis`: such a copy, over the standard basis of a vector.
///
/// The symmetric group on three points exchanges the first two coordinates, and moves all three round.
const CONJUGATES: &str = "\
conjugate | 2: 010/100/001, 2: 010/001/100 | 2: 011/101/001 | 2: 010/100/001, 2: 010/110/011
conjugate_copy | 2: 010/100/001, 2: 010/001/100 | 2: 011/101/001 | 2: 010/100/001, 2: 010/110/011
change_basis | 2: 010/100/001, 2: 010/001/100 | 2: 011/101/001 | 2: 010/100/001, 2: 010/110/011
change_basis | 2: 11/10 | 2: 01/10 | 2: 01/11
# The standard basis is 01/10, by the first generator.
change_standard_basis | 2: 01/10, 2: 01/11 | 2: 01 | 2: 01/10, 2: 11/10
# The exchange takes 010 to 100, and the other generator takes it to 001.
change_standard_basis | 2: 010/100/001, 2: 010/001/100 | 2: 010 | 2: 010/100/001, 2: 001/100/010
conjugate | 2: 010/100/001, 2: 010/001/100 | 2: 100/010/110 | the matrix has no inverse
conjugate | 2: 010/100/001, 2: 010/001/100 | 2: 10/01 | the shapes of the operands do not fit
conjugate | 2: 010/100/001, 2: 010/001/100 | 2: 100/010 | the shapes of the operands do not fit
conjugate | 2: 010/100/001, 2: 010/001/100 | 3: 100/010/001 | the operands are over different fields
conjugate | 2: 010/100/001, 2: 010/001/100 | 3: 10/01 | the operands are over different fields
";

/// A copy of the module, over rows that are a basis of everything.
fn changed(
    rt: &impl Abort,
    alloc: Global,
    module: &Module,
    rows: &Matrix,
) -> Result<Module, Refusal> {
    assert_independent(rt, alloc, rows)?;
    assert!(rt; rows.field().order() == module.field().order());
    assert!(rt; rows.rows() == module.dim() && rows.cols() == module.dim());
    change_basis(alloc, module.copy(alloc)?, rows)
}

/// A copy of the module, over the standard basis of a vector, which spans everything.
fn acts_on_standard_basis(
    rt: &impl Abort,
    alloc: Global,
    module: &Module,
    line: &str,
) -> Result<bool, TableFault> {
    let (vector, wanted) = two_fields(line)?;
    let vector = row_of_shape(alloc, vector, module.field(), module.dim())?;
    assert!(rt; !vector.is_zero());
    let (basis, origins) = standard_basis_with_origins(alloc, module, &vector)?;
    assert_independent(rt, alloc, &basis)?;
    assert!(rt; basis.rows() == module.dim());
    let copy = module.copy(alloc)?;
    is_module(
        alloc,
        change_standard_basis(alloc, copy, &basis, &origins),
        wanted,
    )
}

/// What a call answers that is given a module and rows.
fn module_from(
    rt: &impl Abort,
    alloc: Global,
    call: &str,
    module: &Module,
    rows: &Matrix,
) -> Result<Module, Refusal> {
    match call {
        "sub_action" => sub_action(alloc, module, rows),
        "quotient_action" => quotient_action(alloc, module, rows),
        "basis_action" => {
            assert_independent(rt, alloc, rows)?;
            basis_action(alloc, module, rows)
        }
        "conjugate_copy" => conjugate(alloc, &module.copy(alloc)?, rows),
        "change_basis" => changed(rt, alloc, module, rows),
        _ => conjugate(alloc, module, rows),
    }
}

fn acts(
    rt: &impl Abort,
    alloc: Global,
    call: &str,
    module: &Module,
    line: &str,
) -> Result<bool, TableFault> {
    let (rows, wanted) = two_fields(line)?;
    let rows = matrix_of(alloc, rows)?;
    is_module(alloc, module_from(rt, alloc, call, module, &rows), wanted)
}

/// A copy of the module, split by independent rows that span a submodule.
fn split(rt: &impl Abort, alloc: Global, module: &Module, rows: &Matrix) -> Result<Split, Refusal> {
    assert_independent(rt, alloc, rows)?;
    assert!(rt; rows.field().order() == module.field().order() && rows.cols() == module.dim());
    assert!(rt; rows.rows() >= 1 && rows.rows() < module.dim());
    // A space that is not invariant is refused here.
    drop(sub_action(alloc, module, rows)?);
    split_by_submodule(alloc, module.copy(alloc)?, rows)
}

/// Whether numbers are those that are written so, with a space between two of them.
fn are_numbers(numbers: &[usize], text: &str) -> Result<bool, TableFault> {
    let mut count = 0;
    for word in text.split(' ') {
        if count >= numbers.len() || numbers[count] != number_of(word)? {
            return Ok(false);
        }
        count += 1;
    }
    Ok(count == numbers.len())
}

fn splits(rt: &impl Abort, alloc: Global, module: &Module, line: &str) -> Result<bool, TableFault> {
    let (rows, wanted_sub, wanted_quotient, wanted_columns) = four_fields(line)?;
    let rows = matrix_of(alloc, rows)?;
    let Split {
        sub,
        quotient,
        columns,
    } = split(rt, alloc, module, &rows)?;
    Ok(
        are_numbers(&columns, wanted_columns)?
            && is_module(alloc, Ok(sub), wanted_sub)?
            && is_module(alloc, Ok(quotient), wanted_quotient)?,
    )
}

/// The calls that are given a module first.
fn answers_of_module(
    rt: &impl Abort,
    alloc: Global,
    call: &str,
    line: &str,
) -> Result<bool, TableFault> {
    let (module, line) = first_field(line)?;
    let module = module_of(alloc, module)?;
    match call {
        "sub_action" | "quotient_action" | "basis_action" => acts(rt, alloc, call, &module, line),
        "conjugate" | "conjugate_copy" | "change_basis" => acts(rt, alloc, call, &module, line),
        "change_standard_basis" => acts_on_standard_basis(rt, alloc, &module, line),
        "split_by_submodule" => splits(rt, alloc, &module, line),
        "dual" => is_module(alloc, dual(alloc, &module), one_field(line)?),
        _ => Err(TableFault::NotWritten),
    }
}

/// What a call answers that is given rows alone.
fn matrix_from(
    rt: &impl Abort,
    alloc: Global,
    call: &str,
    rows: &Matrix,
) -> Result<Matrix, Refusal> {
    match call {
        "annihilator" => annihilator(alloc, rows),
        _ => {
            assert_independent(rt, alloc, rows)?;
            extend_basis(alloc, rows)
        }
    }
}

fn gives_matrix(
    rt: &impl Abort,
    alloc: Global,
    call: &str,
    line: &str,
) -> Result<bool, TableFault> {
    let (rows, wanted) = two_fields(line)?;
    let rows = matrix_of(alloc, rows)?;
    is_matrix(alloc, matrix_from(rt, alloc, call, &rows), wanted)
}

/// Whether a call answers what its line says.
pub(crate) fn answers(
    rt: &impl Abort,
    alloc: Global,
    call: &str,
    line: &str,
) -> Result<bool, TableFault> {
    match call {
        "annihilator" | "extend_basis" => gives_matrix(rt, alloc, call, line),
        _ => answers_of_module(rt, alloc, call, line),
    }
}

#[test]
fn modules_act_on_invariant_spaces_and_modulo_them(rt: HostRuntime) -> Result<(), TableFault> {
    each_call(&rt, rt.alloc(), Topic::Actions, ACTIONS)
}

#[test]
fn modules_do_not_act_on_other_spaces_and_modulo_them(rt: HostRuntime) -> Result<(), TableFault> {
    each_call(&rt, rt.alloc(), Topic::Actions, REFUSED)
}

#[test]
fn modules_are_split_by_submodules(rt: HostRuntime) -> Result<(), TableFault> {
    each_call(&rt, rt.alloc(), Topic::Actions, SPLITS)
}

#[test]
fn modules_and_rows_have_duals_and_annihilators(rt: HostRuntime) -> Result<(), TableFault> {
    each_call(&rt, rt.alloc(), Topic::Actions, DUALS)
}

#[test]
fn modules_are_conjugated_by_bases_alone(rt: HostRuntime) -> Result<(), TableFault> {
    each_call(&rt, rt.alloc(), Topic::Actions, CONJUGATES)
}

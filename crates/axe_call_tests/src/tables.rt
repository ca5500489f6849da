//! Tables of worked calls, and the topics that they are about.
//!
//! A further case of a call is a line. A further call is an arm in `answers` of its module, and a function that makes
//! it where none is given the same values. A table without a call fails its test.

use crate::{echelons, files, matrices, module_files, polynomials};
use axe_test_values::{TableFault, first_field, is_remark};
use std::alloc::Global;
use std::process::Abort;

/// What the calls of a table are about: the module that makes them.
#[derive(Clone, Copy)]
pub(crate) enum Topic {
    Echelons,
    Files,
    Matrices,
    ModuleFiles,
    Polynomials,
}

/// Whether a call answers what its line says.
fn answers(rt: &impl Abort, alloc: Global, topic: Topic, line: &str) -> Result<bool, TableFault> {
    let (call, line) = first_field(line)?;
    match topic {
        Topic::Echelons => echelons::answers(alloc, call, line),
        Topic::Files => files::answers(alloc, call, line),
        Topic::Matrices => matrices::answers(rt, alloc, call, line),
        Topic::ModuleFiles => module_files::answers(alloc, call, line),
        Topic::Polynomials => polynomials::answers(rt, alloc, call, line),
    }
}

/// Asserts that the call of a line answers what the line says.
pub(crate) fn assert_right(
    rt: &impl Abort,
    line: &str,
    answer: Result<bool, TableFault>,
) -> Result<(), TableFault> {
    match answer {
        Ok(is_right) => assert!(rt; is_right, "{line}"),
        Err(TableFault::NotWritten) => panic!(rt; "not written so: {line}"),
        Err(fault) => return Err(fault),
    }
    Ok(())
}

/// Asserts of each call of a table that it answers what its line says.
pub(crate) fn each_call(
    rt: &impl Abort,
    alloc: Global,
    topic: Topic,
    table: &str,
) -> Result<(), TableFault> {
    let mut is_empty = true;
    for line in table.lines() {
        if !is_remark(line) {
            assert_right(rt, line, answers(rt, alloc, topic, line))?;
            is_empty = false;
        }
    }
    assert!(rt; !is_empty, "a table without a call");
    Ok(())
}

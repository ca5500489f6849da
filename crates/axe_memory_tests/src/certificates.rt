//! Certificates of composition series, checked.

use crate::tables::{assert_right, is_still};
use crate::values::{is_still_module, matrices_of, module_of};
use axe_check::{Reason, check};
use axe_matrix::{Matrix, Refusal};
use axe_report::{Report, ReportFault, Version, read_report};
use axe_test_values::{TableFault, matrix_of};
use std::alloc::{AllocError, Global};

/// A module, its report, the basis, the matrices of each constituent, and what is answered: the text of a reason, or
/// nothing.
struct Call {
    module: &'static str,
    report: &'static str,
    basis: &'static str,
    factors: &'static [&'static str],
    answer: Option<&'static str>,
}

/// The permutations of three points over the field of two elements: the vectors of even weight, and the trivial module.
const POINTS: &str = "2: 010/001/100, 2: 010/100/001";

const POINTS_REPORT: &str = "chop 2 field=2 dim=3 gens=2 seed=1 words=400\n\
    factor 2a dim=2 mult=1 word=0\nfactor 1a dim=1 mult=1 word=0\nseries 2a 1a\n";

const POINTS_BASIS: &str = "2: 011/110/100";

const POINTS_FACTORS: &[&str] = &["2: 11/10, 2: 11/01", "2: 1, 2: 1"];

/// The companion matrix of x^10 + x^3 + 1: the null space of word 0 has 1,023 points, more than are all tried.
const TEN: &str =
    "2: 0100000000/0010000000/0001000000/0000100000/0000010000/0000001000/0000000100/0000000010/\
    0000000001/1001000000";

const TEN_VECTORS: &str =
    "2: 1000000000/0100000000/0010000000/0001000000/0000100000/0000010000/0000001000/0000000100/\
    0000000010/0000000001";

/// The companion matrices of x^6 + x + 1, which is irreducible, and of x^6 + 1, which is not: the null space of word 0
/// has 63 points in either module, so other words are asked before all of them are tried.
const SIX: &str = "2: 010000/001000/000100/000010/000001/110000";

const SIX_REDUCIBLE: &str = "2: 010000/001000/000100/000010/000001/100000";

const SIX_VECTORS: &str = "2: 100000/010000/001000/000100/000010/000001";

const SIX_REPORT: &str =
    "chop 2 field=2 dim=6 gens=1 seed=1 words=400\nfactor 6a dim=6 mult=1 word=0\nseries 6a\n";

const CALLS: &[Call] = &[
    Call {
        module: POINTS,
        report: POINTS_REPORT,
        basis: POINTS_BASIS,
        factors: POINTS_FACTORS,
        answer: None,
    },
    Call {
        module: "2: 01/10, 2: 01/10",
        report: POINTS_REPORT,
        basis: POINTS_BASIS,
        factors: POINTS_FACTORS,
        answer: Some("header"),
    },
    Call {
        module: POINTS,
        report: POINTS_REPORT,
        basis: "2: 011/110/101",
        factors: POINTS_FACTORS,
        answer: Some("basis"),
    },
    Call {
        module: POINTS,
        report: POINTS_REPORT,
        basis: POINTS_BASIS,
        factors: &["2: 11/10, 2: 11/01", "2: 1, 2: 10/01"],
        answer: Some("shape 1a"),
    },
    Call {
        module: POINTS,
        report: POINTS_REPORT,
        basis: "2: 100/010/001",
        factors: POINTS_FACTORS,
        answer: Some("blocks"),
    },
    // One constituent under two names.
    Call {
        module: "2: 0100/1100/0001/0011",
        report: "chop 2 field=2 dim=4 gens=1 seed=1 words=400\nfactor 2a dim=2 mult=1 word=0\n\
            factor 2b dim=2 mult=1 word=0\nseries 2a 2b\n",
        basis: "2: 1000/0100/0010/0001",
        factors: &["2: 01/11", "2: 01/11"],
        answer: Some("same 2a 2b"),
    },
    // Word 0 leaves it open. Word 1 shows it to be irreducible by a polynomial, which may be named.
    Call {
        module: TEN,
        report: "chop 2 field=2 dim=10 gens=1 seed=1 words=400\nfactor 10a dim=10 mult=1 word=0\nseries 10a\n",
        basis: TEN_VECTORS,
        factors: &[TEN],
        answer: Some("open 10a"),
    },
    Call {
        module: TEN,
        report: "chop 2 field=2 dim=10 gens=1 seed=1 words=400\n\
            factor 10a dim=10 mult=1 word=1 poly=10110000101\nseries 10a\n",
        basis: TEN_VECTORS,
        factors: &[TEN],
        answer: None,
    },
    Call {
        module: SIX,
        report: SIX_REPORT,
        basis: SIX_VECTORS,
        factors: &[SIX],
        answer: None,
    },
    Call {
        module: SIX_REDUCIBLE,
        report: SIX_REPORT,
        basis: SIX_VECTORS,
        factors: &[SIX_REDUCIBLE],
        answer: Some("reducible 6a"),
    },
];

/// The lists of matrices that are written so.
fn lists_of(alloc: Global, texts: &[&str]) -> Result<Vec<Vec<Matrix>>, TableFault> {
    let mut lists = Vec::new(alloc);
    for text in texts {
        lists.push(matrices_of(alloc, text)?)?;
    }
    Ok(lists)
}

/// The report that is written so.
fn report_of(alloc: Global, text: &str) -> Result<Report, TableFault> {
    match read_report(alloc, text.as_bytes()) {
        Ok(report) => Ok(report),
        Err(ReportFault::BadReport(_) | ReportFault::OldReport) => Err(TableFault::NotWritten),
        Err(ReportFault::Memory) => Err(TableFault::Refused(Refusal::Memory)),
    }
}

/// Whether an answer is no reason, or the one with this text.
fn is_reason(
    alloc: Global,
    answer: Option<Reason>,
    wanted: Option<&str>,
) -> Result<bool, AllocError> {
    match (answer, wanted) {
        (None, None) => Ok(true),
        (Some(reason), Some(wanted)) => Ok(reason.text(alloc)?.as_str() == wanted),
        _ => Ok(false),
    }
}

/// Whether a call answers what it says or Memory, and its module and basis are as they were.
fn is_answered(alloc: Global, call: &Call) -> Result<bool, TableFault> {
    let report = report_of(alloc, call.report)?;
    let module = module_of(alloc, call.module)?;
    let basis = matrix_of(alloc, call.basis)?;
    let factors = lists_of(alloc, call.factors)?;
    if report.header().version != Version::Two || factors.len() != report.factors().len() {
        return Err(TableFault::NotWritten);
    }
    let is_right = match check(alloc, &report, &module, &basis, &factors) {
        Ok(answer) => is_reason(alloc, answer, call.answer)?,
        Err(fault) => fault == ReportFault::Memory,
    };
    let is_kept = is_still(alloc, &basis, call.basis)?;
    Ok(is_right && is_kept && is_still_module(alloc, &module, call.module)?)
}

#[test]
fn certificates_are_checked_or_there_is_no_memory(rt: HostRuntime) {
    for call in CALLS {
        assert_right(&rt, call.report, is_answered(rt.alloc(), call));
    }
}

//! Certificates of composition series, checked.

use crate::values::{matrices_of, module_of};
use axe_check::check;
use axe_matrix::{Matrix, Refusal};
use axe_report::{Report, ReportFault, Version, read_report};
use axe_spin::Module;
use axe_test_values::{TableFault, matrix_of};
use std::alloc::Global;

/// A module, its report, the basis, the matrices of each constituent, and what is answered: the text of a reason, or
/// nothing.
struct Call {
    module: &'static str,
    report: &'static str,
    basis: &'static str,
    factors: &'static [&'static str],
    answer: Option<&'static str>,
}

/// The permutations of three points over the field of two elements: the vectors of even weight, and the trivial module.
const POINTS: &str = "2: 010/001/100, 2: 010/100/001";

const POINTS_REPORT: &str = "chop 2 field=2 dim=3 gens=2 seed=1 words=400\n\
    factor 2a dim=2 mult=1 word=0\nfactor 1a dim=1 mult=1 word=0\nseries 2a 1a\n";

/// On 011, 110 and 100: the first generator takes 011 to 101, which is the sum of 011 and 110; 110 to 011; and 100 to
/// 010, which is the sum of 110 and 100. The second takes 011 to 101, 110 to itself, and 100 to 010.
const POINTS_BASIS: &str = "2: 011/110/100";

const POINTS_FACTORS: &[&str] = &["2: 11/10, 2: 11/01", "2: 1, 2: 1"];

/// The companion matrix of x^10 + x^3 + 1.
const COMPANION: &str =
    "2: 0100000000/0010000000/0001000000/0000100000/0000010000/0000001000/0000000100/0000000010/\
    0000000001/1001000000";

const UNIT_VECTORS: &str =
    "2: 1000000000/0100000000/0010000000/0001000000/0000100000/0000010000/0000001000/0000000100/\
    0000000010/0000000001";

const CALLS: &[Call] = &[
    Call {
        module: POINTS,
        report: POINTS_REPORT,
        basis: POINTS_BASIS,
        factors: POINTS_FACTORS,
        answer: None,
    },
    // A report of another field, another dimension, and another number of generators.
    Call {
        module: "3: 010/001/100, 3: 010/100/001",
        report: POINTS_REPORT,
        basis: POINTS_BASIS,
        factors: POINTS_FACTORS,
        answer: Some("header"),
    },
    Call {
        module: "2: 01/10, 2: 01/10",
        report: POINTS_REPORT,
        basis: POINTS_BASIS,
        factors: POINTS_FACTORS,
        answer: Some("header"),
    },
    Call {
        module: "2: 010/001/100",
        report: POINTS_REPORT,
        basis: POINTS_BASIS,
        factors: POINTS_FACTORS,
        answer: Some("header"),
    },
    // A basis over another field, of too few rows, and one that is not invertible.
    Call {
        module: POINTS,
        report: POINTS_REPORT,
        basis: "3: 011/110/100",
        factors: POINTS_FACTORS,
        answer: Some("basis"),
    },
    Call {
        module: POINTS,
        report: POINTS_REPORT,
        basis: "2: 011/110",
        factors: POINTS_FACTORS,
        answer: Some("basis"),
    },
    Call {
        module: POINTS,
        report: POINTS_REPORT,
        basis: "2: 011/110/101",
        factors: POINTS_FACTORS,
        answer: Some("basis"),
    },
    // Matrices over another field, too few of them, and one of another size.
    Call {
        module: POINTS,
        report: POINTS_REPORT,
        basis: POINTS_BASIS,
        factors: &["2: 11/10, 3: 11/01", "2: 1, 2: 1"],
        answer: Some("shape 2a"),
    },
    Call {
        module: POINTS,
        report: POINTS_REPORT,
        basis: POINTS_BASIS,
        factors: &["2: 11/10", "2: 1"],
        answer: Some("shape 2a"),
    },
    Call {
        module: POINTS,
        report: POINTS_REPORT,
        basis: POINTS_BASIS,
        factors: &["2: 11/10, 2: 11/01", "2: 1, 2: 10/01"],
        answer: Some("shape 1a"),
    },
    // Unit vectors, on which the generators are no blocks, and other matrices than the blocks.
    Call {
        module: POINTS,
        report: POINTS_REPORT,
        basis: "2: 100/010/001",
        factors: POINTS_FACTORS,
        answer: Some("blocks"),
    },
    Call {
        module: POINTS,
        report: POINTS_REPORT,
        basis: POINTS_BASIS,
        factors: &["2: 11/10, 2: 10/11", "2: 1, 2: 1"],
        answer: Some("blocks"),
    },
    // One constituent under two names.
    Call {
        module: "2: 0100/1100/0001/0011",
        report: "chop 2 field=2 dim=4 gens=1 seed=1 words=400\nfactor 2a dim=2 mult=1 word=0\n\
            factor 2b dim=2 mult=1 word=0\nseries 2a 2b\n",
        basis: "2: 1000/0100/0010/0001",
        factors: &["2: 01/11", "2: 01/11"],
        answer: Some("same 2a 2b"),
    },
    // Each line is a submodule.
    Call {
        module: "2: 10/01",
        report: "chop 2 field=2 dim=2 gens=1 seed=1 words=400\nfactor 2a dim=2 mult=1 word=0\nseries 2a\n",
        basis: "2: 10/01",
        factors: &["2: 10/01"],
        answer: Some("reducible 2a"),
    },
    // Word 0 leaves it open: there are 1,023 points. Word 1 shows it to be irreducible, by a polynomial of degree 10.
    Call {
        module: COMPANION,
        report: "chop 2 field=2 dim=10 gens=1 seed=1 words=400\nfactor 10a dim=10 mult=1 word=0\nseries 10a\n",
        basis: UNIT_VECTORS,
        factors: &[COMPANION],
        answer: Some("open 10a"),
    },
    Call {
        module: COMPANION,
        report: "chop 2 field=2 dim=10 gens=1 seed=1 words=400\nfactor 10a dim=10 mult=1 word=1\nseries 10a\n",
        basis: UNIT_VECTORS,
        factors: &[COMPANION],
        answer: None,
    },
    Call {
        module: COMPANION,
        report: "chop 2 field=2 dim=10 gens=1 seed=1 words=400\n\
            factor 10a dim=10 mult=1 word=1 poly=10110000101\nseries 10a\n",
        basis: UNIT_VECTORS,
        factors: &[COMPANION],
        answer: None,
    },
    // x^2 is no irreducible polynomial: at the value zero, which its null space would fit, it must not decide.
    Call {
        module: "2: 11/11",
        report: "chop 2 field=2 dim=2 gens=1 seed=1 words=400\nfactor 2a dim=2 mult=1 word=0 poly=001\nseries 2a\n",
        basis: "2: 10/01",
        factors: &["2: 11/11"],
        answer: Some("reducible 2a"),
    },
];

/// The lists of matrices that are written so.
fn lists_of(alloc: Global, texts: &[&str]) -> Result<Vec<Vec<Matrix>>, TableFault> {
    let mut lists = Vec::new(alloc);
    for text in texts {
        lists.push(matrices_of(alloc, text)?)?;
    }
    Ok(lists)
}

/// The report that is written so.
fn report_of(alloc: Global, text: &str) -> Result<Report, TableFault> {
    match read_report(alloc, text.as_bytes()) {
        Ok(report) => Ok(report),
        Err(ReportFault::BadReport(_) | ReportFault::OldReport) => Err(TableFault::NotWritten),
        Err(ReportFault::Memory) => Err(TableFault::Refused(Refusal::Memory)),
    }
}

/// The text of what a check answers, where the report is of version 2 and there is one list for each constituent.
fn text_of(
    alloc: Global,
    report: &Report,
    module: &Module,
    basis: &Matrix,
    factors: &[Vec<Matrix>],
) -> Result<Option<String>, TableFault> {
    if report.header().version != Version::Two || factors.len() != report.factors().len() {
        return Err(TableFault::NotWritten);
    }
    match check(alloc, report, module, basis, factors) {
        Ok(None) => Ok(None),
        Ok(Some(reason)) => Ok(Some(reason.text(alloc)?)),
        Err(_) => Err(TableFault::Refused(Refusal::Memory)),
    }
}

/// Whether a call is answered as it says.
fn is_answered(alloc: Global, call: &Call) -> Result<bool, TableFault> {
    let report = report_of(alloc, call.report)?;
    let module = module_of(alloc, call.module)?;
    let basis = matrix_of(alloc, call.basis)?;
    let factors = lists_of(alloc, call.factors)?;
    match (
        text_of(alloc, &report, &module, &basis, &factors)?,
        call.answer,
    ) {
        (None, None) => Ok(true),
        (Some(text), Some(wanted)) => Ok(text.as_str() == wanted),
        _ => Ok(false),
    }
}

#[test]
fn certificates_are_checked(rt: HostRuntime) -> Result<(), TableFault> {
    for call in CALLS {
        assert!(&rt; is_answered(rt.alloc(), call)?, "{}", call.report);
    }
    Ok(())
}

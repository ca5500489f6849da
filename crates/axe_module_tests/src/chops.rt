//! Composition series and their reports.

ghost use Rattle.axe_chop.specs.Answers.{IsChopped};

use crate::tables::{Topic, each_call};
use crate::values::module_of;
use axe_chop::{ChopFault, Chopped, chop, chop_owned, header_of, report_of, report_under};
use axe_matrix::Refusal;
use axe_report::{ReportFault, write_report};
use axe_spin::Module;
use axe_test_values::{TableFault, four_fields, is_same_matrix, number_of};
use std::alloc::{AllocError, Global};
use std::process::Abort;

/// The seed of the words, and the number of the last word.
const SEED: u64 = 1;

const WORDS: u32 = 400;

/// A module, the names of its constituents from the bottom, the multiplicities of its factors, and the basis.
const SERIES: &str = "\
chop | 2: 01/11 | 2a | 1 | 2: 01/11
# The permutations of three points, over the fields of three elements and of two.
chop | 3: 010/100/001, 3: 010/001/100 | 1a 1b 1a | 2 1 | 3: 111/012/001
chop | 2: 010/100/001, 2: 010/001/100 | 2a 1a | 1 1 | 2: 011/101/001
chop | 2: 0100/1100/0011/0010 | 2a 2a | 2 | 2: 0001/0010/0100/1100
# Two factors of one dimension that are not isomorphic.
chop | 4: 20/03 | 1a 1b | 1 1 | 4: 01/10
chop | 5: 0 | 1a | 1 | 5: 1
chop | 2: 1000/0100/0010/0001 | 1a 1a 1a 1a | 4 | 2: 0001/0010/0100/1000
# The companion matrix of x^10 + x^3 + 1, which word 1 shows to be irreducible by a polynomial of degree 10.
chop | 2: 0100000000/0010000000/0001000000/0000100000/0000010000/0000001000/0000000100/0000000010/0000000001/1001000000 | 10a | 1 | \
2: 0000000001/1001000000/0100100000/0010010000/0001001000/0000100100/0000010010/0000001001/1001000100/0100100010
# Modules that are given away.
chop_owned | 2: 01/11 | 2a | 1 | 2: 01/11
chop_owned | 3: 010/100/001, 3: 010/001/100 | 1a 1b 1a | 2 1 | 3: 111/012/001
chop_owned | 2: 0100/1100/0011/0010 | 2a 2a | 2 | 2: 0001/0010/0100/1100
chop_owned | 2: 0100000000/0010000000/0001000000/0000100000/0000010000/0000001000/0000000100/0000000010/0000000001/1001000000 | 10a | 1 | \
2: 0000000001/1001000000/0100100000/0010010000/0001001000/0000100100/0000010010/0000001001/1001000100/0100100010
";

/// The same modules, and the reports of their composition series: word 0 decides each section of them with at most 1,000
/// points, and a polynomial the last.
const REPORTS: [(&str, &str); 8] = [
    (
        "2: 01/11",
        "chop 2 field=2 dim=2 gens=1 seed=1 words=400\nfactor 2a dim=2 mult=1 word=0\nseries 2a\n",
    ),
    (
        "3: 010/100/001, 3: 010/001/100",
        "chop 2 field=3 dim=3 gens=2 seed=1 words=400\n\
         factor 1a dim=1 mult=2 word=0\nfactor 1b dim=1 mult=1 word=0\nseries 1a 1b 1a\n",
    ),
    (
        "2: 010/100/001, 2: 010/001/100",
        "chop 2 field=2 dim=3 gens=2 seed=1 words=400\n\
         factor 2a dim=2 mult=1 word=0\nfactor 1a dim=1 mult=1 word=0\nseries 2a 1a\n",
    ),
    (
        "2: 0100/1100/0011/0010",
        "chop 2 field=2 dim=4 gens=1 seed=1 words=400\nfactor 2a dim=2 mult=2 word=0\nseries 2a 2a\n",
    ),
    (
        "4: 20/03",
        "chop 2 field=4 dim=2 gens=1 seed=1 words=400\n\
         factor 1a dim=1 mult=1 word=0\nfactor 1b dim=1 mult=1 word=0\nseries 1a 1b\n",
    ),
    (
        "5: 0",
        "chop 2 field=5 dim=1 gens=1 seed=1 words=400\nfactor 1a dim=1 mult=1 word=0\nseries 1a\n",
    ),
    (
        "2: 1000/0100/0010/0001",
        "chop 2 field=2 dim=4 gens=1 seed=1 words=400\nfactor 1a dim=1 mult=4 word=0\nseries 1a 1a 1a 1a\n",
    ),
    (
        "2: 0100000000/0010000000/0001000000/0000100000/0000010000/0000001000/0000000100/0000000010/\
         0000000001/1001000000",
        "chop 2 field=2 dim=10 gens=1 seed=1 words=400\n\
         factor 10a dim=10 mult=1 word=1 poly=10110000101\nseries 10a\n",
    ),
];

/// A module, how many rows of the basis stand before the section that word 0 leaves open, the section's dimension, and
/// the basis.
const OPEN: &str = "\
# The companion matrix of x^10 + x^3 + 1, which is irreducible; each value is zero or invertible.
open | 2: 0100000000/0010000000/0001000000/0000100000/0000010000/0000001000/0000000100/0000000010/0000000001/1001000000 \
| 0 | 10 | \
2: 1000000000/0100000000/0010000000/0001000000/0000100000/0000010000/0000001000/0000000100/0000000010/0000000001
# The same below a line: it is the first section, and the line is still to be treated.
open | 2: 10000000000/00100000000/00010000000/00001000000/00000100000/00000010000/00000001000/00000000100/00000000010/\
00000000001/01001000000 | 0 | 10 | 2: 01000000000/00100000000/00010000000/00001000000/00000100000/00000010000/\
00000001000/00000000100/00000000010/00000000001/10000000000
# The same above a line, which is found before it.
open | 2: 01000000000/00100000000/00010000000/00001000000/00000100000/00000010000/00000001000/00000000100/00000000010/\
10010000000/00000000001 | 1 | 10 | 2: 00000000001/10000000000/01000000000/00100000000/00010000000/00001000000/\
00000100000/00000010000/00000001000/00000000100/00000000010
";

/// Puts a word behind the words of a text.
fn push_word(words: &mut String, word: &str) -> Result<(), AllocError> {
    if !words.is_empty() {
        words.push_str(" ")?;
    }
    words.push_str(word)
}

/// The names of the constituents, from the bottom.
fn names(alloc: Global, chopped: &Chopped) -> Result<String, AllocError> {
    let mut names = String::new(alloc);
    for &place in &chopped.series {
        if let Some((name, _)) = chopped.factors.get_index(usize::from(place)) {
            push_word(&mut names, name.as_str())?;
        }
    }
    Ok(names)
}

/// The multiplicities of the factors.
fn multiplicities(alloc: Global, chopped: &Chopped) -> Result<String, AllocError> {
    let mut numbers = String::new(alloc);
    for factor in chopped.factors.values() {
        let number = format!(in alloc; "{}", factor.multiplicity)?;
        push_word(&mut numbers, number.as_str())?;
    }
    Ok(numbers)
}

/// Whether a composition series is the one that is written so.
fn is_series(
    alloc: Global,
    chopped: &Chopped,
    series: &str,
    counts: &str,
    basis: &str,
) -> Result<bool, TableFault> {
    if names(alloc, chopped)?.as_str() != series {
        return Ok(false);
    }
    if multiplicities(alloc, chopped)?.as_str() != counts {
        return Ok(false);
    }
    is_same_matrix(alloc, &chopped.basis, basis)
}

/// Whether an answer of `chop` is the composition series that is written so.
fn is_answer(
    alloc: Global,
    answer: Result<Chopped, ChopFault>,
    series: &str,
    counts: &str,
    basis: &str,
) -> Result<bool, TableFault> {
    match answer {
        Ok(chopped) => is_series(alloc, &chopped, series, counts, basis),
        Err(ChopFault::Undecided { .. }) => Ok(false),
        Err(ChopFault::Memory) => Err(TableFault::Refused(Refusal::Memory)),
    }
}

fn chops(alloc: Global, line: &str) -> Result<bool, TableFault> {
    let (module, series, counts, basis) = four_fields(line)?;
    let module = module_of(alloc, module)?;
    let answer = chop(alloc, &module, SEED, WORDS);
    is_answer(alloc, answer, series, counts, basis)
}

fn chops_owned(alloc: Global, line: &str) -> Result<bool, TableFault> {
    let (module, series, counts, basis) = four_fields(line)?;
    let module = module_of(alloc, module)?;
    let answer = chop_owned(alloc, module, SEED, WORDS);
    is_answer(alloc, answer, series, counts, basis)
}

/// Whether the words 0 to 0 leave a section open, and where.
fn stays_open(alloc: Global, line: &str) -> Result<bool, TableFault> {
    let (module, before, size, rows) = four_fields(line)?;
    let module = module_of(alloc, module)?;
    match chop(alloc, &module, SEED, 0) {
        Ok(_) => Ok(false),
        Err(ChopFault::Undecided { basis, offset, dim }) => Ok(
            offset == number_of(before)?
                && dim == number_of(size)?
                && is_same_matrix(alloc, &basis, rows)?,
        ),
        Err(ChopFault::Memory) => Err(TableFault::Refused(Refusal::Memory)),
    }
}

/// The text of the report of a composition series.
fn report_text(alloc: Global, module: &Module, chopped: &Chopped) -> Result<Vec<u8>, ReportFault>
    requires { IsChopped «module».now SEED WORDS chopped.now }
{
    let report = report_of(alloc, module, chopped, SEED, WORDS)?;
    write_report(alloc, &report)
}

/// The text of the report under the module's header.
fn text_under_header(
    alloc: Global,
    module: &Module,
    chopped: &Chopped,
) -> Result<Vec<u8>, ReportFault>
    requires { IsChopped «module».now SEED WORDS chopped.now }
{
    let header = header_of(module, SEED, WORDS);
    let report = report_under(alloc, header, chopped)?;
    write_report(alloc, &report)
}

/// Whether the report of a module's composition series is this text.
fn is_reported(alloc: Global, module: &str, text: &str) -> Result<bool, TableFault> {
    let module = module_of(alloc, module)?;
    let Ok(chopped) = chop(alloc, &module, SEED, WORDS) else {
        return Ok(false);
    };
    let Ok(report) = report_text(alloc, &module, &chopped) else {
        return Err(TableFault::Refused(Refusal::Memory));
    };
    let Ok(under_header) = text_under_header(alloc, &module, &chopped) else {
        return Err(TableFault::Refused(Refusal::Memory));
    };
    Ok(report.as_slice() == text.as_bytes() && under_header.as_slice() == text.as_bytes())
}

/// Whether a call answers what its line says.
pub(crate) fn answers(
    rt: &impl Abort,
    alloc: Global,
    call: &str,
    line: &str,
) -> Result<bool, TableFault> {
    match call {
        "chop" => chops(alloc, line),
        "chop_owned" => chops_owned(alloc, line),
        "open" => stays_open(alloc, line),
        _ => panic!(rt; "no such call: {call}"),
    }
}

#[test]
fn modules_are_chopped(rt: HostRuntime) -> Result<(), TableFault> {
    each_call(&rt, rt.alloc(), Topic::Chops, SERIES)
}

#[test]
fn series_are_reported(rt: HostRuntime) -> Result<(), TableFault> {
    for (module, text) in REPORTS {
        assert!(&rt; is_reported(rt.alloc(), module, text)?, "{text}");
    }
    Ok(())
}

#[test]
fn sections_may_stay_undecided(rt: HostRuntime) -> Result<(), TableFault> {
    each_call(&rt, rt.alloc(), Topic::Chops, OPEN)
}

//! Reports of both versions: read, refused and written; names of constituents.
use axe_report::{
    Report, ReportFactor, ReportFault, Version, constituent_name, read_report, write_report,
};
use std::alloc::{AllocError, Global};
use std::process::Abort;

/// The report of a module of dimension 3 over the field of two elements, with two constituents.
pub(crate) const REPORT: &str = "\
chop 1 field=2 dim=3 gens=2 seed=1 words=400
factor 2a dim=2 mult=1
factor 1a dim=1 mult=1
series 2a 1a
";

/// The same of version 2.
pub(crate) const WITNESSED: &str = "\
chop 2 field=2 dim=3 gens=2 seed=1 words=400
factor 2a dim=2 mult=1 word=0
factor 1a dim=1 mult=1 word=0
series 2a 1a
";

/// Texts that are no reports, and the first line that fails.
const REFUSED: [(&str, usize); 12] = [
    ("", 1),
    (
        "chop 1 field=6 dim=1 gens=1 seed=1 words=0\nfactor 1a dim=1 mult=1\nseries 1a\n",
        1,
    ),
    (
        "chop 1 field=2 dim=01 gens=1 seed=1 words=0\nfactor 1a dim=1 mult=1\nseries 1a\n",
        1,
    ),
    (
        "chop 1 field=2 dim=1 gens=17 seed=1 words=0\nfactor 1a dim=1 mult=1\nseries 1a\n",
        1,
    ),
    (
        "chop 1 field=2 dim=1 gens=1 seed=18446744073709551616 words=0\nfactor 1a dim=1 mult=1\nseries 1a\n",
        1,
    ),
    ("chop 1 field=2 dim=1 gens=1 seed=1 words=0\n", 2),
    (
        "chop 1 field=2 dim=1 gens=1 seed=1 words=0\nfactor 1b dim=1 mult=1\nseries 1b\n",
        2,
    ),
    (
        "chop 1 field=2 dim=3 gens=2 seed=1 words=400\nfactor 2a dim=2 mult=2\nfactor 1a dim=1 mult=1\nseries 2a 1a\n",
        2,
    ),
    (
        "chop 1 field=2 dim=3 gens=2 seed=1 words=400\nfactor 2a dim=2 mult=1\nseries 2a\n",
        3,
    ),
    (
        "chop 1 field=2 dim=3 gens=2 seed=1 words=400\nfactor 2a dim=2 mult=1\nfactor 1a dim=1 mult=1\nseries 1a 2a\n",
        4,
    ),
    (
        "chop 1 field=2 dim=3 gens=2 seed=1 words=400\nfactor 2a dim=2 mult=1\nfactor 1a dim=1 mult=1\nseries 2a 1a",
        4,
    ),
    (
        "chop 1 field=2 dim=1 gens=2 seed=1 words=400\nfactor 1a dim=1 mult=1\nseries 1a\n\n",
        4,
    ),
];

/// Parts of the reports of both versions, what stands in the place of each, and the line that fails then.
const PARTS_REFUSED: [(&str, &str, usize); 11] = [
    ("words=400", "words=10001", 1),
    ("seed=1", "seed=18446744073709551616", 1),
    ("dim=3", "dim=03", 1),
    ("dim=3", "dim=4097", 1),
    ("dim=3", "dim=4096", 4),
    ("dim=3", "dim=2049", 4),
    ("factor 2a", "factor 2b", 2),
    ("mult=1", "mult=0", 2),
    ("factor 2a dim=2", "factor 0a dim=0", 2),
    ("2a 1a\n", "2a 1a\n\n", 5),
    ("series 2a 1a", "series 1a 2a", 4),
];

/// Parts of the reports of both versions, and what may stand in the place of each.
const PARTS_ACCEPTED: [(&str, &str); 4] = [
    ("words=400", "words=10000"),
    ("words=400", "words=0"),
    ("seed=1", "seed=18446744073709551615"),
    ("gens=2", "gens=16"),
];

/// Parts of the report of version 1 that version 2 has, and the line that fails with the other.
const FIRST_VERSION_REFUSED: [(&str, &str, usize); 4] = [
    ("chop 1", "chop 2", 2),
    ("chop 1", "chop 0", 1),
    ("2a dim=2 mult=1", "2a dim=2 mult=1 word=0", 2),
    ("1a dim=1 mult=1", "1a dim=1 mult=1 word=0", 3),
];

/// Parts of the report of version 2, what stands in the place of each, and the line that fails then.
const WITNESSES_REFUSED: [(&str, &str, usize); 24] = [
    ("chop 2", "chop 1", 2),
    ("chop 2", "chop 3", 1),
    ("chop 2", "chop 02", 1),
    (" word=0", "", 2),
    (" word=0\nseries", "\nseries", 3),
    ("word=0", "word=401", 2),
    ("words=400", "words=0400", 1),
    ("word=0", "word=00", 2),
    ("word=0", "word=", 2),
    ("word=0", "word=-1", 2),
    (" word=0", "  word=0", 2),
    ("word=0", "word=0 ", 2),
    ("word=0", "word=0 word=0", 2),
    ("word=0", "word=4294967296", 2),
    ("word=0", "word=0 poly=", 2),
    ("word=0", "word=0 poly=1", 2),
    ("word=0", "word=0 poly=10", 2),
    ("word=0", "word=0 poly=021", 2),
    ("word=0", "word=0 poly=0x1", 2),
    ("word=0", "word=0 poly=11 ", 2),
    ("word=0", "word=0  poly=11", 2),
    ("word=0", "poly=11 word=0", 2),
    ("word=0", "word=0 poly=11 poly=11", 2),
    ("word=0\nseries", "word=0 poly=110\nseries", 3),
];

/// Parts of the report of version 2, and what may stand in the place of each.
const WITNESSES_ACCEPTED: [(&str, &str); 4] = [
    ("word=0", "word=400"),
    ("word=0", "word=0 poly=01"),
    ("word=0", "word=17 poly=111"),
    ("word=0\nseries", "word=400 poly=10110000101\nseries"),
];

/// Orders of fields, the digits of a polynomial of the largest degree, with as many as the order allows, and digits of
/// which there is one more.
const LARGEST_POLYNOMIALS: [(u8, &str, &str); 7] = [
    (2, "1111111111111", "11111111111111"),
    (3, "22222221", "222222221"),
    (4, "3333331", "33333331"),
    (5, "444441", "4444441"),
    (7, "66661", "666661"),
    (8, "77771", "777771"),
    (9, "8881", "88881"),
];

/// The report with another part in the place of the first such one.
fn with_part(alloc: Global, report: &str, part: &str, other: &str) -> Result<String, AllocError> {
    let (before, after) = report.split_once(part).unwrap_or((report, ""));
    format!(in alloc; "{before}{other}{after}")
}

/// A report of version 2 over the field of an order, with the digits of a polynomial.
fn with_poly(alloc: Global, order: u8, digits: &str) -> Result<String, AllocError> {
    format!(in alloc;
        "chop 2 field={order} dim=1 gens=1 seed=1 words=0\nfactor 1a dim=1 mult=1 word=0 poly={digits}\nseries 1a\n"
    )
}

/// Whether the reader refuses a text at this line.
fn is_refused_at(alloc: Global, text: &str, line: usize) -> bool {
    refused_at(read_report(alloc, text.as_bytes())) == Some(line)
}

/// Whether a text is read, and written as it was.
fn is_written_again(alloc: Global, text: &str) -> Result<bool, ReportFault> {
    let report = read_report(alloc, text.as_bytes())?;
    let bytes = write_report(alloc, &report)?;
    Ok(bytes.as_slice() == text.as_bytes())
}

/// The line at which the reader refuses a text.
fn refused_at(answer: Result<Report, ReportFault>) -> Option<usize> {
    match answer {
        Err(ReportFault::BadReport(line)) => Some(line),
        _ => None,
    }
}

/// Whether a factor has this name, dimension and multiplicity.
fn is_factor(factor: &ReportFactor, name: &str, dim: usize, multiplicity: usize) -> bool {
    factor.name() == name && factor.dim() == dim && factor.multiplicity() == multiplicity
}

#[test]
fn a_report_gives_its_fields(rt: HostRuntime) -> Result<(), ReportFault> {
    let report = read_report(rt.alloc(), REPORT.as_bytes())?;
    assert!(&rt; report.version() == Version::One);
    let header = report.header();
    assert!(&rt; header.field.order() == 2 && header.dim == 3 && header.gens == 2);
    assert!(&rt; header.seed == 1 && header.words == 400);
    let factors = report.factors();
    assert!(&rt; factors.len() == 2);
    assert!(&rt; is_factor(&factors[0], "2a", 2, 1));
    assert!(&rt; is_factor(&factors[1], "1a", 1, 1));
    assert!(&rt; factors[0].word().is_none() && factors[0].poly().is_none());
    assert!(&rt; report.series() == [0u16, 1].as_slice());
    Ok(())
}

#[test]
fn a_report_of_version_2_gives_its_witnesses(rt: HostRuntime) -> Result<(), ReportFault> {
    let text = with_part(rt.alloc(), WITNESSED, "word=0", "word=17 poly=10110000101")?;
    let report = read_report(rt.alloc(), text.as_bytes())?;
    assert!(&rt; report.version() == Version::Two);
    let factors = report.factors();
    assert!(&rt; factors.len() == 2);
    assert!(&rt; is_factor(&factors[0], "2a", 2, 1) && is_factor(&factors[1], "1a", 1, 1));
    assert!(&rt; factors[0].word() == Some(17) && factors[1].word() == Some(0));
    let digits: &[u8] = &[1, 0, 1, 1, 0, 0, 0, 0, 1, 0, 1];
    assert!(&rt; factors[0].poly() == Some(digits) && factors[1].poly().is_none());
    Ok(())
}

#[test]
fn a_report_is_written_as_it_was_read(rt: HostRuntime) -> Result<(), ReportFault> {
    for text in [REPORT, WITNESSED] {
        assert!(&rt; is_written_again(rt.alloc(), text)?, "{text}");
    }
    Ok(())
}

#[test]
fn other_texts_are_refused_at_the_first_line_that_fails(rt: HostRuntime) {
    for (text, line) in REFUSED {
        assert!(&rt; is_refused_at(rt.alloc(), text, line), "{text}");
    }
}

#[test]
fn other_parts_are_refused_at_their_line(rt: HostRuntime) -> Result<(), ReportFault> {
    for (part, other, line) in PARTS_REFUSED {
        let first = with_part(rt.alloc(), REPORT, part, other)?;
        assert!(&rt; is_refused_at(rt.alloc(), &first, line), "{first}");
        let second = with_part(rt.alloc(), WITNESSED, part, other)?;
        assert!(&rt; is_refused_at(rt.alloc(), &second, line), "{second}");
    }
    Ok(())
}

#[test]
fn parts_up_to_the_limits_are_read(rt: HostRuntime) -> Result<(), ReportFault> {
    for (part, other) in PARTS_ACCEPTED {
        let first = with_part(rt.alloc(), REPORT, part, other)?;
        assert!(&rt; is_written_again(rt.alloc(), &first)?, "{first}");
        let second = with_part(rt.alloc(), WITNESSED, part, other)?;
        assert!(&rt; is_written_again(rt.alloc(), &second)?, "{second}");
    }
    Ok(())
}

#[test]
fn witnesses_go_by_the_version(rt: HostRuntime) -> Result<(), ReportFault> {
    for (part, other, line) in FIRST_VERSION_REFUSED {
        let text = with_part(rt.alloc(), REPORT, part, other)?;
        assert!(&rt; is_refused_at(rt.alloc(), &text, line), "{text}");
    }
    for (part, other, line) in WITNESSES_REFUSED {
        let text = with_part(rt.alloc(), WITNESSED, part, other)?;
        assert!(&rt; is_refused_at(rt.alloc(), &text, line), "{text}");
    }
    for (part, other) in WITNESSES_ACCEPTED {
        let text = with_part(rt.alloc(), WITNESSED, part, other)?;
        assert!(&rt; is_written_again(rt.alloc(), &text)?, "{text}");
    }
    Ok(())
}

#[test]
fn polynomials_have_a_largest_degree(rt: HostRuntime) -> Result<(), ReportFault> {
    for (order, largest, larger) in LARGEST_POLYNOMIALS {
        let text = with_poly(rt.alloc(), order, largest)?;
        assert!(&rt; is_written_again(rt.alloc(), &text)?, "{text}");
        let text = with_poly(rt.alloc(), order, larger)?;
        assert!(&rt; is_refused_at(rt.alloc(), &text, 2), "{text}");
    }
    Ok(())
}

#[test]
fn names_go_from_a_to_z_and_on_with_two_letters(rt: HostRuntime) -> Result<(), ReportFault> {
    for (number, name) in [
        (0, "5a"),
        (25, "5z"),
        (26, "5aa"),
        (51, "5az"),
        (52, "5ba"),
        (702, "5aaa"),
    ] {
        assert!(&rt; constituent_name(rt.alloc(), 5, number)?.as_str() == name);
    }
    Ok(())
}

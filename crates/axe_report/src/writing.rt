//! Reports, written.

ghost use Rattle.std.specs.Prelude.{◌≡◌, ◌++◌, ◌<◌, All, length, IfOk, IfErr, OnOk};
ghost use Rattle.axe_report.specs.Reports.{poly_of, AreDigitsOf};
ghost use Rattle.axe_report.specs.Spelling.{header_line, factor_line, series_line, report_bytes};
ghost use Rattle.axe_report.specs.Spelling.{witness_bytes, digit_bytes};
ghost use Rattle.axe_report.specs.declared.fault.ReportFault.TheVariants.{Memory};

use crate::fault::ReportFault;
use crate::report::{Report, ReportFactor, ReportHeader};
use std::alloc::{AllocError, Global};

/// The bytes of a report. The only fault is `Memory`.
pub fn write_report(alloc: Global, report: &Report) -> Result<Vec<u8>, ReportFault>
    ensures bytes { IfOk result (λ bytes. bytes.items ≡ report_bytes report.now) }
    ensures memory { IfErr result (λ fault. fault ≡ Memory) }
{
    let mut text = header_line(alloc, report.header())?;
    for factor in report.factors() {
        text.extend_from_slice(&factor_line(alloc, factor)?)?;
    }
    put_series(&mut text, report.factors(), report.series())?;
    Ok(text)
}

/// The line of a header.
fn header_line(alloc: Global, header: ReportHeader) -> Result<Vec<u8>, AllocError>
    ensures { IfOk result (λ bytes. bytes.items ≡ header_line header) }
{
    let (version, order) = (header.version.number(), header.field.order());
    let (dim, gens) = (header.dim, header.gens);
    let (seed, words) = (header.seed, header.words);
    let start = format!(in alloc; "chop {version} field={order} dim={dim} gens={gens}")?;
    let end = format!(in alloc; " seed={seed} words={words}\n")?;
    let mut line = start.into_bytes();
    line.extend_from_slice(end.as_bytes())?;
    Ok(line)
}

/// The line of a constituent.
fn factor_line(alloc: Global, factor: &ReportFactor) -> Result<Vec<u8>, AllocError>
    requires { AreDigitsOf 10 (poly_of factor.now.witness) }
    ensures { IfOk result (λ bytes. bytes.items ≡ factor_line factor.now) }
{
    let (name, dim, multiplicity) = (factor.name(), factor.dim(), factor.multiplicity());
    let start = format!(in alloc; "factor {name} dim={dim} mult={multiplicity}")?;
    let mut line = start.into_bytes();
    put_witness(alloc, &mut line, factor)?;
    line.push(b'\n')?;
    Ok(line)
}

/// Appends the witness of a constituent, where it has one.
fn put_witness(alloc: Global, text: &mut Vec<u8>, factor: &ReportFactor) -> Result<(), AllocError>
    requires { AreDigitsOf 10 (poly_of factor.now.witness) }
    ensures { OnOk result (text.new.items ≡ text.old.items ++ witness_bytes factor.now.witness) }
{
    let Some(word) = factor.word() else {
        return Ok(());
    };
    let setting = format!(in alloc; " word={word}")?;
    text.extend_from_slice(setting.as_bytes())?;
    let Some(digits) = factor.poly() else {
        return Ok(());
    };
    text.extend_from_slice(b" poly=")?;
    put_digits(text, digits)?;
    Ok(())
}

/// Appends digits from 0 to 9.
fn put_digits(text: &mut Vec<u8>, digits: &[u8]) -> Result<(), AllocError>
    requires { All (λ digit. digit < 10) digits.now }
    ensures { OnOk result (text.new.items ≡ text.old.items ++ digit_bytes digits.now) }
{
    for &digit in digits {
        text.push(b'0' + digit)?;
    }
    Ok(())
}

/// Appends the line of a series of places among these constituents.
fn put_series(
    text: &mut Vec<u8>,
    factors: &[ReportFactor],
    series: &[u16],
) -> Result<(), AllocError>
    requires { All (λ place. place < length factors.now) series.now }
    ensures { OnOk result (text.new.items ≡ text.old.items ++ series_line factors.now series.now) }
{
    text.extend_from_slice(b"series")?;
    for &place in series {
        text.push(b' ')?;
        text.extend_from_slice(factors[usize::from(place)].name().as_bytes())?;
    }
    text.push(b'\n')?;
    Ok(())
}

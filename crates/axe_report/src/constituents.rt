//! The lines of the constituents of a report, read.

ghost use Rattle.std.specs.Prelude.{◌≡◌, ◌≢◌, ℕ, ◌+◌, ◌++◌, ◌≤◌, List, IfOk, IfErr, MatchOption};
ghost use Rattle.std.specs.List.{flat_map};
ghost use Rattle.axe_report.specs.Limits.{most_dimension};
ghost use Rattle.axe_report.specs.Names.{count_of};
ghost use Rattle.axe_report.specs.Reports.{FactorValue, dims, total_dim, AreFactors, IsFactorAfter};
ghost use Rattle.axe_report.specs.Reports.{IsReportHeader, IsWitnessed, AreWitnessed};
ghost use Rattle.axe_report.specs.Spelling.{factor_line, factor_start};
ghost use Rattle.axe_report.specs.declared.fault.ReportFault.TheVariants.{Memory};
ghost use Rattle.axe_report.specs.declared.report.ReportHeader.{ReportHeader};

use crate::fault::ReportFault;
use crate::names::constituent_name;
use crate::parts::setting;
use crate::report::{ReportFactor, ReportHeader};
use crate::witnesses::line_end;
use std::alloc::{AllocError, Global};

/// The constituents whose lines stand at the front, as many as may come before the series of a report with this header,
/// what follows them, and how much of the dimension they leave.
pub(crate) fn factors<'a>(
    alloc: Global,
    text: &'a [u8],
    header: &ReportHeader,
) -> Result<(Vec<ReportFactor>, &'a [u8], usize), ReportFault>
    requires { IsReportHeader header.now }
    ensures factors { IfOk result (λ found. AreFactors header.now.dim found.0.items) }
    ensures witnessed { IfOk result (λ found. AreWitnessed header.now found.0.items) }
    ensures room { IfOk result (λ found. found.2 + total_dim found.0.items ≡ header.now.dim) }
    ensures read { IfOk result (λ found. text.now ≡ flat_map factor_line found.0.items ++ found.1.now) }
    ensures all { IfOk result (λ found. (factor : FactorValue) (rest : List ℕ) →
        IsFactorAfter header.now.dim found.0.items factor → IsWitnessed header.now factor →
        found.1.now ≢ factor_line factor ++ rest) }
    ensures memory { IfErr result (λ fault. fault ≡ Memory) }
{
    let mut factors = Vec::new(alloc);
    let mut rest = text;
    let mut room = header.dim;
    while let Some((factor, next)) = factor(alloc, rest, header, &factors, room)? {
        room -= factor.dim() * factor.multiplicity();
        factors.push(factor)?;
        rest = next;
    }
    Ok((factors, rest, room))
}

/// The constituent whose line stands at the front, where it may come after these under this header and so much of the
/// dimension is left, and what follows it.
fn factor<'a>(
    alloc: Global,
    text: &'a [u8],
    header: &ReportHeader,
    earlier: &[ReportFactor],
    room: usize,
) -> Result<Option<(ReportFactor, &'a [u8])>, AllocError>
    requires header { IsReportHeader header.now }
    requires room { room ≤ most_dimension }
    ensures { IfOk result (λ answer. MatchOption answer
        ((factor : FactorValue) (rest : List ℕ) → IsFactorAfter (total_dim earlier.now + room) earlier.now factor →
        IsWitnessed header.now factor → text.now ≢ factor_line factor ++ rest)
        (λ found. IsFactorAfter (total_dim earlier.now + room) earlier.now found.0 × IsWitnessed header.now found.0
        × (text.now ≡ factor_line found.0 ++ found.1.now))) }
{
    let Some((dim, _)) = setting(text, b"factor ") else {
        return Ok(None);
    };
    if dim == 0 || dim > room as u64 {
        return Ok(None);
    }
    let dim = dim as usize;
    let name = constituent_name(alloc, dim, count_dim(earlier, dim))?;
    let start = factor_start(alloc, name.as_str(), dim)?;
    let Some((multiplicity, after_numbers)) = setting(text, &start) else {
        return Ok(None);
    };
    if multiplicity == 0 || multiplicity > (room / dim) as u64 {
        return Ok(None);
    }
    let Some((witness, rest)) = line_end(alloc, after_numbers, header)? else {
        return Ok(None);
    };
    Ok(Some((
        ReportFactor::new(name, dim, multiplicity as usize, witness),
        rest,
    )))
}

/// What the line of a constituent has before its multiplicity.
fn factor_start(alloc: Global, name: &str, dim: usize) -> Result<Vec<u8>, AllocError>
    ensures { IfOk result (λ bytes. bytes.items ≡ factor_start name.now dim) }
{
    let start = format!(in alloc; "factor {name} dim={dim} mult=")?;
    Ok(start.into_bytes())
}

/// How many of the constituents have this dimension.
fn count_dim(factors: &[ReportFactor], dim: usize) -> usize
    ensures { result ≡ count_of dim (dims factors.now) }
{
    let mut count = 0;
    for factor in factors {
        count += usize::from(factor.dim() == dim);
    }
    count
}

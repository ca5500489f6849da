//! The last line of a report, read.

ghost use Rattle.std.specs.Prelude.{◌≡◌, ◌≢◌, ℕ, ◌++◌, ◌<◌, List, [], length, slice_index_or, IfOk, IfErr, MatchOption};
ghost use Rattle.std.specs.List.{AllByRecursion};
ghost use Rattle.axe_report.specs.Fronts.{is_no_separator, Stops};
ghost use Rattle.axe_report.specs.Limits.{most_dimension};
ghost use Rattle.axe_report.specs.Reports.{names, AreFactors};
ghost use Rattle.axe_report.specs.Spelling.{series_line};
ghost use Rattle.axe_report.specs.declared.fault.ReportFault.TheVariants.{Memory};

use crate::fault::ReportFault;
use crate::parts::{after, word_len};
use crate::report::ReportFactor;
use std::alloc::Global;

/// The places among these constituents whose line stands at the front, and what follows it.
pub(crate) fn series<'a>(
    alloc: Global,
    text: &'a [u8],
    factors: &[ReportFactor],
) -> Result<Option<(Vec<u16>, &'a [u8])>, ReportFault>
    requires { AreFactors most_dimension factors.now }
    ensures read { IfOk result (λ answer. MatchOption answer
        ((series : List ℕ) (rest : List ℕ) → AllByRecursion (λ place. place < length factors.now) series →
        text.now ≢ series_line factors.now series ++ rest)
        (λ found. AllByRecursion (λ place. place < length factors.now) found.0.items
        × (text.now ≡ series_line factors.now found.0.items ++ found.1.now))) }
    ensures memory { IfErr result (λ fault. fault ≡ Memory) }
{
    let Some(mut rest) = after(text, b"series") else {
        return Ok(None);
    };
    let mut series = Vec::new(alloc);
    while let Some(name) = after(rest, b" ") {
        let Some((place, next)) = place(name, factors) else {
            return Ok(None);
        };
        series.push(place as u16)?;
        rest = next;
    }
    let Some(end) = after(rest, b"\n") else {
        return Ok(None);
    };
    Ok(Some((series, end)))
}

/// The place of the constituent whose name stands at the front, before a space or a line feed or the end, and what
/// follows it.
fn place<'a>(text: &'a [u8], factors: &[ReportFactor]) -> Option<(usize, &'a [u8])>
    requires { AreFactors most_dimension factors.now }
    ensures { MatchOption result
        ((place : ℕ) (rest : List ℕ) → place < length factors.now → Stops is_no_separator rest →
        text.now ≢ slice_index_or (names factors.now) place [] ++ rest)
        (λ found. (found.0 < length factors.now) × Stops is_no_separator found.1.now
        × (text.now ≡ slice_index_or (names factors.now) found.0 [] ++ found.1.now)) }
{
    let (name, rest) = text.split_at(word_len(text));
    for (place, factor) in factors.iter().enumerate() {
        if factor.name().as_bytes() == name {
            return Some((place, rest));
        }
    }
    None
}

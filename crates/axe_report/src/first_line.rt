//! The first line of a report, read.

ghost use Rattle.std.specs.Prelude.{◌≡◌, ◌≢◌, ℕ, ◌++◌, List, MatchOption};
ghost use Rattle.axe_field.specs.Order.{Order, order_number};
ghost use Rattle.axe_report.specs.Reports.{IsReportHeader, HasNumbers, version_number};
ghost use Rattle.axe_report.specs.Spelling.{header_line};
ghost use Rattle.axe_report.specs.declared.report.ReportHeader.{ReportHeader};
ghost use Rattle.axe_report.specs.declared.report.Version.{Version};

use crate::parts::{after, setting};
use crate::report::{ReportHeader, Version};
use crate::{MAX_DIMENSION, MAX_GENERATORS, MAX_WORDS};
use axe_field::Field;

/// The header whose line stands at the front, and what follows it.
pub(crate) fn header(text: &[u8]) -> Option<(ReportHeader, &[u8])>
    ensures { MatchOption result
        ((header : ReportHeader) (rest : List ℕ) → IsReportHeader header → text.now ≢ header_line header ++ rest)
        (λ found. IsReportHeader found.0 × (text.now ≡ header_line found.0 ++ found.1.now)) }
{
    let Some((version, after_version)) = setting(text, b"chop ") else {
        return None;
    };
    let Some((order, after_order)) = setting(after_version, b" field=") else {
        return None;
    };
    let Some((dim, after_dim)) = setting(after_order, b" dim=") else {
        return None;
    };
    let Some((gens, after_gens)) = setting(after_dim, b" gens=") else {
        return None;
    };
    let Some((seed, after_seed)) = setting(after_gens, b" seed=") else {
        return None;
    };
    let Some((words, after_words)) = setting(after_seed, b" words=") else {
        return None;
    };
    let Some(rest) = after(after_words, b"\n") else {
        return None;
    };
    let Some(header) = header_with(version, order, dim, gens, seed, words) else {
        return None;
    };
    Some((header, rest))
}

/// The header with these numbers, where they are in range.
fn header_with(
    version: u64,
    order: u64,
    dim: u64,
    gens: u64,
    seed: u64,
    words: u64,
) -> Option<ReportHeader>
    ensures { MatchOption result
        ((header : ReportHeader) → IsReportHeader header → HasNumbers header version order dim gens seed words → ⊥)
        (λ header. IsReportHeader header × HasNumbers header version order dim gens seed words) }
{
    let Some(version) = version_with_number(version) else {
        return None;
    };
    let Some(field) = field_with_order(order) else {
        return None;
    };
    if dim == 0 || dim > MAX_DIMENSION as u64 {
        return None;
    }
    if gens == 0 || gens > MAX_GENERATORS as u64 || words > u64::from(MAX_WORDS) {
        return None;
    }
    Some(ReportHeader {
        version,
        field,
        dim: dim as usize,
        gens: gens as usize,
        seed,
        words: words as u32,
    })
}

/// The version of a number, where there is one.
fn version_with_number(number: u64) -> Option<Version>
    ensures { MatchOption result ((v : Version) → version_number v ≢ number) (λ v. version_number v ≡ number) }
{
    match number {
        1 => Some(Version::One),
        2 => Some(Version::Two),
        _ => None,
    }
}

/// The field of an order, where there is one.
fn field_with_order(order: u64) -> Option<Field>
    ensures { MatchOption result ((o : Order) → order_number o ≢ order) (λ o. order_number o ≡ order) }
{
    if order > 9 {
        return None;
    }
    let Ok(field) = Field::new(order as u8) else {
        return None;
    };
    Some(field)
}

//! Whether a series belongs to constituents.

ghost use Rattle.std.specs.Prelude.{◌≡◌, length, IsTrue, ◌↔◌};
ghost use Rattle.std.specs.List.{range_with_len};
ghost use Rattle.axe_report.specs.Names.{count_of};
ghost use Rattle.axe_report.specs.Reports.{multiplicities, IsSeriesOf, first_appearances, counts_in};

use crate::report::ReportFactor;

/// Whether the constituents stand in order of first appearance in the series, and their multiplicities count.
pub(crate) fn is_series_of(factors: &[ReportFactor], series: &[u16]) -> bool
    ensures { IsTrue result ↔ IsSeriesOf factors.now series.now }
{
    is_in_order(series, factors.len()) && is_counted(factors, series)
}

/// Whether the first appearances in the series are the places below a count, in their order.
fn is_in_order(series: &[u16], count: usize) -> bool
    ensures { IsTrue result ↔ (first_appearances series.now ≡ range_with_len 0 count) }
{
    let mut seen = 0;
    for &place in series {
        if usize::from(place) > seen {
            return false;
        }
        seen += usize::from(usize::from(place) == seen);
    }
    seen == count
}

/// Whether each constituent stands in the series so often as its multiplicity says.
fn is_counted(factors: &[ReportFactor], series: &[u16]) -> bool
    ensures { IsTrue result ↔ (multiplicities factors.now ≡ counts_in series.now (length factors.now)) }
{
    for (place, factor) in factors.iter().enumerate() {
        if count_place(series, place) != factor.multiplicity() {
            return false;
        }
    }
    true
}

/// How often a place stands in the series.
fn count_place(series: &[u16], place: usize) -> usize
    ensures { result ≡ count_of place series.now }
{
    let mut count = 0;
    for &other in series {
        count += usize::from(usize::from(other) == place);
    }
    count
}

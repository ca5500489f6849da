//! Columns of a matrix, by which entries are taken from its rows.

ghost use Rattle.std.specs.Prelude.{◌≡◌, ℕ, ◌<◌, ◌↔◌, List, length, map, slice_index, All, IsTrue, None};
ghost use Rattle.axe_row.specs.Rows.{IsRow};
ghost use Rattle.axe_row.specs.Refusals.{Answers};
ghost use Rattle.axe_matrix.specs.ConsecutiveColumns.{AreConsecutive, AreKnownRuns};

use super::{MAX_COLUMNS, Refusal, Row};
use axe_lane::WORD;
use axe_layer::mark_followed;
use std::alloc::Global;
use std::marker::Model;

/// Columns of a matrix, in any order, by which entries are taken from its rows. A column may stand more than once.
/// Which of them follow one another is found once for all rows.
#[derive(Drop)]
pub struct ChosenColumns<'a> {
    columns: &'a [usize],
    /// Whether the columns are consecutive, so that the entries there are a part of a row.
    consecutive: bool,
    /// Bits that tell which columns are followed by the next one, as many as a matrix has columns at most. They tell
    /// nothing where all are consecutive.
    followed: [u64; MAX_COLUMNS / WORD],
}

impl<'a> Model for ChosenColumns<'a> {
    ghost Value = { List ℕ };

    ghost view = { λ chosen. chosen.columns.now };

    ghost invariant = { λ chosen. AreKnownRuns chosen.columns.now chosen.consecutive chosen.followed };
}

impl<'a> ChosenColumns<'a> {
    /// These columns.
    pub fn new(columns: &'a [usize]) -> ChosenColumns<'a>
        ensures { result ≡ columns.now }
    {
        let consecutive = are_consecutive(columns);
        let mut followed = [0; MAX_COLUMNS / WORD];
        if !consecutive {
            mark_followed(&mut followed, columns);
        }
        ChosenColumns {
            columns,
            consecutive,
            followed,
        }
    }

    /// The columns, in their order.
    pub fn columns(&self) -> &'a [usize]
        ensures { result.now ≡ self.now }
    {
        self.columns
    }

    /// The row of a row's entries at the columns, in their order.
    pub fn entries(&self, alloc: Global, row: &Row) -> Result<Row, Refusal>
        requires within { All (λ column. column < length row.now.entries) self.now }
        ensures selected { Answers None (λ entries. entries ≡ record {
          order = row.now.order;
          entries = map (slice_index row.now.entries) self.now;
        }) result }
        ensures well_formed { Answers None IsRow result }
    {
        if self.consecutive {
            row.part(alloc, self.columns[0], self.columns.len())
        } else {
            row.select(alloc, self.columns, &self.followed)
        }
    }
}

/// Whether there are columns, and they are consecutive.
fn are_consecutive(columns: &[usize]) -> bool
    ensures { IsTrue result ↔ AreConsecutive columns.now }
{
    for (index, column) in columns.iter().enumerate() {
        if column.checked_sub(columns[0]) != Some(index) {
            return false;
        }
    }
    !columns.is_empty()
}

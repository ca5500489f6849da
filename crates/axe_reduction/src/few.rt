//! Reductions of a few rows, one after the other.

ghost use Rattle.std.specs.Prelude.{◌≡◌, None, length, All};
ghost use Rattle.axe_lane.specs.Entries.{IsFirstNonzero};
ghost use Rattle.axe_row.specs.Refusals.{Answers};
ghost use Rattle.axe_reduction.specs.AugmentedRows.{IsRowLike, AreReducedLike, IsClearedBy};
ghost use Rattle.axe_reduction.specs.AugmentedRows.{count_below, IsInsertedAt, GoesOnBy};
ghost use Rattle.axe_reduction.specs.Reductions.{IsReductionOf};

use crate::augmented::Augmented;
use crate::augmented_row::{AugmentedRow, cancel_in_each};
use crate::reduction::Reduction;
use axe_matrix::{MAX_ROWS, Refusal};
use std::alloc::Global;

/// The reduction of the first of a few rows, which grows row by row.
#[derive(Drop)]
struct GrowingReduction {
    /// The reduced rows: each is 1 at its pivot and 0 before it, and 0 at the pivots of the others. A further one goes
    /// to its place in the ascending order of the pivots, so that pivots that are consecutive columns stand together.
    reduced: Vec<AugmentedRow>,
    /// The pivots of the reduced rows, in their order.
    pivots: Vec<usize>,
    /// The rows that are 0 left of the bar.
    rest: Vec<AugmentedRow>,
}

impl GrowingReduction {
    /// Goes on to one more row: what reduces the first rows of an augmented matrix, of which this row is the next, then
    /// reduces these and this one.
    fn insert(&mut self, row: AugmentedRow) -> Result<(), Refusal>
        requires row { IsRowLike row row }
        requires reduced { AreReducedLike row self.old.pivots.items self.old.reduced.items }
        ensures { Answers None (λ _. GoesOnBy row self.old self.new) result }
    {
        let mut row = row;
        clear(&mut row, &self.pivots, &self.reduced);
        let Some(pivot) = row.left.first_nonzero() else {
            self.rest.push(row)?;
            return Ok(());
        };
        self.insert_at(pivot, row)
    }

    /// Inserts a row that is 0 at the pivots, and has one itself.
    fn insert_at(&mut self, pivot: usize, row: AugmentedRow) -> Result<(), Refusal>
        requires row { IsRowLike row row }
        requires pivot { IsFirstNonzero row.left.entries pivot }
        requires alike { All (IsRowLike row) self.old.reduced.items }
        requires count { length self.old.pivots.items ≡ length self.old.reduced.items }
        ensures { Answers None (λ _. IsInsertedAt pivot row self.old self.new) result }
    {
        let mut row = row;
        row.scale_at(pivot);
        cancel_in_each(&mut self.reduced, pivot, &row);
        let place = place_among(&self.pivots, pivot);
        self.reduced.insert(place, row)?;
        self.pivots.insert(place, pivot)?;
        Ok(())
    }
}

/// The place of a further pivot among others that are in ascending order: after the smaller ones.
fn place_among(pivots: &[usize], pivot: usize) -> usize
    ensures { result ≡ count_below pivot pivots.now }
{
    pivots.iter().filter(|other| **other < pivot).count()
}

/// Makes a row 0 at the pivots of reduced rows, by their multiples.
fn clear(row: &mut AugmentedRow, pivots: &[usize], reduced: &[AugmentedRow])
    requires row { IsRowLike row.old row.old }
    requires reduced { AreReducedLike row.old pivots.now reduced.now }
    ensures cleared { IsClearedBy pivots.now reduced.now row.old row.new }
    ensures alike { IsRowLike row.old row.new }
{
    for (index, other) in reduced.iter().enumerate() {
        row.cancel(pivots[index], other);
    }
}

/// The reduction of an augmented matrix, row by row. The rows move, and none is copied.
pub(crate) fn reduction_of_few(alloc: Global, rows: Augmented) -> Result<Reduction, Refusal>
    ensures { Answers None (IsReductionOf rows) result }
{
    // `rows` is called for what it ensures beside the number: that this is an augmented matrix.
    prove!(rows.rows() <= MAX_ROWS);
    let shape = rows.without_rows(alloc);
    let mut growing = GrowingReduction {
        reduced: Vec::new(alloc),
        pivots: Vec::new(alloc),
        rest: Vec::new(alloc),
    };
    for row in rows.into_rows(alloc)? {
        growing.insert(row)?;
    }
    let GrowingReduction {
        reduced,
        pivots,
        rest,
    } = growing;
    let reduced = shape.with_rows_of(alloc, reduced)?;
    let rest = shape.with_rows_of(alloc, rest)?;
    Ok(Reduction {
        reduced,
        pivots,
        rest,
    })
}

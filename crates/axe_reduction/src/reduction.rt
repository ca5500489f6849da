//! Reductions.

ghost use Rattle.std.specs.Prelude.{◌≡◌, ◌+◌, ◌≤◌, ◌++◌, None, IfOk, length};
ghost use Rattle.axe_row.specs.Refusals.{Answers};
ghost use Rattle.axe_matrix.specs.Limits.{most_rows};
ghost use Rattle.axe_reduction.specs.Augmented.{AreAlike, IsAugmented};
ghost use Rattle.axe_reduction.specs.Reductions.{cleared, IsReducedAtPivots, IsJoinOf, IsReductionOf};

use crate::augmented::Augmented;
use crate::few::reduction_of_few;
use axe_matrix::{MAX_ROWS, Refusal};
use std::alloc::Global;

/// The most rows that are reduced one after the other: for so few, products take longer.
const FEW_ROWS: usize = 64;

/// What the reduction of an augmented matrix gives: rows that together have the span of the given ones.
#[derive(Drop)]
pub(crate) struct Reduction {
    /// The reduced rows: each is 1 at its pivot and 0 before it, and 0 at the pivots of the others.
    pub(crate) reduced: Augmented,
    /// The pivots of the reduced rows, each a column left of the bar, in no order.
    pub(crate) pivots: Vec<usize>,
    /// The rows that are 0 left of the bar.
    pub(crate) rest: Augmented,
}

impl Reduction {
    /// The rows less their combinations of the reduced rows that make them 0 at the pivots.
    pub(crate) fn clear(&self, alloc: Global, rows: Augmented) -> Result<Augmented, Refusal>
        requires alike { AreAlike self.now.reduced rows }
        requires reduced { IsReducedAtPivots self.now.pivots.items self.now.reduced }
        ensures cleared { Answers None (λ rest. rest ≡ cleared self.now.pivots.items self.now.reduced rows) result }
        ensures well_formed { IfOk result IsAugmented }
    {
        // `rows` is called for what it ensures beside the numbers: that both are augmented matrices.
        prove!(self.reduced.rows() == self.pivots.len());
        prove!(rows.rows() <= MAX_ROWS);
        // A matrix has at least one column.
        if self.pivots.is_empty() {
            return Ok(rows);
        }
        let entries = rows.entries_at(alloc, &self.pivots)?;
        let minus_one = rows.field().neg(1);
        rows.plus_product(alloc, minus_one, &entries, &self.reduced)
    }

    /// This reduction and that of further rows, which are 0 at the pivots of this one, as one reduction of them all.
    fn join(self, alloc: Global, further: Reduction) -> Result<Reduction, Refusal>
        requires reduced_alike { AreAlike self.reduced further.reduced }
        requires rest_alike { AreAlike self.rest further.rest }
        requires reduced { IsReducedAtPivots further.pivots.items further.reduced }
        requires room { length self.reduced.rows + length further.reduced.rows ≤ most_rows }
        requires rest_room { length self.rest.rows + length further.rest.rows ≤ most_rows }
        ensures { Answers None (IsJoinOf self further) result }
    {
        let Reduction {
            reduced,
            pivots,
            rest,
        } = self;
        let reduced = further.clear(alloc, reduced)?;
        let reduced = reduced.with_rows(further.reduced)?;
        let rest = rest.with_rows(further.rest)?;
        let mut pivots = pivots;
        pivots.extend_from_slice(&further.pivots)?;
        Ok(Reduction {
            reduced,
            pivots,
            rest,
        })
    }
}

/// The reduction of an augmented matrix with at least one row: of few rows one after the other, and of more half of
/// them after the other, so that nearly all work is done in products.
pub(crate) fn reduction_of(alloc: Global, rows: Augmented) -> Result<Reduction, Refusal>
    requires { 1 ≤ length rows.rows }
    ensures { Answers None (IsReductionOf rows) result }
{
    if rows.rows() <= FEW_ROWS {
        return reduction_of_few(alloc, rows);
    }
    let half = rows.rows() / 2;
    let (first, second) = rows.split(half)?;
    let first = reduction_of(alloc, first)?;
    let second = first.clear(alloc, second)?;
    let second = reduction_of(alloc, second)?;
    first.join(alloc, second)
}

//! The pivots of a reduced basis, seen at the first entries of its rows: no echelon form is made.

ghost use Rattle.std.specs.Prelude.{◌≡◌, ◌<◌, ℕ, length, get_or, None, IfOk, IfSome};
ghost use Rattle.axe_row.specs.Refusals.{Answers};
ghost use Rattle.axe_action.specs.FreeColumns.{AreReducedAt};
ghost use Rattle.axe_action.specs.LeadingColumns.{AreLeadingColumns, AreOtherColumns};

use super::columns::is_identity_at;
use axe_matrix::{Matrix, Refusal};
use std::alloc::{AllocError, Global};

/// The pivots of rows that are a reduced basis, ascending. Of others `None`.
pub(crate) fn reduced_pivots(alloc: Global, rows: &Matrix) -> Result<Option<Vec<usize>>, Refusal>
    ensures { Answers None (λ found. IfSome found (λ columns. AreReducedAt rows.now columns.items)) result }
{
    let Some(columns) = leading_columns(alloc, rows)? else {
        return Ok(None);
    };
    let reduced = is_identity_at(alloc, rows, &columns)?;
    if reduced { Ok(Some(columns)) } else { Ok(None) }
}

/// The columns of the first entries other than 0 of rows, where each row has one and they ascend. Else `None`.
fn leading_columns(alloc: Global, rows: &Matrix) -> Result<Option<Vec<usize>>, AllocError>
    ensures { IfOk result (λ found. IfSome found (λ columns.
        (length columns.items ≡ length rows.now.rows)
        × AreLeadingColumns rows.now.cols rows.now.rows columns.items)) }
{
    let mut columns = Vec::with_capacity(alloc, rows.rows())?;
    let mut next = 0;
    for index in 0..rows.rows() {
        let Some(column) = rows.row(index).first_nonzero() else {
            return Ok(None);
        };
        if column < next {
            return Ok(None);
        }
        columns.push(column)?;
        next = column + 1;
    }
    Ok(Some(columns))
}

/// The columns below a bound that are none of these, which ascend: ascending.
pub(crate) fn other_columns(
    alloc: Global,
    bound: usize,
    columns: &[usize],
) -> Result<Vec<usize>, AllocError>
    requires { (s t : ℕ) → s < t → t < length columns.now → get_or columns.now s 0 < get_or columns.now t 0 }
    ensures { IfOk result (λ others. AreOtherColumns bound columns.now others.items) }
{
    let mut others = Vec::new(alloc);
    let mut passed = 0;
    for column in 0..bound {
        if passed < columns.len() && columns[passed] == column {
            passed += 1;
        } else {
            others.push(column)?;
        }
    }
    Ok(others)
}

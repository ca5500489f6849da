//! Points of spaces, which end after a point that finds no memory.

ghost use Rattle.std.specs.Prelude.{IfOk};
ghost use Rattle.axe_word.specs.PointsOfMatrix.{IsReduced};

use crate::tables::{Topic, each_call, is_row};
use axe_echelon::null_space;
use axe_matrix::{Matrix, Refusal};
use axe_test_values::{TableFault, matrix_of, two_fields};
use axe_word::{MAX_POINTS, Points, few_points, first_point};
use std::alloc::Global;
use std::process::Abort;

/// - `points`: a matrix, and the points of its null space, in order, as the rows of a matrix;
/// - `first_point`: a matrix, and the first point of its null space.
const POINTS: &str = "\
points | 3: 2x1 | 3: 01/10/11/12
points | 9: 1x1 | 9: 1
points | 3: 10/01 | 3: 0x2
first_point | 3: 2x1 | 3: 01
";

/// The reduced basis of the null space of a matrix.
fn basis_of(alloc: Global, matrix: &Matrix) -> Result<Matrix, Refusal>
    ensures { IfOk result IsReduced }
{
    null_space(alloc, matrix)
}

/// Whether the points of the span of a reduced basis are these rows, up to their end or to a Memory after which
/// nothing comes.
fn are_points(rt: &impl Abort, alloc: Global, basis: &Matrix, wanted: &Matrix) -> bool
    requires { IsReduced basis.now }
{
    let order = basis.field().order();
    assert!(rt; few_points(order, basis.rows(), MAX_POINTS));
    let mut points = Points::new(alloc, basis);
    for index in 0..wanted.rows() {
        match points.next() {
            Some(Ok(point)) if point.same(wanted.row(index)) => {}
            Some(Err(Refusal::Memory)) => return points.next().is_none(),
            _ => return false,
        }
    }
    points.next().is_none()
}

fn gives_points(rt: &impl Abort, alloc: Global, line: &str) -> Result<bool, TableFault> {
    let (matrix, wanted) = two_fields(line)?;
    let basis = basis_of(alloc, &matrix_of(alloc, matrix)?)?;
    let wanted = matrix_of(alloc, wanted)?;
    Ok(are_points(rt, alloc, &basis, &wanted))
}

fn gives_first_point(rt: &impl Abort, alloc: Global, line: &str) -> Result<bool, TableFault> {
    let (matrix, wanted) = two_fields(line)?;
    let basis = basis_of(alloc, &matrix_of(alloc, matrix)?)?;
    assert!(rt; 0 < basis.rows());
    is_row(alloc, first_point(alloc, &basis), wanted)
}

/// Whether a call answers what its line says, or Memory.
pub(crate) fn answers(
    rt: &impl Abort,
    alloc: Global,
    call: &str,
    line: &str,
) -> Result<bool, TableFault> {
    match call {
        "points" => gives_points(rt, alloc, line),
        _ => gives_first_point(rt, alloc, line),
    }
}

#[test]
fn points_end_after_memory(rt: HostRuntime) {
    each_call(&rt, rt.alloc(), Topic::Points, POINTS);
}

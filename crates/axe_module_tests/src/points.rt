//! The points of null spaces: all of them in order, the first, and whether there are few.

ghost use Rattle.std.specs.Prelude.{IfOk};
ghost use Rattle.axe_word.specs.PointsOfMatrix.{IsReduced};

use crate::tables::{Topic, each_call};
use axe_echelon::null_space;
use axe_matrix::{MAX_ROWS, Matrix, Refusal};
use axe_test_values::{
    TableFault, field_of, four_fields, is_matrix, is_row_answer, matrix_of, number_of, truth_of,
    two_fields,
};
use axe_word::{MAX_POINTS, Points, few_points, first_point};
use std::alloc::Global;
use std::process::Abort;

/// - `points`: a matrix, and the points of its null space, in order, as the rows of a matrix;
/// - `first_point`: a matrix, and the first point of its null space.
const POINTS: &str = "\
# Every vector of length 2 is a null vector: the reduced basis is 10/01.
points | 3: 2x1 | 3: 01/10/11/12
points | 2: 3x1 | 2: 001/010/011/100/101/110/111
points | 9: 1x1 | 9: 1
points | 2: 10/10 | 2: 11
points | 3: 10/01 | 3: 0x2
first_point | 3: 2x1 | 3: 01
first_point | 2: 3x1 | 2: 001
first_point | 2: 10/10 | 2: 11
";

/// The order of a field, a dimension, a bound, and whether a space has no more points than that.
const COUNTS: &str = "\
few_points | 2 | 9 | 1000 | yes
few_points | 2 | 10 | 1000 | no
few_points | 2 | 9 | 511 | yes
few_points | 2 | 9 | 510 | no
few_points | 3 | 2 | 4 | yes
few_points | 3 | 2 | 3 | no
few_points | 2 | 0 | 0 | yes
few_points | 3 | 0 | 0 | yes
few_points | 4 | 0 | 0 | yes
few_points | 5 | 0 | 0 | yes
few_points | 7 | 0 | 0 | yes
few_points | 8 | 0 | 0 | yes
few_points | 9 | 0 | 0 | yes
few_points | 2 | 4096 | 18446744073709551615 | no
few_points | 3 | 4096 | 18446744073709551615 | no
few_points | 4 | 4096 | 18446744073709551615 | no
few_points | 5 | 4096 | 18446744073709551615 | no
few_points | 7 | 4096 | 18446744073709551615 | no
few_points | 8 | 4096 | 18446744073709551615 | no
few_points | 9 | 4096 | 18446744073709551615 | no
few_points | 2 | 4097 | 1000 | no
few_points | 9 | 18446744073709551615 | 18446744073709551615 | no
# There are 2^64 - 1 points.
few_points | 2 | 64 | 18446744073709551615 | yes
few_points | 2 | 64 | 18446744073709551614 | no
few_points | 2 | 65 | 18446744073709551615 | no
few_points | 9 | 1 | 0 | no
few_points | 9 | 1 | 1 | yes
";

/// The reduced basis of the null space of a matrix.
fn basis_of(alloc: Global, matrix: &Matrix) -> Result<Matrix, Refusal>
    ensures { IfOk result IsReduced }
{
    null_space(alloc, matrix)
}

/// The points of the span of a reduced basis, as the rows of a matrix.
fn rows_of_points(rt: &impl Abort, alloc: Global, basis: &Matrix) -> Result<Matrix, Refusal>
    requires { IsReduced basis.now }
{
    let mut rows = Matrix::empty(alloc, *basis.field(), basis.cols());
    let order = basis.field().order();
    assert!(rt; few_points(order, basis.rows(), MAX_POINTS));
    for point in Points::new(alloc, basis) {
        let point = point?;
        assert!(rt; point.field() == rows.field() && point.len() == rows.cols());
        assert!(rt; rows.rows() < MAX_ROWS);
        rows.append(point)?;
    }
    Ok(rows)
}

fn gives_points(rt: &impl Abort, alloc: Global, line: &str) -> Result<bool, TableFault> {
    let (matrix, wanted) = two_fields(line)?;
    let basis = basis_of(alloc, &matrix_of(alloc, matrix)?)?;
    is_matrix(alloc, rows_of_points(rt, alloc, &basis), wanted)
}

fn gives_first_point(rt: &impl Abort, alloc: Global, line: &str) -> Result<bool, TableFault> {
    let (matrix, wanted) = two_fields(line)?;
    let basis = basis_of(alloc, &matrix_of(alloc, matrix)?)?;
    assert!(rt; 0 < basis.rows());
    is_row_answer(alloc, first_point(alloc, &basis), wanted)
}

fn tells_few(line: &str) -> Result<bool, TableFault> {
    let (order, dimension, bound, wanted) = four_fields(line)?;
    let dimension = number_of(dimension)?;
    let bound = number_of(bound)?;
    let wanted = truth_of(wanted)?;
    let field = field_of(order)?;
    Ok(few_points(field.order(), dimension, bound) == wanted)
}

/// Whether a call answers what its line says.
pub(crate) fn answers(
    rt: &impl Abort,
    alloc: Global,
    call: &str,
    line: &str,
) -> Result<bool, TableFault> {
    match call {
        "points" => gives_points(rt, alloc, line),
        "first_point" => gives_first_point(rt, alloc, line),
        "few_points" => tells_few(line),
        _ => Err(TableFault::NotWritten),
    }
}

#[test]
fn null_spaces_have_these_points(rt: HostRuntime) -> Result<(), TableFault> {
    each_call(&rt, rt.alloc(), Topic::Points, POINTS)
}

#[test]
fn few_points_are_told_from_many(rt: HostRuntime) -> Result<(), TableFault> {
    each_call(&rt, rt.alloc(), Topic::Points, COUNTS)
}

//! Echelon forms: rows that are inserted, reduced and taken apart, null spaces, and inverses.
use crate::tables::{Topic, each_call};
use axe_echelon::{
    Echelon, NullPoints, Subspace, inverse, null_points, null_space, orthogonal_point,
    orthogonal_space, row_space, span_of,
};
use axe_matrix::{Matrix, Row};
use axe_test_values::{
    TableFault, field_of, first_field, is_fault, is_matrix, is_row, is_same_matrix, matrix_of,
    number_of, one_field, row_of_shape, three_fields, truth_of, two_fields,
};
use std::alloc::Global;

/// Rows that are inserted one after the other, and
/// - `insert`: another row, whether it is new, and the rank with it;
/// - `shape`: the order of the field, the rank and the number of columns;
/// - `is_pivot`: a column, and whether it is a pivot;
/// - `coordinates`: a row, and its coordinates over the rows that were new;
/// - `reduce`: a row, and what remains of it;
/// - `reduced`: the reduced basis.
const FORMS: &str = "\
insert | 2: 0x3 | 2: 101 | yes | 1
insert | 2: 101 | 2: 011 | yes | 2
insert | 2: 101/011 | 2: 110 | no | 2
insert | 2: 0x3 | 2: 111 | yes | 1
insert | 2: 111 | 2: 011 | yes | 2
shape | 2: 101/011/110 | 2 | 2 | 3
is_pivot | 2: 0x3 | 0 | no
is_pivot | 2: 0x3 | 3 | no
is_pivot | 2: 101/011/110 | 0 | yes
is_pivot | 2: 101/011/110 | 1 | yes
is_pivot | 2: 101/011/110 | 2 | no
is_pivot | 2: 101/011/110 | 3 | no
coordinates | 2: 101/011 | 2: 110 | 2: 11
coordinates | 2: 101/011 | 2: 001 | none
reduce | 2: 101/011 | 2: 111 | 2: 001
reduced | 2: 111/011 | 2: 100/011
";

/// - `subspace`: a matrix whose rows are inserted into a subspace, and the reduced basis of it;
/// - `row_space`: a matrix, and the reduced basis of its row space.
const SUBSPACES: &str = "\
subspace | 2: 111/011 | 2: 100/011
subspace | 2: 101/011/110 | 2: 101/011
subspace | 2: 10/01 | 2: 10/01
row_space | 2: 101/011/110 | 2: 101/011
row_space | 3: 000/012/021 | 3: 012
row_space | 2: 0x3 | 2: 0x3
";

/// A matrix, and its null space, the space orthogonal to its rows, the first point of that space, or its inverse.
const NULL_SPACES_AND_INVERSES: &str = "\
null_space | 2: 10/01 | 2: 0x2
null_space | 2: 10/10 | 2: 11
null_space | 2: 0x2 | the matrix has no rows
null_space | 3: 12/21/00/11 | 3: 1100/0010
null_space | 5: 1/2/0/3 | 5: 1003/0101/0010
orthogonal_space | 2: 110 | 2: 110/001
orthogonal_space | 3: 112/021 | 3: 011
orthogonal_space | 2: 0x2 | 2: 10/01
orthogonal_point | 2: 110 | 2: 001
orthogonal_point | 3: 112/021 | 3: 011
orthogonal_point | 2: 0x2 | 2: 01
orthogonal_point | 5: 13/01 | none
# Rows of more than a word, over fields whose prime is 2 or 3.
orthogonal_point | 2: 0110111010100101100101000101110100111010110011101011111000110111110/0110101001000001001100010011001101101010000000100111001111100111000 | 2: 0000000000000000000000000000000000000000000000000000000000000000001
orthogonal_point | 3: 0212112021020101212002021220101101211221221222212020022212022001/1112011010111100020212120201022221212012100112212022202220012020 | 3: 0000000000000000000000000000000000000000000000000000000000000100
orthogonal_point | 4: 102211230210302123321011131231031002300330202010132022013033323010/313033203120331112122231023233123130120120132030213223001330332202 | 4: 000000000000000000000000000000000000000000000000000000000000000101
orthogonal_point | 8: 30146663663110613406434433275615710054273202635150473576642440470/26116635562420512574754434552014612575745542116605430104137325574 | 8: 00000000000000000000000000000000000000000000000000000000000000167
orthogonal_point | 9: 4143701338652881137523850627511506852717461084472476644231836575788411364634661456335653848057475746086571043472262824521277265431/1611658663313732817312251624728143237640173517036716057843583771313847426062138215603618011680774653531784780508233828321804871550 | 9: 0000000000000000000000000000000000000000000000000000000000000000000000000000000000000000000000000000000000000000000000000000000122
inverse | 3: 12/01 | 3: 11/01
inverse | 5: 11111/01111/00111/00011/00001 | 5: 14000/01400/00140/00014/00001
inverse | 5: 00001/00011/00111/01111/11111 | 5: 00041/00410/04100/41000/10000
inverse | 3: 10/10 | the matrix has no inverse
inverse | 3: 000/000 | the matrix is not square
";

/// A matrix, how many dimensions its null space may have to be given by its basis, and what is given: `basis` and the
/// reduced basis, `first` and the first point, or `refused` and why.
const NULL_POINTS: &str = "\
null_points | 5: 1/2/0/3 | 3 | basis | 5: 1003/0101/0010
null_points | 5: 1/2/0/3 | 2 | first | 5: 0010
null_points | 3: 10/01/11/12 | 2 | basis | 3: 1011/0112
null_points | 3: 10/01/11/12 | 1 | first | 3: 0112
null_points | 5: 13/20/44/31 | 0 | first | 5: 0144
null_points | 2: 10/01 | 0 | basis | 2: 0x2
null_points | 2: 00/00/00 | 3 | basis | 2: 100/010/001
null_points | 2: 00/00/00 | 2 | first | 2: 001
null_points | 2: 0x2 | 0 | refused | the matrix has no rows
";

fn inserts(alloc: Global, form: &mut Echelon, line: &str) -> Result<bool, TableFault> {
    let (row, new, rank) = three_fields(line)?;
    let row = row_of_shape(alloc, row, form.field(), form.cols())?;
    let is_new = form.insert(row)?;
    Ok(is_new == truth_of(new)? && form.rank() == number_of(rank)?)
}

fn describes(form: &Echelon, line: &str) -> Result<bool, TableFault> {
    let (order, rank, columns) = three_fields(line)?;
    let field = field_of(order)?;
    let rank = number_of(rank)?;
    let columns = number_of(columns)?;
    Ok(form.field() == &field && form.rank() == rank && form.cols() == columns)
}

fn tells_pivots(form: &Echelon, line: &str) -> Result<bool, TableFault> {
    let (column, wanted) = two_fields(line)?;
    Ok(form.is_pivot(number_of(column)?) == truth_of(wanted)?)
}

/// Whether coordinates are those that are written so, or there are none and `none` is written.
fn are_coordinates(alloc: Global, answer: Option<&Row>, text: &str) -> Result<bool, TableFault> {
    match answer {
        Some(coordinates) => is_row(alloc, coordinates, text),
        None => Ok(text == "none"),
    }
}

fn takes_apart(alloc: Global, form: &Echelon, line: &str) -> Result<bool, TableFault> {
    let (row, wanted) = two_fields(line)?;
    let row = row_of_shape(alloc, row, form.field(), form.cols())?;
    let coordinates = form.coordinates(alloc, &row)?;
    are_coordinates(alloc, coordinates.as_ref(), wanted)
}

fn reduces(alloc: Global, form: &Echelon, line: &str) -> Result<bool, TableFault> {
    let (row, wanted) = two_fields(line)?;
    let mut row = row_of_shape(alloc, row, form.field(), form.cols())?;
    form.reduce(&mut row);
    is_row(alloc, &row, wanted)
}

/// The calls that are given rows which are inserted into an echelon form one after the other.
fn answers_of_form(
    alloc: Global,
    call: &str,
    form: &mut Echelon,
    line: &str,
) -> Result<bool, TableFault> {
    match call {
        "insert" => inserts(alloc, form, line),
        "shape" => describes(form, line),
        "is_pivot" => tells_pivots(form, line),
        "coordinates" => takes_apart(alloc, form, line),
        "reduce" => reduces(alloc, form, line),
        "reduced" => is_matrix(alloc, form.reduced(alloc), one_field(line)?),
        _ => Err(TableFault::NotWritten),
    }
}

/// The subspace into which each row of a matrix was inserted.
fn subspace_of(alloc: Global, rows: &Matrix) -> Result<Subspace, TableFault> {
    let mut space = Subspace::zero(alloc, *rows.field(), rows.cols());
    for index in 0..rows.rows() {
        let row = rows.row(index).copy(alloc)?;
        space.insert(row)?;
    }
    Ok(space)
}

/// The basis of the space that a call gives of a matrix, made beside the space and then of the space itself.
fn gives_basis(alloc: Global, call: &str, rows: &Matrix, line: &str) -> Result<bool, TableFault> {
    let space = match call {
        "row_space" => row_space(alloc, rows)?,
        _ => subspace_of(alloc, rows)?,
    };
    let wanted = one_field(line)?;
    let beside = is_matrix(alloc, space.reduced(alloc), wanted)?;
    Ok(beside && is_matrix(alloc, space.into_reduced(alloc), wanted)?)
}

fn gives_point(alloc: Global, rows: &Matrix, line: &str) -> Result<bool, TableFault> {
    let wanted = one_field(line)?;
    match orthogonal_point(alloc, rows)? {
        Some(point) => is_row(alloc, &point, wanted),
        None => Ok(wanted == "none"),
    }
}

fn gives_null_points(alloc: Global, rows: &Matrix, line: &str) -> Result<bool, TableFault> {
    let (most, kind, wanted) = three_fields(line)?;
    match null_points(alloc, rows, number_of(most)?) {
        Ok(NullPoints::Basis(basis)) => Ok(
            kind == "basis" && is_same_matrix(alloc, &basis, wanted)?,
        ),
        Ok(NullPoints::First(point)) => Ok(kind == "first" && is_row(alloc, &point, wanted)?),
        Err(refusal) => Ok(kind == "refused" && is_fault(alloc, &refusal, wanted)?),
    }
}

/// Whether a call answers what its line says.
pub(crate) fn answers(alloc: Global, call: &str, line: &str) -> Result<bool, TableFault> {
    let (rows, line) = first_field(line)?;
    let rows = matrix_of(alloc, rows)?;
    match call {
        "null_space" => is_matrix(alloc, null_space(alloc, &rows), one_field(line)?),
        "orthogonal_space" => is_matrix(alloc, orthogonal_space(alloc, &rows), one_field(line)?),
        "null_points" => gives_null_points(alloc, &rows, line),
        "orthogonal_point" => gives_point(alloc, &rows, line),
        "inverse" => is_matrix(alloc, inverse(alloc, &rows), one_field(line)?),
        "row_space" | "subspace" => gives_basis(alloc, call, &rows, line),
        _ => answers_of_form(alloc, call, &mut span_of(alloc, &rows)?, line),
    }
}

#[test]
fn forms_tell_what_they_hold_and_take_rows_apart(rt: HostRuntime) -> Result<(), TableFault> {
    each_call(&rt, rt.alloc(), Topic::Echelons, FORMS)
}

#[test]
fn subspaces_have_reduced_bases(rt: HostRuntime) -> Result<(), TableFault> {
    each_call(&rt, rt.alloc(), Topic::Echelons, SUBSPACES)
}

#[test]
fn matrices_have_null_spaces_and_inverses(rt: HostRuntime) -> Result<(), TableFault> {
    each_call(&rt, rt.alloc(), Topic::Echelons, NULL_SPACES_AND_INVERSES)
}

#[test]
fn null_spaces_are_given_by_their_first_points(rt: HostRuntime) -> Result<(), TableFault> {
    each_call(&rt, rt.alloc(), Topic::Echelons, NULL_POINTS)
}

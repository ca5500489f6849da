//! Each call of a row over each field, by each scalar and at lengths around those of words and of whole vectors,
//! against sums and products that are taken entry by entry; and matrices of multiplications.

ghost use Rattle.std.specs.Prelude.{◌≡◌, length};

use axe_field::Field;
use axe_row::{Refusal, Row};
use std::alloc::Global;
use std::process::Abort;

/// The orders of the fields.
const ORDERS: [u8; 7] = [2, 3, 4, 5, 7, 8, 9];

/// Lengths around those of a word of bits, of a vector of bytes and of a vector of words.
const LENGTHS: [usize; 22] = [
    0, 1, 2, 15, 16, 17, 31, 32, 33, 63, 64, 65, 127, 128, 129, 200, 511, 512, 513, 1025, 2047,
    2048,
];

pub(crate) fn field_of_order(rt: &impl Abort, order: u8) -> Field {
    Field::new(order).ok().expect(rt, "no field")
}

/// The row that has these entries, as its own calls tell them, too.
fn row_of_entries(
    rt: &impl Abort,
    alloc: Global,
    field: Field,
    entries: &[u8],
) -> Result<Row, Refusal> {
    assert!(rt; entries.iter().all(|&entry| field.is_element(entry)));
    let row = Row::from_elements(alloc, field, entries)?;
    for (index, &entry) in entries.iter().enumerate() {
        assert!(rt; entry_of(rt, &row, index) == entry);
    }
    Ok(row)
}

/// A row whose entries follow no rule. The rows of two seeds differ.
pub(crate) fn row_of_seed(
    rt: &impl Abort,
    alloc: Global,
    field: Field,
    len: usize,
    seed: u8,
) -> Result<Row, Refusal> {
    let mut entries = Vec::new(alloc);
    let mut state = seed;
    for _ in 0..len {
        state = state.wrapping_mul(77).wrapping_add(41);
        entries.push(state / 8 % field.order())?;
    }
    row_of_entries(rt, alloc, field, &entries)
}

pub(crate) fn entry_of(rt: &impl Abort, row: &Row, index: usize) -> u8 {
    assert!(rt; index < row.len());
    row.get(index)
}

/// Asserts that a row is over this field and has this length.
pub(crate) fn assert_shape(rt: &impl Abort, row: &Row, field: &Field, len: usize)
    ensures field { row.now.order ≡ field.now }
    ensures length { length row.now.entries ≡ len }
{
    assert!(rt; row.field() == field);
    assert!(rt; row.len() == len);
}

/// Asserts that two rows are over one field and have one length.
fn assert_alike(rt: &impl Abort, row: &Row, other: &Row)
    ensures field { row.now.order ≡ other.now.order }
    ensures length { length row.now.entries ≡ length other.now.entries }
{
    assert_shape(rt, row, other.field(), other.len());
}

/// An element plus the product of two.
pub(crate) fn sum_with_product(rt: &impl Abort, field: &Field, a: u8, b: u8, c: u8) -> u8 {
    assert!(rt; field.is_element(a) && field.is_element(b) && field.is_element(c));
    field.add(a, field.mul(b, c))
}

/// Asserts that each entry of a row is that of another plus a scalar times that of a third.
fn assert_sums(rt: &impl Abort, sum: &Row, row: &Row, scalar: u8, other: &Row) {
    assert!(rt; sum.len() == row.len());
    for index in 0..sum.len() {
        let (left, right) = (entry_of(rt, row, index), entry_of(rt, other, index));
        let wanted = sum_with_product(rt, sum.field(), left, scalar, right);
        assert!(rt; entry_of(rt, sum, index) == wanted, "{scalar} {index}");
    }
}

/// A sum with a multiple.
fn adds(rt: &impl Abort, alloc: Global, row: &Row, scalar: u8, other: &Row) -> Result<(), Refusal> {
    let mut sum = row.copy(alloc)?;
    assert!(rt; sum.field().is_element(scalar));
    assert_alike(rt, other, &sum);
    sum.add_scaled(scalar, other);
    assert_sums(rt, &sum, row, scalar, other);
    Ok(())
}

/// A multiple, which is its sum with zeros.
fn scales(
    rt: &impl Abort,
    alloc: Global,
    zero: &Row,
    scalar: u8,
    other: &Row,
) -> Result<(), Refusal> {
    let mut multiple = other.copy(alloc)?;
    assert!(rt; multiple.field().is_element(scalar));
    assert_alike(rt, zero, &multiple);
    multiple.scale(scalar);
    assert_sums(rt, &multiple, zero, scalar, other);
    Ok(())
}

/// An entry that is taken away: the factor's sum with it is 0, and the row is the sum with that multiple.
fn cancels(
    rt: &impl Abort,
    alloc: Global,
    row: &Row,
    index: usize,
    other: &Row,
) -> Result<(), Refusal> {
    let mut sum = row.copy(alloc)?;
    assert_alike(rt, other, &sum);
    assert!(rt; index < sum.len());
    let factor = sum.cancel(index, other);
    let opposite = sum_with_product(rt, row.field(), factor, 1, entry_of(rt, row, index));
    assert!(rt; opposite == 0);
    assert_sums(rt, &sum, row, factor, other);
    Ok(())
}

fn multiplies(rt: &impl Abort, row: &Row, other: &Row) {
    assert_alike(rt, other, row);
    let mut product = 0;
    for index in 0..row.len() {
        let (left, right) = (entry_of(rt, row, index), entry_of(rt, other, index));
        product = sum_with_product(rt, row.field(), product, left, right);
    }
    assert!(rt; row.dot(other) == product);
}

/// Asserts that the first entry of a row that is not zero is the one at an index, or that the row is zero.
fn assert_first(rt: &impl Abort, row: &Row, first: Option<usize>) {
    assert!(rt; row.is_zero() == first.is_none());
    assert!(rt; row.first_nonzero() == first);
}

fn sets(rt: &impl Abort, row: &mut Row, index: usize, entry: u8) {
    assert!(rt; index < row.len() && row.field().is_element(entry));
    row.set(index, entry);
}

/// Takes a row away from another.
fn takes_away(rt: &impl Abort, row: &mut Row, other: &Row) {
    assert_alike(rt, other, row);
    assert!(rt; row.field().is_element(1));
    row.add_scaled(row.field().neg(1), other);
}

/// A row that has one entry other than zero is zero no more when its copy is taken away.
fn vanishes(rt: &impl Abort, alloc: Global, row: &mut Row) -> Result<(), Refusal> {
    let copy = row.copy(alloc)?;
    assert!(rt; row.same(&copy));
    takes_away(rt, row, &copy);
    assert_first(rt, row, None);
    assert!(rt; !row.same(&copy));
    Ok(())
}

/// A row that has one entry other than zero is found to have it.
fn finds(
    rt: &impl Abort,
    alloc: Global,
    field: Field,
    len: usize,
    index: usize,
    entry: u8,
) -> Result<(), Refusal> {
    let mut row = Row::zero(alloc, field, len)?;
    assert_first(rt, &row, None);
    assert_shape(rt, &row, &field, len);
    sets(rt, &mut row, index, entry);
    assert_first(rt, &row, Some(index));
    vanishes(rt, alloc, &mut row)
}

/// The calls that are given two rows, with each scalar.
fn combines(
    rt: &impl Abort,
    alloc: Global,
    row: &Row,
    zero: &Row,
    other: &Row,
) -> Result<(), Refusal> {
    multiplies(rt, row, other);
    for scalar in 0..row.field().order() {
        adds(rt, alloc, row, scalar, other)?;
        scales(rt, alloc, zero, scalar, other)?;
    }
    Ok(())
}

/// All calls over a field at a length.
fn each_call_at(rt: &impl Abort, alloc: Global, order: u8, len: usize) -> Result<(), Refusal> {
    let field = field_of_order(rt, order);
    let row = row_of_seed(rt, alloc, field, len, order)?;
    let other = row_of_seed(rt, alloc, field, len, 100)?;
    let zero = Row::zero(alloc, field, len)?;
    combines(rt, alloc, &row, &zero, &other)
}

/// The first entry, one in the middle and the last are found, as each element but zero.
fn finds_each_at(rt: &impl Abort, alloc: Global, order: u8, len: usize) -> Result<(), Refusal> {
    let field = field_of_order(rt, order);
    for entry in 1..order {
        finds(rt, alloc, field, len, 0, entry)?;
        finds(rt, alloc, field, len, len / 2, entry)?;
        finds(rt, alloc, field, len, len.saturating_sub(1), entry)?;
    }
    Ok(())
}

#[test]
fn each_call_is_the_sum_of_its_entries(rt: HostRuntime) -> Result<(), Refusal> {
    for order in ORDERS {
        for len in LENGTHS {
            each_call_at(&rt, rt.alloc(), order, len)?;
            if len != 0 {
                finds_each_at(&rt, rt.alloc(), order, len)?;
            }
        }
    }
    Ok(())
}

/// The first entry, one in the middle and the last are taken away.
fn cancels_at(rt: &impl Abort, alloc: Global, order: u8, len: usize) -> Result<(), Refusal> {
    let field = field_of_order(rt, order);
    let row = row_of_seed(rt, alloc, field, len, order)?;
    let other = row_of_seed(rt, alloc, field, len, 100)?;
    cancels(rt, alloc, &row, 0, &other)?;
    cancels(rt, alloc, &row, len / 2, &other)?;
    cancels(rt, alloc, &row, len.saturating_sub(1), &other)
}

#[test]
fn entries_are_taken_away_at_each_length(rt: HostRuntime) -> Result<(), Refusal> {
    for order in ORDERS {
        for len in LENGTHS {
            if len != 0 {
                cancels_at(&rt, rt.alloc(), order, len)?;
            }
        }
    }
    Ok(())
}

/// Asserts that a word has a row's entries, and 0 past their end: one that is not zero is found at its place, and from a
/// zero on the same is found as from the next place on.
fn assert_word(rt: &impl Abort, row: &Row, at: usize) {
    assert!(rt; at < 64);
    let word = row.entry_word(at);
    for place in 0..64 {
        let index = at * 64 + place;
        let found = word.next(place);
        let wanted = if index < row.len() {
            entry_of(rt, row, index)
        } else {
            0
        };
        if wanted == 0 {
            assert!(rt; found == word.next(place + 1));
        } else {
            assert!(rt; found == Some((place, wanted)));
        }
    }
    assert!(rt; word.next(64).is_none());
}

#[test]
fn entries_are_found_word_by_word(rt: HostRuntime) -> Result<(), Refusal> {
    for order in ORDERS {
        for len in LENGTHS {
            let field = field_of_order(&rt, order);
            let row = row_of_seed(&rt, rt.alloc(), field, len, order)?;
            for at in 0..len / 64 + 2 {
                assert_word(&rt, &row, at);
            }
        }
    }
    Ok(())
}

#[test]
fn a_row_without_entries_is_zero(rt: HostRuntime) -> Result<(), Refusal> {
    let row = Row::from_elements(rt.alloc(), field_of_order(&rt, 3), &[])?;
    assert!(rt; row.is_zero() && row.first_nonzero().is_none() && row.dot(&row) == 0);
    Ok(())
}

/// The multiples of 1 and x by 3, which is x, are x and x + 1 over the field of nine elements, where x^2 is x + 1.
/// Those of 1, x and x^2 by 5, which is x^2 + 1, are x^2 + 1, 1 and x over the field of eight, where x^3 is x + 1.
#[test]
fn matrices_of_multiplications_have_the_multiples(rt: HostRuntime) {
    let nine = field_of_order(&rt, 9);
    assert!(rt; nine.is_element(3));
    assert_eq!(rt; nine.plane_matrix(3), [[0, 1, 0], [1, 1, 0], [0, 0, 0]]);
    let eight = field_of_order(&rt, 8);
    assert!(rt; eight.is_element(5));
    assert_eq!(rt; eight.plane_matrix(5), [[1, 0, 1], [1, 0, 0], [0, 1, 0]]);
}

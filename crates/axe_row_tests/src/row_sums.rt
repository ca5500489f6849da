//! Sums of rows of tables over the fields of 5 and 7 elements, which are added to rows from an index on, against sums that
//! are taken entry by entry; and rows that become sums and rows again, against the same calls of rows.

ghost use Rattle.std.specs.Prelude.{◌≡◌, ◌≤◌, length};
ghost use Rattle.axe_lane.specs.Entries.{AreZerosBefore};

use crate::row_sweep::{assert_shape, entry_of, field_of_order, row_of_seed, sum_with_product};
use axe_field::Field;
use axe_lane::WORD;
use axe_row::{BitPlane, Combos, Refusal, Row, RowSum, digits_per_byte};
use std::alloc::Global;
use std::process::Abort;

/// The orders of the fields.
const ORDERS: [u8; 2] = [5, 7];

/// Lengths around those of vectors of bytes.
const LENGTHS: [usize; 9] = [0, 1, 15, 16, 17, 31, 33, 65, 200];

/// The combinations of two rows that are added.
const COMBINATIONS: [u8; 4] = [7, 24, 0, 13];

/// How many entries stand before the sum.
const START: usize = 3;

/// Adds four rows of the table of the combinations of two rows to a sum, and the sum to a row from an index on.
fn adds_combinations(
    rt: &impl Abort,
    alloc: Global,
    row: &mut Row,
    first: Row,
    second: Row,
) -> Result<(), Refusal> {
    let (field, len) = (*first.field(), first.len());
    assert_shape(rt, &second, &field, len);
    assert_shape(rt, row, &field, row.len());
    assert!(rt; START <= row.len() && len <= row.len() - START);
    let [a, b, c, d] = COMBINATIONS;
    let (a, b) = (usize::from(a), usize::from(b));
    let (c, d) = (usize::from(c), usize::from(d));
    let rows = usize::from(field.order()).pow(2);
    assert!(rt; a < rows && b < rows && c < rows && d < rows);
    assert!(rt; field.prime() > 3 && 2 <= digits_per_byte(&field));
    let mut table = Combos::new(alloc, field, len, 2)?;
    table.fill(&[first, second]);
    let mut sum = RowSum::zero(alloc, field, len)?;
    sum.add_four([a, b, c, d], &table, &table, &table, &table);
    sum.add_to(row, START);
    Ok(())
}

/// An element plus the combinations of two others.
fn sum_with_combinations(rt: &impl Abort, field: &Field, before: u8, a: u8, b: u8) -> u8 {
    let mut sum = before;
    for combination in COMBINATIONS {
        let (of_first, of_second) = (combination / field.order(), combination % field.order());
        sum = sum_with_product(rt, field, sum, of_first, a);
        sum = sum_with_product(rt, field, sum, of_second, b);
    }
    sum
}

/// Asserts that a row is the one before plus the combinations of two rows from the index on.
fn assert_added(rt: &impl Abort, row: &Row, before: &Row, first: &Row, second: &Row) {
    assert!(rt; row.len() == before.len());
    for index in 0..row.len() {
        let kept = entry_of(rt, before, index);
        let wanted = if index < START || first.len() <= index - START {
            kept
        } else {
            let at = index - START;
            let (a, b) = (entry_of(rt, first, at), entry_of(rt, second, at));
            sum_with_combinations(rt, row.field(), kept, a, b)
        };
        assert!(rt; entry_of(rt, row, index) == wanted, "{index}");
    }
}

/// A sum of rows of this length, added to a row that has two entries more after it.
fn adds_at(rt: &impl Abort, alloc: Global, order: u8, len: usize) -> Result<(), Refusal> {
    let field = field_of_order(rt, order);
    let first = row_of_seed(rt, alloc, field, len, order)?;
    let second = row_of_seed(rt, alloc, field, len, 100)?;
    let before = row_of_seed(rt, alloc, field, len.saturating_add(START + 2), 50)?;
    let mut row = before.copy(alloc)?;
    adds_combinations(rt, alloc, &mut row, first.copy(alloc)?, second.copy(alloc)?)?;
    assert_added(rt, &row, &before, &first, &second);
    Ok(())
}

#[test]
fn sums_of_rows_are_added_from_an_index_on(rt: HostRuntime) -> Result<(), Refusal> {
    for order in ORDERS {
        for len in LENGTHS {
            adds_at(&rt, rt.alloc(), order, len)?;
        }
    }
    Ok(())
}

/// As many digits modulo 2 as a row has entries: those of the numbers of the entries.
pub(crate) fn places_of(alloc: Global, row: &Row) -> Result<BitPlane, Refusal> {
    let mut numbers = vec![in alloc; 0; row.len()]?;
    row.copy_to(&mut numbers);
    Ok(BitPlane::of_numbers(alloc, &numbers, 0)?)
}

/// The index of the first entry of a row other than 0, or the row's length.
pub(crate) fn zeros_of(row: &Row) -> usize
    ensures within { result ≤ length row.now.entries }
    ensures zeros { AreZerosBefore row.now.entries result }
{
    match row.first_nonzero() {
        Some(index) => index,
        None => row.len(),
    }
}

/// Adds a multiple of a row to another, and then multiples of two rows, each of them twice.
fn adds_multiples(rt: &impl Abort, row: &mut Row, scalar: u8, first: &Row, second: &Row)
    ensures { length row.new.entries ≡ length row.old.entries }
{
    let (field, len) = (*row.field(), row.len());
    assert_shape(rt, first, &field, len);
    assert_shape(rt, second, &field, len);
    let (factor, other_factor) = (scalar % 4 + 1, 2);
    assert!(rt; field.degree() == 1 && field.is_element(scalar));
    assert!(rt; field.is_element(factor) && field.is_element(other_factor));
    row.add_scaled(scalar, first);
    let factors = [factor, other_factor, other_factor, factor];
    row.add_four_multiples(factors, first, second, second, first);
}

/// The same, in a sum that the row becomes.
fn adds_multiples_in_sum(
    rt: &impl Abort,
    row: &mut Row,
    scalar: u8,
    first: &Row,
    second: &Row,
) -> RowSum
    ensures { length result.entries ≡ length row.old.entries }
{
    let (field, len) = (*row.field(), row.len());
    assert_shape(rt, first, &field, len);
    assert_shape(rt, second, &field, len);
    let (factor, other_factor) = (scalar % 4 + 1, 2);
    assert!(rt; field.prime() > 3 && field.is_element(scalar));
    assert!(rt; field.is_element(factor) && field.is_element(other_factor));
    let mut sum = RowSum::take(row);
    sum.add_scaled_from(zeros_of(first), scalar, first);
    let factors = [factor, other_factor, other_factor, factor];
    sum.add_four_multiples(factors, first, second, second, first);
    sum
}

/// Asserts that the entries of a sum among places in a word, one after another, are those of a row.
fn assert_found_in_word(rt: &impl Abort, sum: &RowSum, row: &Row, places: &BitPlane, at: usize)
    requires { length sum.now.entries ≡ length row.now.entries }
{
    assert!(rt; places.len() == row.len() && at <= row.len() / WORD && at < 1 << 32);
    let (mut left, mut start) = (places.word(at), at * WORD);
    let end = row.len().min(start + WORD);
    for _ in 0..=WORD {
        assert!(rt; start <= row.len());
        let wanted = match row.next_entry_within(start, places) {
            Some((index, entry)) if index < end => Some((index % WORD, entry)),
            _ => None,
        };
        assert!(rt; sum.next_in_word(at, &mut left) == wanted, "{at}");
        let Some((place, _)) = wanted else {
            return;
        };
        start = at * WORD + place + 1;
    }
}

/// Asserts that the entries of a sum among places, word by word, are those of a row.
fn assert_found(rt: &impl Abort, sum: &RowSum, row: &Row, places: &BitPlane)
    requires { length sum.now.entries ≡ length row.now.entries }
{
    for at in 0..=row.len() / WORD {
        assert_found_in_word(rt, sum, row, places, at);
    }
}

/// A row of this length becomes a sum, to which multiples of other rows are added, and a row again.
fn becomes_a_row(rt: &impl Abort, alloc: Global, order: u8, len: usize) -> Result<(), Refusal> {
    let field = field_of_order(rt, order);
    let mut row = row_of_seed(rt, alloc, field, len, 50)?;
    let first = row_of_seed(rt, alloc, field, len, order)?;
    let second = row_of_seed(rt, alloc, field, len, 100)?;
    let places = places_of(alloc, &second)?;
    for scalar in 0..order {
        let mut wanted = row.copy(alloc)?;
        adds_multiples(rt, &mut wanted, scalar, &first, &second);
        let sum = adds_multiples_in_sum(rt, &mut row, scalar, &first, &second);
        assert!(rt; row.is_empty());
        assert_found(rt, &sum, &wanted, &places);
        row = sum.into_row();
        assert!(rt; row.same(&wanted), "{scalar}");
    }
    Ok(())
}

#[test]
fn rows_become_sums_and_rows_again(rt: HostRuntime) -> Result<(), Refusal> {
    for order in ORDERS {
        for len in LENGTHS {
            becomes_a_row(&rt, rt.alloc(), order, len)?;
        }
    }
    Ok(())
}

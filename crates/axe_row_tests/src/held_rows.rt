//! Rows over fields of characteristic 2 and 3 that are held, against the same calls of rows.

ghost use Rattle.std.specs.Prelude.{◌≡◌, ◌≤◌, ◌+◌, ◌/◌, length};
ghost use Rattle.axe_field.specs.Order.{order_number, prime_of};

use crate::row_sums::{places_of, zeros_of};
use crate::row_sweep::{assert_shape, field_of_order, row_of_seed};
use axe_lane::WORD;
use axe_row::{BitPlane, HeldRow, Refusal, Row};
use std::alloc::Global;
use std::process::Abort;

/// Lengths of rows whose planes have one word.
const LENGTHS_OF_ONE: [usize; 4] = [1, 20, 63, 64];

/// Lengths of rows whose planes have three words.
const LENGTHS_OF_THREE: [usize; 4] = [129, 150, 191, 192];

/// Asserts that a row is over a field of Q elements, of characteristic 2 or 3, and that its planes have W words.
fn assert_held<const Q: u8, const W: usize>(rt: &impl Abort, row: &Row)
    ensures order { order_number row.now.order ≡ Q }
    ensures characteristic { prime_of row.now.order ≤ 3 }
    ensures words { (length row.now.entries + 63) / 64 ≡ W }
    ensures few { W ≤ 4 }
{
    assert!(rt; row.field().order() == Q && row.field().prime() <= 3);
    assert!(rt; row.len() <= 4 * WORD && (row.len() + 63) / 64 == W);
}

/// Asserts that the entries of a row that is held, among places, are those of a row in one word: one after another.
fn assert_found<const Q: u8, const W: usize>(
    rt: &impl Abort,
    held: &HeldRow<W>,
    row: &Row,
    places: &BitPlane,
    at: usize,
)
    requires { order_number held.now.order ≡ Q }
{
    assert!(rt; at < W && at < 4 && places.len() == row.len());
    let (mut left, mut start) = (places.word(at), at * WORD);
    let end = row.len().min(start + WORD);
    for _ in 0..=WORD {
        assert!(rt; start <= row.len());
        let wanted = match row.next_entry_within(start, places) {
            Some((index, entry)) if index < end => Some((index % WORD, entry)),
            _ => None,
        };
        assert!(rt; held.next_in_word::<Q>(at, &mut left) == wanted, "{at}");
        let Some((place, _)) = wanted else {
            return;
        };
        start = at * WORD + place + 1;
    }
}

/// The same in each of its words.
fn assert_found_in_words<const Q: u8, const W: usize>(
    rt: &impl Abort,
    held: &HeldRow<W>,
    row: &Row,
    places: &BitPlane,
)
    requires { order_number held.now.order ≡ Q }
{
    for at in 0..W {
        assert_found::<Q, W>(rt, held, row, places, at);
    }
}

/// A row plus a multiple of another, times x over a field that is not prime, plus the other.
fn add_to_row(rt: &impl Abort, row: &mut Row, scalar: u8, other: &Row) {
    let field = *row.field();
    assert_shape(rt, other, &field, row.len());
    assert!(rt; field.is_element(scalar));
    row.add_scaled(scalar, other);
    if field.degree() != 1 {
        assert!(rt; field.is_element(field.prime()));
        row.scale(field.prime());
    }
    assert_shape(rt, other, row.field(), row.len());
    assert!(rt; row.field().is_element(1));
    row.add_scaled(1, other);
}

/// The same of a row that is held. The other is added last by its block in the word of its first entry other than 0.
fn add_to_held<const Q: u8, const W: usize>(
    rt: &impl Abort,
    held: &mut HeldRow<W>,
    scalar: u8,
    other: &Row,
)
    requires order { order_number held.old.order ≡ Q }
    requires characteristic { prime_of held.old.order ≤ 3 }
    requires field { other.now.order ≡ held.old.order }
    requires fits { length other.now.entries ≡ length held.old.entries }
    ensures order { held.new.order ≡ held.old.order }
    ensures as_long { length held.new.entries ≡ length held.old.entries }
{
    assert!(rt; other.field().is_element(scalar) && scalar != 0 && other.field().is_element(1));
    held.add_scaled_in::<Q>(scalar, other);
    if other.field().degree() != 1 {
        held.multiply_by_x::<Q>();
    }
    let at = zeros_of(other) / WORD;
    assert!(rt; at < W);
    held.add_scaled_from_block::<Q>(at, 1, &other.bit_block(at), other);
}

/// A row of this length is held, others are added to it, and it is put back.
fn is_held<const Q: u8, const W: usize>(
    rt: &impl Abort,
    alloc: Global,
    len: usize,
) -> Result<(), Refusal> {
    let field = field_of_order(rt, Q);
    let mut row = row_of_seed(rt, alloc, field, len, 50)?;
    let other = row_of_seed(rt, alloc, field, len, Q)?;
    let places = places_of(alloc, &row_of_seed(rt, alloc, field, len, 100)?)?;
    for scalar in 1..Q {
        let mut wanted = row.copy(alloc)?;
        add_to_row(rt, &mut wanted, scalar, &other);
        assert_held::<Q, W>(rt, &row);
        assert_shape(rt, &other, row.field(), row.len());
        let mut held = row.hold::<Q, W>();
        assert_found_in_words::<Q, W>(rt, &held, &row, &places);
        add_to_held::<Q, W>(rt, &mut held, scalar, &other);
        row.put_held::<Q, W>(&held);
        assert!(rt; row.same(&wanted), "{scalar}");
    }
    Ok(())
}

/// Rows of these lengths, whose planes have W words, are held.
fn are_held<const W: usize>(
    rt: &impl Abort,
    alloc: Global,
    lengths: &[usize],
) -> Result<(), Refusal> {
    for &len in lengths {
        is_held::<2, W>(rt, alloc, len)?;
        is_held::<3, W>(rt, alloc, len)?;
        is_held::<4, W>(rt, alloc, len)?;
        is_held::<8, W>(rt, alloc, len)?;
        is_held::<9, W>(rt, alloc, len)?;
    }
    Ok(())
}

#[test]
fn rows_of_few_words_are_held(rt: HostRuntime) -> Result<(), Refusal> {
    are_held::<1>(&rt, rt.alloc(), &LENGTHS_OF_ONE)?;
    are_held::<3>(&rt, rt.alloc(), &LENGTHS_OF_THREE)
}

//! Rows whose entries stand in the opposite order, over fields whose prime is 2 or 3: word by word.

ghost use Rattle.std.specs.Int.{bit_at};
ghost use Rattle.std.specs.Prelude.{ℕ, ◌≡◌, ◌+◌, ◌-◌, ◌*◌, ◌<◌, ◌≤◌, length, slice_index, None};
ghost use Rattle.axe_field.specs.Order.{prime_of, degree_of};
ghost use Rattle.axe_layer.specs.Words.{digit_of_words};
ghost use Rattle.axe_row.specs.Planes.{coefficients_at};
ghost use Rattle.axe_row.specs.Refusals.{Answers};
ghost use Rattle.axe_row.specs.Rows.{IsRow};
ghost use Rattle.axe_echelon.specs.Mirrored.{mirrored_row, AreDigitsBefore, HasMirroredCoefficients};

use axe_lane::WORD;
use axe_layer::word_of_packed;
use axe_matrix::{Refusal, Row};
use std::alloc::Global;

/// The row with its entries in the opposite order, over a field whose prime is 2 or 3.
pub(crate) fn mirrored_by_words(alloc: Global, row: &Row) -> Result<Row, Refusal>
    requires { prime_of row.now.order ≤ 3 }
    ensures { Answers None (λ mirrored. mirrored ≡ mirrored_row row.now) result }
{
    let mut mirrored = Row::zero(alloc, *row.field(), row.len())?;
    for power in 0..row.field().degree() {
        mirror_coefficients(power, row, &mut mirrored);
    }
    Ok(mirrored)
}

/// Makes the coefficients of a power of x in the entries of the second row those of the first row in the opposite
/// order, over a field whose prime is 2 or 3. All other coefficients stay.
fn mirror_coefficients(power: u8, row: &Row, mirrored: &mut Row)
    requires prime { prime_of row.now.order ≤ 3 }
    requires power { power < degree_of row.now.order }
    requires field { mirrored.old.order ≡ row.now.order }
    requires fits { length mirrored.old.entries ≡ length row.now.entries }
    requires row { IsRow mirrored.old }
    ensures written { HasMirroredCoefficients power row.now mirrored.old mirrored.new }
    ensures well_formed { IsRow mirrored.new }
{
    for at in 0..row.len().div_ceil(WORD) {
        mirrored.set_digit_words(power, at, mirrored_words(row, power, at));
    }
}

/// The two words at an index of the coefficients of a power of x in the entries of a row in the opposite order, over a
/// field whose prime is 2 or 3.
fn mirrored_words(row: &Row, power: u8, at: usize) -> [u64; 2]
    requires prime { prime_of row.now.order ≤ 3 }
    requires power { power < degree_of row.now.order }
    requires within { at * 64 < length row.now.entries }
    ensures { (i : ℕ) → i < 64 → digit_of_words result i
        ≡ slice_index (coefficients_at row.now.order power (mirrored_row row.now).entries) (at * 64 + i) }
{
    let words = digits_before(row, power, row.len() - at * WORD);
    [reversed(words[0]), reversed(words[1])]
}

/// The two words of the 64 coefficients of a power of x that end before an index, over a field whose prime is 2 or 3.
/// Where there are fewer, these are the last digits of the words, and the first are 0.
fn digits_before(row: &Row, power: u8, end: usize) -> [u64; 2]
    requires prime { prime_of row.now.order ≤ 3 }
    requires power { power < degree_of row.now.order }
    requires some { 0 < end }
    ensures { AreDigitsBefore (coefficients_at row.now.order power row.now.entries) end result }
{
    let (at, last) = ((end - 1) / WORD, (end - 1) % WORD);
    let second = row.digit_words(power, at);
    let first = words_before(row, power, at);
    [
        bits_up_to(first[0], second[0], last),
        bits_up_to(first[1], second[1], last),
    ]
}

/// The two words before those at an index of the coefficients of a power of x, over a field whose prime is 2 or 3:
/// zeros before the first words.
fn words_before(row: &Row, power: u8, at: usize) -> [u64; 2]
    requires prime { prime_of row.now.order ≤ 3 }
    requires power { power < degree_of row.now.order }
    ensures { AreDigitsBefore (coefficients_at row.now.order power row.now.entries) (at * 64) result }
{
    if at == 0 {
        [0, 0]
    } else {
        row.digit_words(power, at - 1)
    }
}

/// The 64 bits of two words that end with a bit of the second, counted from 0: the bits of the first from the next
/// place on, and then those of the second up to that place.
fn bits_up_to(first: u64, second: u64, last: usize) -> u64
    requires { last < 64 }
    ensures first { (i : ℕ) → last + 1 + i < 64 → bit_at result i ≡ bit_at first (last + 1 + i) }
    ensures second { (i : ℕ) → i < 64 → 64 ≤ last + 1 + i → bit_at result i ≡ bit_at second (last + 1 + i - 64) }
{
    first >> 1 >> last | second << (WORD - 1 - last)
}

/// The bits of a word in the opposite order. It costs less than `reverse_bits`, which goes bit by bit.
fn reversed(word: u64) -> u64
    ensures { (i : ℕ) → i < 64 → bit_at result i ≡ bit_at word (63 - i) }
{
    // The first digit that bytes hold is the most significant bit of the first, here of the highest byte of the word.
    word_of_packed(&word.to_be_bytes())
}

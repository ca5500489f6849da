//! The header of a text.

ghost use Rattle.std.specs.Prelude.{◌≡◌, ℕ, ◌+◌, ◌<◌, ◌≤◌, ◌&&◌, Some, None, Ok, Err, List, [], ◌∷◌, length, drop};
ghost use Rattle.std.specs.Prelude.{IfOk, MatchResult};
ghost use Rattle.std.specs.List.{prefix_len};
ghost use Rattle.axe_file.specs.Packed.{order_with_number};
ghost use Rattle.axe_file.specs.TextGrammar.{is_white, is_digit, plain_form, named_form};
ghost use Rattle.axe_file.specs.TextReading.{Reading, GoesOn, read_gap, read_word, read_digits, read_numeral};
ghost use Rattle.axe_file.specs.TextReading.{read_parts, read_form, read_header, header_fault};
ghost use Rattle.axe_file.specs.declared.fault.FileFault.TheVariants.{BadHeader};

use crate::fault::FileFault;
use axe_field::Field;
use axe_matrix::{MAX_COLUMNS, MAX_ROWS};

/// What the header of a text says, and the offset at which it ends.
#[derive(Clone, Copy)]
pub(crate) struct TextHeader {
    pub(crate) mode: u32,
    pub(crate) order: u32,
    pub(crate) rows: u32,
    pub(crate) columns: u32,
    pub(crate) end: usize,
}

/// Whether a byte is white space.
#[tactic(auto, unfolding(crate::specs::TextGrammar::is_white))]
pub(crate) fn is_white(byte: u8) -> bool
    ensures { result ≡ is_white byte }
{
    // Most bytes of a text are digits, which the first comparison tells apart.
    byte <= b' ' && matches!(byte, b' ' | b'\t' | b'\n' | b'\r')
}

/// Whether a byte is a decimal digit.
#[tactic(auto, unfolding(crate::specs::TextGrammar::is_digit))]
fn is_digit(byte: u8) -> bool
    ensures { result ≡ is_digit byte }
{
    byte.is_ascii_digit()
}

/// The offset at which white space ends that begins at an offset.
pub(crate) fn skip_space(bytes: &[u8], start: usize) -> usize
    requires { start ≤ length bytes.now }
    ensures { result ≡ start + prefix_len is_white (drop start bytes.now) }
{
    for at in start..bytes.len() {
        if !is_white(bytes[at]) {
            return at;
        }
    }
    bytes.len()
}

/// The offset at which white space ends that begins at an offset, where there is some.
fn skip_gap(bytes: &[u8], start: usize) -> Result<usize, FileFault>
    requires { start ≤ length bytes.now }
    ensures within { IfOk result (λ end. end ≤ length bytes.now) }
    ensures read { (next : List ℕ → ℕ → Reading) → GoesOn result (read_gap next (drop start bytes.now) start)
        (λ end. next (drop end bytes.now) end) }
{
    if start < bytes.len() && is_white(bytes[start]) {
        Ok(skip_space(bytes, start + 1))
    } else {
        Err(FileFault::BadHeader(start))
    }
}

/// The offset at which a word ends that begins at an offset.
fn skip_word(bytes: &[u8], start: usize, word: &[u8]) -> Result<usize, FileFault>
    requires { start ≤ length bytes.now }
    ensures within { IfOk result (λ end. end ≤ length bytes.now) }
    ensures read { (next : List ℕ → ℕ → Reading) →
        GoesOn result (read_word word.now next (drop start bytes.now) start) (λ end. next (drop end bytes.now) end) }
{
    for (index, letter) in word.iter().enumerate() {
        let at = start + index;
        if at >= bytes.len() || bytes[at] != *letter {
            return Err(FileFault::BadHeader(at));
        }
    }
    Ok(start + word.len())
}

/// The value of a numeral with this first digit, of which up to eight more follow at an offset, and where it ends.
fn more_digits(bytes: &[u8], start: usize, first: u32) -> (u32, usize)
    requires within { start ≤ length bytes.now }
    requires digit { first < 10 }
    ensures within { result.1 ≤ length bytes.now }
    ensures read { (next : ℕ → List ℕ → ℕ → Reading) → read_digits 8 first next (drop start bytes.now) start
        ≡ next result.0 (drop result.1 bytes.now) result.1 }
{
    let mut value = first;
    let end = start + (bytes.len() - start).min(8);
    for at in start..end {
        if !is_digit(bytes[at]) {
            return (value, at);
        }
        value = value * 10 + u32::from(bytes[at] - b'0');
    }
    (value, end)
}

/// The value of the numeral at an offset, and where it ends.
fn numeral(bytes: &[u8], start: usize) -> Result<(u32, usize), FileFault>
    requires { start ≤ length bytes.now }
    ensures within { IfOk result (λ found. found.1 ≤ length bytes.now) }
    ensures read { (next : ℕ → List ℕ → ℕ → Reading) → GoesOn result (read_numeral next (drop start bytes.now) start)
        (λ found. next found.0 (drop found.1 bytes.now) found.1) }
{
    if start < bytes.len() && is_digit(bytes[start]) {
        Ok(more_digits(bytes, start + 1, u32::from(bytes[start] - b'0')))
    } else {
        Err(FileFault::BadHeader(start))
    }
}

/// The value of the numeral after white space and a name, and where it ends.
fn setting(bytes: &[u8], start: usize, name: &[u8]) -> Result<(u32, usize), FileFault>
    requires { start ≤ length bytes.now }
    ensures within { IfOk result (λ found. found.1 ≤ length bytes.now) }
    ensures read { (next : ℕ → List ℕ → ℕ → Reading) →
        GoesOn result (read_gap (read_word name.now (read_numeral next)) (drop start bytes.now) start)
        (λ found. next found.0 (drop found.1 bytes.now) found.1) }
{
    let at = skip_gap(bytes, start)?;
    let at = skip_word(bytes, at, name)?;
    numeral(bytes, at)
}

/// Asks that white space or the end comes at an offset, where a header ends.
fn end_header(bytes: &[u8], at: usize) -> Result<(), FileFault>
    requires { at ≤ length bytes.now }
    ensures { MatchResult result (λ _. read_parts [] (drop at bytes.now) at ≡ Ok (record { values = []; end = at }))
        (λ fault. (fault ≡ BadHeader at) × (read_parts [] (drop at bytes.now) at ≡ Err at)) }
{
    if at < bytes.len() && !is_white(bytes[at]) {
        Err(FileFault::BadHeader(at))
    } else {
        Ok(())
    }
}

/// The header of four numerals at an offset.
fn plain_header(bytes: &[u8], start: usize) -> Result<TextHeader, FileFault>
    requires { start ≤ length bytes.now }
    ensures within { IfOk result (λ header. header.end ≤ length bytes.now) }
    ensures read { GoesOn result (read_parts plain_form (drop start bytes.now) start) (λ header. Ok (record {
      values = header.mode ∷ header.order ∷ header.rows ∷ header.columns ∷ [];
      end = header.end;
    })) }
{
    let (mode, at) = numeral(bytes, start)?;
    let (order, at) = setting(bytes, at, b"")?;
    let (rows, at) = setting(bytes, at, b"")?;
    let (columns, end) = setting(bytes, at, b"")?;
    end_header(bytes, end)?;
    Ok(TextHeader {
        mode,
        order,
        rows,
        columns,
        end,
    })
}

/// The header with names at an offset.
fn named_header(bytes: &[u8], start: usize) -> Result<TextHeader, FileFault>
    requires { start ≤ length bytes.now }
    ensures within { IfOk result (λ header. header.end ≤ length bytes.now) }
    ensures mode { IfOk result (λ header. header.mode ≡ 1) }
    ensures read { GoesOn result (read_parts named_form (drop start bytes.now) start) (λ header. Ok (record {
      values = header.order ∷ header.rows ∷ header.columns ∷ [];
      end = header.end;
    })) }
{
    let at = skip_word(bytes, start, b"matrix")?;
    let (order, at) = setting(bytes, at, b"field=")?;
    let (rows, at) = setting(bytes, at, b"rows=")?;
    let (columns, end) = setting(bytes, at, b"cols=")?;
    end_header(bytes, end)?;
    Ok(TextHeader {
        mode: 1,
        order,
        rows,
        columns,
        end,
    })
}

/// The header of a text, in one form or the other.
pub(crate) fn header_of(bytes: &[u8]) -> Result<TextHeader, FileFault>
    ensures within { IfOk result (λ header. header.end ≤ length bytes.now) }
    ensures read { GoesOn result (read_header bytes.now) (λ header. Ok (record {
      values = header.mode ∷ header.order ∷ header.rows ∷ header.columns ∷ [];
      end = header.end;
    })) }
{
    let start = skip_space(bytes, 0);
    if start < bytes.len() && bytes[start] == b'm' {
        named_header(bytes, start)
    } else {
        plain_header(bytes, start)
    }
}

/// The field of an order, where there is one.
fn field_with_order(order: u32) -> Option<Field>
    ensures { result ≡ order_with_number order }
{
    if order > 9 {
        None
    } else {
        Field::new(order as u8).ok()
    }
}

/// The field that a header names, where its numbers are allowed.
pub(crate) fn field_of(header: TextHeader) -> Result<Field, FileFault>
    ensures { MatchResult result
        (λ o. (header_fault (header.mode ∷ header.order ∷ header.rows ∷ header.columns ∷ []) ≡ None)
        × (order_with_number header.order ≡ Some o))
        (λ fault. header_fault (header.mode ∷ header.order ∷ header.rows ∷ header.columns ∷ []) ≡ Some fault) }
{
    if header.mode != 1 {
        return Err(FileFault::BadMode);
    }
    let Some(field) = field_with_order(header.order) else {
        return Err(FileFault::BadField);
    };
    if header.rows as usize > MAX_ROWS {
        return Err(FileFault::BadRows);
    }
    if header.columns == 0 || header.columns as usize > MAX_COLUMNS {
        return Err(FileFault::BadCols);
    }
    Ok(field)
}

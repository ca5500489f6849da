//! Rows over two elements that are made of packed bytes, and that are written into them; the words of rows.
use crate::tables::{Topic, each_call, two_numbers};
use axe_row::Row;
use axe_test_values::{
    TableFault, bytes_of_hex, field_of, first_field, four_fields, is_row, is_row_answer, number_of,
    one_field, row_of, small_number_of, three_fields,
};
use std::alloc::Global;
use std::process::Abort;

/// - `of_packed_bits`: bytes, a length, and the row of so many of their bits;
/// - `copy_packed_bits`: a row, and the bytes that it is written into, in which all bits were ones;
/// - `digit_words`: a row, a power of x, an index, and the two words of its coefficients there;
/// - `set_digit_words`: a row over a field whose prime is 2, a power of x, an index, a word, and the row with the bits
///   of the word as its coefficients there.
const PACKED: &str = "\
of_packed_bits | 80 | 1 | 2: 1
of_packed_bits | d0 | 7 | 2: 1101000
of_packed_bits | c4 | 8 | 2: 11000100
of_packed_bits | 00 80 | 9 | 2: 000000001
of_packed_bits | 72 e4 64 77 5a a3 95 12 | 63 | 2: 011100101110010001100100011101110101101010100011100101010001001
of_packed_bits | 6d 71 60 8f 81 71 c9 a2 | 64 | 2: 0110110101110001011000001000111110000001011100011100100110100010
of_packed_bits | 76 6e dd be f8 dc 04 6c 00 | 65 | 2: 01110110011011101101110110111110111110001101110000000100011011000
of_packed_bits | a2 58 08 bd 4d 8e d0 24 9d d2 87 bb 87 05 6a 58 80 | 130 | 2: 1010001001011000000010001011110101001101100011101101000000100100100111011101001010000111101110111000011100000101011010100101100010
# Bits after the last entry, and further bytes, are passed over.
of_packed_bits | ad | 7 | 2: 1010110
of_packed_bits | a4 ff | 9 | 2: 101001001
of_packed_bits | 43 e2 d8 dc b6 7e 03 33 | 63 | 2: 010000111110001011011000110111001011011001111110000000110011001
of_packed_bits | a3 86 cb 2b c2 99 ca ec 7f | 65 | 2: 10100011100001101100101100101011110000101001100111001010111011000
of_packed_bits | a5 3c | 3 | 2: 101
copy_packed_bits | 2: 1 | 80
copy_packed_bits | 2: 0000011 | 06
copy_packed_bits | 2: 11100010 | e2
copy_packed_bits | 2: 100100100 | 92 00
copy_packed_bits | 2: 000000110011111110010110110101001100101010011100011110000011100 | 03 3f 96 d4 ca 9c 78 38
copy_packed_bits | 2: 0010101110010101101100011011001000000000001110001101010111110011 | 2b 95 b1 b2 00 38 d5 f3
copy_packed_bits | 2: 00111110000110000001011110001110110001101000100011010111101100001 | 3e 18 17 8e c6 88 d7 b0 80
copy_packed_bits | 2: 1110111100101110111101000011100110010010011110100110101011011000010111110110000010010100001100000110011100011010110111101011011101 | ef 2e f4 39 92 7a 6a d8 5f 60 94 30 67 1a de b7 40
digit_words | 2: 0100 | 0 | 0 | 2 0
digit_words | 2: 1110 | 0 | 1 | 0 0
digit_words | 2: 000101011011111010111010111101101111110000011010011111111011000111 | 0 | 1 | 3 0
digit_words | 3: 01211 | 0 | 0 | 26 4
digit_words | 3: 2112201110122211012102111002101000122020002021221001222122020120222101 | 0 | 1 | 40 7
digit_words | 4: 112331 | 1 | 0 | 28 0
digit_words | 4: 1300300220032232033111323103011003130111113233032121233323123302011 | 0 | 1 | 6 0
digit_words | 8: 0175620 | 2 | 0 | 28 0
digit_words | 8: 525314344214162105215414524410646001304115570653761546450604541465 | 1 | 1 | 1 0
digit_words | 9: 085380 | 1 | 0 | 12 18
digit_words | 9: 12110285406256663632280886423004876452128084585003703826538453557787 | 0 | 1 | 11 4
digit_words | 9: 43262705860214584210834066882811265844032448452630765828025822018051 | 1 | 1 | 4 1
set_digit_words | 2: 1100 | 0 | 0 | 13 | 2: 1011
set_digit_words | 2: 000 | 0 | 1 | 7 | 2: 000
set_digit_words | 2: 11001110111001110001110011111110010111100101110111101010011111011 | 0 | 1 | 1 | 2: 11001110111001110001110011111110010111100101110111101010011111011
set_digit_words | 4: 203132 | 1 | 0 | 37 | 4: 203112
set_digit_words | 4: 203102 | 0 | 0 | 25 | 4: 302112
set_digit_words | 8: 4256775 | 2 | 0 | 90 | 8: 0616735
set_digit_words | 8: 003145037451301253732416210460237555574754072075473546430614715755 | 1 | 1 | 2 | 8: 003145037451301253732416210460237555574754072075473546430614715757
# Digits that have no entry are dropped.
set_digit_words | 2: 1000 | 0 | 0 | 242 | 2: 0100
set_digit_words | 2: 110001001001101110000000110011010000011010101101001000111000011000 | 0 | 1 | 14 | 2: 110001001001101110000000110011010000011010101101001000111000011001
set_digit_words | 4: 13121 | 1 | 0 | 250 | 4: 13123
";

fn makes_of_bits(rt: &impl Abort, alloc: Global, line: &str) -> Result<bool, TableFault> {
    let (bytes, length, wanted) = three_fields(line)?;
    let length = number_of(length)?;
    let field = field_of("2")?;
    let bytes = bytes_of_hex(alloc, bytes)?;
    assert!(rt; field.order() == 2 && length.div_ceil(8) <= bytes.len());
    let row = Row::of_packed_bits(alloc, field, &bytes, length);
    is_row_answer(alloc, row, wanted)
}

/// Whether bytes are those that are written so.
fn are_bytes(alloc: Global, bytes: &[u8], text: &str) -> Result<bool, TableFault> {
    Ok(bytes_of_hex(alloc, text)?.as_slice() == bytes)
}

fn copies_bits(rt: &impl Abort, alloc: Global, row: &Row, line: &str) -> Result<bool, TableFault> {
    let wanted = one_field(line)?;
    assert!(rt; row.field().order() == 2);
    let mut bytes = vec![in alloc; 255u8; row.len().div_ceil(8)]?;
    row.copy_packed_bits(&mut bytes);
    are_bytes(alloc, &bytes, wanted)
}

/// The two words that are written so.
fn words_of(text: &str) -> Result<(usize, usize), TableFault> {
    let (ones, twos) = text.split_once(' ').ok_or(TableFault::NotWritten)?;
    two_numbers(ones, twos)
}

fn reads_words(rt: &impl Abort, row: &Row, line: &str) -> Result<bool, TableFault> {
    let (power, index, wanted) = three_fields(line)?;
    let (power, index) = (small_number_of(power)?, number_of(index)?);
    let (ones, twos) = words_of(wanted)?;
    assert!(rt; row.field().prime() <= 3);
    assert!(rt; power < row.field().degree());
    let words = row.digit_words(power, index);
    Ok(words[0] == ones as u64 && words[1] == twos as u64)
}

fn sets_words(
    rt: &impl Abort,
    alloc: Global,
    row: &mut Row,
    line: &str,
) -> Result<bool, TableFault> {
    let (power, index, word, wanted) = four_fields(line)?;
    let power = small_number_of(power)?;
    let (index, word) = two_numbers(index, word)?;
    assert!(rt; row.field().prime() == 2);
    assert!(rt; power < row.field().degree());
    row.set_digit_words(power, index, [word as u64, 0]);
    is_row(alloc, row, wanted)
}

/// The calls that are given a row first.
fn answers_of_row(
    rt: &impl Abort,
    alloc: Global,
    call: &str,
    row: &mut Row,
    line: &str,
) -> Result<bool, TableFault> {
    match call {
        "copy_packed_bits" => copies_bits(rt, alloc, row, line),
        "digit_words" => reads_words(rt, row, line),
        "set_digit_words" => sets_words(rt, alloc, row, line),
        _ => Err(TableFault::NotWritten),
    }
}

/// Whether a call answers what its line says.
pub(crate) fn answers(
    rt: &impl Abort,
    alloc: Global,
    call: &str,
    line: &str,
) -> Result<bool, TableFault> {
    if call == "of_packed_bits" {
        return makes_of_bits(rt, alloc, line);
    }
    let (row, line) = first_field(line)?;
    answers_of_row(rt, alloc, call, &mut row_of(alloc, row)?, line)
}

#[test]
fn rows_over_two_elements_are_packed_bits(rt: HostRuntime) -> Result<(), TableFault> {
    each_call(&rt, rt.alloc(), Topic::Packed, PACKED)
}

#[test]
fn a_row_without_entries_takes_no_byte(rt: HostRuntime) -> Result<(), TableFault> {
    let field = field_of("2")?;
    assert!(rt; field.order() == 2);
    let row = Row::of_packed_bits(rt.alloc(), field, &[], 0)?;
    assert!(rt; row.is_empty() && row.field().order() == 2);
    row.copy_packed_bits(&mut []);
    Ok(())
}

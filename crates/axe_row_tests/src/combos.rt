//! Tables of the combinations of rows, and the numbers of the pieces of a row.
use crate::tables::{Topic, each_call, two_numbers};
use axe_row::{Combos, Row, digits_per_byte};
use axe_test_values::{
    TableFault, element_in, first_field, four_fields, is_row, number_of, row_of, row_of_shape,
    three_fields,
};
use std::alloc::Global;
use std::process::Abort;

/// - `add_to`: two rows, an index, and the row there of the table of their combinations, added to zeros;
/// - `piece_numbers`: a row, a scalar, a size, and the numbers of its first four pieces of that size;
/// - `numbers_from`: a row, a size, an index, and the numbers of its four pieces of that size from there on.
const TABLES: &str = "\
add_to | 3: 12 | 3: 01 | 7 | 3: 22
add_to | 2: 110 | 2: 011 | 3 | 2: 101
add_to | 2: 110 | 2: 011 | 0 | 2: 000
piece_numbers | 3: 12012 | 2 | 2 | 7 2 1 0
piece_numbers | 2: 1011011100000001 | 1 | 4 | 11 7 0 1
piece_numbers | 2: 1101000011010000110100010000000011000011 | 1 | 5 | 26 3 8 13
piece_numbers | 2: 011001011010111110110010 | 1 | 6 | 25 26 62 50
piece_numbers | 2: 110111010000011111011010011011 | 1 | 7 | 110 65 123 38
piece_numbers | 2: 01110001100010011110001100010011 | 1 | 8 | 113 137 227 19
piece_numbers | 2: 001101011111111001011001110 | 1 | 8 | 53 254 89 6
piece_numbers | 3: 12220112221112211202 | 1 | 5 | 159 134 125 128
piece_numbers | 3: 01211211122211121 | 1 | 5 | 49 203 229 7
piece_numbers | 3: 21102111202001112022 | 2 | 5 | 154 237 89 193
numbers_from | 2: 1110010011000110000000011100110011101101000101100000011110011011010000001100 | 8 | 40 | 22 7 155 64
numbers_from | 2: 100110110011000100001101110000001110101001000001101000010111110000101000011100 | 7 | 50 | 66 124 20 28
numbers_from | 2: 0011001011000111000101100011001101010101100000111111100101000111011000111011 | 6 | 60 | 29 35 11 0
numbers_from | 2: 101001010001100100111011111100101110011001000010100011001000110100110110011 | 5 | 66 | 27 3 0 0
numbers_from | 2: 1100000101110100111110001001010110011011101011010010010100011110110111100101 | 4 | 64 | 13 14 5 0
numbers_from | 3: 0200000021121021012202212022101212202022202022200221012100000002011011220012 | 5 | 55 | 81 6 112 217
numbers_from | 4: 0012202103000311101112001300233323120011 | 4 | 25 | 194 254 216 5
numbers_from | 9: 6755632180516385441262585626321547105034 | 2 | 35 | 5 3 4 0
numbers_from | 4: 03210321100310130300130133003032010233100132032220022110323131311203210 | 1 | 0 | 0 3 2 1
numbers_from | 4: 121103221202332112321123133301023232222223223100113231223123333310112031 | 2 | 0 | 6 5 3 10
numbers_from | 4: 0333130302310211013131133013231300000020303122200332321213101331000131 | 1 | 62 | 3 1 0 0
numbers_from | 4: 02002130303132310100212122200332132232032203300330221122211323121320011 | 2 | 59 | 14 13 9 14
numbers_from | 4: 033011231203311320312221320121310003202121221322330302130211310221111320 | 2 | 64 | 9 5 7 8
numbers_from | 4: 221321331003202013122100321002300000221203211131221310110033321233301022 | 1 | 70 | 2 2 0 0
numbers_from | 4: 23112323301200200133113120311001320021302031221120033032202332011112122 | 2 | 65 | 5 9 10 0
numbers_from | 8: 02675526725471657761542324754062442241755033523423263264404203420532301 | 1 | 0 | 0 2 6 7
numbers_from | 8: 067666610223324467755225616011226073730503145310136007146773346447425024 | 2 | 0 | 6 62 54 49
numbers_from | 8: 5020203245630615335635550651376342176457174074612402465364161620165145 | 1 | 62 | 2 0 1 6
numbers_from | 8: 11455616602470604760151327457766253766110665577471553716235401410235146 | 2 | 59 | 32 12 8 19
numbers_from | 8: 563473401412773175625435451770112755544635274624625606023745761501426475 | 2 | 64 | 1 34 52 61
numbers_from | 8: 725520226626444010257516713522017701325033352745531453413566126177272374 | 1 | 70 | 7 4 0 0
numbers_from | 8: 01536123475542672452442332776054761010004137761645714327417061434105371 | 2 | 65 | 8 43 57 0
numbers_from | 9: 45057047318107407737001678873105842386066841276423521886578268155533555 | 1 | 0 | 4 5 0 5
numbers_from | 9: 341117537765576703611350627015368617436431582206343811573327372837815003 | 2 | 0 | 31 10 16 48
numbers_from | 9: 3777673523023566180011326788248617778563170472331835240242836487824828 | 1 | 62 | 8 7 8 2
numbers_from | 9: 86367760863136653168355618557685555806846657888654554885172867754854263 | 2 | 59 | 78 70 49 77
numbers_from | 9: 435775712346401668648634102577087012683235431608722256472462660503848530 | 2 | 64 | 3 76 77 27
numbers_from | 9: 204130518003058324087721700621557737558218133704333282031786771640528018 | 1 | 70 | 1 8 0 0
numbers_from | 9: 66722185521646817881004506640067277626086256216155685857447051422231166 | 2 | 65 | 21 10 60 0
";

fn adds_combination(rt: &impl Abort, alloc: Global, line: &str) -> Result<bool, TableFault> {
    let (first, second, index, wanted) = four_fields(line)?;
    let index = number_of(index)?;
    let first = row_of(alloc, first)?;
    let second = row_of_shape(alloc, second, first.field(), first.len())?;
    let field = *first.field();
    let mut sum = Row::zero(alloc, field, first.len())?;
    assert!(rt; 2 <= digits_per_byte(&field));
    assert!(rt; index < usize::from(field.order()).pow(2));
    let mut table = Combos::new(alloc, field, first.len(), 2)?;
    table.fill(&[first, second]);
    table.add_to(index, 1, &mut sum);
    is_row(alloc, &sum, wanted)
}

/// Whether numbers are those that are written so, one space between two.
fn are_numbers(numbers: &[usize; 4], text: &str) -> Result<bool, TableFault> {
    let mut count = 0;
    for written in text.split_whitespace() {
        if count >= 4 || numbers[count] != number_of(written)? {
            return Ok(false);
        }
        count += 1;
    }
    Ok(count == 4)
}

/// The calls that number the pieces of a row.
fn numbers_pieces(rt: &impl Abort, call: &str, row: &Row, line: &str) -> Result<bool, TableFault> {
    let (first, second, wanted) = three_fields(line)?;
    match call {
        "piece_numbers" => {
            let scalar = element_in(row.field(), first)?;
            let size = number_of(second)?;
            assert!(rt; size <= 8);
            are_numbers(&row.piece_numbers(scalar, size, 0), wanted)
        }
        "numbers_from" => {
            let (size, at) = two_numbers(first, second)?;
            assert!(rt; size <= 8 && at <= 4096);
            are_numbers(&row.piece_numbers(1, size, at), wanted)
        }
        _ => Err(TableFault::NotWritten),
    }
}

/// Whether a call answers what its line says.
pub(crate) fn answers(
    rt: &impl Abort,
    alloc: Global,
    call: &str,
    line: &str,
) -> Result<bool, TableFault> {
    if call == "add_to" {
        return adds_combination(rt, alloc, line);
    }
    let (row, line) = first_field(line)?;
    numbers_pieces(rt, call, &row_of(alloc, row)?, line)
}

#[test]
fn tables_combine_rows_that_pieces_number(rt: HostRuntime) -> Result<(), TableFault> {
    each_call(&rt, rt.alloc(), Topic::Combos, TABLES)
}

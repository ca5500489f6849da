//! Row vectors: copies, sums, multiples and dot products.

use crate::tables::{Topic, each_call, two_numbers};
use axe_layer::mark_followed;
use axe_row::{Refusal, Row};
use axe_test_values::{
    TableFault, element_in, field_of, first_field, four_fields, is_row, is_row_answer, number_of,
    one_field, row_of, row_of_shape, small_number_of, three_fields, truth_of, two_fields,
};
use std::alloc::Global;
use std::process::Abort;

/// - `zero`: the order of a field, a length, and the row of zeros;
/// - `unit`: the order of a field, a length, an index, and the row that is 1 there and else 0;
/// - `set`: a row, an index, an element, and the row with the element there;
/// - `get`: a row, an index, and the element there;
/// - `get_two_twice`: a row, two indices, and the elements there;
/// - `copy`: a row, and its copy;
/// - `first_nonzero`: a row, and the index of its first entry that is not zero;
/// - `next_nonzero`: a row, an index, and that of the first entry from there on that is not zero;
/// - `support_word`: a row, an index, and the number that the word of its support there is;
/// - `is_zero`: a row, and whether it is zero.
const ENTRIES: &str = "\
zero | 7 | 2 | 7: 00
unit | 9 | 3 | 1 | 9: 010
unit | 2 | 1 | 0 | 2: 1
set | 7: 00 | 1 | 3 | 7: 03
get | 7: 05 | 0 | 0
get | 7: 05 | 1 | 5
get_two_twice | 2: 0110 | 3 | 1 | 0 | 1
get_two_twice | 3: 0212 | 1 | 2 | 2 | 1
get_two_twice | 5: 0342 | 2 | 0 | 4 | 0
get_two_twice | 7: 0563 | 1 | 2 | 5 | 6
get_two_twice | 4: 0321 | 1 | 3 | 3 | 1
get_two_twice | 9: 1360 | 2 | 1 | 6 | 3
copy | 9: 13 | 9: 13
copy | 7: 66 | 7: 66
first_nonzero | 7: 05 | 1
first_nonzero | 7: 00 | none
next_nonzero | 7: 0503 | 0 | 1
next_nonzero | 7: 0503 | 1 | 1
next_nonzero | 7: 0503 | 2 | 3
next_nonzero | 9: 1360 | 3 | none
next_nonzero | 9: 1360 | 4 | none
next_nonzero | 8: 0402 | 2 | 3
support_word | 2: 10110 | 0 | 13
support_word | 2: 10110 | 1 | 0
support_word | 3: 0212 | 0 | 14
support_word | 5: 0402 | 0 | 10
support_word | 4: 0312 | 0 | 14
support_word | 8: 0402 | 0 | 10
support_word | 9: 1360 | 0 | 7
support_word | 9: 1360 | 1 | 0
is_zero | 7: 00 | yes
is_zero | 7: 05 | no
# One digit more than a word has.
set | 2: 00000000000000000000000000000000000000000000000000000000000000000 | 64 | 1 | 2: 00000000000000000000000000000000000000000000000000000000000000001
first_nonzero | 2: 00000000000000000000000000000000000000000000000000000000000000001 | 64
next_nonzero | 2: 10000000000000000000000000000000000000000000000000000000000000001 | 1 | 64
support_word | 2: 10000000000000000000000000000000000000000000000000000000000000001 | 0 | 1
support_word | 2: 10000000000000000000000000000000000000000000000000000000000000001 | 1 | 1
support_word | 9: 000000000000000000000000000000000000000000000000000000000000000006 | 1 | 2
is_zero | 2: 00000000000000000000000000000000000000000000000000000000000000001 | no
is_zero | 2: 00000000000000000000000000000000000000000000000000000000000000000 | yes
next_nonzero | 3: 0102 | 0 | 1
next_nonzero | 3: 0102 | 2 | 3
next_nonzero | 3: 0201 | 0 | 1
next_nonzero | 3: 0201 | 1 | 1
next_nonzero | 3: 0201 | 2 | 3
next_nonzero | 3: 0201 | 4 | none
next_nonzero | 3: 0210 | 3 | none
first_nonzero | 3: 0021 | 2
first_nonzero | 3: 0012 | 2
first_nonzero | 3: 000 | none
is_zero | 3: 000 | yes
is_zero | 3: 002 | no
zero | 3 | 4 | 3: 0000
unit | 3 | 4 | 2 | 3: 0010
set | 3: 0120 | 1 | 2 | 3: 0220
set | 3: 0120 | 2 | 0 | 3: 0100
get | 3: 0120 | 1 | 1
get | 3: 0120 | 2 | 2
copy | 3: 0120 | 3: 0120
# Four digits more than a word has.
first_nonzero | 3: 00000000000000000000000000000000000000000000000000000000000000021000 | 63
next_nonzero | 3: 00000000000000000000000000000000000000000000000000000000000000021000 | 63 | 63
next_nonzero | 3: 00000000000000000000000000000000000000000000000000000000000000021000 | 64 | 64
next_nonzero | 3: 00000000000000000000000000000000000000000000000000000000000000021000 | 65 | none
next_nonzero | 3: 00010000000000000000000000000000000000000000000000000000000000002010 | 4 | 64
next_nonzero | 3: 00010000000000000000000000000000000000000000000000000000000000002010 | 65 | 66
next_nonzero | 3: 00000200000000000000000000000000000000000000000000000000000000000001 | 6 | 67
is_zero | 3: 00000000000000000000000000000000000000000000000000000000000000000002 | no
is_zero | 3: 00000000000000000000000000000000000000000000000000000000000000000000 | yes
set | 3: 20201122202221221112201112102222111220001100210210211012212110200122 | 63 | 2 | 3: 20201122202221221112201112102222111220001100210210211012212110220122
get | 3: 20201122202221221112201112102222111220001100210210211012212110220122 | 63 | 2
set | 3: 20201122202221221112201112102222111220001100210210211012212110201122 | 64 | 1 | 3: 20201122202221221112201112102222111220001100210210211012212110201122
get | 3: 20201122202221221112201112102222111220001100210210211012212110201122 | 64 | 1
set | 3: 20201122202221221112201112102222111220001100210210211012212110201122 | 67 | 0 | 3: 20201122202221221112201112102222111220001100210210211012212110201120
get | 3: 20201122202221221112201112102222111220001100210210211012212110201120 | 67 | 0
copy | 3: 20201122202221221112201112102222111220001100210210211012212110201122 | 3: 20201122202221221112201112102222111220001100210210211012212110201122
";

/// - `part`: a row, an index, a length, and so many entries from that index on;
/// - `first_and_last`: a row, and its first and its last entry, as `select` gives them;
/// - `runs`: a row of 67 entries or more, and those at columns 62 to 65, 1 to 3, and 66, as `select` gives them;
/// - `copy_to`: a row, and its entries, which are copied to a slice.
const PARTS: &str = "\
part | 9: 13580 | 1 | 3 | 9: 358
part | 7: 0123456 | 6 | 1 | 7: 6
part | 8: 41 | 0 | 2 | 8: 41
# The last two digits of the first word, and the first two of the next.
part | 2: 000000000000000000000000000000000000000000000000000000000000001001 | 62 | 4 | 2: 1001
first_and_last | 9: 1358 | 9: 18
first_and_last | 4: 3012 | 4: 32
first_and_last | 2: 00000000000000000000000000000000000000000000000000000000000000001 | 2: 01
runs | 2: 1101000011010000110100010000000011000011011001011010111110110010110 | 2: 10111010
runs | 3: 1002011002202100110011012021122111111001202110011222101222011222111 | 3: 22110021
runs | 4: 2210322232222232132211123203132201131110311010213103323011202323020 | 4: 23022100
copy_to | 9: 1358 | 9: 1358
copy_to | 8: 76543210 | 8: 76543210
copy_to | 2: 0110 | 2: 0110
copy_to | 5: 4321 | 5: 4321
part | 3: 0120212 | 2 | 4 | 3: 2021
part | 3: 0120212 | 6 | 1 | 3: 2
# The last two digits of the first words, and the first two of the next.
part | 3: 22000001001110022112112211100111102002212120122102022111121112122111 | 62 | 4 | 3: 1221
part | 3: 22000001001110022112112211100111102002212120122102022111121112122111 | 1 | 66 | 3: 200000100111002211211221110011110200221212012210202211112111212211
part | 3: 22000001001110022112112211100111102002212120122102022111121112122111 | 64 | 4 | 3: 2111
first_and_last | 3: 1002 | 3: 12
first_and_last | 3: 22000001001110022112112211100111102002212120122102022111121112122111 | 3: 21
copy_to | 3: 0212 | 3: 0212
copy_to | 3: 22000001001110022112112211100111102002212120122102022111121112122111 | 3: 22000001001110022112112211100111102002212120122102022111121112122111
";

/// - `add_scaled`: a row, a scalar, another row, and the sum of the first and of the multiple of the other;
/// - `add_scaled_from`: a row, an index, a scalar, another row that is 0 before the index, and that sum;
/// - `add_scaled_in`: the same where the field is known, and the scalar is not zero;
/// - `add_two_twice`: a row, two others, and the sum of the first and of twice the two;
/// - `add_multiples`: a row over a prime field, a factor, another row, a second factor, a third row, and the sum of the
///   first and of twice those multiples of the two;
/// - `cancel`: a row, an index, another row, the negative of the first row's element there, and the sum of the first
///   and of that multiple of the other;
/// - `scale`: a row, a scalar, and the multiple;
/// - `dot`: two rows, and their product.
const ARITHMETIC: &str = "\
add_scaled | 9: 13 | 3 | 9: 34 | 9: 51
add_scaled | 7: 66 | 6 | 7: 66 | 7: 00
add_scaled | 8: 41 | 5 | 8: 25 | 8: 56
add_scaled | 2: 00000000000000000000000000000000000000000000000000000000000000001 | 1 | 2: 00000000000000000000000000000000000000000000000000000000000000001 | 2: 00000000000000000000000000000000000000000000000000000000000000000
add_two_twice | 7: 0123 | 7: 1111 | 7: 2222 | 7: 6012
add_multiples | 7: 0123 | 3 | 7: 1111 | 2 | 7: 0102 | 7: 6413
add_multiples | 5: 0123 | 4 | 5: 1202 | 1 | 5: 0011 | 5: 3241
add_multiples | 3: 0120 | 2 | 3: 1012 | 1 | 3: 0122 | 3: 1010
add_multiples | 2: 0110 | 1 | 2: 1100 | 1 | 2: 0101 | 2: 0110
add_two_twice | 9: 0134 | 9: 3333 | 9: 1111 | 9: 8620
scale | 7: 03 | 4 | 7: 05
dot | 8: 41 | 8: 25 | 6
add_scaled | 3: 012012012 | 0 | 3: 000111222 | 3: 012012012
add_scaled | 3: 012012012 | 1 | 3: 000111222 | 3: 012120201
add_scaled | 3: 012012012 | 2 | 3: 000111222 | 3: 012201120
add_two_twice | 3: 012012012 | 3: 000111222 | 3: 001122012 | 3: 011112111
scale | 3: 0120 | 2 | 3: 0210
scale | 3: 0120 | 1 | 3: 0120
scale | 3: 0120 | 0 | 3: 0000
dot | 3: 12 | 3: 12 | 2
dot | 3: 120 | 3: 112 | 0
dot | 3: 22 | 3: 22 | 2
dot | 3: 012012012 | 3: 000111222 | 0
dot | 3: 01201201 | 3: 00011122 | 2
# Four digits more than a word has.
add_scaled | 3: 00021212021111212220222001012020000200202122100100010020202011121202 | 1 | 3: 00112112021011111002001001200121112200000010121012011212121001221200 | 3: 00100021012122020222220002212111112100202102221112021202020012012102
add_scaled | 3: 00021212021111212220222001012020000200202122100100010020202011121202 | 2 | 3: 00112112021011111002001001200121112200000010121012011212121001221200 | 3: 00212100000100101221221000112202221000202112012121002111111010200002
add_two_twice | 3: 00021212021111212220222001012020000200202122100100010020202011121202 | 3: 00112112021011111002001001200121112200000010121012011212121001221200 | 3: 02110100202012021001211211210222111210110100000111010000210220122011 | 3: 01102000101121110220010122202010110120122012012010022111201120111021
scale | 3: 00021212021111212220222001012020000200202122100100010020202011121202 | 2 | 3: 00012121012222121110111002021010000100101211200200020010101022212101
dot | 3: 10021212021111212220222001012020000200202122100100010020202011121202 | 3: 00112112021011111002001001200121112200000010121012011212121001221200 | 2
dot | 3: 10021212021111212220222001012020000200202122100100010020202011121202 | 3: 12110100202012021001211211210222111210110100000111010000210220122011 | 1
cancel | 2: 1101 | 0 | 2: 1011 | 1 | 2: 0110
cancel | 2: 0101 | 0 | 2: 1011 | 0 | 2: 0101
cancel | 3: 1201 | 0 | 3: 1112 | 2 | 3: 0122
cancel | 3: 2201 | 0 | 3: 1112 | 1 | 3: 0010
cancel | 3: 0201 | 0 | 3: 1112 | 0 | 3: 0201
cancel | 3: 1202 | 3 | 3: 1112 | 1 | 3: 2011
cancel | 4: 1230 | 1 | 4: 3122 | 2 | 4: 0003
cancel | 4: 1230 | 2 | 4: 0213 | 3 | 4: 1302
cancel | 4: 1230 | 3 | 4: 0213 | 0 | 4: 1230
cancel | 5: 3142 | 0 | 5: 1243 | 2 | 5: 0023
cancel | 5: 3042 | 1 | 5: 1234 | 0 | 5: 3042
cancel | 5: 3142 | 3 | 5: 0041 | 3 | 5: 3110
cancel | 7: 6513 | 0 | 7: 1234 | 1 | 7: 0040
cancel | 7: 6513 | 3 | 7: 0531 | 4 | 7: 6460
cancel | 7: 6503 | 2 | 7: 0531 | 0 | 7: 6503
cancel | 8: 7531 | 0 | 8: 1246 | 7 | 8: 0025
cancel | 8: 7531 | 2 | 8: 0217 | 3 | 8: 7303
cancel | 8: 7031 | 1 | 8: 0217 | 0 | 8: 7031
cancel | 9: 8642 | 0 | 9: 1357 | 4 | 9: 0478
cancel | 9: 8642 | 3 | 9: 0251 | 1 | 9: 8860
cancel | 9: 8602 | 2 | 9: 0251 | 0 | 9: 8602
# One digit more than a word of bits or a vector of bytes has.
cancel | 2: 11010000110100001101000100000000110000110110010110101111101100101 | 64 | 2: 10111010000011111011010011011011100011000100111100011000100110011 | 1 | 2: 01101010110111110110010111011011010011110010101010110111001010110
cancel | 3: 01202112211111100120211001122210122201122211122112020121121112222 | 64 | 3: 11212110211120200111202221022221122212000212200202201000001010201 | 1 | 3: 12111222122201000201110222111101211110122120022011221121122122120
cancel | 5: 323404112023230420442024424221334 | 32 | 5: 423114343114020302444124333132331 | 1 | 5: 241013400132200222331143202303110
cancel | 7: 61442523230223216 | 16 | 7: 00543120616303441 | 1 | 7: 61215643146526650
cancel | 4: 13013212233001222203221002301033333312302032321133213001200023033 | 63 | 4: 00010123111310100302003103023322012121201221123311020000313332013 | 3 | 4: 13023100100231122002223300313222302001201121033300203001032202001
# The other row is 0 before the index.
add_scaled_from | 2: 111011 | 2 | 1 | 2: 001011 | 2: 110000
add_scaled_from | 3: 021222 | 2 | 2 | 3: 001121 | 3: 020101
add_scaled_from | 4: 213010 | 2 | 3 | 4: 001232 | 4: 210131
add_scaled_from | 5: 422032 | 2 | 3 | 5: 001013 | 5: 420011
add_scaled_from | 9: 522235 | 2 | 1 | 9: 001756 | 9: 520682
add_scaled_from | 7: 464633 | 3 | 1 | 7: 000106 | 7: 464032
add_scaled_from | 8: 607203 | 5 | 3 | 8: 000001 | 8: 607200
add_scaled_from | 3: 220121 | 0 | 1 | 3: 122210 | 3: 012001
# Beyond the first word, at the first and the last digit of a word, and where the entry is 0.
add_scaled_from | 2: 111101110110010011010111110010101010000100010001000011111001101110111110 | 67 | 1 | 2: 000000000000000000000000000000000000000000000000000000000000000000010100 | 2: 111101110110010011010111110010101010000100010001000011111001101110101010
add_scaled_from | 3: 012012022221200101120220112110212020110021110120210001111010002120220212 | 67 | 1 | 3: 000000000000000000000000000000000000000000000000000000000000000000010222 | 3: 012012022221200101120220112110212020110021110120210001111010002120200101
add_scaled_from | 4: 030233311001310302313333230011230010203211232312023020023320301011231000 | 67 | 3 | 4: 000000000000000000000000000000000000000000000000000000000000000000010302 | 4: 030233311001310302313333230011230010203211232312023020023320301011201201
add_scaled_from | 5: 242231344231340130400444430124232322320040434422110231333031002302244031 | 67 | 1 | 5: 000000000000000000000000000000000000000000000000000000000000000000011213 | 5: 242231344231340130400444430124232322320040434422110231333031002302200244
add_scaled_from | 9: 886507547126420722704832658161888851086688003344047573480364132634074612 | 67 | 5 | 9: 000000000000000000000000000000000000000000000000000000000000000000014548 | 9: 886507547126420722704832658161888851086688003344047573480364132634007548
add_scaled_from | 2: 100000000010101001111000111101110011110010110010001010000000110110101110110111111110011000101011001000110101011010010101000011111111 | 128 | 1 | 2: 000000000000000000000000000000000000000000000000000000000000000000000000000000000000000000000000000000000000000000000000000000001000 | 2: 100000000010101001111000111101110011110010110010001010000000110110101110110111111110011000101011001000110101011010010101000011110111
add_scaled_from | 3: 211111022000022200220022221210000020222000200200222211000120222010111000200021012112010202101202210121222121012010111102210001112020 | 128 | 1 | 3: 000000000000000000000000000000000000000000000000000000000000000000000000000000000000000000000000000000000000000000000000000000001200 | 3: 211111022000022200220022221210000020222000200200222211000120222010111000200021012112010202101202210121222121012010111102210001110220
add_scaled_from | 4: 113130002120132222112101300333301321223323212012331202131111000302320003101313100000131003013130323210133120130201113132113331031202 | 128 | 1 | 4: 000000000000000000000000000000000000000000000000000000000000000000000000000000000000000000000000000000000000000000000000000000001302 | 4: 113130002120132222112101300333301321223323212012331202131111000302320003101313100000131003013130323210133120130201113132113331030100
add_scaled_from | 2: 1001110110010001001000011001010101111000100101100000100011110011001010 | 63 | 1 | 2: 0000000000000000000000000000000000000000000000000000000000000001110110 | 2: 1001110110010001001000011001010101111000100101100000100011110010111100
add_scaled_from | 3: 1211211021012112011122212222220012121010221020102100110212112002112202 | 63 | 1 | 3: 0000000000000000000000000000000000000000000000000000000000000001020222 | 3: 1211211021012112011122212222220012121010221020102100110212112000102121
add_scaled_from | 4: 3112102131322322323110023321232133000021111222000312131203100103131133 | 63 | 3 | 4: 0000000000000000000000000000000000000000000000000000000000000001301110 | 4: 3112102131322322323110023321232133000021111222000312131203100100332203
add_scaled_from | 2: 00101111101100110110110100110000000011000101001101100010111001111010 | 65 | 0 | 2: 00000000000000000000000000000000000000000000000000000000000000000110 | 2: 00101111101100110110110100110000000011000101001101100010111001111010
add_scaled_from | 3: 12112102211220210222022111120122012102010022121001111100200222001022 | 65 | 0 | 3: 00000000000000000000000000000000000000000000000000000000000000000100 | 3: 12112102211220210222022111120122012102010022121001111100200222001022
add_scaled_from | 5: 01331441311101001131043332120130002102110430012303443220333304410043 | 65 | 0 | 5: 00000000000000000000000000000000000000000000000000000000000000000124 | 5: 01331441311101001131043332120130002102110430012303443220333304410043
add_scaled_from | 9: 75850213727156848145036245226248176313206677501003364213575814761020 | 65 | 0 | 9: 00000000000000000000000000000000000000000000000000000000000000000177 | 9: 75850213727156848145036245226248176313206677501003364213575814761020
add_scaled_from | 2: 000111101101000110001010111001010011000001011001011001000001010110110000100000011111110111000011110011010001001000110101101111101 | 128 | 1 | 2: 000000000000000000000000000000000000000000000000000000000000000000000000000000000000000000000000000000000000000000000000000000001 | 2: 000111101101000110001010111001010011000001011001011001000001010110110000100000011111110111000011110011010001001000110101101111100
# The field is known at the call.
add_scaled_in | 2: 010001 | 2 | 1 | 2: 001000 | 2: 011001
add_scaled_in | 4: 301030 | 3 | 1 | 4: 000301 | 4: 301331
add_scaled_in | 4: 301012 | 0 | 2 | 4: 210210 | 4: 021332
add_scaled_in | 4: 200013 | 1 | 3 | 4: 033233 | 4: 222131
add_scaled_in | 8: 432314 | 2 | 1 | 8: 005757 | 8: 437443
add_scaled_in | 8: 116252 | 2 | 2 | 8: 004601 | 8: 115550
add_scaled_in | 8: 557711 | 2 | 3 | 8: 003710 | 8: 552521
add_scaled_in | 8: 746507 | 2 | 4 | 8: 003217 | 8: 741646
add_scaled_in | 8: 342366 | 0 | 5 | 8: 771276 | 8: 527205
add_scaled_in | 8: 264656 | 2 | 6 | 8: 002212 | 8: 263131
add_scaled_in | 8: 330724 | 1 | 7 | 8: 030265 | 8: 310262
add_scaled_in | 2: 1001111101100001001000001000101111001111100011100010010110101000100110 | 67 | 1 | 2: 0000000000000000000000000000000000000000000000000000000000000000000111 | 2: 1001111101100001001000001000101111001111100011100010010110101000100001
add_scaled_in | 4: 2123220101312130320031313203330111013132110001311021212231023311031011 | 63 | 2 | 4: 0000000000000000000000000000000000000000000000000000000000000001300230 | 4: 2123220101312130320031313203330111013132110001311021212231023313131301
add_scaled_in | 4: 0112003003212331213130332013012012121310331113323122020233032200100220 | 64 | 3 | 4: 0000000000000000000000000000000000000000000000000000000000000000121323 | 4: 0112003003212331213130332013012012121310331113323122020233032200213032
add_scaled_in | 8: 2751402614014131417056420312402344347245040003737167643353265020146201 | 0 | 6 | 8: 6643407224704555304352056174330141260604431265724206203100251670037407 | 8: 0500106161411202512161412557512512467040556720342665142553553260152705
add_scaled_in | 8: 1117414333776174031254420707413744777134170471746331124524153776020776 | 65 | 5 | 8: 0000000000000000000000000000000000000000000000000000000000000000032656 | 8: 1117414333776174031254420707413744777134170471746331124524153776061405
add_scaled_in | 3: 201110 | 1 | 1 | 3: 011020 | 3: 212100
add_scaled_in | 3: 220121 | 0 | 2 | 3: 202222 | 3: 021202
add_scaled_in | 5: 013211 | 0 | 1 | 5: 111202 | 5: 124413
add_scaled_in | 5: 241042 | 2 | 2 | 5: 004421 | 5: 244334
add_scaled_in | 5: 020434 | 2 | 3 | 5: 002314 | 5: 021311
add_scaled_in | 5: 031000 | 1 | 4 | 5: 043412 | 5: 043143
add_scaled_in | 7: 432651 | 1 | 1 | 7: 014261 | 7: 446142
add_scaled_in | 7: 066112 | 1 | 2 | 7: 022032 | 7: 033106
add_scaled_in | 7: 526133 | 0 | 3 | 7: 653635 | 7: 231554
add_scaled_in | 7: 352330 | 3 | 4 | 7: 000442 | 7: 352551
add_scaled_in | 7: 653432 | 3 | 5 | 7: 000440 | 7: 653322
add_scaled_in | 7: 422634 | 3 | 6 | 7: 000520 | 7: 422114
add_scaled_in | 9: 582537 | 3 | 1 | 9: 000630 | 9: 582267
add_scaled_in | 9: 584241 | 2 | 2 | 9: 004337 | 9: 580813
add_scaled_in | 9: 351873 | 0 | 3 | 9: 123073 | 9: 625867
add_scaled_in | 9: 764763 | 3 | 4 | 9: 000703 | 9: 764461
add_scaled_in | 9: 584870 | 3 | 5 | 9: 000725 | 9: 584058
add_scaled_in | 9: 514223 | 3 | 6 | 9: 000134 | 9: 514878
add_scaled_in | 9: 561076 | 0 | 7 | 9: 685404 | 9: 305673
add_scaled_in | 9: 713250 | 3 | 8 | 9: 000747 | 9: 713533
add_scaled_in | 3: 2201010120012001200000012112020101021011000121122112202020000120010010 | 0 | 1 | 3: 1201012120200222221012111021222101202102021021121212220011121111221122 | 3: 0102022210212220121012120100212202220110021112210021122001121201201102
add_scaled_in | 3: 0001021200010211000012022101202221011021121122201112120022111101201002 | 64 | 1 | 3: 0000000000000000000000000000000000000000000000000000000000000000100011 | 3: 0001021200010211000012022101202221011021121122201112120022111101001010
add_scaled_in | 5: 1031422040124024404144412123420212142032210120412300212333013311413224 | 63 | 2 | 5: 0000000000000000000000000000000000000000000000000000000000000003423012 | 5: 1031422040124024404144412123420212142032210120412300212333013312204243
add_scaled_in | 7: 6316352556253151233565504455434132350011411520402036211352325360240020 | 65 | 3 | 7: 0000000000000000000000000000000000000000000000000000000000000000030036 | 7: 6316352556253151233565504455434132350011411520402036211352325360260044
add_scaled_in | 9: 5127413736307320418040615225651861563605741273774510443308311584538742 | 0 | 7 | 9: 1532601801506311700123181057465243008371412810656364410134742571834367 | 9: 0510511134708567018762440231335130566880423553825426123125273642855657
add_scaled_in | 9: 6430634822416205357257674202040021038006423236267116628752310312327234 | 63 | 7 | 9: 0000000000000000000000000000000000000000000000000000000000000002104721 | 9: 6430634822416205357257674202040021038006423236267116628752310314124782
add_scaled_in | 9: 62711588437536188557186182778147560626364085575864551242676451523221521870431002237027417630503135615811768206364821233443404268485156582001487378563178352653374584808456820067154664507408657087437770 | 64 | 2 | 9: 00000000000000000000000000000000000000000000000000000000000000006472254837042236216666558318672826732044630288254675472410748332376207654111122487786264515781758710032430807770212250474431310062884176 | 9: 62711588437536188557186182778147560626364085575864551242676451526742366045422165051351282354854548273866138041440248784033688836118252837220368221716214146265858774866026025527245744153067347028873603
add_scaled_in | 9: 814 | 0 | 7 | 9: 005 | 9: 818
";

fn makes_zero(alloc: Global, line: &str) -> Result<bool, TableFault> {
    let (order, length, wanted) = three_fields(line)?;
    let length = number_of(length)?;
    let zero = Row::zero(alloc, field_of(order)?, length);
    is_row_answer(alloc, zero, wanted)
}

fn makes_unit(rt: &impl Abort, alloc: Global, line: &str) -> Result<bool, TableFault> {
    let (order, length, index, wanted) = four_fields(line)?;
    let (length, index) = two_numbers(length, index)?;
    assert!(rt; index < length);
    let unit = Row::unit(alloc, field_of(order)?, length, index);
    is_row_answer(alloc, unit, wanted)
}

fn sets(rt: &impl Abort, alloc: Global, row: &mut Row, line: &str) -> Result<bool, TableFault> {
    let (index, element, wanted) = three_fields(line)?;
    let index = number_of(index)?;
    let element = element_in(row.field(), element)?;
    assert!(rt; index < row.len());
    row.set(index, element);
    is_row(alloc, row, wanted)
}

/// Whether an index is the one that is written so, or there is none and `none` is written.
pub(crate) fn is_index(found: Option<usize>, text: &str) -> Result<bool, TableFault> {
    match found {
        Some(index) => Ok(index == number_of(text)?),
        None => Ok(text == "none"),
    }
}

/// The calls that are given a row and an index, and tell something of it.
fn tells(rt: &impl Abort, call: &str, row: &Row, line: &str) -> Result<bool, TableFault> {
    let (index, wanted) = two_fields(line)?;
    let index = number_of(index)?;
    match call {
        "get" => {
            assert!(rt; index < row.len());
            Ok(row.get(index) == small_number_of(wanted)?)
        }
        "next_nonzero" => {
            assert!(rt; index <= row.len());
            is_index(row.next_nonzero(index), wanted)
        }
        _ => Ok(row.support_word(index) == number_of(wanted)? as u64),
    }
}

/// The entries at two indices, each of them twice.
fn tells_two_twice(rt: &impl Abort, row: &Row, line: &str) -> Result<bool, TableFault> {
    let (first, second, one, other) = four_fields(line)?;
    let (first, second) = two_numbers(first, second)?;
    let (one, other) = (small_number_of(one)?, small_number_of(other)?);
    assert!(rt; first < row.len());
    assert!(rt; second < row.len());
    let found = row.entries_at([first, second, second, first]);
    Ok(found == [one, other, other, one])
}

/// The copy is to stay when the row is changed.
fn copies(alloc: Global, row: &mut Row, line: &str) -> Result<bool, TableFault> {
    let wanted = one_field(line)?;
    let zero = element_in(row.field(), "0")?;
    let copy = row.copy(alloc)?;
    row.scale(zero);
    is_row(alloc, &copy, wanted)
}

/// So many entries of a row from an index on.
fn part_of(
    rt: &impl Abort,
    alloc: Global,
    row: &Row,
    start: usize,
    length: usize,
) -> Result<Row, Refusal> {
    assert!(rt; start <= row.len());
    assert!(rt; length <= row.len() - start);
    row.part(alloc, start, length)
}

fn takes_part(rt: &impl Abort, alloc: Global, row: &Row, line: &str) -> Result<bool, TableFault> {
    let (start, length, wanted) = three_fields(line)?;
    let (start, length) = two_numbers(start, length)?;
    is_row_answer(alloc, part_of(rt, alloc, row, start, length), wanted)
}

/// The row of the entries that are copied to a slice.
fn copied_entries(alloc: Global, row: &Row) -> Result<Row, Refusal> {
    let mut entries = vec![in alloc; 0u8; row.len()]?;
    row.copy_to(&mut entries);
    Row::from_elements(alloc, *row.field(), &entries)
}

/// The row that a call gives of another one alone.
fn row_given(rt: &impl Abort, alloc: Global, call: &str, row: &Row) -> Result<Row, Refusal> {
    match call {
        "first_and_last" => {
            assert!(rt; !row.is_empty());
            let columns = [0, row.len() - 1];
            let mut followed = [0];
            mark_followed(&mut followed, &columns);
            row.select(alloc, &columns, &followed)
        }
        "runs" => {
            assert!(rt; row.len() >= 67);
            let columns = [62, 63, 64, 65, 1, 2, 3, 66];
            let mut followed = [0];
            mark_followed(&mut followed, &columns);
            row.select(alloc, &columns, &followed)
        }
        _ => copied_entries(alloc, row),
    }
}

/// The calls that are given a row alone and give another one.
fn gives_row(
    rt: &impl Abort,
    alloc: Global,
    call: &str,
    row: &Row,
    line: &str,
) -> Result<bool, TableFault> {
    let wanted = one_field(line)?;
    is_row_answer(alloc, row_given(rt, alloc, call, row), wanted)
}

fn scales(alloc: Global, row: &mut Row, line: &str) -> Result<bool, TableFault> {
    let (scalar, wanted) = two_fields(line)?;
    let scalar = element_in(row.field(), scalar)?;
    row.scale(scalar);
    is_row(alloc, row, wanted)
}

fn adds_two_twice(alloc: Global, row: &mut Row, line: &str) -> Result<bool, TableFault> {
    let (first, second, wanted) = three_fields(line)?;
    let first = row_of_shape(alloc, first, row.field(), row.len())?;
    let second = row_of_shape(alloc, second, row.field(), row.len())?;
    row.add_four_rows(&first, &second, &second, &first);
    is_row(alloc, row, wanted)
}

/// Adds multiples of two rows, each of them twice.
fn adds_multiples(
    rt: &impl Abort,
    alloc: Global,
    row: &mut Row,
    line: &str,
) -> Result<bool, TableFault> {
    let (factor, line) = first_field(line)?;
    let (first, other_factor, second, wanted) = four_fields(line)?;
    let factor = element_in(row.field(), factor)?;
    let other_factor = element_in(row.field(), other_factor)?;
    let first = row_of_shape(alloc, first, row.field(), row.len())?;
    let second = row_of_shape(alloc, second, row.field(), row.len())?;
    assert!(rt; row.field().degree() == 1);
    assert!(rt; factor != 0);
    assert!(rt; other_factor != 0);
    let factors = [factor, other_factor, other_factor, factor];
    row.add_four_multiples(factors, &first, &second, &second, &first);
    is_row(alloc, row, wanted)
}

fn multiplies(alloc: Global, row: &Row, line: &str) -> Result<bool, TableFault> {
    let (other, wanted) = two_fields(line)?;
    let wanted = small_number_of(wanted)?;
    let other = row_of_shape(alloc, other, row.field(), row.len())?;
    Ok(row.dot(&other) == wanted)
}

fn adds_multiple(alloc: Global, row: &mut Row, line: &str) -> Result<bool, TableFault> {
    let (scalar, other, wanted) = three_fields(line)?;
    let scalar = element_in(row.field(), scalar)?;
    let other = row_of_shape(alloc, other, row.field(), row.len())?;
    row.add_scaled(scalar, &other);
    is_row(alloc, row, wanted)
}

/// Adds a multiple of a row that is 0 before an index.
fn adds_multiple_from(
    rt: &impl Abort,
    alloc: Global,
    row: &mut Row,
    line: &str,
) -> Result<bool, TableFault> {
    let (start, scalar, other, wanted) = four_fields(line)?;
    let start = number_of(start)?;
    let scalar = element_in(row.field(), scalar)?;
    let other = row_of_shape(alloc, other, row.field(), row.len())?;
    let Some(first) = other.first_nonzero() else {
        return Err(TableFault::NotWritten);
    };
    assert!(rt; start <= first);
    row.add_scaled_from(start, scalar, &other);
    is_row(alloc, row, wanted)
}

/// Adds a multiple of a row that is 0 before an index, by a scalar other than 0, where the field is known.
fn adds_multiple_in(
    rt: &impl Abort,
    alloc: Global,
    row: &mut Row,
    line: &str,
) -> Result<bool, TableFault> {
    let (start, scalar, other, wanted) = four_fields(line)?;
    let start = number_of(start)?;
    let scalar = element_in(row.field(), scalar)?;
    let other = row_of_shape(alloc, other, row.field(), row.len())?;
    let Some(first) = other.first_nonzero() else {
        return Err(TableFault::NotWritten);
    };
    assert!(rt; start <= first);
    assert!(rt; scalar != 0);
    match row.field().order() {
        2 => row.add_scaled_in::<2>(start, scalar, &other),
        4 => row.add_scaled_in::<4>(start, scalar, &other),
        8 => row.add_scaled_in::<8>(start, scalar, &other),
        3 => row.add_scaled_in::<3>(start, scalar, &other),
        5 => row.add_scaled_in::<5>(start, scalar, &other),
        7 => row.add_scaled_in::<7>(start, scalar, &other),
        _ => row.add_scaled_in::<9>(start, scalar, &other),
    }
    is_row(alloc, row, wanted)
}

/// Takes an entry of a row away.
fn cancels(rt: &impl Abort, alloc: Global, row: &mut Row, line: &str) -> Result<bool, TableFault> {
    let (index, other, factor, wanted) = four_fields(line)?;
    let index = number_of(index)?;
    let factor = element_in(row.field(), factor)?;
    let other = row_of_shape(alloc, other, row.field(), row.len())?;
    assert!(rt; index < row.len());
    let given = row.cancel(index, &other);
    Ok(given == factor && is_row(alloc, row, wanted)?)
}

/// The calls that are given a row first.
fn answers_of_row(
    rt: &impl Abort,
    alloc: Global,
    call: &str,
    row: &mut Row,
    line: &str,
) -> Result<bool, TableFault> {
    match call {
        "set" => sets(rt, alloc, row, line),
        "first_nonzero" => is_index(row.first_nonzero(), one_field(line)?),
        "get" | "next_nonzero" | "support_word" => tells(rt, call, row, line),
        "get_two_twice" => tells_two_twice(rt, row, line),
        "is_zero" => Ok(row.is_zero() == truth_of(one_field(line)?)?),
        "part" => takes_part(rt, alloc, row, line),
        "first_and_last" | "runs" | "copy_to" => gives_row(rt, alloc, call, row, line),
        "copy" => copies(alloc, row, line),
        "add_scaled" => adds_multiple(alloc, row, line),
        "add_scaled_from" => adds_multiple_from(rt, alloc, row, line),
        "add_scaled_in" => adds_multiple_in(rt, alloc, row, line),
        "cancel" => cancels(rt, alloc, row, line),
        "scale" => scales(alloc, row, line),
        "add_two_twice" => adds_two_twice(alloc, row, line),
        "add_multiples" => adds_multiples(rt, alloc, row, line),
        "dot" => multiplies(alloc, row, line),
        _ => Err(TableFault::NotWritten),
    }
}

/// Whether a call answers what its line says.
pub(crate) fn answers(
    rt: &impl Abort,
    alloc: Global,
    call: &str,
    line: &str,
) -> Result<bool, TableFault> {
    if call == "zero" {
        return makes_zero(alloc, line);
    }
    if call == "unit" {
        return makes_unit(rt, alloc, line);
    }
    let (row, line) = first_field(line)?;
    answers_of_row(rt, alloc, call, &mut row_of(alloc, row)?, line)
}

#[test]
fn rows_have_entries(rt: HostRuntime) -> Result<(), TableFault> {
    each_call(&rt, rt.alloc(), Topic::Rows, ENTRIES)
}

#[test]
fn rows_have_parts(rt: HostRuntime) -> Result<(), TableFault> {
    each_call(&rt, rt.alloc(), Topic::Rows, PARTS)
}

#[test]
fn rows_have_sums_multiples_and_products(rt: HostRuntime) -> Result<(), TableFault> {
    each_call(&rt, rt.alloc(), Topic::Rows, ARITHMETIC)
}

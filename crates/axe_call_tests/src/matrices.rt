//! Matrices: their entries, copies and blocks, sums, products and transposes.

ghost use Rattle.std.specs.Prelude.{◌≡◌, length};

use crate::tables::{Topic, each_call};
use axe_matrix::{MAX_COLUMNS, MAX_ROWS, Matrix, Refusal, Row};
use axe_test_values::{
    TableFault, element_in, field_of, first_field, four_fields, is_matrix, is_row, is_row_answer,
    is_same_matrix, matrix_of, number_of, one_field, range_of, row_of_shape, small_number_of,
    three_fields, truth_of, two_fields, zeros,
};
use std::alloc::Global;
use std::process::Abort;

/// - `shape`: a matrix, the order of its field, and how many rows and columns it has;
/// - `get`: a matrix, a row and a column, and the entry there;
/// - `row`: a matrix, an index, and the row there;
/// - `same`: two matrices, and whether they are equal.
const ENTRIES: &str = "\
shape | 2: 01/11 | 2 | 2 | 2
shape | 2: 11 | 2 | 1 | 2
get | 2: 01/11 | 0 | 0 | 0
get | 2: 01/11 | 1 | 0 | 1
row | 2: 11 | 0 | 2: 11
row | 2: 01/11 | 0 | 2: 01
same | 2: 01/11 | 2: 01/11 | yes
same | 2: 01/11 | 2: 10/11 | no
same | 2: 010/100/001 | 2: 010/001/100 | no
";

/// - `identity`: the order of a field, how many rows, and the identity;
/// - `zero`: the order of a field, how many rows and columns, and the matrix of zeros;
/// - `append`: a matrix, a row, and the matrix with the row below its own;
/// - `append_rows`, `append_matrix`: a matrix, another, and the matrix with the rows of the other below its own;
/// - `split`: a matrix, how many rows, the matrix of so many first rows, and that of those after them;
/// - `reverse`: a matrix, and the matrix with its rows in the opposite order;
/// - `into_rows`: a matrix, and the matrix into which its rows move one by one;
/// - `copy`: a matrix, and its copy;
/// - `block`: a matrix, rows and columns, and the block of these;
/// - `last_columns`, `outer_columns`: a matrix, and its last two columns, or its last one and then its first.
const MADE: &str = "\
identity | 2 | 2 | 2: 10/01
zero | 2 | 2 | 2 | 2: 00/00
append | 3: 12 | 3: 01 | 3: 12/01
append | 3: 0x2 | 3: 21 | 3: 21
append_rows | 2: 10 | 2: 11/01 | 2: 10/11/01
append_rows | 3: 12 | 3: 0x2 | 3: 12
append_matrix | 3: 12 | 3: 01/22 | 3: 12/01/22
append_matrix | 3: 12 | 3: 0x2 | 3: 12
split | 3: 12/01/22 | 1 | 3: 12 | 3: 01/22
split | 3: 12/01 | 0 | 3: 0x2 | 3: 12/01
split | 3: 12/01 | 3 | 3: 12/01 | 3: 0x2
reverse | 3: 12/01/22 | 3: 22/01/12
reverse | 2: 0x2 | 2: 0x2
into_rows | 3: 12/01/22 | 3: 12/01/22
into_rows | 2: 0x2 | 2: 0x2
copy | 2: 10/01 | 2: 10/01
block | 2: 01/11 | 1..2 | 0..2 | 2: 11
last_columns | 2: 011/110 | 2: 11/10
last_columns | 9: 1234/5678 | 9: 34/78
last_columns | 5: 0x3 | 5: 0x2
outer_columns | 3: 120/012 | 3: 01/20
outer_columns | 8: 7654/3210 | 8: 47/03
";

/// - `mul`, `add`: two matrices, and their product or sum;
/// - `add_to_diagonal`: a square matrix, a scalar, and the matrix with the scalar added to each entry of the diagonal;
/// - `add_square`: a matrix, a scalar, and the sum of the matrix and of the multiple of its square;
/// - `transpose`: a matrix, and its transpose;
/// - `transpose_from_last`: a matrix, and the transpose of the matrix with its rows in the opposite order;
/// - `vec_mul`: a matrix, a vector, and the image of the vector.
const ARITHMETIC: &str = "\
mul | 2: 11/01 | 2: 10/11 | 2: 01/11
mul | 2: 11111 | 2: 1/1/1/1/1 | 2: 1
add | 3: 12/01 | 3: 12/01 | 3: 21/02
add_to_diagonal | 3: 12/01 | 2 | 3: 02/00
add_to_diagonal | 4: 01/23 | 3 | 4: 31/20
add_to_diagonal | 7: 456/123/000 | 0 | 7: 456/123/000
add_square | 3: 12/01 | 2 | 3: 01/00
add_square | 2: 11/01 | 1 | 2: 01/00
add_square | 2: 11/01 | 0 | 2: 11/01
transpose | 3: 12/01 | 3: 10/21
# Over two elements by blocks of 64 rows and 64 columns.
transpose | 2: 011/001/010/110/100/100/011/101/111/011/110/100/110/100/110/001/011/011/000/010/111/110/001/111/000/001/110/010/000/100/001/100/010/111/100/011/001/111/111/110/010/010/110/101/110/001/110/101/111/101/011/000/111/010/001/111/001/101/100/101/001/101/000/010/000 | 2: 00011101101111100000110100100101011001110011101111001001011101000/10110010111010101101110100110000110101111110101010101101000000010/11000011110000011100101101000010010111100001010111101011110111000
transpose | 2: 11101111001111000010001010101110001010010101100101001110010110110/10001111011100110111110111101010110110001111111101100110100110100/10011100001101010011110110011010100001000001111110001100101101011 | 2: 111/100/100/001/111/111/110/110/000/010/111/111/100/101/010/011/000/010/111/011/011/011/100/011/111/010/110/001/111/100/111/000/011/010/100/010/110/001/000/100/010/110/010/111/111/011/011/111/001/110/010/000/101/111/110/000/011/100/001/111/110/001/110/101/001
transpose | 2: 01/11/11/00/01/00/10/01/01/11/11/01/11/00/11/11/00/10/11/01/11/00/00/01/10/00/01/00/11/10/00/01/10/00/11/10/10/10/10/01/01/10/10/01/11/10/00/11/00/11/01/10/01/11/00/01/01/10/00/11/11/10/00/11/01/11/00/10/00/00/00/10/11/00/11/10/01/00/11/11/10/00/10/01/00/11/10/10/10/00/00/01/01/11/01/11/10/00/11/11/01/01/01/11/10/11/00/10/00/11/01/10/01/11/10/00/11/00/01/00/01/11/10/01/01/00/00/10/11/11 | 2: 0110001001101011011010001000110010111110011011010101010001011101010100011011001110100111100001011011000111010101011010000110000111/1110100111111011001110010010100100100001100110010110110110011001110000001010101100010100000111110011111101000110110010101101100011
transpose | 2: 0/1/0/0/0/0/0/1/1/0/0/1/1/1/0/0/1/1/1/1/0/1/1/0/1/0/0/0/1/0/0/0/0/1/0/0/0/0/0/1/1/0/1/0/0/1/0/0/1/0/0/1/0/0/0/0/0/1/0/0/1/1/1/1 | 2: 0100000110011100111101101000100001000001101001001001000001001111
transpose | 2: 110/010 | 2: 10/11/00
transpose | 4: 123/031 | 4: 10/23/31
# Over the other fields whose prime is 2 or 3 by the same blocks, for each power of x.
transpose | 3: 212/111/201/221/221/002/000/122/220/000/210/102/022/112/110/121/111/000/201/112/220/222/112/011/122/201/100/200/212/012/212/120/010/001/002/100/202/202/120/110/121/201/021/101/020/100/212/112/010/120/210/102/111/220/122/020/210/202/011/001/100/001/021/101/000 | 3: 21222001202101111021221012122021000122111201012101211210220010010/11022002201021121001221120001112100000212020201112101222101000200/21111202000222011012022121002220012022001111002200021020021101110
transpose | 3: 222201220121220022101002010012201102220222220102102110000112012200/002021112201001020220120210120001021212212102220210010122222012200 | 3: 20/20/22/20/02/11/21/21/02/12/20/11/20/20/01/00/22/20/12/02/10/01/02/20/02/11/00/01/12/20/20/00/11/10/02/21/22/21/02/22/21/22/21/20/02/12/02/20/12/01/20/10/11/00/01/02/02/12/12/22/00/11/22/22/00/00
transpose | 4: 21/30/13/13/00/10/21/32/03/21/30/30/01/23/03/23/32/23/33/22/10/01/12/31/21/01/31/23/12/32/23/11/20/12/13/13/33/02/02/23/12/22/31/03/33/21/32/00/11/13/33/13/12/00/00/13/03/20/31/22/00/02/13/30/01/32 | 4: 231101230233020232321013203213212111300212303230113110010232001303/103300123100133323320121111322310233322322133120133320033012023012
transpose | 4: 10021133031003303303320031302130210122301203022321132023232131222/20101220233330233232023223023300200232322011001102300210310000301/30232310321213003333102013123112120013302300202112202001321111203 | 4: 123/000/012/203/112/123/321/300/023/332/131/032/031/303/320/030/333/323/033/323/301/220/032/020/321/133/301/022/233/131/301/002/221/102/000/120/231/223/333/020/122/203/010/310/002/200/212/311/201/122/132/300/202/020/210/301/233/312/201/101/301/101/232/200/213
transpose | 8: 4753325712405347042476134146175442014613300530514765305776055345610/6700727615141363343701075262342464666316653745351342172334677044104 | 8: 46/77/50/30/37/22/57/76/11/25/41/04/51/33/46/73/03/44/23/47/70/61/10/37/45/12/46/62/13/74/52/44/46/24/06/16/46/63/11/36/36/05/03/57/34/05/53/15/41/73/64/52/31/07/52/73/73/64/06/57/57/30/44/54/61/10/04
transpose | 8: 75/16/65/61/14/10/23/55/34/40/42/47/47/12/44/60/26/15/60/01/00/05/20/07/00/17/03/27/33/05/70/30/47/71/66/11/46/35/11/02/03/30/04/03/00/42/63/71/67/15/52/30/12/67/01/27/70/57/22/31/33/70/27/16/15 | 8: 71661125344441462160002001023073476143100300046761531602752337211/56514035402772406501050707373500716165123043023175202717072130765
transpose | 9: 812/147/067/554/850/663/516/768/257/348/124/172/643/662/820/208/242/204/262/837/050/601/888/704/151/780/133/252/656/378/276/082/161/213/856/070/022/386/653/432/746/550/135/100/637/171/124/335/165/850/868/015/431/610/302/250/215/205/114/824/183/410/823/861/352/122 | 9: 810586572311668222280687171263201280036475116113188046322218148831/146556165427462040635080583557786157285345303723656131051012812652/277403687842320824270184103268621360263260507145508510205544303122
transpose | 9: 23863787760405424685424276412744766047133605504657060564333872687/71064446403720568326607568651648078820362208765371100876002822070 | 9: 27/31/80/66/34/74/84/76/74/60/03/47/02/50/45/26/48/63/82/56/46/20/47/25/76/68/46/15/21/76/44/48/70/67/68/08/42/70/13/36/32/62/00/58/57/06/45/63/57/71/01/60/00/58/67/46/30/30/32/88/72/22/60/87/70
transpose | 3: 00000000000000000000000000000000000000000000000000000000000000000/00000000000000000000000000000000000000000000000000000000000000002 | 3: 00/00/00/00/00/00/00/00/00/00/00/00/00/00/00/00/00/00/00/00/00/00/00/00/00/00/00/00/00/00/00/00/00/00/00/00/00/00/00/00/00/00/00/00/00/00/00/00/00/00/00/00/00/00/00/00/00/00/00/00/00/00/00/00/02
# The rows from the last to the first: each row of the transpose is read from its end.
transpose_from_last | 3: 12/01 | 3: 01/12
transpose_from_last | 5: 123/041 | 5: 01/42/13
transpose_from_last | 2: 011/001/010/110/100/100/011/101/111/011/110/100/110/100/110/001/011/011/000/010/111/110/001/111/000/001/110/010/000/100/001/100/010/111/100/011/001/111/111/110/010/010/110/101/110/001/110/101/111/101/011/000/111/010/001/111/001/101/100/101/001/101/000/010/000 | 2: 00010111010010011110111001110011010100100101100000111110110111000/01000000010110101010101111110101100001100101110110101011101001101/00011101111010111101010000111101001000010110100111000001111000011
vec_mul | 2: 01/11 | 2: 11 | 2: 10
vec_mul | 2: 10/01/11/10/01/11 | 2: 111011 | 2: 10
vec_mul | 3: 12/01 | 3: 12 | 3: 11
# Some rows more than a word of bits has: four terms at a time, from one word and from two.
vec_mul | 2: 0011/0011/1110/1100/1001/0011/1001/1101/1111/0000/0000/1011/0011/1001/1111/0110/0001/0010/0000/1000/1011/1100/1111/1000/1110/0010/0101/1010/1000/1001/1001/1101/1110/0001/0101/0110/0101/0110/1110/0000/0101/1000/0001/0001/0101/1100/1110/0010/0000/1001/1000/0100/1001/1011/1010/1010/1110/0100/1001/0101/0011/0001/1110/1101/0111/0111/0000/0110/0101/1101 | 2: 1010001000011000100001000011001000100001111111000011111001010110011111 | 2: 0101
vec_mul | 2: 1010/0101/0010/0010/1011/1000/0010/0011/0110/1101/0000/1010/1111/0010/0110/0001/1000/1101/0100/1101/1110/0101/0011/0110/0001/0010/1011/0001/1101/0010/0000/0010/1100/0110/1000/1101/0001/1101/1000/0111/0010/1100/1111/1100/1010/1101/1100/0001/1010/1011/1000/1111/0111/1010/1110/0011/1011/0111/0100/1001/1101/1010/0011/0110/0011/1111/1101/1100 | 2: 00010000000000000000000000000000000000000000000000000000000001111011 | 2: 1111
# Many entries other than 0 over a field that is not prime: the rows of each value, from two words.
vec_mul | 4: 0321/0321/1003/1013/0300/1301/3300/3032/0102/3310/0132/0322/2002/2110/3231/3131/1203/2101/2110/3221/2023/3211/2321/1231/3330/1023/2322/2222/3223/1001/1323/1223/1233/3331/0112/0310/3331/3030/2310/2110/1313/1133/0132/3130/0000/0203/0312/2200/3323/2121/3101/3310/0013/1020/0213/0303/1323/1010/0212/1222/0033/2132/2320/3220/3300/3302/2112/2211/3231/2132 | 4: 1200110332301231222131230333311233203112121213320121131310003221210212 | 4: 2333
vec_mul | 8: 345/275/476/071/526/142/273/144/233/275/044/364/366/300/650/503/635/530/165/201/460/011/044/241/753/326/254/272/023/016/764/346/761/314/456/325/756/713/411/501/376/337/341/622/002/740/143/705/172/442/341/067/165/404/675/133/225/354/026/755/267/254/716/577/615/423/247/540 | 8: 61214414224152755033152342375322637326427417034620436425065732370120 | 8: 154
vec_mul | 9: 676/866/610/223/832/446/775/522/561/601/122/607/387/305/031/453/101/360/071/467/733/464/474/250/245/082/020/324/563/880/681/538/385/635/550/685/137/634/281/764/571/740/784/868/124/024/653/641/616/208/165/814/511/845/561/660/247/060/487/608/158/132/887/457/766/253 | 9: 865432154226718688333678835587211383156331535786710282478772634531 | 9: 787
";

/// - `add_product`: a matrix, a scalar, two others, and the sum of the first and of the multiple of the product of the
///   two.
///
/// Few of the entries of the first factors are 0, so tables of combinations multiply, of two rows each at least.
const PRODUCTS: &str = "\
add_product | 2: 11011/10111/01100/00110/10010/11001/01000/00010/10000/01001/00000/00011/11111/10101/11100/11111/00000/00001/00110/11101/00100/00101/01010/11101/00111/11100/10000/00000/10101/10110/00011/10000/00001/01010/11001/00000 | 1 | 2: 111111110111111111111/111101111001111011111/111111111111111111111/101111111111111101111/111111111111111111111/011111111111101111111/111110111111011111001/011110011111111110111/111111111111011111111/111011111001110111111/110111101110111111111/111111111111111111111/111111111111111101111/111111111111111111111/111111101111101111111/111111011111111111111/110111111111011111111/111111111011011111111/111111111111111111111/111111011111111111101/111111111011111110111/111111111111111100111/111111111111111111111/111111111111111111111/111111111111011111111/111111111111111011111/111111111111111111111/111011111110111111111/111111111111111111001/111111111101111111111/111111111111111111111/111111011111111111111/111110111111111111111/111111011110111111111/000011011111111101111/111011111111111111111 | 2: 11001/11010/00100/11110/01001/00111/01011/10101/10100/10110/00000/10001/01001/01000/10000/01001/01101/00000/10101/11101/01100 | 2: 00100/01010/00111/11010/11001/00011/00101/11100/10010/11010/01011/01000/11001/11110/01010/11111/00110/10101/01101/00000/11001/00011/00001/10110/00101/11110/11011/00100/10110/11101/01000/10000/01101/11011/01101/10101
add_product | 3: 022/110/102/020/022/121/122/000/221/210/012/021/111/202/212/211/210/200/211/002/112/120/100/100/221/121/212/120/121/220/120/201/210/210/012/222/012/110/001/122/111/022/022/112/121/112/221/210/102/002/002/111/220/120/110/000 | 2 | 3: 22212221211111211/20222121211222112/21222211200122212/22222200111211220/12222111121102211/11120112011122211/12212221110221222/21211222222202112/21201212122212120/22212202122220111/12221221221111221/11211022220122211/12212212002111211/12121121112121122/22222212122222211/20012121112112222/12222122112222121/21121221212112122/22111111202111212/11221212222202211/12022211211110112/11211222211111111/12222211222221112/11112201112121122/11211112012212112/21221211012022121/22112121111121120/22221212221221111/20210222222121122/12220211112211112/12111222202211202/22222122212211022/11121111120221212/12122111112010211/12112222022212112/22221222121221221/22112111112212020/21212121222002211/12120222211202222/10021111012210122/10222222102121122/11202012112211211/21211112221212021/02212121111212110/22122210112111112/12121202121111212/21211121122222122/11112021011210221/01102222121211120/11221112120210211/12121122201221002/20111212011111122/21012221222112221/12211211202101222/12121022220111122/22102221222211112 | 3: 201/122/212/210/001/210/202/222/100/111/021/022/222/220/110/210/222 | 3: 110/202/102/011/201/211/222/121/200/000/101/102/100/002/000/001/221/210/222/122/022/120/022/122/111/010/122/100/220/211/222/211/010/001/101/110/220/122/010/101/221/200/110/102/002/110/220/211/100/002/120/211/022/222/221/010
add_product | 4: 313/302/023/123/112/131/233/300/210/022/211/220/100/112/121/231/333/103/222/132/011/303/031/220 | 3 | 4: 1333121331113/0132122130122/0122212111012/1223321232223/1230113223113/3213333003323/1101322312221/3300121310323/1123123321323/1221212131211/3333332212032/1332312201012/3131323231001/3221012321323/0331321032322/1321313321112/3201111332311/2221211220232/1322303112011/1333132223113/1320313323232/1123311321102/2311221221331/1113233123211 | 4: 031/120/010/220/233/210/111/120/220/001/223/013/323 | 4: 303/233/203/022/112/301/303/010/113/213/130/331/010/301/323/331/020/303/313/031/322/020/201/013
add_product | 5: 042/131/132/200/203/044/302/204/042/444/312/104/031/211/021/300/203/303/420/433/041/003/433/221/231/434/201/133/401/122/112/210 | 3 | 5: 4432132011431/1241344431043/2420110214222/4441424322431/4130024023343/2213142244324/3223011144333/1442324343142/1444220234312/4122102423112/1101321344322/3301143412433/3343123122244/4231122031224/4312423214343/3444012144234/3010223034440/3302124411142/3030011313123/3432404312443/3113234344430/2141424221443/2112410213204/0240224202132/3143140341424/3343213333041/1311142431222/3304242030240/0221214033102/1244033244244/1214123132443/3131144122332 | 5: 342/002/224/010/343/440/020/113/130/134/034/242/400 | 5: 013/311/413/334/040/143/032/403/231/322/244/030/110/110/332/404/201/442/021/300/321/242/242/221/411/323/430/230/333/232/221/141
add_product | 7: 43/36/15/51/20/40/50/42/40/26/24/02/44/34/33/16/51/36/14/56/66/22/64/16/51/53/26/31/30/36/44/10/34/42/63/52/14/33/22/53/65/44/22/34/30/02/24/04/16/23/34/65/14/01/15/63/36/21/54/66/23/33/62/02/21/02/01/33/60/06/24/55 | 5 | 7: 02625021561/02616064360/51104433032/14541131566/45130252114/32535144356/21216430466/25441105555/53622115065/33400503214/61114143135/01612611365/21434514230/44242606454/60624135466/05360251342/24023463510/62414233663/65624224443/65413465244/06464462221/14610065621/64444462623/33631336613/26126616625/35206156655/21231201365/15241442454/06405163251/21510053105/50162630523/61254535453/13314263061/31264444425/01240351642/64140415561/42234435556/63254345420/02631143536/44525261455/45616526142/42654346220/36266034311/12462464035/36625430531/34462356110/50533105153/22263164361/51302006114/61523455365/55133155162/13431456545/36064406034/36515361546/46460116656/46261326161/34565323662/45024155634/50336316244/56624544531/66556145632/52613521113/55000533351/55365352146/24660453011/23644146616/20366562201/65160511255/23262141625/25463405230/23435511621/03434203555 | 7: 06/34/62/55/56/10/00/33/31/61/66 | 7: 34/13/45/42/23/56/23/25/45/45/10/46/15/22/04/64/36/04/44/01/65/46/45/44/31/52/31/60/30/44/62/13/33/05/52/10/35/44/03/55/40/45/10/13/51/54/04/52/53/65/54/50/32/44/14/33/35/51/20/66/45/50/53/25/64/10/11/56/12/50/65/56
add_product | 8: 26/76/16/04/35/36/64/10/17/51/06/40/66/00/75/31/63/37/63/50/57/63/46/07/57/45/71/07/00/22/14/27/57/05/17/72/26/73/36/07/45/64/33/16/74/50/15/21/77/20/43/07/54/50/20/76/23/20/16/33/76/36/43/63/00/35/16/05/30/17/14/27/71/04/57/72/70/30/64/77/42/47/45/63/54/76/36/63/41/24/00/17/53/25/03/44/50/75 | 6 | 8: 41716755607/34502141232/44344347541/54304374451/61730202436/31221066716/24557163645/24052422642/01312160777/16311235527/00475712020/41323320055/41161535110/11442221426/31713042261/20414156566/51726024170/23226567164/42247352362/02363716726/35511443776/65526374157/57576322207/20237116212/52131707552/30651726135/51317671721/35334616440/24177744611/14130023143/44546530431/56320206702/63156745363/21477133457/41360255275/34221121334/47133640701/63334227312/36721375466/03051515224/61613242705/54753547556/07302207631/56172161216/42601411242/33153323451/02274330641/00215450221/22607142301/03472645267/44353042455/54242141577/55476570623/25147534361/11561777573/04301123347/54361647447/71270423715/34736612252/52336614711/32045351403/05763164646/64214214111/51243410302/51516713534/40221777315/64053437266/07763740764/60757553240/11074525400/51133462151/55316635767/47473766602/44056113133/23253575767/46333177245/61046732060/65743106133/45707345671/21734615567/56225761315/44112600435/77427163504/51102515701/66171076334/35531465666/74100622325/54543077516/66272332371/23117153665/32277103151/15605271143/61703326161/62475144426/63214216264/41621510711/27257174317/70704647626 | 8: 70/60/22/72/37/40/36/00/34/64/43 | 8: 42/37/74/41/04/10/46/52/01/47/65/26/67/32/26/02/67/37/42/22/77/45/04/35/14/03/46/23/21/17/17/14/74/32/62/46/70/62/16/73/51/13/24/04/37/46/23/21/44/27/43/75/67/47/31/65/35/74/74/46/65/26/14/74/21/50/15/07/36/34/32/73/02/67/24/46/21/77/31/01/43/67/14/72/05/77/75/72/41/51/04/50/74/43/13/01/61/77
add_product | 9: 07/58/14/06/31/83/26/14/02/22/53/07/54/31/44/17/75/04/52/53/58/63/16/72/38/26/07/00/77/15/71/38/32/27/20/84/83/47/13/72/03/40/27/18/14/47/36/35/38/25/74/54/54/13/86/76/45/04/73/05/47/65/52/17/24/35/17/11/28/64/26/47/48/85/08/20/22/26/76/56/34/20/22/74/28/03/38/02/24/15/72/78/65/57/02/48/54/10/18/85/86/56/17/27/67/18/33/08/53/35/37/81/83/76/12/11/76/68/05/00/46/85/66/03/54/20/05/80 | 5 | 9: 12845142826/13638708557/61543662085/45631583367/46211021850/61817804132/41272284062/11450038175/65170851762/65173272565/08158374770/55864635626/01867836258/21155261528/50241473506/13270648563/57176886056/00468727834/88878341614/42516114657/63286236347/85138544161/04372120331/61668836144/03477808556/63636181817/42364060610/08101852735/13300232826/84440130881/36640836233/55531266312/08572412255/54062482128/76174805335/87017866670/37204808737/47563844853/38742658307/38001042820/35653642171/17337853580/22235284845/32762651827/37124504482/74386417547/67416778666/50078283340/13067284747/18850023578/84877032242/22572854334/81035230142/04584811283/65474677457/67586470228/83545341236/06220135304/17413308536/33484087738/11404201268/18417738158/14031147511/28538131115/54425176864/65211321544/83265087413/52554348756/70134541362/71272623301/10333286062/10386660442/62814616261/34441763755/04827674877/10761177413/17434405041/34172167558/66440836534/74854364402/11618537113/03078481761/85664843751/08378577483/75417148366/75763328518/75457578128/44431020572/53772767366/78773464068/04247601732/50708781641/06113462856/47571383882/64738552755/48450017544/20407104288/12256873625/82175211611/18324074375/14825612328/74265848584/26062044444/14755128802/88287874434/76661465438/70240141322/74763672305/74723634037/71464241618/57318720241/82443765278/22243320884/47713776071/20672423451/01542586318/20184350850/81803774672/33443345186/87752517148/41354388364/44166102502/18832032572/02746266426/10014186550/11325473670/41267771114/47203022084 | 9: 10/31/06/06/66/11/51/68/84/68/40 | 9: 77/60/78/01/17/35/64/10/74/53/88/67/44/35/04/74/61/48/10/88/72/81/80/40/54/68/25/71/80/23/23/36/24/35/37/66/73/23/38/10/36/06/02/40/07/45/85/18/53/73/00/27/65/44/50/11/87/52/14/44/26/74/15/20/46/38/86/26/34/27/16/40/22/52/68/06/72/67/28/07/41/87/06/07/33/35/84/23/11/05/67/31/02/74/74/65/34/85/34/34/75/85/86/88/68/11/30/55/37/75/20/86/10/20/42/15/16/76/48/60/50/81/08/04/75/07/66/77
";

fn describes(matrix: &Matrix, line: &str) -> Result<bool, TableFault> {
    let (order, rows, columns) = three_fields(line)?;
    let order = small_number_of(order)?;
    let rows = number_of(rows)?;
    let columns = number_of(columns)?;
    Ok(matrix.field().order() == order && matrix.rows() == rows && matrix.cols() == columns)
}

fn gets(rt: &impl Abort, matrix: &Matrix, line: &str) -> Result<bool, TableFault> {
    let (row, column, wanted) = three_fields(line)?;
    let row = number_of(row)?;
    let column = number_of(column)?;
    assert!(rt; row < matrix.rows() && column < matrix.cols());
    Ok(matrix.get(row, column) == small_number_of(wanted)?)
}

fn gives_row(
    rt: &impl Abort,
    alloc: Global,
    matrix: &Matrix,
    line: &str,
) -> Result<bool, TableFault> {
    let (index, wanted) = two_fields(line)?;
    let index = number_of(index)?;
    assert!(rt; index < matrix.rows());
    is_row(alloc, matrix.row(index), wanted)
}

fn compares(alloc: Global, matrix: &Matrix, line: &str) -> Result<bool, TableFault> {
    let (other, wanted) = two_fields(line)?;
    Ok(is_same_matrix(alloc, matrix, other)? == truth_of(wanted)?)
}

fn makes_identity(rt: &impl Abort, alloc: Global, line: &str) -> Result<bool, TableFault> {
    let (order, rows, wanted) = three_fields(line)?;
    let rows = number_of(rows)?;
    assert!(rt; 1 <= rows && rows <= MAX_ROWS && rows <= MAX_COLUMNS);
    let identity = Matrix::identity(alloc, field_of(order)?, rows);
    is_matrix(alloc, identity, wanted)
}

fn makes_zero(alloc: Global, line: &str) -> Result<bool, TableFault> {
    let (order, rows, columns, wanted) = four_fields(line)?;
    let zero = zeros(alloc, field_of(order)?, rows, columns)?;
    is_matrix(alloc, Ok(zero), wanted)
}

fn appends(
    rt: &impl Abort,
    alloc: Global,
    matrix: &mut Matrix,
    line: &str,
) -> Result<bool, TableFault> {
    let (row, wanted) = two_fields(line)?;
    assert!(rt; matrix.rows() < MAX_ROWS);
    let row = row_of_shape(alloc, row, matrix.field(), matrix.cols())?;
    matrix.append(row)?;
    is_same_matrix(alloc, matrix, wanted)
}

/// Puts the rows of a matrix below those of another, which is of the same shape.
fn append_matrix(
    rt: &impl Abort,
    alloc: Global,
    call: &str,
    matrix: &mut Matrix,
    other: Matrix,
) -> Result<(), Refusal> {
    assert!(rt; other.field() == matrix.field());
    assert!(rt; other.cols() == matrix.cols());
    assert!(rt; matrix.rows() + other.rows() <= MAX_ROWS);
    match call {
        "append_rows" => matrix.append_rows(alloc, &other),
        _ => matrix.append_matrix(other),
    }
}

fn appends_matrix(
    rt: &impl Abort,
    alloc: Global,
    call: &str,
    matrix: &mut Matrix,
    line: &str,
) -> Result<bool, TableFault> {
    let (other, wanted) = two_fields(line)?;
    append_matrix(rt, alloc, call, matrix, matrix_of(alloc, other)?)?;
    is_same_matrix(alloc, matrix, wanted)
}

fn splits(alloc: Global, line: &str) -> Result<bool, TableFault> {
    let (matrix, count, wanted_first, wanted_after) = four_fields(line)?;
    let count = number_of(count)?;
    let (first, after) = matrix_of(alloc, matrix)?.split(count)?;
    Ok(is_same_matrix(alloc, &first, wanted_first)? && is_same_matrix(alloc, &after, wanted_after)?)
}

fn reverses(alloc: Global, matrix: &mut Matrix, line: &str) -> Result<bool, TableFault> {
    matrix.reverse();
    is_same_matrix(alloc, matrix, one_field(line)?)
}

/// Moves a row below those of a matrix, which has its shape.
fn append_row(rt: &impl Abort, matrix: &mut Matrix, row: Row) -> Result<(), Refusal> {
    assert!(rt; row.field() == matrix.field());
    assert!(rt; row.len() == matrix.cols());
    assert!(rt; matrix.rows() < MAX_ROWS);
    matrix.append(row)
}

fn moves_rows(rt: &impl Abort, alloc: Global, line: &str) -> Result<bool, TableFault> {
    let (matrix, wanted) = two_fields(line)?;
    let matrix = matrix_of(alloc, matrix)?;
    let mut moved = Matrix::empty(alloc, *matrix.field(), matrix.cols());
    for row in matrix.into_rows() {
        append_row(rt, &mut moved, row)?;
    }
    is_same_matrix(alloc, &moved, wanted)
}

/// The block of these rows and columns.
fn block_of(
    rt: &impl Abort,
    alloc: Global,
    matrix: &Matrix,
    rows: (usize, usize),
    columns: (usize, usize),
) -> Result<Matrix, Refusal> {
    let (row, last_row) = rows;
    let (column, last_column) = columns;
    assert!(rt; row <= last_row && last_row <= matrix.rows());
    assert!(rt; column < last_column && last_column <= matrix.cols());
    matrix.block(alloc, row, last_row - row, column, last_column - column)
}

fn takes_block(
    rt: &impl Abort,
    alloc: Global,
    matrix: &Matrix,
    line: &str,
) -> Result<bool, TableFault> {
    let (rows, columns, wanted) = three_fields(line)?;
    let block = block_of(rt, alloc, matrix, range_of(rows)?, range_of(columns)?);
    is_matrix(alloc, block, wanted)
}

/// Two columns, which are consecutive or not.
fn takes_columns(
    rt: &impl Abort,
    alloc: Global,
    call: &str,
    matrix: &Matrix,
    line: &str,
) -> Result<bool, TableFault> {
    let columns = matrix.cols();
    assert!(rt; columns >= 2);
    let chosen = match call {
        "last_columns" => matrix.columns_at(alloc, &[columns - 2, columns - 1]),
        _ => matrix.columns_at(alloc, &[columns - 1, 0]),
    };
    is_matrix(alloc, chosen, one_field(line)?)
}

/// The calls that are given a matrix and answer one.
fn gives_matrix(
    alloc: Global,
    call: &str,
    matrix: &Matrix,
    line: &str,
) -> Result<bool, TableFault> {
    let answer = match call {
        "copy" => matrix.copy(alloc),
        "transpose_from_last" => matrix.transpose_from_last(alloc),
        _ => matrix.transpose(alloc),
    };
    is_matrix(alloc, answer, one_field(line)?)
}

/// The calls that are given two matrices and answer one.
fn combines(alloc: Global, call: &str, left: &Matrix, line: &str) -> Result<bool, TableFault> {
    let (right, wanted) = two_fields(line)?;
    let right = matrix_of(alloc, right)?;
    let answer = match call {
        "mul" => left.mul(alloc, &right),
        _ => left.add(alloc, &right),
    };
    is_matrix(alloc, answer, wanted)
}

/// Asserts that a multiple of the product of two matrices can be added to a matrix.
fn assert_fitting(rt: &impl Abort, sum: &Matrix, left: &Matrix, right: &Matrix)
    ensures left_field { left.now.order ≡ sum.now.order }
    ensures right_field { right.now.order ≡ sum.now.order }
    ensures rows { length left.now.rows ≡ length sum.now.rows }
    ensures inner { left.now.cols ≡ length right.now.rows }
    ensures columns { right.now.cols ≡ sum.now.cols }
{
    assert!(rt; left.field() == sum.field());
    assert!(rt; right.field() == sum.field());
    assert!(rt; left.rows() == sum.rows());
    assert!(rt; left.cols() == right.rows());
    assert!(rt; right.cols() == sum.cols());
}

/// Adds the multiple of the product of two matrices to a matrix, all of shapes that fit.
fn add_product(
    rt: &impl Abort,
    alloc: Global,
    sum: &mut Matrix,
    scalar: &str,
    left: &Matrix,
    right: &Matrix,
) -> Result<(), TableFault> {
    assert_fitting(rt, sum, left, right);
    let scalar = element_in(sum.field(), scalar)?;
    Ok(sum.add_product(alloc, scalar, left, right)?)
}

fn adds_to_diagonal(
    rt: &impl Abort,
    alloc: Global,
    matrix: &mut Matrix,
    line: &str,
) -> Result<bool, TableFault> {
    let (scalar, wanted) = two_fields(line)?;
    let scalar = element_in(matrix.field(), scalar)?;
    assert!(rt; matrix.rows() == matrix.cols());
    matrix.add_to_diagonal(scalar);
    is_same_matrix(alloc, matrix, wanted)
}

fn adds_square(
    rt: &impl Abort,
    alloc: Global,
    matrix: &mut Matrix,
    line: &str,
) -> Result<bool, TableFault> {
    let (scalar, wanted) = two_fields(line)?;
    let old = matrix.copy(alloc)?;
    add_product(rt, alloc, matrix, scalar, &old, &old)?;
    is_same_matrix(alloc, matrix, wanted)
}

fn adds_product(
    rt: &impl Abort,
    alloc: Global,
    sum: &mut Matrix,
    line: &str,
) -> Result<bool, TableFault> {
    let (scalar, left, right, wanted) = four_fields(line)?;
    let left = matrix_of(alloc, left)?;
    let right = matrix_of(alloc, right)?;
    add_product(rt, alloc, sum, scalar, &left, &right)?;
    is_same_matrix(alloc, sum, wanted)
}

fn maps_vector(alloc: Global, matrix: &Matrix, line: &str) -> Result<bool, TableFault> {
    let (vector, wanted) = two_fields(line)?;
    let vector = row_of_shape(alloc, vector, matrix.field(), matrix.rows())?;
    is_row_answer(alloc, matrix.vec_mul(alloc, &vector), wanted)
}

/// The calls that are given a matrix first.
fn answers_of_matrix(
    rt: &impl Abort,
    alloc: Global,
    call: &str,
    matrix: &mut Matrix,
    line: &str,
) -> Result<bool, TableFault> {
    match call {
        "shape" => describes(matrix, line),
        "get" => gets(rt, matrix, line),
        "row" => gives_row(rt, alloc, matrix, line),
        "same" => compares(alloc, matrix, line),
        "append" => appends(rt, alloc, matrix, line),
        "append_rows" | "append_matrix" => appends_matrix(rt, alloc, call, matrix, line),
        "reverse" => reverses(alloc, matrix, line),
        "block" => takes_block(rt, alloc, matrix, line),
        "last_columns" | "outer_columns" => takes_columns(rt, alloc, call, matrix, line),
        "copy" | "transpose" | "transpose_from_last" => gives_matrix(alloc, call, matrix, line),
        "mul" | "add" => combines(alloc, call, matrix, line),
        "add_to_diagonal" => adds_to_diagonal(rt, alloc, matrix, line),
        "add_square" => adds_square(rt, alloc, matrix, line),
        "add_product" => adds_product(rt, alloc, matrix, line),
        "vec_mul" => maps_vector(alloc, matrix, line),
        _ => Err(TableFault::NotWritten),
    }
}

/// Whether a call answers what its line says.
pub(crate) fn answers(
    rt: &impl Abort,
    alloc: Global,
    call: &str,
    line: &str,
) -> Result<bool, TableFault> {
    match call {
        "identity" => makes_identity(rt, alloc, line),
        "zero" => makes_zero(alloc, line),
        "split" => splits(alloc, line),
        "into_rows" => moves_rows(rt, alloc, line),
        _ => {
            let (matrix, line) = first_field(line)?;
            answers_of_matrix(rt, alloc, call, &mut matrix_of(alloc, matrix)?, line)
        }
    }
}

#[test]
fn matrices_have_entries(rt: HostRuntime) -> Result<(), TableFault> {
    each_call(&rt, rt.alloc(), Topic::Matrices, ENTRIES)
}

#[test]
fn the_identity_zero_copies_and_blocks_are_made(rt: HostRuntime) -> Result<(), TableFault> {
    each_call(&rt, rt.alloc(), Topic::Matrices, MADE)
}

#[test]
fn matrices_have_sums_products_and_transposes(rt: HostRuntime) -> Result<(), TableFault> {
    each_call(&rt, rt.alloc(), Topic::Matrices, ARITHMETIC)
}

#[test]
fn products_by_tables_are_added(rt: HostRuntime) -> Result<(), TableFault> {
    each_call(&rt, rt.alloc(), Topic::Matrices, PRODUCTS)
}

/// A row of 64 ones over three elements.
const ONES: &str = "3: 1111111111111111111111111111111111111111111111111111111111111111";

/// The matrix of 64 rows and columns over the field of three elements whose entries are all 1.
fn ones(alloc: Global) -> Result<Matrix, TableFault> {
    let mut ones = Matrix::with_capacity(alloc, field_of("3")?, 64, 64)?;
    for _ in 0..64 {
        let row = row_of_shape(alloc, ONES, ones.field(), ones.cols())?;
        if ones.rows() >= MAX_ROWS {
            return Err(TableFault::NotWritten);
        }
        ones.append(row)?;
    }
    Ok(ones)
}

/// Each entry of the product is 64, which is 1 modulo 3. So many entries other than 0 are multiplied by tables.
#[test]
fn ones_times_ones_are_ones(rt: HostRuntime) -> Result<(), TableFault> {
    let alloc = rt.alloc();
    let ones = ones(alloc)?;
    let product = ones.mul(alloc, &ones)?;
    assert!(&rt; product.same(&ones), "a product of ones");
    Ok(())
}

//! Standard forms of modules, and the modules that are matched with them.

use crate::tables::{Topic, each_call};
use crate::values::{is_module, module_of, poly_over};
use axe_iso::{Form, form_of, form_of_owned, matches};
use axe_matrix::Matrix;
use axe_norton::{Verdict, decide};
use axe_poly::Poly;
use axe_spin::Module;
use axe_test_values::{
    TableFault, first_field, four_fields, is_same_matrix, number_of, two_fields,
};
use std::alloc::Global;
use std::process::Abort;

/// The seed of the words, and the number of the last word.
const SEED: u64 = 1;

const WORDS: u32 = 20;

/// An irreducible module, and its form from the first null point of word 0, the last unit vector: the matrices and the
/// basis; `form_of_owned` is given the module away.
const FORMS: &str = "\
form_of | 2: 01/11 | 2: 01/11 | 2: 01/11
# 01 goes to 10 under the first generator.
form_of | 2: 01/10, 2: 01/11 | 2: 01/10, 2: 11/10 | 2: 01/10
form_of | 4: 3 | 4: 3 | 4: 1
form_of_owned | 2: 01/11 | 2: 01/11 | 2: 01/11
form_of_owned | 2: 01/10, 2: 01/11 | 2: 01/10, 2: 11/10 | 2: 01/10
";

/// An irreducible module that a polynomial decides, its form, and the number of the word and the polynomial; here and for
/// the next table the answers are those of another program, which follows the rules by plain loops.
const FORMS_BY_POLYNOMIALS: &str = "\
form_of_poly | 2: 1110010011/0001100000/0001110011/0011101101/0001011000/0001111001/1011010000/0011001001/1011001100/0100001101, 2: 1100000011/1010100100/0001101000/0101111100/0010100001/1100001100/1011000111/0001011000/1100110101/0101100000 | 2: 0100000000/0010000000/0000100000/0000001000/0000000010/1001010011/0100001110/1101011101/1000000010/0010001010, 2: 0010000000/0001000000/0000010000/0000000100/0000000001/1110110011/1001000001/0110010101/0101011111/1001011100 | 2: 0011100111/1111001110/1110111000/0100011001/0101110001/0010100101/1111000100/1000001111/0110100001/0100010101 | 1 | 111
form_of_poly | 3: 0001000/0022022/0011020/1012010/0202111/0020111/1102010, 3: 1201021/0200222/1002210/2210121/2201002/0000112/1101000 | 3: 0100000/2000000/0000100/0000001/2022112/2110120/1112122, 3: 0010000/0001000/0000010/2211020/2112022/1020201/1021000 | 3: 0001202/0011222/2211122/0210220/0110001/0211011/0100112 | 1 | 2011
form_of_poly | 4: 031312/202303/301022/132133/020301/130131, 4: 331310/213100/312012/233032/321103/200312 | 4: 010000/000100/000001/221320/032111/120123, 4: 001000/000010/211133/302123/012322/300000 | 4: 130110/022322/311121/300100/112120/112010 | 1 | 11
form_of_poly | 5: 000040/124321/344134/134100/104114/422023, 5: 320332/032320/423120/324134/230124/434342 | 5: 010000/000100/000001/310230/343011/133403, 5: 001000/000010/334142/130342/323421/003140 | 5: 012212/303334/404421/144421/242013/202022 | 1 | 211
form_of_poly | 7: 35536/14252/25256/51135/31050, 7: 12323/12221/11350/26622/51310 | 7: 01000/00010/50000/61505/25045, 7: 00100/00001/30504/04156/30135 | 7: 11213/12514/01556/41653/20520 | 2 | 61
form_of_poly | 8: 10661/34163/67025/02637/42171, 8: 41177/07672/57247/75047/32734 | 8: 01000/00010/00001/62526/22405, 8: 00100/40220/75640/76761/51201 | 8: 01053/43106/36403/27022/02423 | 1 | 571
form_of_poly | 9: 23827/45743/64538/68455/04522, 9: 21688/75550/31654/06468/37147 | 9: 01000/00010/50000/43627/64442, 9: 00100/00001/08021/58437/86832 | 9: 17556/60585/47006/04082/51644 | 2 | 11
";

/// An irreducible module that a polynomial decides, one that is matched with its form, and the isomorphism. In each pair
/// of lines the first is a conjugate of the module, the second the module with its generators exchanged.
const MATCHES_BY_POLYNOMIALS: &str = "\
matches | 2: 1110010011/0001100000/0001110011/0011101101/0001011000/0001111001/1011010000/0011001001/1011001100/0100001101, 2: 1100000011/1010100100/0001101000/0101111100/0010100001/1100001100/1011000111/0001011000/1100110101/0101100000 | 2: 1101001010/0101110100/1101101111/1100110101/0010111100/1000001100/1100100010/0001001000/0001101001/1011111101, 2: 1100000000/1100110010/0110101010/0110010111/0000000010/1110000100/1000000110/1001000100/0011011001/0011110111 | 2: 0011000011/1011001110/0000010011/1110100110/0010011000/1110101010/0111001100/1100000111/1001000001/0000101000
matches | 2: 1110010011/0001100000/0001110011/0011101101/0001011000/0001111001/1011010000/0011001001/1011001100/0100001101, 2: 1100000011/1010100100/0001101000/0101111100/0010100001/1100001100/1011000111/0001011000/1100110101/0101100000 | 2: 1100000011/1010100100/0001101000/0101111100/0010100001/1100001100/1011000111/0001011000/1100110101/0101100000, 2: 1110010011/0001100000/0001110011/0011101101/0001011000/0001111001/1011010000/0011001001/1011001100/0100001101 | none
matches | 3: 0001000/0022022/0011020/1012010/0202111/0020111/1102010, 3: 1201021/0200222/1002210/2210121/2201002/0000112/1101000 | 3: 2111121/1221020/2202020/1222010/0111110/1112212/1212120, 3: 2022200/0101002/1001112/0112121/1021122/1021010/0021020 | 3: 1120201/2201101/0122021/2001001/1200201/1021112/0020012
matches | 3: 0001000/0022022/0011020/1012010/0202111/0020111/1102010, 3: 1201021/0200222/1002210/2210121/2201002/0000112/1101000 | 3: 1201021/0200222/1002210/2210121/2201002/0000112/1101000, 3: 0001000/0022022/0011020/1012010/0202111/0020111/1102010 | none
matches | 4: 031312/202303/301022/132133/020301/130131, 4: 331310/213100/312012/233032/321103/200312 | 4: 300310/131201/210102/101330/310333/322211, 4: 021333/112301/203131/300232/011002/312332 | 4: 133211/323120/011230/103012/010232/313031
matches | 4: 031312/202303/301022/132133/020301/130131, 4: 331310/213100/312012/233032/321103/200312 | 4: 331310/213100/312012/233032/321103/200312, 4: 031312/202303/301022/132133/020301/130131 | none
matches | 5: 000040/124321/344134/134100/104114/422023, 5: 320332/032320/423120/324134/230124/434342 | 5: 331232/323304/424110/103200/000301/213000, 5: 224001/132240/324342/120410/222133/302443 | 5: 103433/024210/023020/423244/302041/303030
matches | 5: 000040/124321/344134/134100/104114/422023, 5: 320332/032320/423120/324134/230124/434342 | 5: 320332/032320/423120/324134/230124/434342, 5: 000040/124321/344134/134100/104114/422023 | none
matches | 7: 35536/14252/25256/51135/31050, 7: 12323/12221/11350/26622/51310 | 7: 56411/24200/30105/41513/62161, 7: 52646/16134/62313/15513/52640 | 7: 10066/23514/62263/35066/13340
matches | 7: 35536/14252/25256/51135/31050, 7: 12323/12221/11350/26622/51310 | 7: 12323/12221/11350/26622/51310, 7: 35536/14252/25256/51135/31050 | none
matches | 8: 10661/34163/67025/02637/42171, 8: 41177/07672/57247/75047/32734 | 8: 02605/66475/21707/42765/07720, 8: 61177/34535/21414/61517/52176 | 8: 12266/64002/51613/57151/51673
matches | 8: 10661/34163/67025/02637/42171, 8: 41177/07672/57247/75047/32734 | 8: 41177/07672/57247/75047/32734, 8: 10661/34163/67025/02637/42171 | none
matches | 9: 23827/45743/64538/68455/04522, 9: 21688/75550/31654/06468/37147 | 9: 58086/87015/84234/40545/26267, 9: 62441/48726/75881/31252/30802 | 9: 14511/35223/66526/41586/50642
matches | 9: 23827/45743/64538/68455/04522, 9: 21688/75550/31654/06468/37147 | 9: 21688/75550/31654/06468/37147, 9: 23827/45743/64538/68455/04522 | none
";

/// An irreducible module, a module that is matched with its form, and the isomorphism.
const MATCHES: &str = "\
matches | 2: 01/11 | 2: 11/10 | 2: 01/10
# The standard basis of the first point is 01/10, with the matrices 01/10 and 01/11; that of the second is 10/01.
matches | 2: 01/10, 2: 01/11 | 2: 01/10, 2: 11/10 | 2: 10/01
matches | 2: 01/10, 2: 01/11 | 2: 01/10, 2: 01/11 | 2: 01/10
matches | 4: 3 | 4: 2 | none
matches | 4: 3 | 4: 3 | 4: 1
# Another dimension.
matches | 2: 01/11 | 2: 1 | none
matches | 2: 1 | 2: 01/11 | none
# Each point spans a submodule.
matches | 2: 01/11 | 2: 10/01 | none
# Thirteen points, and then fifteen.
matches | 3: 010/001/210, 3: 010/100/001 | 3: 210/121/202, 3: 210/010/111 | 3: 122/220/002
matches | 3: 010/001/210, 3: 010/100/001 | 3: 010/001/110, 3: 010/100/001 | none
matches | 3: 010/001/210, 3: 010/100/001 | 3: 010/100/001, 3: 010/001/210 | none
matches | 2: 0100/0010/0001/1100, 2: 0100/1000/0010/0001 | 2: 0100/0010/0001/1001, 2: 0100/1000/0010/0001 | none
matches | 2: 0100/0010/0001/1100, 2: 0100/1000/0010/0001 | 2: 0100/1000/0010/0001, 2: 0100/0010/0001/1100 | none
matches | 2: 0100/0010/0001/1100 | 2: 1100/0010/0001/1011 | 2: 0001/1011/0110/0011
matches | 2: 0100/0010/0001/1100 | 2: 0100/0010/0001/1001 | none
# Forty points: other words are asked first.
matches | 3: 0100/0010/0001/1001, 3: 0100/1000/0010/0001 | 3: 2100/1210/1111/0212, 3: 2100/0100/1110/1101 | 3: 0112/2112/0012/1202
matches | 3: 0100/0010/0001/1001, 3: 0100/1000/0010/0001 | 3: 0100/0010/0001/1002, 3: 0100/1000/0010/0001 | none
matches | 3: 0100/0010/0001/1001, 3: 0100/1000/0010/0001 | 3: 0100/1000/0010/0001, 3: 0100/0010/0001/1001 | none
# Each word has no null vector, or all points as null vectors.
matches | 3: 0100/0010/0001/1001 | 3: 2100/1210/1111/0212 | 3: 0001/0212/0022/2010
matches | 3: 0100/0010/0001/1001 | 3: 0100/0010/0001/1002 | none
";

/// The form of an irreducible module from the vector by which the words of the seed show that it is irreducible.
fn form_by_words(rt: &impl Abort, alloc: Global, module: &Module) -> Result<Form, TableFault> {
    match decide(alloc, module, SEED, WORDS)? {
        Verdict::Irreducible { word, poly, vector } => {
            let lent = poly.as_ref();
            Ok(form_of(alloc, module, SEED, word, lent, &vector)?)
        }
        Verdict::Reducible(_) => panic!(rt; "a reducible module"),
        Verdict::Undecided => panic!(rt; "a module that all words leave open"),
    }
}

/// The same form of a module that is given away.
fn owned_form_by_words(rt: &impl Abort, alloc: Global, module: Module) -> Result<Form, TableFault> {
    match decide(alloc, &module, SEED, WORDS)? {
        Verdict::Irreducible { word, poly, vector } => {
            let lent = poly.as_ref();
            Ok(form_of_owned(alloc, module, SEED, word, lent, &vector)?)
        }
        Verdict::Reducible(_) => panic!(rt; "a reducible module"),
        Verdict::Undecided => panic!(rt; "a module that all words leave open"),
    }
}

/// Whether the matrices and the basis of a form by word 0 are those of a line.
fn is_form(alloc: Global, form: &Form, line: &str) -> Result<bool, TableFault> {
    let (matrices, basis) = two_fields(line)?;
    Ok(
        form.seed() == SEED
            && form.word() == 0
            && form.poly().is_none()
            && is_module(alloc, form.matrices().copy(alloc), matrices)?
            && is_same_matrix(alloc, form.basis(), basis)?,
    )
}

/// Whether the polynomial of a form is the one with these coefficients, the constant one first.
fn has_poly(alloc: Global, form: &Form, digits: &str) -> Result<bool, TableFault> {
    match form.poly() {
        Some(poly) => Ok(poly.same(&poly_over(alloc, *poly.field(), digits)?)),
        None => Ok(false),
    }
}

/// Whether the matrices and the basis of a form, its word and its polynomial are those of a line.
fn is_form_by_poly(alloc: Global, form: &Form, line: &str) -> Result<bool, TableFault> {
    let (matrices, basis, word, digits) = four_fields(line)?;
    Ok(
        form.seed() == SEED
            && form.word() as usize == number_of(word)?
            && has_poly(alloc, form, digits)?
            && is_module(alloc, form.matrices().copy(alloc), matrices)?
            && is_same_matrix(alloc, form.basis(), basis)?,
    )
}

/// Whether a match is the one that is written so.
fn is_match(alloc: Global, found: &Option<Matrix>, text: &str) -> Result<bool, TableFault> {
    match found {
        Some(isomorphism) => is_same_matrix(alloc, isomorphism, text),
        None => Ok(text == "none"),
    }
}

fn matches_form(
    rt: &impl Abort,
    alloc: Global,
    form: &Form,
    line: &str,
) -> Result<bool, TableFault> {
    let (module, wanted) = two_fields(line)?;
    let module = module_of(alloc, module)?;
    assert!(rt; module.field().order() == form.matrices().field().order());
    assert!(rt; module.gens() == form.matrices().gens());
    is_match(alloc, &matches(alloc, form, &module)?, wanted)
}

/// Whether a call answers what its line says.
pub(crate) fn answers(
    rt: &impl Abort,
    alloc: Global,
    call: &str,
    line: &str,
) -> Result<bool, TableFault> {
    let (module, line) = first_field(line)?;
    let module = module_of(alloc, module)?;
    if call == "form_of_owned" {
        return is_form(alloc, &owned_form_by_words(rt, alloc, module)?, line);
    }
    let form = form_by_words(rt, alloc, &module)?;
    match call {
        "form_of" => is_form(alloc, &form, line),
        "form_of_poly" => is_form_by_poly(alloc, &form, line),
        "matches" => matches_form(rt, alloc, &form, line),
        _ => panic!(rt; "no such call: {call}"),
    }
}

#[test]
fn irreducible_modules_have_forms(rt: HostRuntime) -> Result<(), TableFault> {
    each_call(&rt, rt.alloc(), Topic::Forms, FORMS)
}

#[test]
fn polynomials_give_forms(rt: HostRuntime) -> Result<(), TableFault> {
    each_call(&rt, rt.alloc(), Topic::Forms, FORMS_BY_POLYNOMIALS)
}

#[test]
fn modules_are_matched_by_polynomials(rt: HostRuntime) -> Result<(), TableFault> {
    each_call(&rt, rt.alloc(), Topic::Forms, MATCHES_BY_POLYNOMIALS)
}

#[test]
fn modules_are_matched_with_forms(rt: HostRuntime) -> Result<(), TableFault> {
    each_call(&rt, rt.alloc(), Topic::Forms, MATCHES)
}

//! Norton's test: what a word says of a module, alone or with a polynomial, and what the words of a seed decide.

ghost use Rattle.std.specs.Prelude.{◌≡◌, ◌≤◌, IfOk};
ghost use Rattle.axe_polynomial_algebra.specs.PolynomialsOfLists.{degree_of};
ghost use Rattle.axe_poly.specs.Limits.{greatest_degree};
ghost use Rattle.axe_word.specs.Words.{IsWordIn};

use crate::tables::{Topic, each_call};
use crate::values::{module_of, poly_over};
use axe_matrix::{Matrix, Row};
use axe_norton::{
    At, MAX_WORDS, Verdict, decide, decide_at, decide_poly, decide_poly_where_fits, fits,
};
use axe_poly::{Poly, greatest_degree};
use axe_spin::Module;
use axe_test_values::{
    TableFault, first_field, is_row, is_same_matrix, number_of, small_number_of, three_fields,
    two_fields,
};
use axe_word::{Term, Word};
use std::alloc::Global;
use std::process::Abort;

/// A module, a seed, the number of the last word, and the verdict: `irreducible`, with the polynomial that decided where
/// one did, the word's number and the point; or `reducible`, with the submodule.
const DECIDED: &str = "\
# Each vector spans a submodule; the first point of everything is the last unit vector.
decide | 2: 1000000000/0100000000/0010000000/0001000000/0000100000/0000010000/0000001000/0000000100/0000000010/0000000001 | 1 | 0 | reducible: 2: 0000000001
# The companion matrix of x^10 + x^3 + 1, which is irreducible: there are 1,023 points, and each value is zero or invertible.
# The polynomial of degree 10 of a value that generates the field of 1,024 elements fits it.
decide | 2: 0100000000/0010000000/0001000000/0000100000/0000010000/0000001000/0000000100/0000000010/0000000001/1001000000 | 1 | 0 | undecided
decide | 2: 0100000000/0010000000/0001000000/0000100000/0000010000/0000001000/0000000100/0000000010/0000000001/1001000000 | 1 | 400 | irreducible by 10110000101: 1 and 2: 0000000001
# The same of x^13 + x^4 + x^3 + x + 1, of which each value is zero, or has a polynomial of degree 13 or 1 that doesn't fit.
decide | 2: 0100000000000/0010000000000/0001000000000/0000100000000/0000010000000/0000001000000/0000000100000/0000000010000/0000000001000/0000000000100/0000000000010/0000000000001/1101100000000 | 1 | 400 | undecided
decide | 2: 10/01 | 1 | 0 | reducible: 2: 01
decide | 2: 01/11 | 1 | 0 | irreducible: 0 and 2: 01
# The first point generates everything on both sides, and the last one does not.
decide | 2: 01/10 | 1 | 0 | reducible: 2: 11
";

/// The same of modules of more than 1,000 points that a polynomial decides, or that are reducible; the answers are those
/// of another program, which follows the rules by plain loops.
const DECIDED_BY_POLYNOMIALS: &str = "\
decide | 2: 1000010011/0101110111/1000110001/1111000011/1000101011/1010110010/0000000100/1010011100/1000101000/0101011011, 2: 1101111011/0101101111/1000001010/0000010001/0111010000/0001000100/1010011000/0001111010/0010011100/0111111001 | 1 | 20 | irreducible by 11: 1 and 2: 1110100101
decide | 2: 1101000011/0100001101/0001000000/0011000011/0110010110/1011111011/0010110111/0100000111/1101101001/1011011100, 2: 0110001001/1110001100/0100110011/0101111111/1001011001/1101011111/1100111111/1111110111/0001110101/1100010000 | 1 | 20 | irreducible by 10110100001: 1 and 2: 0000000001
decide | 2: 1000100111/0010011001/1011111011/0000010100/1111101000/1110110011/1100110000/0000000010/1110100100/0101100101, 2: 0111110111/1110000001/0001100000/1000010101/0100001100/0010000010/0101111001/0001000000/0101100100/0011100010 | 1 | 20 | irreducible by 111: 1 and 2: 0000110001
decide | 3: 0001212/2022012/0021122/1022101/0121001/1201110/2202011, 3: 1102210/1022010/2020210/2000212/2212220/0101111/0020011 | 1 | 20 | irreducible by 11: 1 and 3: 0112000
decide | 3: 0111200/2222220/1102002/2021021/0002010/2001122/2002121, 3: 0121221/1022221/2011222/1022012/1100112/1012222/1011211 | 1 | 20 | irreducible by 2011: 1 and 3: 0001011
decide | 3: 0000000/0122001/0002210/1012211/2220002/0000001/0212122, 3: 1000000/0120022/0211111/2122101/1012210/0220112/0222012 | 1 | 20 | reducible: 3: 1000000
decide | 4: 131303/130220/012303/233302/012032/131031, 4: 310300/013002/220230/230001/010312/020332 | 1 | 20 | irreducible by 21: 1 and 4: 101113
decide | 4: 000200/232322/203203/301322/201113/023002, 4: 221010/203323/131032/100331/020222/302223 | 1 | 20 | irreducible by 2231321: 1 and 4: 000001
decide | 5: 211213/124120/340143/242422/114141/232121, 5: 222004/412133/142243/241243/210243/134414 | 1 | 20 | irreducible by 301: 1 and 5: 012424
decide | 5: 114000/433000/130000/112100/421221/424411, 5: 333000/033000/104000/021004/010302/141133 | 1 | 20 | reducible: 5: 100000/010000/001000
decide | 7: 26231/25404/30566/40515/04205, 7: 23222/61301/23520/44032/55551 | 1 | 20 | irreducible by 51: 1 and 7: 11113
decide | 7: 23324/64064/24433/02300/36101, 7: 24426/52053/52413/31464/06135 | 1 | 20 | irreducible by 65551: 1 and 7: 00014
decide | 8: 57436/60537/44536/12414/50230, 8: 43410/63534/22250/41213/05301 | 1 | 20 | irreducible by 2511: 1 and 8: 00104
decide | 8: 24500/37700/35700/52606/01500, 8: 13600/64100/15100/55441/65456 | 1 | 20 | reducible: 8: 10000/01000/00100
decide | 9: 30747/22647/57511/46233/48348, 9: 85718/73557/14644/44754/37601 | 1 | 20 | irreducible by 21: 2 and 9: 12202
decide | 9: 86420/34105/33718/25835/20131, 9: 14151/85456/43661/35884/88478 | 1 | 20 | irreducible by 171: 2 and 9: 01804
";

/// A module, the number of a generator, and what the word says that is this generator.
const SAID: &str = "\
# The one null point 10 generates everything; under the transposes that of the transpose generates 10, to which 01 is orthogonal.
decide_at | 2: 00/01, 2: 11/01 | 0 | reducible: 2: 01
# The generator is invertible, and its polynomial, of degree 2, fits it: the value of that is zero.
decide_at | 2: 01/11 | 0 | irreducible by 111: 2: 01
# x + 1 fits: its value has the one null point 01, which is fixed.
decide_at | 2: 11/01 | 0 | reducible: 2: 01
# x + 2 fits: its null point 10 generates everything; that of the transpose, 10, doesn't under the transposes.
decide_at | 3: 10/02, 3: 11/01 | 0 | reducible: 3: 01
# Two polynomials fit: the first is x + 1, not x + 2 with the null point 11; and x + 1, not x + 4.
decide_at | 3: 01/10 | 0 | reducible: 3: 12
decide_at | 5: 01/10 | 0 | reducible: 5: 14
decide_at | 5: 02/10 | 0 | irreducible by 301: 5: 01
# The polynomial of the first unit vector is x + 1, and all vectors are null vectors of its value.
decide_at | 2: 10/01 | 0 | open
";

/// A module, the number of a generator, the coefficients of a polynomial that fits it, the constant one first, and what
/// the polynomial says by the word that is this generator.
const SAID_BY_POLYNOMIALS: &str = "\
# The value of the polynomial is zero: each vector is null, and the first point generates everything on both sides.
decide_poly | 2: 01/11 | 0 | 111 | irreducible by 111: 2: 01
# The one null point 10 generates everything; under the transposes it is fixed or goes to zero, and 01 is orthogonal to it.
decide_poly | 2: 00/01, 2: 11/01 | 0 | 01 | reducible: 2: 01
# The one null point 01 is fixed.
decide_poly | 2: 11/01 | 0 | 11 | reducible: 2: 01
";

/// A module, the number of a generator, the coefficients of a polynomial, the constant one first, and whether it is
/// irreducible and fits the word that is this generator; or what it says by the word where it does, and else `nothing`.
const FITTING: &str = "\
fits | 2: 01/11 | 0 | 111 | true
# x times x: its value is zero, so that the null space has two dimensions, but it is not irreducible.
fits | 2: 01/00 | 0 | 001 | false
# Nor is the square of x^2 + x + 1, of which the same holds in four dimensions.
fits | 2: 0100/1100/0001/0011 | 0 | 10101 | false
# x + 1 is irreducible: all vectors, of two dimensions, are null vectors of its value, or none but zero is.
fits | 2: 10/01 | 0 | 11 | false
fits | 2: 01/11 | 0 | 11 | false
fits | 9: 3 | 0 | 61 | true
# An irreducible polynomial of the greatest degree, and x^12 + 1.
fits | 2: 010000000000/001000000000/000100000000/000010000000/000001000000/000000100000/000000010000/000000001000/000000000100/000000000010/000000000001/110010100000 | 0 | 1100101000001 | true
fits | 2: 010000000000/001000000000/000100000000/000010000000/000001000000/000000100000/000000010000/000000001000/000000000100/000000000010/000000000001/100000000000 | 0 | 1000000000001 | false
decide_poly_where_fits | 2: 01/11 | 0 | 111 | irreducible by 111: 2: 01
decide_poly_where_fits | 2: 00/01, 2: 11/01 | 0 | 01 | reducible: 2: 01
decide_poly_where_fits | 2: 01/00 | 0 | 001 | nothing
decide_poly_where_fits | 2: 10/01 | 0 | 11 | nothing
";

/// Whether the reduced basis of a submodule is the one that is written so.
fn is_space(alloc: Global, space: &Matrix, text: &str) -> Result<bool, TableFault> {
    match text.split_once(": ") {
        Some(("reducible", wanted)) => is_same_matrix(alloc, space, wanted),
        _ => Ok(false),
    }
}

/// Whether a verdict of an irreducible module is written so: alone, or by the polynomial that decided.
fn is_irreducible_by(alloc: Global, poly: &Option<Poly>, text: &str) -> Result<bool, TableFault> {
    let Some(poly) = poly else {
        return Ok(text == "irreducible");
    };
    match text.split_once(" by ") {
        Some(("irreducible", digits)) => Ok(poly.same(&poly_over(alloc, *poly.field(), digits)?)),
        _ => Ok(false),
    }
}

/// Whether the word that shows a module to be irreducible, the polynomial and the point are those that are written so.
fn is_proof(
    alloc: Global,
    word: u32,
    poly: &Option<Poly>,
    vector: &Row,
    text: &str,
) -> Result<bool, TableFault> {
    let Some((shown, wanted)) = text.split_once(": ") else {
        return Ok(false);
    };
    if !is_irreducible_by(alloc, poly, shown)? {
        return Ok(false);
    }
    let (number, point) = wanted.split_once(" and ").ok_or(TableFault::NotWritten)?;
    let number = number_of(number)?;
    Ok(number == word as usize && is_row(alloc, vector, point)?)
}

/// The number of the last word that is written so.
fn words_of(text: &str) -> Result<u32, TableFault> {
    text.parse::<u32>().map_err(|_| TableFault::NotWritten)
}

/// Whether a verdict is the one that is written so.
fn is_verdict(alloc: Global, verdict: &Verdict, text: &str) -> Result<bool, TableFault> {
    match verdict {
        Verdict::Irreducible { word, poly, vector } => {
            is_proof(alloc, *word, poly, vector, text)
        }
        Verdict::Reducible(space) => is_space(alloc, space, text),
        Verdict::Undecided => Ok(text == "undecided"),
    }
}

fn decides(
    rt: &impl Abort,
    alloc: Global,
    module: &Module,
    line: &str,
) -> Result<bool, TableFault> {
    let (seed, words, wanted) = three_fields(line)?;
    let seed = number_of(seed)? as u64;
    let words = words_of(words)?;
    assert!(rt; words <= MAX_WORDS);
    is_verdict(alloc, &decide(alloc, module, seed, words)?, wanted)
}

/// The word that is a generator of a module.
fn generator_word(rt: &impl Abort, module: &Module, number: u8) -> Word
    ensures { IsWordIn «module».now result }
{
    let word = Word::from_terms(&[Term {
        coefficient: 1,
        gens: &[number],
    }]);
    let word = word.expect(rt, "a word of one term");
    assert!(rt; word.is_word_in(module));
    word
}

/// Whether the polynomial and the point that show a module to be irreducible are those that are written so.
fn is_point(
    alloc: Global,
    poly: &Option<Poly>,
    vector: &Row,
    text: &str,
) -> Result<bool, TableFault> {
    match text.split_once(": ") {
        Some((shown, wanted)) => {
            Ok(is_irreducible_by(alloc, poly, shown)? && is_row(alloc, vector, wanted)?)
        }
        None => Ok(false),
    }
}

/// Whether what a word says is what is written so.
fn is_said(alloc: Global, said: &At, text: &str) -> Result<bool, TableFault> {
    match said {
        At::Irreducible { poly, vector } => is_point(alloc, poly, vector, text),
        At::Reducible(space) => is_space(alloc, space, text),
        At::Left => Ok(text == "open"),
    }
}

fn says(rt: &impl Abort, alloc: Global, module: &Module, line: &str) -> Result<bool, TableFault> {
    let (number, wanted) = two_fields(line)?;
    let word = generator_word(rt, module, small_number_of(number)?);
    is_said(alloc, &decide_at(alloc, module, &word)?, wanted)
}

/// The polynomial over the field of a module, of at most the greatest degree, that is written so.
fn small_poly(
    rt: &impl Abort,
    alloc: Global,
    module: &Module,
    coefficients: &str,
) -> Result<Poly, TableFault>
    ensures field { IfOk result (λ poly. poly.order ≡ «module».now.order) }
    ensures small { IfOk result (λ poly. degree_of poly.coefficients ≤ greatest_degree «module».now.order) }
{
    let poly = poly_over(alloc, *module.field(), coefficients)?;
    assert!(rt; poly.field().order() == module.field().order());
    assert!(rt; poly.degree() <= greatest_degree(module.field()));
    Ok(poly)
}

/// What a polynomial tells of a word that is a generator: whether it fits, or what it says, alone or where it fits.
fn tells_by_poly(
    rt: &impl Abort,
    alloc: Global,
    call: &str,
    module: &Module,
    line: &str,
) -> Result<bool, TableFault> {
    let (number, coefficients, wanted) = three_fields(line)?;
    let word = generator_word(rt, module, small_number_of(number)?);
    let poly = small_poly(rt, alloc, module, coefficients)?;
    let is_fitting = fits(alloc, module, &word, &poly)?;
    if call == "fits" {
        return Ok(wanted == if is_fitting { "true" } else { "false" });
    }
    if call == "decide_poly_where_fits" {
        let said = decide_poly_where_fits(alloc, module, &word, &poly)?;
        return match said {
            Some(said) => is_said(alloc, &said, wanted),
            None => Ok(wanted == "nothing"),
        };
    }
    assert!(rt; is_fitting);
    is_said(alloc, &decide_poly(alloc, module, &word, &poly)?, wanted)
}

/// Whether a call answers what its line says.
pub(crate) fn answers(
    rt: &impl Abort,
    alloc: Global,
    call: &str,
    line: &str,
) -> Result<bool, TableFault> {
    let (module, line) = first_field(line)?;
    let module = module_of(alloc, module)?;
    match call {
        "decide" => decides(rt, alloc, &module, line),
        "decide_at" => says(rt, alloc, &module, line),
        "fits" | "decide_poly" | "decide_poly_where_fits" => {
            tells_by_poly(rt, alloc, call, &module, line)
        }
        _ => Err(TableFault::NotWritten),
    }
}

#[test]
fn words_of_a_seed_decide_modules(rt: HostRuntime) -> Result<(), TableFault> {
    each_call(&rt, rt.alloc(), Topic::Decisions, DECIDED)
}

#[test]
fn polynomials_decide_large_modules(rt: HostRuntime) -> Result<(), TableFault> {
    each_call(&rt, rt.alloc(), Topic::Decisions, DECIDED_BY_POLYNOMIALS)
}

#[test]
fn a_word_says_what_its_value_tells(rt: HostRuntime) -> Result<(), TableFault> {
    each_call(&rt, rt.alloc(), Topic::Decisions, SAID)
}

#[test]
fn a_polynomial_that_fits_a_word_decides(rt: HostRuntime) -> Result<(), TableFault> {
    each_call(&rt, rt.alloc(), Topic::Decisions, SAID_BY_POLYNOMIALS)
}

#[test]
fn a_polynomial_decides_where_it_fits(rt: HostRuntime) -> Result<(), TableFault> {
    each_call(&rt, rt.alloc(), Topic::Decisions, FITTING)
}

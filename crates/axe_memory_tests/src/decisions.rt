//! What words decide of modules, and standard forms and matches of those that are irreducible.

ghost use Rattle.axe_word.specs.Words.{IsWordIn};

use crate::polynomials::poly_of;
use crate::tables::{Topic, each_call, is_row, is_still};
use crate::values::{is_still_module, module_of};
use axe_iso::{Form, form_of, form_of_owned, matches};
use axe_matrix::Refusal;
use axe_norton::{At, Verdict, decide, decide_at, decide_poly, decide_poly_where_fits, fits};
use axe_poly::{Poly, greatest_degree};
use axe_spin::Module;
use axe_test_values::{TableFault, three_fields, two_fields};
use axe_word::{Term, Word};
use std::alloc::Global;
use std::process::Abort;

/// The seed of the words, and the number of the last word.
const SEED: u64 = 1;

const WORDS: u32 = 20;

/// - `irreducible`: a module that word 0 shows to be irreducible, and by which point;
/// - `irreducible_by_poly`: a module that a later word shows to be so by a polynomial, and by which point;
/// - `reducible`: a module that word 0 shows to be reducible, and by which submodule;
/// - `reducible_at`: the same of the word that is the first generator;
/// - `by_poly`: the same of that word by a polynomial that fits its value;
/// - `by_poly_where_fits`: the same, where the polynomial fits it;
/// - `form_of`: a module, and the basis of its standard form;
/// - `form_of_owned`: the same for a module that is given away;
/// - `matches`: a module, one that is matched with its form, and the isomorphism.
const DECIDED: &str = "\
irreducible | 2: 01/11 | 2: 01
irreducible_by_poly | 9: 30747/22647/57511/46233/48348, 9: 85718/73557/14644/44754/37601 | 9: 12202
reducible | 2: 10/01 | 2: 01
reducible_at | 2: 00/01, 2: 11/01 | 2: 01
# By the polynomial x + 1, and by x + 2 under the transposes.
reducible_at | 2: 11/01 | 2: 01
reducible_at | 3: 10/02, 3: 11/01 | 3: 01
by_poly | 2: 11/01 | 2: 11 | 2: 01
by_poly | 3: 10/02, 3: 11/01 | 3: 21 | 3: 01
by_poly_where_fits | 2: 11/01 | 2: 11 | 2: 01
by_poly_where_fits | 3: 10/02, 3: 11/01 | 3: 21 | 3: 01
form_of | 2: 01/11 | 2: 01/11
form_of_owned | 2: 01/11 | 2: 01/11
form_of | 9: 23827/45743/64538/68455/04522, 9: 21688/75550/31654/06468/37147 | 9: 17556/60585/47006/04082/51644
form_of_owned | 9: 23827/45743/64538/68455/04522, 9: 21688/75550/31654/06468/37147 | 9: 17556/60585/47006/04082/51644
matches | 2: 01/11 | 2: 11/10 | 2: 01/10
matches | 9: 23827/45743/64538/68455/04522, 9: 21688/75550/31654/06468/37147 | 9: 58086/87015/84234/40545/26267, 9: 62441/48726/75881/31252/30802 | 9: 14511/35223/66526/41586/50642
";

fn shows_point(alloc: Global, module: &Module, wanted: &str) -> Result<bool, TableFault> {
    match decide(alloc, module, SEED, 0) {
        Ok(
            Verdict::Irreducible {
                word: 0,
                poly: None,
                vector,
            },
        ) => is_row(alloc, Ok(vector), wanted),
        Ok(_) => Ok(false),
        Err(refusal) => Ok(refusal == Refusal::Memory),
    }
}

fn shows_point_by_poly(alloc: Global, module: &Module, wanted: &str) -> Result<bool, TableFault> {
    match decide(alloc, module, SEED, WORDS) {
        Ok(
            Verdict::Irreducible {
                poly: Some(_),
                vector,
                ..
            },
        ) => is_row(alloc, Ok(vector), wanted),
        Ok(_) => Ok(false),
        Err(refusal) => Ok(refusal == Refusal::Memory),
    }
}

fn shows_space(alloc: Global, module: &Module, wanted: &str) -> Result<bool, TableFault> {
    match decide(alloc, module, SEED, 0) {
        Ok(Verdict::Reducible(space)) => is_still(alloc, &space, wanted),
        Ok(_) => Ok(false),
        Err(refusal) => Ok(refusal == Refusal::Memory),
    }
}

/// The word that is the first generator.
fn first_generator(rt: &impl Abort, module: &Module) -> Word
    ensures { IsWordIn «module».now result }
{
    let word = Word::from_terms(&[Term {
        coefficient: 1,
        gens: &[0],
    }]);
    let word = word.expect(rt, "a word of one term");
    assert!(rt; word.is_word_in(module));
    word
}

/// Whether a word says that a module is reducible, by the submodule that is written so, or there is no memory.
fn says_space(alloc: Global, said: Result<At, Refusal>, wanted: &str) -> Result<bool, TableFault> {
    match said {
        Ok(At::Reducible(space)) => is_still(alloc, &space, wanted),
        Ok(_) => Ok(false),
        Err(refusal) => Ok(refusal == Refusal::Memory),
    }
}

/// What a polynomial says of the word that is the first generator, whose value it fits, or what it says where it does.
fn said_by_poly(
    rt: &impl Abort,
    alloc: Global,
    call: &str,
    module: &Module,
    poly: &Poly,
) -> Result<At, Refusal> {
    let word = first_generator(rt, module);
    assert!(rt; poly.field().order() == module.field().order());
    assert!(rt; poly.degree() <= greatest_degree(module.field()));
    if call == "by_poly" {
        assert!(rt; fits(alloc, module, &word, poly)?);
        return decide_poly(alloc, module, &word, poly);
    }
    let said = decide_poly_where_fits(alloc, module, &word, poly)?;
    Ok(said.expect(rt, "a polynomial that fits"))
}

fn says_by_poly(
    rt: &impl Abort,
    alloc: Global,
    call: &str,
    line: &str,
) -> Result<bool, TableFault> {
    let (text, digits, wanted) = three_fields(line)?;
    let module = module_of(alloc, text)?;
    let poly = poly_of(alloc, digits)?;
    let said = said_by_poly(rt, alloc, call, &module, &poly);
    Ok(says_space(alloc, said, wanted)? && is_still_module(alloc, &module, text)?)
}

/// The form of an irreducible module from the vector by which the words of the seed show that it is irreducible.
fn form_by_words(rt: &impl Abort, alloc: Global, module: &Module) -> Result<Form, TableFault> {
    match decide(alloc, module, SEED, WORDS)? {
        Verdict::Irreducible { word, poly, vector } => {
            let lent = poly.as_ref();
            Ok(form_of(alloc, module, SEED, word, lent, &vector)?)
        }
        Verdict::Reducible(_) => panic!(rt; "a reducible module"),
        Verdict::Undecided => panic!(rt; "a module that all words leave open"),
    }
}

/// The same form of a module that is given away.
fn owned_form_by_words(rt: &impl Abort, alloc: Global, module: Module) -> Result<Form, TableFault> {
    match decide(alloc, &module, SEED, WORDS)? {
        Verdict::Irreducible { word, poly, vector } => {
            let lent = poly.as_ref();
            Ok(form_of_owned(alloc, module, SEED, word, lent, &vector)?)
        }
        Verdict::Reducible(_) => panic!(rt; "a reducible module"),
        Verdict::Undecided => panic!(rt; "a module that all words leave open"),
    }
}

fn decides(rt: &impl Abort, alloc: Global, call: &str, line: &str) -> Result<bool, TableFault> {
    let (text, wanted) = two_fields(line)?;
    let module = module_of(alloc, text)?;
    let is_right = match call {
        "irreducible" => shows_point(alloc, &module, wanted)?,
        "irreducible_by_poly" => shows_point_by_poly(alloc, &module, wanted)?,
        "reducible" => shows_space(alloc, &module, wanted)?,
        _ => {
            let said = decide_at(alloc, &module, &first_generator(rt, &module));
            says_space(alloc, said, wanted)?
        }
    };
    Ok(is_right && is_still_module(alloc, &module, text)?)
}

fn forms(rt: &impl Abort, alloc: Global, line: &str) -> Result<bool, TableFault> {
    let (text, wanted) = two_fields(line)?;
    let module = module_of(alloc, text)?;
    let form = form_by_words(rt, alloc, &module)?;
    Ok(is_still(alloc, form.basis(), wanted)? && is_still_module(alloc, &module, text)?)
}

fn owned_forms(rt: &impl Abort, alloc: Global, line: &str) -> Result<bool, TableFault> {
    let (text, wanted) = two_fields(line)?;
    let form = owned_form_by_words(rt, alloc, module_of(alloc, text)?)?;
    is_still(alloc, form.basis(), wanted)
}

fn matches_form(rt: &impl Abort, alloc: Global, line: &str) -> Result<bool, TableFault> {
    let (formed, module, wanted) = three_fields(line)?;
    let form = form_by_words(rt, alloc, &module_of(alloc, formed)?)?;
    let module = module_of(alloc, module)?;
    assert!(rt; module.field().order() == form.matrices().field().order());
    assert!(rt; module.gens() == form.matrices().gens());
    match matches(alloc, &form, &module)? {
        Some(isomorphism) => is_still(alloc, &isomorphism, wanted),
        None => Ok(false),
    }
}

/// Whether a call answers what its line says, or Memory.
pub(crate) fn answers(
    rt: &impl Abort,
    alloc: Global,
    call: &str,
    line: &str,
) -> Result<bool, TableFault> {
    match call {
        "form_of" => forms(rt, alloc, line),
        "form_of_owned" => owned_forms(rt, alloc, line),
        "matches" => matches_form(rt, alloc, line),
        "by_poly" | "by_poly_where_fits" => says_by_poly(rt, alloc, call, line),
        _ => decides(rt, alloc, call, line),
    }
}

#[test]
fn words_decide_or_there_is_no_memory(rt: HostRuntime) {
    each_call(&rt, rt.alloc(), Topic::Decisions, DECIDED);
}

//! Words in the generators of modules: those that terms make, those that are drawn, and their values.
use crate::values::module_of;
use axe_matrix::{Matrix, Refusal};
use axe_spin::Module;
use axe_test_values::{TableFault, is_matrix};
use axe_word::{Term, Word, nth_word};
use rand_core::Rng;
use rand_pcg::Lcg64Xsh32;
use std::alloc::Global;
use std::process::Abort;

/// The word that terms make.
fn word_of(rt: &impl Abort, terms: &[Term]) -> Word {
    Word::from_terms(terms).expect(rt, "no word")
}

/// The value of a word in a module of which it is one.
fn value_of(
    rt: &impl Abort,
    alloc: Global,
    word: &Word,
    module: &Module,
) -> Result<Matrix, Refusal> {
    assert!(rt; word.is_word_in(module));
    word.value(alloc, module)
}

/// A term that a test has drawn.
#[derive(Drop)]
struct Drawn {
    coefficient: u8,
    gens: Vec<u8>,
}

/// A draw modulo a number of at least 1.
fn drawn_below(rt: &impl Abort, generator: &mut Lcg64Xsh32, modulus: u8) -> u8 {
    assert!(rt; modulus >= 1);
    (generator.next_u32() % u32::from(modulus)) as u8
}

/// The next term over the field of nine elements, with two generators.
fn drawn_term(
    rt: &impl Abort,
    alloc: Global,
    generator: &mut Lcg64Xsh32,
) -> Result<Drawn, Refusal> {
    let coefficient = drawn_below(rt, generator, 8);
    assert!(rt; coefficient < 8);
    let mut gens = Vec::new(alloc);
    for _ in 0..drawn_below(rt, generator, 7) {
        gens.push(drawn_below(rt, generator, 2))
            .map_err(|_| Refusal::Memory)?;
    }
    Ok(Drawn {
        coefficient: coefficient + 1,
        gens,
    })
}

/// The terms of a word over the field of nine elements, with two generators.
fn drawn_terms(
    rt: &impl Abort,
    alloc: Global,
    seed: u64,
    number: u64,
) -> Result<Vec<Drawn>, Refusal> {
    let mut generator = Lcg64Xsh32::new(seed, number);
    let mut terms = Vec::new(alloc);
    for _ in 0..=drawn_below(rt, &mut generator, 4) {
        let term = drawn_term(rt, alloc, &mut generator)?;
        terms.push(term).map_err(|_| Refusal::Memory)?;
    }
    Ok(terms)
}

/// The word with the terms that the test has drawn.
fn word_of_drawn(rt: &impl Abort, alloc: Global, drawn: &[Drawn]) -> Result<Word, Refusal> {
    let mut terms = Vec::new(alloc);
    for term in drawn {
        let term = Term {
            coefficient: term.coefficient,
            gens: &term.gens,
        };
        terms.push(term).map_err(|_| Refusal::Memory)?;
    }
    Ok(word_of(rt, &terms))
}

/// Whether a drawn word has the value of the word with the draws of the test.
fn is_drawn_word(
    rt: &impl Abort,
    alloc: Global,
    module: &Module,
    number: u32,
) -> Result<bool, TableFault> {
    let terms = drawn_terms(rt, alloc, 42, u64::from(number))?;
    let wanted = value_of(rt, alloc, &word_of_drawn(rt, alloc, &terms)?, module)?;
    let word = nth_word(42, number, 9, 2);
    let found = value_of(rt, alloc, &word, module)?;
    Ok(found.same(&wanted))
}

#[test]
fn a_value_is_the_sum_of_multiples_of_products(rt: HostRuntime) -> Result<(), TableFault> {
    let alloc = rt.alloc();
    let module = module_of(alloc, "3: 12/01")?;
    let generator = Term {
        coefficient: 2,
        gens: &[0],
    };
    let one = Term {
        coefficient: 1,
        gens: &[],
    };
    let word = word_of(&rt, &[generator, one]);
    let value = value_of(&rt, alloc, &word, &module);
    assert!(&rt; is_matrix(alloc, value, "3: 01/00")?);
    Ok(())
}

#[test]
fn words_are_drawn_by_number(rt: HostRuntime) -> Result<(), TableFault> {
    let alloc = rt.alloc();
    let module = module_of(alloc, "9: 12/01, 9: 10/31")?;
    for number in 1..=100 {
        assert!(&rt;
            is_drawn_word(&rt, alloc, &module, number)?,
            "word {number}"
        );
    }
    Ok(())
}

#[test]
fn word_0_has_no_terms(rt: HostRuntime) {
    let word = nth_word(1, 0, 2, 2);
    assert!(&rt; word.is_empty() && word.len() == 0);
}

#[test]
fn terms_that_make_no_word_are_refused(rt: HostRuntime) {
    let one = Term {
        coefficient: 1,
        gens: &[],
    };
    let zero = Term {
        coefficient: 0,
        gens: &[0],
    };
    let long = Term {
        coefficient: 1,
        gens: &[0, 0, 0, 0, 0, 0, 0],
    };
    assert!(&rt; Word::from_terms(&[one; 4]).is_some());
    assert!(&rt; Word::from_terms(&[one; 5]).is_none());
    assert!(&rt; Word::from_terms(&[one, zero]).is_none());
    assert!(&rt; Word::from_terms(&[long, one]).is_none());
}

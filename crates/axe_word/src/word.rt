//! Words: sums of multiples of products of generators.

ghost use Rattle.std.specs.Prelude.{◌≡◌, ◌≢◌, ◌<◌, ◌≤◌, ◌↔◌, [], ◌∷◌, ◌++◌, length, All, MatchOption, IsTrue};
ghost use Rattle.std.specs.Prelude.{slice_index_or};
ghost use Rattle.axe_word.specs.Limits.{most_terms, most_numbers};
ghost use Rattle.axe_word.specs.Words.{IsWord};
ghost use Rattle.axe_word.specs.Terms.{word_of_terms, IsTerm};

use crate::stored::StoredTerm;
use crate::{MAX_NUMBERS, MAX_TERMS};
use std::marker::Model;

/// A term of a word: a coefficient, the number of an element of a field, and the numbers of the generators whose
/// product, from left to right, it is multiplied with. Generators are counted from 0. The product of no generators is
/// the identity.
#[derive(Debug, Clone, Copy)]
pub struct Term<'a> {
    /// The number of the coefficient.
    pub coefficient: u8,
    /// The numbers of the generators.
    pub gens: &'a [u8],
}

/// A word in the generators of a module: a sum of up to [`MAX_TERMS`] terms, perhaps none, each with a coefficient
/// other than 0 and up to [`MAX_NUMBERS`] generator numbers, perhaps none. It says nothing of the field and of how
/// many generators there are. Terms are counted from 0.
#[derive(Debug, Clone, Copy)]
pub struct Word {
    len: usize,
    terms: [StoredTerm; MAX_TERMS],
}

impl Model for Word {
    ghost use Rattle.axe_word.specs.Words.{WordValue};

    ghost Value = { WordValue };

    ghost use Rattle.std.proofs.Common.{sym};
    ghost use Rattle.axe_word.specs.StoredWords.{stored_word, word_inside, IsStoredWord};

    ghost view = { stored_word };

    ghost invariant = { IsStoredWord };

    ghost inverse = { word_inside };

    ghost inverse_ok = { λ a h. sym h.filled };
}

impl Word {
    /// The word with these terms, or `None` where there are more than [`MAX_TERMS`], or one has the coefficient 0 or
    /// more than [`MAX_NUMBERS`] generator numbers. It takes no memory.
    pub fn from_terms(terms: &[Term]) -> Option<Word>
        ensures { MatchOption result (¬ (IsWord (word_of_terms terms.now)))
            (λ word. (word ≡ word_of_terms terms.now) × IsWord (word_of_terms terms.now)) }
    {
        if terms.len() > MAX_TERMS || !all_fit(terms) {
            return None;
        }
        let mut word = Word::zero();
        for term in terms {
            word.push(StoredTerm::with_numbers(term.coefficient, term.gens));
        }
        Some(word)
    }

    /// The word without terms, whose value is zero.
    pub(crate) fn zero() -> Word
        ensures { result ≡ [] }
    {
        Word {
            len: 0,
            terms: [StoredTerm::new(0); MAX_TERMS],
        }
    }

    /// Appends a term with a coefficient other than 0.
    pub(crate) fn push(&mut self, term: StoredTerm)
        requires room { length self.old < most_terms }
        requires nonzero { term.0 ≢ 0 }
        requires fits { length term.1 ≤ most_numbers }
        ensures { self.new ≡ self.old ++ term ∷ [] }
    {
        self.terms[self.len] = term;
        self.len += 1;
    }

    /// How many terms there are.
    pub fn len(&self) -> usize
        ensures count { result ≡ length self.now }
        ensures well_formed { IsWord self.now }
    {
        self.terms().len()
    }

    /// Whether there are no terms.
    pub fn is_empty(&self) -> bool
        ensures { IsTrue result ↔ (length self.now ≡ 0) }
    {
        self.terms().is_empty()
    }

    /// The term at an index.
    pub fn term(&self, index: usize) -> Term<'_>
        requires { index < length self.now }
        ensures coefficient { result.coefficient ≡ (slice_index_or self.now index (0, [])).0 }
        ensures numbers { result.gens.now ≡ (slice_index_or self.now index (0, [])).1 }
        ensures well_formed { IsWord self.now }
    {
        let term = &self.terms()[index];
        Term {
            coefficient: term.coefficient(),
            gens: term.numbers(),
        }
    }

    /// The terms as they are stored.
    fn terms(&self) -> &[StoredTerm]
        ensures terms { result.now ≡ self.now }
        ensures well_formed { IsWord self.now }
    {
        &self.terms[..self.len]
    }
}

/// Whether each of the terms may stand in a word.
fn all_fit(terms: &[Term]) -> bool
    ensures { IsTrue result ↔ All IsTerm terms.now }
{
    terms.iter().all(|term| term.coefficient != 0 && term.gens.len() <= MAX_NUMBERS)
}

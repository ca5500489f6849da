//! A term of a word, in an array.

ghost use Rattle.std.specs.Prelude.{◌≡◌, ◌<◌, ◌≤◌, [], ◌∷◌, ◌++◌, length};
ghost use Rattle.axe_word.specs.Limits.{most_numbers};

use crate::MAX_NUMBERS;
use std::marker::Model;

/// A term that holds its numbers: a coefficient, and up to [`MAX_NUMBERS`] generator numbers. The places after the last
/// number are 0.
#[derive(Debug, Clone, Copy)]
pub(crate) struct StoredTerm {
    coefficient: u8,
    len: usize,
    places: [u8; MAX_NUMBERS],
}

impl Model for StoredTerm {
    ghost use Rattle.std.specs.Prelude.{ℕ, List};

    ghost Value = { ℕ × List ℕ };

    ghost use Rattle.std.proofs.Common.{sym};
    ghost use Rattle.axe_word.specs.Stored.{stored_term, term_inside, IsStoredTerm};

    ghost view = { stored_term };

    ghost invariant = { IsStoredTerm };

    ghost inverse = { term_inside };

    ghost inverse_ok = { λ a h. sym h.filled };
}

impl StoredTerm {
    /// The term of a coefficient and no numbers.
    pub(crate) fn new(coefficient: u8) -> StoredTerm
        ensures { result ≡ (coefficient, []) }
    {
        StoredTerm {
            coefficient,
            len: 0,
            places: [0; MAX_NUMBERS],
        }
    }

    /// The term of a coefficient and these numbers.
    pub(crate) fn with_numbers(coefficient: u8, numbers: &[u8]) -> StoredTerm
        requires { length numbers.now ≤ most_numbers }
        ensures { result ≡ (coefficient, numbers.now) }
    {
        let mut term = StoredTerm::new(coefficient);
        for number in numbers {
            term.push(*number);
        }
        term
    }

    /// Appends a number.
    pub(crate) fn push(&mut self, number: u8)
        requires { length self.old.1 < most_numbers }
        ensures { self.new ≡ (self.old.0, self.old.1 ++ number ∷ []) }
    {
        self.places[self.len] = number;
        self.len += 1;
    }

    /// The coefficient.
    pub(crate) fn coefficient(&self) -> u8
        ensures { result ≡ self.now.0 }
    {
        self.coefficient
    }

    /// The numbers.
    pub(crate) fn numbers(&self) -> &[u8]
        ensures { result.now ≡ self.now.1 }
    {
        &self.places[..self.len]
    }
}

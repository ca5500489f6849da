//! How many generators a module has, and how many words are tried.
ghost use Rattle.std.specs.Prelude.{◌≡◌, MatchOption};
ghost use Rattle.axe_arguments.specs.Counts.{IsGeneratorCount, IsWordCount};

use crate::{MAX_GENERATORS, MAX_WORDS};
use std::marker::Model;

/// How many generators a module has: 1 to [`MAX_GENERATORS`]. Contracts see it as its number.
#[derive(Debug, Clone, Copy)]
pub struct GeneratorCount {
    number: u8,
}

impl Model for GeneratorCount {
    ghost use Rattle.std.specs.Prelude.{ℕ};
    ghost use Rattle.axe_arguments.specs.Counts.{IsGeneratorCount};

    ghost Value = { ℕ };

    ghost view = { λ count. count.number };

    ghost invariant = { λ count. IsGeneratorCount count.number };

    ghost inverse = { λ number. record { number = number } };
}

impl GeneratorCount {
    /// The count with this number, or `None` where the number is 0 or more than [`MAX_GENERATORS`].
    pub fn new(number: u8) -> Option<GeneratorCount>
        ensures { MatchOption result (¬ (IsGeneratorCount number)) (λ count. count ≡ number) }
    {
        if matches!(number, 1..=MAX_GENERATORS) {
            Some(GeneratorCount { number })
        } else {
            None
        }
    }

    /// The number, 1 to [`MAX_GENERATORS`].
    pub fn get(self) -> u8
        ensures number { result ≡ self }
        ensures range { IsGeneratorCount result }
    {
        self.number
    }
}

/// How many words are tried after word 0: up to [`MAX_WORDS`], perhaps none. Contracts see it as its number.
#[derive(Debug, Clone, Copy)]
pub struct WordCount {
    count: u32,
}

impl Model for WordCount {
    ghost use Rattle.std.specs.Prelude.{ℕ};
    ghost use Rattle.axe_arguments.specs.Counts.{IsWordCount};

    ghost Value = { ℕ };

    ghost view = { λ words. words.count };

    ghost invariant = { λ words. IsWordCount words.count };

    ghost inverse = { λ number. record { count = number } };
}

impl WordCount {
    /// The count with this number, or `None` where the number is more than [`MAX_WORDS`].
    pub fn new(number: u32) -> Option<WordCount>
        ensures { MatchOption result (¬ (IsWordCount number)) (λ count. count ≡ number) }
    {
        if number <= MAX_WORDS {
            Some(WordCount { count: number })
        } else {
            None
        }
    }

    /// The number, at most [`MAX_WORDS`].
    pub fn get(self) -> u32
        ensures number { result ≡ self }
        ensures range { IsWordCount result }
    {
        self.count
    }
}

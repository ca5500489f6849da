//! The entries of a row that stand in one word of its planes.
ghost use Rattle.std.specs.Prelude.{ℕ, ◌≡◌, ◌+◌, ◌*◌, ◌<◌, List, MatchOption, length, slice_index};
ghost use Rattle.axe_algebra.specs.Lists.{listed};
ghost use Rattle.axe_lane.specs.Entries.{AreZerosFrom};
ghost use Rattle.axe_layer.specs.Supports.{IsSupportWord};
ghost use Rattle.axe_plane.specs.NumberWords.{number_of_words};
ghost use Rattle.axe_row.specs.EntryWords.{entries_in_word, IsFoundEntry};

use crate::Row;
use crate::found::entry_of_bits;
use axe_lane::WORD;
use axe_layer::next_in_word;
use std::marker::Model;

/// The 64 entries that stand in one word of a row's planes, 0 where the row has none. A walk over a row's entries reads
/// its planes once for all of them, and finds the next by four words of bits: an entry's number is `low` plus `weight`
/// times `high`, each of these two being below 4 and having two of the bits.
#[derive(Drop)]
pub struct EntryWord {
    ones: u64,
    twos: u64,
    high_ones: u64,
    high_twos: u64,
    weight: u8,
}

impl Model for EntryWord {
    ghost use Rattle.std.specs.Prelude.{ℕ, List};
    ghost use Rattle.axe_row.specs.EntryWords.{weighted_numbers, IsWeight};

    ghost Value = { List ℕ };

    ghost view = { λ a. weighted_numbers a.ones a.twos a.high_ones a.high_twos a.weight };

    ghost invariant = { λ a. IsWeight a.weight };
}

impl Row {
    /// The 64 entries in the word at an index of the row, counted from 0: those from 64 times the index on, and 0 where
    /// there is none.
    #[inline(never)]
    pub fn entry_word(&self, at: usize) -> EntryWord
        ensures { result ≡ entries_in_word self.now.entries at }
    {
        let constant = self.constant.number_words(at);
        let Some(higher) = &self.higher else {
            return EntryWord::of_numbers(constant);
        };
        let linear = higher.linear.number_words(at);
        let nine = self.field.order() == 9;
        if nine {
            return EntryWord::of_trits(constant, linear);
        }
        EntryWord::of_bits(constant, linear, higher.quadratic.number_words(at))
    }
}

impl EntryWord {
    /// The place of the first entry other than 0 from a place of the word on, counted from 0, and that entry; `None`
    /// where every entry of the word from there on is 0.
    #[inline(always)]
    pub fn next(&self, place: usize) -> Option<(usize, u8)>
        ensures { MatchOption result (AreZerosFrom self.now place)
            (λ found. IsFoundEntry self.now place found.0 found.1) }
    {
        let support = self.support();
        if place >= WORD {
            return None;
        }
        let Some(found) = next_in_word(support, place) else {
            return None;
        };
        Some((found, self.entry(found)))
    }

    /// The word of the places whose entries are other than 0.
    #[inline(always)]
    fn support(&self) -> u64
        ensures support { IsSupportWord self.now 0 result }
        ensures long { length self.now ≡ 64 }
    {
        self.ones | self.twos | self.high_ones | self.high_twos
    }

    /// The entry at a place.
    #[inline(always)]
    fn entry(&self, place: usize) -> u8
        requires { place < 64 }
        ensures { result ≡ slice_index self.now place }
    {
        let low = entry_of_bits(self.ones, self.twos, 0, place);
        let high = entry_of_bits(self.high_ones, self.high_twos, 0, place);
        low + self.weight * high
    }

    /// The word of the numbers that three words of bits have.
    #[inline(always)]
    fn of_numbers(words: [u64; 3]) -> EntryWord
        ensures { result ≡ listed 64 (number_of_words words) }
    {
        EntryWord {
            ones: words[0],
            twos: words[1],
            high_ones: words[2],
            high_twos: 0,
            weight: 4,
        }
    }

    /// The word of the numbers of elements of which the words of the coefficients of 1, x and x^2 modulo 2 are given.
    #[inline(always)]
    fn of_bits(constant: [u64; 3], linear: [u64; 3], quadratic: [u64; 3]) -> EntryWord
        requires constant { (i : ℕ) → i < 64 → number_of_words constant i < 2 }
        requires linear { (i : ℕ) → i < 64 → number_of_words linear i < 2 }
        requires quadratic { (i : ℕ) → i < 64 → number_of_words quadratic i < 2 }
        ensures { result ≡ listed 64 (λ i. number_of_words constant i
            + 2 * (number_of_words linear i + 2 * number_of_words quadratic i)) }
    {
        EntryWord {
            ones: constant[0],
            twos: linear[0],
            high_ones: quadratic[0],
            high_twos: 0,
            weight: 4,
        }
    }

    /// The word of the numbers of elements of which the words of the coefficients of 1 and x modulo 3 are given.
    #[inline(always)]
    fn of_trits(constant: [u64; 3], linear: [u64; 3]) -> EntryWord
        requires constant { (i : ℕ) → i < 64 → number_of_words constant i < 3 }
        requires linear { (i : ℕ) → i < 64 → number_of_words linear i < 3 }
        ensures { result ≡ listed 64 (λ i. number_of_words constant i + 3 * number_of_words linear i) }
    {
        EntryWord {
            ones: constant[0],
            twos: constant[1],
            high_ones: linear[0],
            high_twos: linear[1],
            weight: 3,
        }
    }
}

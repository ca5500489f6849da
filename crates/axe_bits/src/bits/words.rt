//! The words of a plane of digits modulo 2, one at a time.
ghost use Rattle.std.specs.Int.{bit_at};
ghost use Rattle.std.specs.Prelude.{ℕ, ◌≡◌, ◌+◌, ◌*◌, ◌<◌, slice_index};
ghost use Rattle.axe_layer.specs.Words.{digits_with_word};

use super::BitPlane;
use axe_lane::WORD;
use axe_layer::lowest;

impl BitPlane {
    /// The word at an index, counted from 0: its bit i, counted from the lowest, is the digit 64 times the index plus
    /// i, and 0 where there is no digit.
    #[inline(always)]
    pub fn word(&self, at: usize) -> u64
        ensures { (i : ℕ) → i < 64 → bit_at result i ≡ slice_index self.now (at * 64 + i) }
    {
        if at < self.words.len() {
            self.words[at]
        } else {
            0
        }
    }

    /// Makes the bits of a word the digits of the word at an index; all others stay. Bits that have no digit are
    /// dropped.
    #[inline]
    pub fn set_word(&mut self, at: usize, word: u64)
        ensures { self.new ≡ digits_with_word self.old at (bit_at word) }
    {
        if at < self.words.len() {
            self.words[at] = lowest(word, self.len - at * WORD);
        }
    }
}

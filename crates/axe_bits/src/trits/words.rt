//! The words of a plane of digits modulo 3, one of each layer at a time.
ghost use Rattle.std.specs.Int.{bit_at};
ghost use Rattle.std.specs.Prelude.{ℕ, ◌≡◌, ◌+◌, ◌*◌, ◌/◌, ◌<◌, length, slice_index};
ghost use Rattle.axe_layer.specs.Bits.{bits, HoldsBits};
ghost use Rattle.axe_layer.specs.Words.{digit_of_words, digits_with_word};

use super::TritPlane;
use axe_lane::WORD;
use axe_layer::lowest;

impl TritPlane {
    /// The words of the ones and of the twos at an index, counted from 0: digit i of these two is the plane's digit 64
    /// times the index plus i, and 0 where there is no digit. It stands apart so that the words of any plane are read
    /// in few steps modulo 2.
    #[inline(never)]
    pub fn digit_words(&self, at: usize) -> [u64; 2]
        ensures { (i : ℕ) → i < 64 → digit_of_words result i ≡ slice_index self.now (at * 64 + i) }
    {
        let (ones, twos) = self.layers();
        if at < ones.len() {
            [ones[at], twos[at]]
        } else {
            [0, 0]
        }
    }

    /// Makes the digits of two words those of the words at an index; all others stay. Digits past the end are dropped.
    /// It stands apart as `digit_words` does.
    #[inline(never)]
    pub fn set_digit_words(&mut self, at: usize, words: [u64; 2])
        requires { (i : ℕ) → i < 64 → digit_of_words words i < 3 }
        ensures { self.new ≡ digits_with_word self.old at (digit_of_words words) }
    {
        let (len, width) = (self.len, self.words.len() / 2);
        if at < width {
            let (ones, twos) = self.words.split_at_mut(width);
            set_word_in(ones, len, at, words[0]);
            set_word_in(twos, len, at, words[1]);
        }
    }
}

/// Makes the bits of a word those of the word at an index of a layer of `len` digits; all others stay. Bits past the
/// end are dropped.
#[inline]
fn set_word_in(words: &mut [u64], len: usize, at: usize, word: u64)
    requires long { length words.old ≡ (len + 63) / 64 }
    requires within { at < length words.old }
    ensures holds { HoldsBits len words.old → HoldsBits len words.new }
    ensures digits { bits len words.new ≡ digits_with_word (bits len words.old) at (bit_at word) }
{
    words[at] = lowest(word, len - at * WORD);
}

//! The words of a plane modulo 2 or 3, those at one index at a time.
ghost use Rattle.std.specs.Prelude.{ℕ, ◌≡◌, ◌+◌, ◌*◌, ◌<◌, ◌≤◌, slice_index};
ghost use Rattle.axe_layer.specs.Words.{digit_of_words, digits_with_word};
ghost use Rattle.axe_plane.specs.Planes.{prime_of_plane, digits_of, IsPlane};

use crate::Plane;

impl Plane {
    /// The two words at an index of a plane modulo 2 or 3, counted from 0: digit i of these is the plane's digit 64
    /// times the index plus i, and 0 where there is no digit. Modulo 2 the second word is 0.
    #[inline(always)]
    pub fn digit_words(&self, at: usize) -> [u64; 2]
        requires { prime_of_plane self.now ≤ 3 }
        ensures { (i : ℕ) → i < 64 → digit_of_words result i ≡ slice_index (digits_of self.now) (at * 64 + i) }
    {
        match self {
            Plane::Bits(plane) => [plane.word(at), 0],
            Plane::Trits(plane) => plane.digit_words(at),
            Plane::Bytes(_) => unreachable!(),
        }
    }

    /// Makes the digits of two words those of the words at an index of a plane modulo 2 or 3; all others stay. Digits
    /// past the end are dropped.
    #[inline(always)]
    pub fn set_digit_words(&mut self, at: usize, words: [u64; 2])
        requires prime { prime_of_plane self.old ≤ 3 }
        requires digits { (i : ℕ) → i < 64 → digit_of_words words i < prime_of_plane self.old }
        ensures { IsPlane (prime_of_plane self.old)
            (digits_with_word (digits_of self.old) at (digit_of_words words)) self.new }
    {
        match self {
            Plane::Bits(plane) => plane.set_word(at, words[0]),
            Plane::Trits(plane) => plane.set_digit_words(at, words),
            Plane::Bytes(_) => unreachable!(),
        }
    }
}

//! The entries of a row other than 0, one after another.
ghost use Rattle.std.specs.Prelude.{◌≡◌, ◌*◌, ◌≤◌, length, MatchOption};
ghost use Rattle.axe_lane.specs.Entries.{AreZerosFrom, IsNextNonzero};
ghost use Rattle.axe_layer.specs.Supports.{restricted, IsSupportWord};

use crate::{BitPlane, Row};
use axe_lane::WORD;
use axe_layer::next_in_word;

impl Row {
    /// The index of the first entry other than 0 from an index on, counted from 0, or `None` where every entry from
    /// there on is 0.
    #[inline]
    pub fn next_nonzero(&self, start: usize) -> Option<usize>
        requires { start ≤ length self.now.entries }
        ensures { MatchOption result (AreZerosFrom self.now.entries start) (IsNextNonzero self.now.entries start) }
    {
        if self.field.degree() == 1 {
            return self.constant.next_nonzero(start);
        }
        self.next_by_words(start)
    }

    /// The index of the first entry other than 0 from the word at an index on, among the places where a list of as
    /// many digits modulo 2 has a 1. It stands apart so that a search that ends in its first word is short.
    #[inline(never)]
    pub(crate) fn next_within_from(&self, first: usize, places: &BitPlane) -> Option<usize>
        requires { length places.now ≡ length self.now.entries }
        ensures { MatchOption result (AreZerosFrom (restricted places.now self.now.entries) (first * 64))
            (IsNextNonzero (restricted places.now self.now.entries) (first * 64)) }
    {
        for at in first..self.len().div_ceil(WORD) {
            if let Some(index) = next_in_word(self.support_within(at, places), at * WORD) {
                return Some(index);
            }
        }
        None
    }

    /// The word at an index of the row's support, of which those places stay where a list of as many digits modulo 2
    /// has a 1.
    #[inline(always)]
    fn support_within(&self, at: usize, places: &BitPlane) -> u64
        ensures { IsSupportWord (restricted places.now self.now.entries) at result }
    {
        self.support_word(at) & places.word(at)
    }

    /// The index of the first entry other than 0 from an index on, by the words of the row's support. It stands apart
    /// so that `next_nonzero` is short over prime fields.
    #[inline(never)]
    fn next_by_words(&self, start: usize) -> Option<usize>
        requires { start ≤ length self.now.entries }
        ensures { MatchOption result (AreZerosFrom self.now.entries start) (IsNextNonzero self.now.entries start) }
    {
        for at in start / WORD..self.len().div_ceil(WORD) {
            let word = self.support_word(at);
            if let Some(index) = next_in_word(word, start.max(at * WORD)) {
                return Some(index);
            }
        }
        None
    }

    /// The word at an index of the row's support, counted from 0: its bit i, counted from the lowest, is 0 exactly
    /// where the entry 64 times the index plus i is 0 or missing.
    #[inline(always)]
    pub fn support_word(&self, at: usize) -> u64
        ensures { IsSupportWord self.now.entries at result }
    {
        let Some(_) = &self.higher else {
            return self.constant.support_word(at);
        };
        self.support_by_planes(at)
    }

    /// The word at an index of the row's support, by those of its planes. It stands apart so that `support_word` is
    /// short over prime fields.
    #[inline(never)]
    fn support_by_planes(&self, at: usize) -> u64
        ensures { IsSupportWord self.now.entries at result }
    {
        let constant = self.constant.support_word(at);
        let Some(higher) = &self.higher else {
            return constant;
        };
        let linear = higher.linear.support_word(at);
        constant | linear | higher.quadratic.support_word(at)
    }
}

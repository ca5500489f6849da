//! Words of the support of a list of numbers, one at a time: the places of the numbers other than 0.
ghost use Rattle.std.specs.Prelude.{ℕ, List, ◌≡◌, ◌+◌, ◌*◌, ◌/◌, cond, eqb, MatchOption};
ghost use Rattle.std.specs.Int.{bit_at, trailing_zeros, w64};
ghost use Rattle.axe_lane.specs.Entries.{AreZerosBetween, IsNextNonzero};
ghost use Rattle.axe_layer.specs.Supports.{AreFewerThanFour, AreNextFour, IsSupportWord};

use axe_lane::WORD;

/// The index of the first place from an index on that a word of a support has, where the index stands in that word;
/// `None` where the word has no such place.
#[inline(always)]
pub fn next_in_word(word: u64, start: usize) -> Option<usize>
    ensures { (numbers : List ℕ) → IsSupportWord numbers (start / 64) word →
        MatchOption result (AreZerosBetween numbers start ((start / 64 + 1) * 64)) (IsNextNonzero numbers start) }
{
    let rest = word >> (start % WORD);
    if rest == 0 {
        return None;
    }
    Some(start + rest.trailing_zeros() as usize)
}

/// The indices of the first four places from an index on that a word of a support has, where the index stands in that
/// word; `None` where the word has fewer.
#[inline(always)]
pub fn four_in_word(word: u64, start: usize) -> Option<[usize; 4]>
    ensures { (numbers : List ℕ) → IsSupportWord numbers (start / 64) word →
        MatchOption result (AreFewerThanFour numbers start ((start / 64 + 1) * 64)) (AreNextFour numbers start) }
{
    let first = word >> (start % WORD);
    let second = without_lowest(first);
    let third = without_lowest(second);
    let fourth = without_lowest(third);
    if fourth == 0 {
        return None;
    }
    Some([
        start + first.trailing_zeros() as usize,
        start + second.trailing_zeros() as usize,
        start + third.trailing_zeros() as usize,
        start + fourth.trailing_zeros() as usize,
    ])
}

/// The word with 0 in the place of its lowest bit that is 1; 0 where it has none.
#[inline(always)]
fn without_lowest(word: u64) -> u64
    ensures { (i : ℕ) → bit_at result i ≡ cond (eqb i (trailing_zeros w64 word)) 0 (bit_at word i) }
{
    word & word.wrapping_sub(1)
}

//! The entries of a row other than 0 among chosen places, each with its index.
ghost use Rattle.std.specs.Int.{bit_at};
ghost use Rattle.std.specs.Prelude.{ℕ, ◌≡◌, ◌≢◌, ◌+◌, ◌*◌, ◌/◌, ◌<◌, ◌≤◌, IfSome, MatchOption, length, slice_index};
ghost use Rattle.axe_field.specs.Order.{degree_of, IsElement};
ghost use Rattle.axe_lane.specs.Entries.{AreZerosFrom};
ghost use Rattle.axe_layer.specs.Supports.{restricted, IsSupportWord};
ghost use Rattle.axe_layer.specs.Words.{digit_of_words};
ghost use Rattle.axe_row.specs.FoundEntries.{IsNextEntry, TellsNextEntry, HoldBitWords, HoldTritWords};
ghost use Rattle.axe_row.specs.Rows.{IsRow};

use crate::{BitPlane, Row};
use axe_bits::TritPlane;
use axe_lane::WORD;
use axe_layer::next_in_word;
use axe_plane::{BytePlane, Plane};

impl Row {
    /// The index of the first entry other than 0 from an index on, among the places where a list of as many digits
    /// modulo 2 has a 1, and that entry; `None` where there is none.
    #[inline(always)]
    pub fn next_entry_within(&self, start: usize, places: &BitPlane) -> Option<(usize, u8)>
        requires start { start ≤ length self.now.entries }
        requires fits { length places.now ≡ length self.now.entries }
        ensures found { MatchOption result (AreZerosFrom (restricted places.now self.now.entries) start)
            (λ found. IsNextEntry places.now self.now.entries start found.0 found.1) }
        ensures element { IfSome result (λ found. IsElement self.now.order found.1) }
    {
        let (index, entry) = self.entry_from(start, places);
        if entry == 0 {
            return None;
        }
        Some((index, entry))
    }

    /// The index that `next_entry_within` finds, and the entry there, which is 0 where there is none: so both come in
    /// registers.
    #[inline(always)]
    fn entry_from(&self, start: usize, places: &BitPlane) -> (usize, u8)
        requires start { start ≤ length self.now.entries }
        requires fits { length places.now ≡ length self.now.entries }
        ensures told { TellsNextEntry places.now self.now.entries start result.0 result.1 }
        ensures well_formed { IsRow self.now }
    {
        let Some(_) = &self.higher else {
            return self.entry_of_plane(start, places);
        };
        self.entry_by_planes(start, places)
    }

    /// The next entry among places over a prime field, whose rows keep one plane, by the word in which the index stands:
    /// mostly it is found in fewer instructions than a call takes.
    #[inline(always)]
    fn entry_of_plane(&self, start: usize, places: &BitPlane) -> (usize, u8)
        requires prime { degree_of self.now.order ≡ 1 }
        requires start { start ≤ length self.now.entries }
        requires fits { length places.now ≡ length self.now.entries }
        ensures { TellsNextEntry places.now self.now.entries start result.0 result.1 }
    {
        let at = start / WORD;
        match &self.constant {
            Plane::Bits(plane) => self.entry_in_bits(plane.word(at), 0, 0, start, places),
            Plane::Trits(plane) => {
                self.entry_in_trits(words_of_trits(plane, at), [0, 0], start, places)
            }
            Plane::Bytes(plane) => self.entry_in_bytes(plane, start, places),
        }
    }

    /// The next entry among places over a field that is not prime, by the words of its planes in which the index
    /// stands. It stands apart so that a caller is short.
    #[inline(never)]
    fn entry_by_planes(&self, start: usize, places: &BitPlane) -> (usize, u8)
        requires start { start ≤ length self.now.entries }
        requires fits { length places.now ≡ length self.now.entries }
        ensures { TellsNextEntry places.now self.now.entries start result.0 result.1 }
    {
        let at = start / WORD;
        let Some(higher) = &self.higher else {
            return self.entry_by_support(start, places);
        };
        match (&self.constant, &higher.linear, &higher.quadratic) {
            (Plane::Bits(constant), Plane::Bits(linear), Plane::Bits(quadratic)) => {
                let (c, l, q) = (constant.word(at), linear.word(at), quadratic.word(at));
                self.entry_in_bits(c, l, q, start, places)
            }
            // Over nine elements there are no coefficients of x^2.
            (Plane::Trits(constant), Plane::Trits(linear), _) => {
                let (c, l) = (words_of_trits(constant, at), words_of_trits(linear, at));
                self.entry_in_trits(c, l, start, places)
            }
            _ => self.entry_by_support(start, places),
        }
    }

    /// The next entry among places, by the word of the row's support in which the index stands. It stands apart so that
    /// `entry_by_planes` keeps no frame for the bytes that a support is made of.
    #[inline(never)]
    fn entry_by_support(&self, start: usize, places: &BitPlane) -> (usize, u8)
        requires start { start ≤ length self.now.entries }
        requires fits { length places.now ≡ length self.now.entries }
        ensures { TellsNextEntry places.now self.now.entries start result.0 result.1 }
    {
        self.entry_in_support(self.support_word(start / WORD), start, places)
    }

    /// The next entry among places over a field of characteristic 2, by the words of its coefficients in which the
    /// index stands.
    #[inline(always)]
    fn entry_in_bits(
        &self,
        constant: u64,
        linear: u64,
        quadratic: u64,
        start: usize,
        places: &BitPlane,
    ) -> (usize, u8)
        requires words { HoldBitWords self.now.entries (start / 64) constant linear quadratic }
        requires start { start ≤ length self.now.entries }
        requires fits { length places.now ≡ length self.now.entries }
        ensures { TellsNextEntry places.now self.now.entries start result.0 result.1 }
    {
        let marks = places.word(start / WORD);
        if let Some(index) = next_in_word((constant | linear | quadratic) & marks, start) {
            return (
                index,
                entry_of_bits(constant, linear, quadratic, index % WORD),
            );
        }
        self.entry_in_later_words(start / WORD + 1, places)
    }

    /// The next entry among places over a field of characteristic 3, by the words of its coefficients in which the
    /// index stands.
    #[inline(always)]
    fn entry_in_trits(
        &self,
        constant: [u64; 2],
        linear: [u64; 2],
        start: usize,
        places: &BitPlane,
    ) -> (usize, u8)
        requires words { HoldTritWords self.now.entries (start / 64) constant linear }
        requires start { start ≤ length self.now.entries }
        requires fits { length places.now ≡ length self.now.entries }
        ensures { TellsNextEntry places.now self.now.entries start result.0 result.1 }
    {
        let support = constant[0] | constant[1] | linear[0] | linear[1];
        let marks = places.word(start / WORD);
        if let Some(index) = next_in_word(support & marks, start) {
            return (index, entry_of_trits(constant, linear, index % WORD));
        }
        self.entry_in_later_words(start / WORD + 1, places)
    }

    /// The next entry among places over a field of five or seven elements. Most entries of a row that is not sparse are
    /// other than 0, so that of the very next place is looked at first, and only then the 64 bytes of the support's
    /// word.
    #[inline(always)]
    fn entry_in_bytes(&self, plane: &BytePlane, start: usize, places: &BitPlane) -> (usize, u8)
        requires plane { plane.now.digits ≡ self.now.entries }
        requires start { start ≤ length self.now.entries }
        requires fits { length places.now ≡ length self.now.entries }
        ensures { TellsNextEntry places.now self.now.entries start result.0 result.1 }
    {
        if let Some(first) = next_in_word(places.word(start / WORD), start) {
            let entry = plane.get(first);
            if entry != 0 {
                return (first, entry);
            }
        }
        self.entry_in_support(plane.support_word(start / WORD), start, places)
    }

    /// The next entry among places, where the word of the row's support is given in which the index stands.
    #[inline(never)]
    fn entry_in_support(&self, support: u64, start: usize, places: &BitPlane) -> (usize, u8)
        requires support { IsSupportWord self.now.entries (start / 64) support }
        requires start { start ≤ length self.now.entries }
        requires fits { length places.now ≡ length self.now.entries }
        ensures { TellsNextEntry places.now self.now.entries start result.0 result.1 }
    {
        if let Some(index) = next_in_word(support & places.word(start / WORD), start) {
            return (index, self.get(index));
        }
        self.entry_in_later_words(start / WORD + 1, places)
    }

    /// The next entry among places from the word at an index on. It stands apart so that a search that ends in its first
    /// word is short.
    #[inline(never)]
    fn entry_in_later_words(&self, first: usize, places: &BitPlane) -> (usize, u8)
        requires { length places.now ≡ length self.now.entries }
        ensures { TellsNextEntry places.now self.now.entries (first * 64) result.0 result.1 }
    {
        match self.next_within_from(first, places) {
            Some(index) => (index, self.get(index)),
            None => (0, 0),
        }
    }
}

/// The number of the element whose coefficients of 1, x and x^2 modulo 2 three words have at a place.
#[inline(always)]
pub(crate) fn entry_of_bits(constant: u64, linear: u64, quadratic: u64, place: usize) -> u8
    requires { place < 64 }
    ensures { result ≡ bit_at constant place + 2 * bit_at linear place + 4 * bit_at quadratic place }
{
    let first = (constant >> place & 1) as u8;
    let second = (linear >> place & 1) as u8;
    let third = (quadratic >> place & 1) as u8;
    first + 2 * second + 4 * third
}

/// The number of the element whose coefficients of 1 and x modulo 3 two pairs of words have at a place.
#[inline(always)]
pub(crate) fn entry_of_trits(constant: [u64; 2], linear: [u64; 2], place: usize) -> u8
    requires { place < 64 }
    ensures { result ≡ digit_of_words constant place + 3 * digit_of_words linear place }
{
    let low = entry_of_bits(constant[0], constant[1], 0, place);
    let high = entry_of_bits(linear[0], linear[1], 0, place);
    low + 3 * high
}

/// The words of the ones and of the twos of a plane at an index, as [`TritPlane::digit_words`] gives them, but without
/// a call: a search reads them at each step.
#[inline(always)]
pub(crate) fn words_of_trits(plane: &TritPlane, at: usize) -> [u64; 2]
    ensures { (i : ℕ) → i < 64 → digit_of_words result i ≡ slice_index plane.now (at * 64 + i) }
{
    let (ones, twos) = plane.layers();
    if at < ones.len() {
        [ones[at], twos[at]]
    } else {
        [0, 0]
    }
}

//! What is done to rows over a field that is known where it is called: so no order and no kind of planes is told apart
//! there.
ghost use Rattle.std.specs.Prelude.{ℕ, ◌≡◌, ◌≢◌, ◌+◌, ◌*◌, ◌<◌, ◌≤◌, IfSome, MatchOption, length, slice_index};
ghost use Rattle.axe_field.specs.Order.{IsElement, order_number, prime_of};
ghost use Rattle.axe_lane.specs.Entries.{AreZerosBefore, AreZerosFrom};
ghost use Rattle.axe_layer.specs.Supports.{restricted, IsSupportWord};
ghost use Rattle.axe_layer.specs.Words.{digit_of_words};
ghost use Rattle.axe_plane.specs.Planes.{digits_of, prime_of_plane};
ghost use Rattle.axe_row.specs.BitBlocks.{bits_after, bits_of_word};
ghost use Rattle.axe_row.specs.EntryWords.{entries_in_word};
ghost use Rattle.axe_row.specs.FoundEntries.{IsNextEntry, HoldTritWords};
ghost use Rattle.axe_row.specs.Operations.{row_with_multiple};
ghost use Rattle.axe_row.specs.Rows.{IsRow};

use crate::Row;
use crate::found::{entry_of_trits, words_of_trits};
use crate::planes::{add_bits, add_digits, add_planes_in};
use axe_lane::WORD;
use axe_layer::next_in_word;
use axe_plane::{BytePlane, Plane};

impl Row {
    /// Adds a multiple of another row over a field of Q elements, as [`Row::add_scaled_from`] does. Over two elements
    /// the scalar is 1.
    #[inline(always)]
    pub fn add_scaled_in<const Q: u8>(&mut self, start: usize, scalar: u8, other: &Row)
        requires order { order_number self.old.order ≡ Q }
        requires within { start ≤ length self.old.entries }
        requires field { other.now.order ≡ self.old.order }
        requires fits { length other.now.entries ≡ length self.old.entries }
        requires element { IsElement self.old.order scalar }
        requires nonzero { order_number self.old.order ≡ 2 → scalar ≢ 0 }
        requires zeros { AreZerosBefore other.now.entries start }
        ensures sum { self.new ≡ row_with_multiple self.old scalar other.now }
        ensures as_long { length self.new.entries ≡ length self.old.entries }
        ensures well_formed { IsRow self.new }
    {
        if Q == 2 {
            add_bits(start, &mut self.constant, &other.constant);
            return;
        }
        if Q == 3 || Q == 5 || Q == 7 {
            add_digits(start, scalar, &mut self.constant, &other.constant);
            return;
        }
        let Some(others) = &other.higher else {
            unreachable!();
        };
        let Some(higher) = &mut self.higher else {
            unreachable!();
        };
        let (field, constant) = (&self.field, &mut self.constant);
        add_planes_in::<Q>(
            field,
            start,
            scalar,
            constant,
            higher,
            &other.constant,
            others,
        );
    }

    /// The place of the first entry other than 0 in the word at an index of a row over a field of Q elements, of odd
    /// characteristic, among the places where a word has a 1, counted from 0, and that entry; `None` where every one of
    /// these is 0. The word keeps the ones after that place alone.
    #[inline(always)]
    pub fn next_in_word<const Q: u8>(&self, at: usize, places: &mut u64) -> Option<(usize, u8)>
        requires order { order_number self.now.order ≡ Q }
        requires odd { prime_of self.now.order ≢ 2 }
        requires word { at * 64 < length self.now.entries }
        ensures found { MatchOption result
            (AreZerosFrom (restricted (bits_of_word places.old) (entries_in_word self.now.entries at)) 0)
            (λ found. IsNextEntry (bits_of_word places.old) (entries_in_word self.now.entries at) 0 found.0 found.1) }
        ensures rest { IfSome result (λ found. bits_of_word places.new ≡ bits_after places.old found.0) }
        ensures element { IfSome result (λ found. IsElement self.now.order found.1) }
    {
        // `len` is called for what it says of the row: that its entries are elements of its field.
        prove!(at < self.len());
        let Some(place) = next_in_word(self.support_in::<Q>(at) & *places, 0) else {
            return None;
        };
        *places &= u64::MAX - 1 << place;
        Some((place, self.entry_in::<Q>(at, place)))
    }

    /// The word at an index of the support of a row over a field of Q elements, of odd characteristic, as
    /// [`Row::support_word`] gives it.
    #[inline(always)]
    fn support_in<const Q: u8>(&self, at: usize) -> u64
        requires order { order_number self.now.order ≡ Q }
        requires odd { prime_of self.now.order ≢ 2 }
        ensures { IsSupportWord self.now.entries at result }
    {
        if Q == 3 || Q == 9 {
            let (constant, linear) = self.trits_in::<Q>(at);
            return constant[0] | constant[1] | linear[0] | linear[1];
        }
        self.bytes().support_word(at)
    }

    /// The entry at a place of the word at an index of a row over a field of Q elements, of odd characteristic.
    #[inline(always)]
    fn entry_in<const Q: u8>(&self, at: usize, place: usize) -> u8
        requires order { order_number self.now.order ≡ Q }
        requires odd { prime_of self.now.order ≢ 2 }
        requires word { at * 64 < length self.now.entries }
        requires place { place < 64 }
        ensures { result ≡ slice_index self.now.entries (at * 64 + place) }
    {
        if Q == 3 || Q == 9 {
            let (constant, linear) = self.trits_in::<Q>(at);
            return entry_of_trits(constant, linear, place);
        }
        // `len` is called for what it says of the length: that it is a number of the machine, so that the index below
        // does not wrap.
        prove!(at < self.len());
        self.bytes().get(at * WORD + place)
    }

    /// The entries of a row over 5 or 7 elements, as bytes.
    #[inline(always)]
    fn bytes(&self) -> &BytePlane
        requires { 5 ≤ prime_of self.now.order }
        ensures { result.now.digits ≡ self.now.entries }
    {
        match &self.constant {
            Plane::Bytes(plane) => plane,
            _ => unreachable!(),
        }
    }

    /// The words of the coefficients of 1 and of x modulo 3 at an index of a row over 3 or 9 elements.
    #[inline(always)]
    fn trits_in<const Q: u8>(&self, at: usize) -> ([u64; 2], [u64; 2])
        requires order { order_number self.now.order ≡ Q }
        requires characteristic { prime_of self.now.order ≡ 3 }
        ensures { HoldTritWords self.now.entries at result.0 result.1 }
    {
        let constant = trits_of_plane(&self.constant, at);
        if Q == 3 {
            return (constant, [0, 0]);
        }
        let Some(higher) = &self.higher else {
            unreachable!();
        };
        (constant, trits_of_plane(&higher.linear, at))
    }
}

/// The words of the ones and of the twos of a plane modulo 3 at an index.
#[inline(always)]
fn trits_of_plane(plane: &Plane, at: usize) -> [u64; 2]
    requires { prime_of_plane plane.now ≡ 3 }
    ensures { (i : ℕ) → i < 64 → digit_of_words result i ≡ slice_index (digits_of plane.now) (at * 64 + i) }
{
    match plane {
        Plane::Trits(plane) => words_of_trits(plane, at),
        _ => unreachable!(),
    }
}

//! Products of a row vector and a matrix, row by row.

ghost use Rattle.std.specs.Prelude.{◌≡◌, ◌+◌, ◌*◌, ◌/◌, ◌<◌, ◌≤◌, IfSome, MatchOption, length};
ghost use Rattle.std.specs.Prelude.{slice_index};
ghost use Rattle.axe_layer.specs.Supports.{AreNextFour, IsSupportWord};
ghost use Rattle.axe_field.specs.Arithmetic.{field_mul};
ghost use Rattle.axe_field.specs.Order.{degree_of, order_number, IsElement};
ghost use Rattle.axe_lane.specs.Entries.{AreZerosFrom, IsNextNonzero};
ghost use Rattle.axe_row.specs.Rows.{IsRow};
ghost use Rattle.axe_row.specs.Sums.{HasSums};
ghost use Rattle.axe_matrix.specs.Products.{row_with_product};
ghost use Rattle.axe_matrix.specs.VectorTerms.{row_with_first_terms, row_with_terms_between};

use super::{Matrix, Row};
use crate::held::{HELD_COLUMNS, HELD_COLUMNS_OF_TRITS};
use axe_lane::WORD;
use axe_layer::{four_in_word, next_in_word};
use axe_row::RowSum;

impl Matrix {
    /// Adds a multiple of a row vector times this matrix to a row over its field: each entry d of the row becomes
    /// d + c s, where c is the scalar, and s the entry of the product. The vector has as many entries as the matrix has
    /// rows, and the row as many as it has columns. Entries of the vector that are 0 are passed over. It takes no
    /// memory.
    pub(crate) fn add_vec_mul(&self, scalar: u8, vector: &Row, row: &mut Row)
        requires vector_field { vector.now.order ≡ self.now.order }
        requires row_field { row.old.order ≡ self.now.order }
        requires inner_fit { length vector.now.entries ≡ length self.now.rows }
        requires columns_fit { length row.old.entries ≡ self.now.cols }
        requires element { IsElement self.now.order scalar }
        ensures sum { row.new ≡ row_with_product row.old scalar vector.now self.now }
        ensures as_long { length row.new.entries ≡ length row.old.entries }
        ensures well_formed { IsRow row.new }
    {
        // `len` is called for what it ensures beside the length: that the entries are elements of the field.
        prove!(row.len() == self.cols());
        prove!(vector.len() == self.rows());
        if scalar == 1 && self.cols() <= HELD_COLUMNS {
            match self.field().order() {
                2 => return self.add_held::<2>(vector, row),
                4 => return self.add_held::<4>(vector, row),
                8 => return self.add_held::<8>(vector, row),
                3 if self.cols() <= HELD_COLUMNS_OF_TRITS => return self.add_held::<3>(vector, row),
                9 if self.cols() <= HELD_COLUMNS_OF_TRITS => return self.add_held::<9>(vector, row),
                _ => {}
            }
        }
        if self.field().degree() != 1 {
            if scalar == 1 && self.has_many_entries(vector) {
                return self.add_by_values(vector, row);
            }
            return self.add_terms(scalar, vector, row);
        }
        if scalar == 1 && self.field().prime() > 3 {
            return self.add_vec_mul_by_sums(vector, row);
        }
        let at = self.add_fours(scalar, vector, row);
        let mut place = at % WORD;
        for word in at / WORD..vector.len().div_ceil(WORD) {
            self.add_terms_of_word(scalar, vector, word, place, row);
            place = 0;
        }
    }

    /// Adds a row vector times this matrix over 5 or 7 elements to a row, as [`Matrix::add_vec_mul`] does for the scalar
    /// 1: the remainders of the row's entries are taken when all terms are added.
    fn add_vec_mul_by_sums(&self, vector: &Row, row: &mut Row)
        requires sums { HasSums self.now.order }
        requires vector_field { vector.now.order ≡ self.now.order }
        requires row_field { row.old.order ≡ self.now.order }
        requires inner_fit { length vector.now.entries ≡ length self.now.rows }
        requires columns_fit { length row.old.entries ≡ self.now.cols }
        ensures sum { row.new ≡ row_with_product row.old 1 vector.now self.now }
        ensures as_long { length row.new.entries ≡ length row.old.entries }
        ensures well_formed { IsRow row.new }
    {
        // `len` is called for what it ensures beside the length: that the entries are elements of the field.
        prove!(row.len() == self.cols());
        prove!(vector.len() == self.rows());
        let mut sum = RowSum::take(row);
        let mut next = 0;
        let mut word = vector.support_word(0);
        while let Some(four) = next_four(vector, next, &mut word) {
            let entries = vector.entries_at(four);
            let (first, second) = (self.row(four[0]), self.row(four[1]));
            sum.add_four_multiples(entries, first, second, self.row(four[2]), self.row(four[3]));
            next = four[3] + 1;
        }
        self.add_last_terms(vector, next, &mut sum);
        *row = sum.into_row();
    }

    /// Adds the terms of a row vector times this matrix over 5 or 7 elements to a sum that belong to the entries of the
    /// vector from an index on, one after another.
    fn add_last_terms(&self, vector: &Row, start: usize, sum: &mut RowSum)
        requires sums { HasSums self.now.order }
        requires vector_field { vector.now.order ≡ self.now.order }
        requires sum_field { sum.old.order ≡ self.now.order }
        requires inner_fit { length vector.now.entries ≡ length self.now.rows }
        requires columns_fit { length sum.old.entries ≡ self.now.cols }
        requires start { start ≤ length vector.now.entries }
        requires well_formed { IsRow sum.old }
        ensures sum { sum.new ≡ row_with_terms_between sum.old 1 vector.now self.now start (length vector.now.entries) }
        ensures as_long { length sum.new.entries ≡ length sum.old.entries }
        ensures well_formed { IsRow sum.new }
    {
        // `len` is called for what it ensures beside the length: that the entries are elements of the field.
        prove!(vector.len() == self.rows());
        let mut place = start;
        while let Some(index) = vector.next_nonzero(place) {
            sum.add_scaled_from(0, vector.get(index), self.row(index));
            place = index + 1;
        }
    }

    /// Adds the terms of a multiple of a row vector times this matrix that belong to the entries of the vector in one
    /// word of 64, from a place of the word on. The word is read once for all its entries.
    #[inline(always)]
    fn add_terms_of_word(&self, scalar: u8, vector: &Row, word: usize, start: usize, row: &mut Row)
        requires vector_field { vector.now.order ≡ self.now.order }
        requires row_field { row.old.order ≡ self.now.order }
        requires inner_fit { length vector.now.entries ≡ length self.now.rows }
        requires columns_fit { length row.old.entries ≡ self.now.cols }
        requires element { IsElement self.now.order scalar }
        requires word { word * 64 < length vector.now.entries }
        requires start { start ≤ 64 }
        ensures sum { row.new ≡ row_with_terms_between row.old scalar vector.now self.now (word * 64 + start)
            (word * 64 + 64) }
        ensures as_long { length row.new.entries ≡ length row.old.entries }
        ensures well_formed { IsRow row.new }
    {
        // `len` is called for what it ensures beside the length: that the entries are elements of the field.
        prove!(row.len() == self.cols());
        prove!(vector.len() == self.rows());
        let entries = vector.entry_word(word);
        let mut place = start;
        while let Some((found, entry)) = entries.next(place) {
            let factor = self.factor(scalar, entry);
            row.add_scaled(factor, self.row(word * WORD + found));
            place = found + 1;
        }
    }

    /// The product of a scalar and an entry. Nothing is multiplied by 1, which most scalars are.
    #[inline(always)]
    pub(crate) fn factor(&self, scalar: u8, entry: u8) -> u8
        requires scalar { IsElement self.now.order scalar }
        requires entry { IsElement self.now.order entry }
        ensures value { result ≡ field_mul self.now.order scalar entry }
        ensures element { IsElement self.now.order result }
    {
        let one = scalar == 1;
        if one {
            entry
        } else {
            self.field().mul(scalar, entry)
        }
    }

    /// Adds the first terms of a multiple of a row vector times this matrix over a prime field to a row, and answers how
    /// many they are. Where the multiple is that by 1, they go as far as there are four more entries of the vector that
    /// are not 0: multiples of four rows are added in one pass. Else there are none.
    fn add_fours(&self, scalar: u8, vector: &Row, row: &mut Row) -> usize
        requires vector_field { vector.now.order ≡ self.now.order }
        requires row_field { row.old.order ≡ self.now.order }
        requires inner_fit { length vector.now.entries ≡ length self.now.rows }
        requires columns_fit { length row.old.entries ≡ self.now.cols }
        requires prime { degree_of self.now.order ≡ 1 }
        requires element { IsElement self.now.order scalar }
        ensures within { result ≤ length vector.now.entries }
        ensures sum { row.new ≡ row_with_first_terms row.old scalar vector.now self.now result }
        ensures as_long { length row.new.entries ≡ length row.old.entries }
        ensures well_formed { IsRow row.new }
    {
        // `len` is called for what it ensures beside the length: that the entries are elements of the field.
        prove!(row.len() == self.cols());
        if scalar != 1 {
            return 0;
        }
        if self.field().order() == 2 {
            self.add_fours_of_ones(vector, row)
        } else {
            self.add_fours_with_factors(vector, row)
        }
    }

    /// Adds the first terms of a row vector times this matrix over two elements to a row, four rows at a time, and
    /// answers how many they are: they go as far as there are four more entries of the vector that are not 0.
    fn add_fours_of_ones(&self, vector: &Row, row: &mut Row) -> usize
        requires vector_field { vector.now.order ≡ self.now.order }
        requires row_field { row.old.order ≡ self.now.order }
        requires inner_fit { length vector.now.entries ≡ length self.now.rows }
        requires columns_fit { length row.old.entries ≡ self.now.cols }
        requires two { order_number self.now.order ≡ 2 }
        ensures within { result ≤ length vector.now.entries }
        ensures sum { row.new ≡ row_with_first_terms row.old 1 vector.now self.now result }
        ensures as_long { length row.new.entries ≡ length row.old.entries }
        ensures well_formed { IsRow row.new }
    {
        // `len` is called for what it ensures beside the length: that the entries are elements of the field.
        prove!(row.len() == self.cols());
        prove!(vector.len() == self.rows());
        let mut at = 0;
        let mut word = vector.support_word(0);
        while let Some(four) = next_four(vector, at, &mut word) {
            let (first, second) = (self.row(four[0]), self.row(four[1]));
            row.add_four_rows(first, second, self.row(four[2]), self.row(four[3]));
            at = four[3] + 1;
        }
        at
    }

    /// Adds the first terms of a row vector times this matrix over a prime field to a row, multiples of four rows at a
    /// time, and answers how many they are: they go as far as there are four more entries of the vector that are not 0.
    fn add_fours_with_factors(&self, vector: &Row, row: &mut Row) -> usize
        requires vector_field { vector.now.order ≡ self.now.order }
        requires row_field { row.old.order ≡ self.now.order }
        requires inner_fit { length vector.now.entries ≡ length self.now.rows }
        requires columns_fit { length row.old.entries ≡ self.now.cols }
        requires prime { degree_of self.now.order ≡ 1 }
        ensures within { result ≤ length vector.now.entries }
        ensures sum { row.new ≡ row_with_first_terms row.old 1 vector.now self.now result }
        ensures as_long { length row.new.entries ≡ length row.old.entries }
        ensures well_formed { IsRow row.new }
    {
        // `len` is called for what it ensures beside the length: that the entries are elements of the field.
        prove!(row.len() == self.cols());
        prove!(vector.len() == self.rows());
        let mut start = 0;
        let mut word = vector.support_word(0);
        while let Some(four) = next_four(vector, start, &mut word) {
            let factors = vector.entries_at(four);
            let (first, second) = (self.row(four[0]), self.row(four[1]));
            row.add_four_multiples(factors, first, second, self.row(four[2]), self.row(four[3]));
            start = four[3] + 1;
        }
        start
    }
}

/// The index of the next entry of a row other than 0 from an index on, or `None` where every entry from there on is 0.
/// The word of the row's support in which that index stands is given, and becomes the one in which the index after the
/// entry stands, so that a word is read once for all its entries.
#[inline(always)]
fn next_entry(row: &Row, start: usize, word: &mut u64) -> Option<usize>
    requires start { start ≤ length row.now.entries }
    requires word { IsSupportWord row.now.entries (start / 64) word.old }
    ensures next { MatchOption result (AreZerosFrom row.now.entries start) (IsNextNonzero row.now.entries start) }
    ensures word { IfSome result (λ index. IsSupportWord row.now.entries ((index + 1) / 64) word.new) }
{
    // `len` is called for what it says of the length: that it is a number of the machine, so that no sum below wraps.
    prove!(start <= row.len());
    if let Some(index) = next_in_word(*word, start) {
        if (index + 1) % WORD == 0 {
            *word = row.support_word((index + 1) / WORD);
        }
        return Some(index);
    }
    next_in_row(row, start, word)
}

/// The index of the next entry of a row other than 0 from an index on, whichever word of the row's support has it, or
/// `None` where every entry from there on is 0. A word becomes the one in which the index after the entry stands.
#[inline(always)]
fn next_in_row(row: &Row, start: usize, word: &mut u64) -> Option<usize>
    requires { start ≤ length row.now.entries }
    ensures next { MatchOption result (AreZerosFrom row.now.entries start) (IsNextNonzero row.now.entries start) }
    ensures word { IfSome result (λ index. IsSupportWord row.now.entries ((index + 1) / 64) word.new) }
{
    // `len` is called for what it says of the length: that it is a number of the machine, so that no sum below wraps.
    prove!(start <= row.len());
    let index = row.next_nonzero(start)?;
    *word = row.support_word((index + 1) / WORD);
    Some(index)
}

/// The indices of the next four entries of a row other than 0 from an index on, or `None` where there are fewer. Mostly
/// one word of the row's support has all four. The word in which that index stands is given, and becomes the one in
/// which the index after the four stands, so that a word is read once for all its entries.
#[inline(always)]
fn next_four(row: &Row, start: usize, word: &mut u64) -> Option<[usize; 4]>
    requires start { start ≤ length row.now.entries }
    requires word { IsSupportWord row.now.entries (start / 64) word.old }
    ensures four { IfSome result (AreNextFour row.now.entries start) }
    ensures word { IfSome result (λ four. IsSupportWord row.now.entries ((slice_index four 3 + 1) / 64) word.new) }
{
    // `len` is called for what it says of the length: that it is a number of the machine, so that no sum below wraps.
    prove!(start <= row.len());
    let four = match four_in_word(*word, start) {
        Some(four) => four,
        None => next_four_by_entries(row, start, *word)?,
    };
    let next = (four[3] + 1) / WORD;
    if next != start / WORD {
        *word = row.support_word(next);
    }
    Some(four)
}

/// The indices of the next four entries of a row other than 0 from an index on, one after another, or `None` where
/// there are fewer. The word of the row's support in which the index stands is given. It stands apart so that
/// `next_four` is short where one word has all four.
#[inline(never)]
fn next_four_by_entries(row: &Row, start: usize, word: u64) -> Option<[usize; 4]>
    requires start { start ≤ length row.now.entries }
    requires word { IsSupportWord row.now.entries (start / 64) word }
    ensures { IfSome result (AreNextFour row.now.entries start) }
{
    // `len` is called for what it says of the length: that it is a number of the machine, so that no sum below wraps.
    prove!(start <= row.len());
    let mut word = word;
    let first = next_entry(row, start, &mut word)?;
    let second = next_entry(row, first + 1, &mut word)?;
    let third = next_entry(row, second + 1, &mut word)?;
    let fourth = next_entry(row, third + 1, &mut word)?;
    Some([first, second, third, fourth])
}

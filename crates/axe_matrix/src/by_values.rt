//! Products of a row vector and a matrix over a field that is not prime, value by value.
//!
//! The elements other than 0 are the powers of x. So the sum of the rows that the vector multiplies by one of them is
//! made without a factor, four rows at a time; and by Horner's rule, in x, all these sums are added with theirs.

ghost use Rattle.std.specs.Prelude.{ℕ, ◌≡◌, ◌≢◌, ◌+◌, ◌*◌, ◌<◌, ◌≤◌, cond, eqb, length, slice_index};
ghost use Rattle.std.specs.Int.{bit_at};
ghost use Rattle.axe_field.specs.Order.{degree_of, IsElement};
ghost use Rattle.axe_layer.specs.Words.{digit_of_words};
ghost use Rattle.axe_row.specs.Operations.{row_with_multiple};
ghost use Rattle.axe_row.specs.Rows.{IsRow};
ghost use Rattle.axe_matrix.specs.Matrices.{row_of};
ghost use Rattle.axe_matrix.specs.Products.{row_with_product};
ghost use Rattle.axe_matrix.specs.ValueTerms.{places_of_value, vector_of_places, row_with_waiting, AreWaiting};
ghost use Rattle.axe_matrix.specs.VectorTerms.{row_with_terms_between};

use super::{Matrix, Row};
use axe_field::Field;
use axe_lane::WORD;

/// How many entries other than 0 a vector has, at least, for each element of the field, where it is multiplied value by
/// value.
const ENTRIES_PER_VALUE: usize = 6;

/// Up to three indices of rows that are to be added.
#[derive(Drop)]
struct Waiting {
    count: usize,
    indices: [usize; 3],
}

impl Matrix {
    /// Whether a vector over a field that is not prime has so many entries other than 0 that a product with it takes
    /// less work value by value. Either way gives the same row.
    pub(crate) fn has_many_entries(&self, vector: &Row) -> bool {
        let mut count: usize = 0;
        for at in 0..vector.len().div_ceil(WORD) {
            count = count.saturating_add(vector.support_word(at).count_ones() as usize);
        }
        count >= ENTRIES_PER_VALUE * usize::from(self.field().order())
    }

    /// Adds a row vector times this matrix to a row over its field, which is not prime: each entry d of the row becomes
    /// d + s, where s is the entry of the product.
    pub(crate) fn add_by_values(&self, vector: &Row, row: &mut Row)
        requires vector_field { vector.now.order ≡ self.now.order }
        requires row_field { row.old.order ≡ self.now.order }
        requires inner_fit { length vector.now.entries ≡ length self.now.rows }
        requires columns_fit { length row.old.entries ≡ self.now.cols }
        requires not_prime { degree_of self.now.order ≢ 1 }
        ensures sum { row.new ≡ row_with_product row.old 1 vector.now self.now }
        ensures as_long { length row.new.entries ≡ length row.old.entries }
        ensures well_formed { IsRow row.new }
    {
        // `len` is called for what it ensures beside the length: that the entries are elements of the field.
        prove!(row.len() == self.cols());
        prove!(vector.len() == self.rows());
        let field = *self.field();
        let x = field.prime();
        let inverse = field.inv(x);
        let mut value = 1;
        // The values are the powers of 1 / x, up to the one that is 1. The row is multiplied by x before each, and so
        // by 1 after all.
        for _ in 0..field.order() - 1 {
            value = field.mul(value, inverse);
            row.scale(x);
            self.add_rows_at(value, vector, row);
        }
    }

    /// Adds the rows at whose indices the entry of a vector is a value other than 0.
    fn add_rows_at(&self, value: u8, vector: &Row, row: &mut Row)
        requires vector_field { vector.now.order ≡ self.now.order }
        requires row_field { row.old.order ≡ self.now.order }
        requires inner_fit { length vector.now.entries ≡ length self.now.rows }
        requires columns_fit { length row.old.entries ≡ self.now.cols }
        requires not_prime { degree_of self.now.order ≢ 1 }
        requires value { IsElement self.now.order value }
        requires nonzero { value ≢ 0 }
        ensures sum { row.new ≡ row_with_product row.old 1 (vector_of_places value vector.now) self.now }
        ensures as_long { length row.new.entries ≡ length row.old.entries }
        ensures well_formed { IsRow row.new }
    {
        // `len` is called for what it ensures beside the length: that the entries are elements of the field.
        prove!(row.len() == self.cols());
        prove!(vector.len() == self.rows());
        let mut waiting = Waiting {
            count: 0,
            indices: [0; 3],
        };
        for at in 0..vector.len().div_ceil(WORD) {
            self.add_rows_in_word(value, vector, at, &mut waiting, row);
        }
        self.add_waiting(&waiting, row);
    }

    /// Adds the rows that waited.
    #[inline(always)]
    fn add_waiting(&self, waiting: &Waiting, row: &mut Row)
        requires not_prime { degree_of self.now.order ≢ 1 }
        requires row_field { row.old.order ≡ self.now.order }
        requires columns_fit { length row.old.entries ≡ self.now.cols }
        requires waiting { AreWaiting self.now waiting.now }
        ensures sum { row.new ≡ row_with_waiting self.now row.old waiting.now }
        ensures as_long { length row.new.entries ≡ length row.old.entries }
        ensures well_formed { IsRow row.new }
    {
        // `len` is called for what it ensures beside the length: that the entries are elements of the field.
        prove!(row.len() == self.cols());
        for place in 0..waiting.count {
            add_row(row, self.row(waiting.indices[place]));
        }
    }

    /// Adds the rows at the indices in one word of 64 at which the entry of a vector is a value other than 0, together
    /// with those that waited, four at a time; up to three wait.
    #[inline(always)]
    fn add_rows_in_word(
        &self,
        value: u8,
        vector: &Row,
        at: usize,
        waiting: &mut Waiting,
        row: &mut Row,
    )
        requires vector_field { vector.now.order ≡ self.now.order }
        requires row_field { row.old.order ≡ self.now.order }
        requires inner_fit { length vector.now.entries ≡ length self.now.rows }
        requires columns_fit { length row.old.entries ≡ self.now.cols }
        requires not_prime { degree_of self.now.order ≢ 1 }
        requires value { IsElement self.now.order value }
        requires nonzero { value ≢ 0 }
        requires word { at * 64 < length vector.now.entries }
        requires waiting { AreWaiting self.now waiting.old }
        ensures sum { row_with_waiting self.now row.new waiting.new
            ≡ row_with_terms_between (row_with_waiting self.now row.old waiting.old) 1 (vector_of_places value vector.now)
            self.now (at * 64) (at * 64 + 64) }
        ensures waiting { AreWaiting self.now waiting.new }
        ensures field { row.new.order ≡ row.old.order }
        ensures as_long { length row.new.entries ≡ length row.old.entries }
        ensures well_formed { IsRow row.new }
    {
        // `len` is called for what it ensures beside the length: that the entries are elements of the field.
        prove!(row.len() == self.cols());
        prove!(vector.len() == self.rows());
        let mut places = places_of(self.field(), value, vector, at);
        while places != 0 {
            self.add_in_fours(at * WORD + places.trailing_zeros() as usize, waiting, row);
            places &= places - 1;
        }
    }

    /// Adds the row at an index with three that waited, or lets it wait where fewer did.
    #[inline(always)]
    fn add_in_fours(&self, index: usize, waiting: &mut Waiting, row: &mut Row)
        requires index { index < length self.now.rows }
        requires row_field { row.old.order ≡ self.now.order }
        requires columns_fit { length row.old.entries ≡ self.now.cols }
        requires waiting { AreWaiting self.now waiting.old }
        ensures sum { row_with_waiting self.now row.new waiting.new
            ≡ row_with_multiple (row_with_waiting self.now row.old waiting.old) 1 (row_of self.now index) }
        ensures waiting { AreWaiting self.now waiting.new }
        ensures field { row.new.order ≡ row.old.order }
        ensures as_long { length row.new.entries ≡ length row.old.entries }
        ensures well_formed { IsRow row.new }
    {
        // `len` is called for what it ensures beside the length: that the entries are elements of the field.
        prove!(row.len() == self.cols());
        if waiting.count < 3 {
            waiting.indices[waiting.count] = index;
            waiting.count += 1;
        } else {
            let [a, b, c] = waiting.indices;
            row.add_four_rows(self.row(a), self.row(b), self.row(c), self.row(index));
            waiting.count = 0;
        }
    }
}

/// Adds a row over a field that is not prime to another. The field is told apart before, so that no factor is.
#[inline(always)]
fn add_row(row: &mut Row, other: &Row)
    requires not_prime { degree_of row.old.order ≢ 1 }
    requires field { other.now.order ≡ row.old.order }
    requires fits { length other.now.entries ≡ length row.old.entries }
    ensures sum { row.new ≡ row_with_multiple row.old 1 other.now }
    ensures as_long { length row.new.entries ≡ length row.old.entries }
    ensures well_formed { IsRow row.new }
{
    match row.field().order() {
        4 => row.add_scaled_in::<4>(0, 1, other),
        8 => row.add_scaled_in::<8>(0, 1, other),
        _ => row.add_scaled_in::<9>(0, 1, other),
    }
}

/// The bits of the places in one word of 64 at which the entry of a vector is a value other than 0.
#[inline(always)]
fn places_of(field: &Field, value: u8, vector: &Row, at: usize) -> u64
    requires field { vector.now.order ≡ field.now }
    requires not_prime { degree_of field.now ≢ 1 }
    requires value { IsElement field.now value }
    requires nonzero { value ≢ 0 }
    ensures { (i : ℕ) → i < 64 → bit_at result i ≡ slice_index (places_of_value value vector.now.entries) (at * 64 + i) }
{
    // `len` is called for what it ensures beside the length: that the entries are elements of the field.
    prove!(vector.len() <= usize::MAX);
    let prime = field.prime();
    let linear = places_of_digit(vector.digit_words(1, at), value / prime % prime);
    let both = places_of_digit(vector.digit_words(0, at), value % prime) & linear;
    if field.degree() == 2 {
        return both;
    }
    both & places_of_digit(vector.digit_words(2, at), value / (prime * prime))
}

/// The bits of the places at which the digits of two words, of the ones and of the twos, are a digit.
#[inline(always)]
fn places_of_digit(words: [u64; 2], digit: u8) -> u64
    requires digits { (i : ℕ) → i < 64 → digit_of_words words i < 3 }
    requires digit { digit < 3 }
    ensures { (i : ℕ) → i < 64 → bit_at result i ≡ cond (eqb (digit_of_words words i) digit) 1 0 }
{
    match digit {
        0 => places_of_zero(words[0], words[1]),
        1 => words[0],
        _ => words[1],
    }
}

/// The bits of the places at which two words, of the ones and of the twos, have the digit 0.
#[inline(always)]
fn places_of_zero(ones: u64, twos: u64) -> u64
    ensures { (i : ℕ) → i < 64 → bit_at result i ≡ cond (eqb (bit_at ones i + 2 * bit_at twos i) 0) 1 0 }
{
    !(ones | twos)
}

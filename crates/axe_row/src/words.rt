//! The words of a row's planes, over a field whose prime is 2 or 3: those at one index at a time.
ghost use Rattle.std.specs.Prelude.{ℕ, ◌≡◌, ◌+◌, ◌*◌, ◌<◌, ◌≤◌, slice_index};
ghost use Rattle.axe_layer.specs.Words.{digit_of_words};
ghost use Rattle.axe_field.specs.Order.{prime_of, degree_of};
ghost use Rattle.axe_row.specs.Planes.{coefficients_at};
ghost use Rattle.axe_row.specs.Rows.{IsRow};
ghost use Rattle.axe_row.specs.Words.{HasWords};

use crate::Row;
use crate::higher::Higher;

impl Row {
    /// The two words at an index, counted from 0, of the coefficients of a power of x, over a field whose prime is 2 or
    /// 3: digit i of these is the coefficient in entry 64 times the index plus i, and 0 where there is no entry.
    #[inline]
    pub fn digit_words(&self, power: u8, at: usize) -> [u64; 2]
        requires prime { prime_of self.now.order ≤ 3 }
        requires power { power < degree_of self.now.order }
        ensures { (i : ℕ) → i < 64 → digit_of_words result i
            ≡ slice_index (coefficients_at self.now.order power self.now.entries) (at * 64 + i) }
    {
        if power == 0 {
            return self.constant.digit_words(at);
        }
        let Some(higher) = &self.higher else {
            return [0, 0];
        };
        if power == 1 {
            higher.linear.digit_words(at)
        } else {
            higher.quadratic.digit_words(at)
        }
    }

    /// Makes the digits of two words the coefficients of a power of x in the entries of the words at an index, over a
    /// field whose prime is 2 or 3; all other coefficients stay. Digits that have no entry are dropped.
    #[inline]
    pub fn set_digit_words(&mut self, power: u8, at: usize, words: [u64; 2])
        requires prime { prime_of self.old.order ≤ 3 }
        requires power { power < degree_of self.old.order }
        requires digits { (i : ℕ) → i < 64 → digit_of_words words i < prime_of self.old.order }
        ensures written { HasWords power at words self.old self.new }
        ensures well_formed { IsRow self.new }
    {
        if power == 0 {
            self.constant.set_digit_words(at, words);
            return;
        }
        let Some(higher) = &mut self.higher else {
            return;
        };
        let Higher { linear, quadratic } = &mut **higher;
        if power == 1 {
            linear.set_digit_words(at, words);
        } else {
            quadratic.set_digit_words(at, words);
        }
    }
}

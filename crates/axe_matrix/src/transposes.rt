//! Transposes of matrices over fields whose prime is 2 or 3, by the coefficients of each power of x, and by blocks of
//! 64 rows and 64 columns of these.

ghost use Rattle.std.specs.Int.{bit_at};
ghost use Rattle.std.specs.Prelude.{ℕ, ◌≡◌, ◌+◌, ◌-◌, ◌*◌, ◌%◌, ◌<◌, ◌≤◌, length, slice_index};
ghost use Rattle.axe_algebra.specs.Lists.{entry};
ghost use Rattle.axe_field.specs.Order.{prime_of, degree_of};
ghost use Rattle.axe_layer.specs.Words.{digit_of_words};
ghost use Rattle.axe_matrix.specs.Matrices.{IsMatrix, zero_matrix, transposed_matrix};
ghost use Rattle.axe_matrix.specs.Transposes.{coefficients_of, HasCoefficients, HasTransposed, IsShapedAsTranspose};
ghost use Rattle.axe_matrix.specs.Transposes.{AreZerosWithin, HasRowWords, digit_of_block};

use super::Matrix;
use super::lines::Lines;
use axe_lane::any_nonzero;
use axe_layer::transposed_block;

/// How many rows a block has, and how many columns: as many as a word has bits.
const BLOCK: usize = 64;

impl Matrix {
    /// Makes a matrix of zeros the transpose of another, over a field whose prime is 2 or 3. It takes no memory.
    pub(super) fn put_transpose(&mut self, matrix: &Lines)
        requires prime { prime_of matrix.now.order ≤ 3 }
        requires zeros { self.old ≡ zero_matrix matrix.now.order matrix.now.cols (length matrix.now.rows) }
        ensures transpose { self.new ≡ transposed_matrix matrix.now }
        ensures well_formed { IsMatrix self.new }
    {
        // Called for what it ensures beside the number: that the matrix is one.
        prove!(self.cols() == matrix.rows());
        for power in 0..matrix.field().degree() {
            self.put_coefficients(power, matrix);
        }
    }

    /// Makes the coefficients of a power of x those of the transpose of a matrix, over a field whose prime is 2 or 3.
    /// They are zeros so far. All other coefficients stay.
    fn put_coefficients(&mut self, power: u8, matrix: &Lines)
        requires prime { prime_of matrix.now.order ≤ 3 }
        requires power { power < degree_of matrix.now.order }
        requires shape { IsShapedAsTranspose matrix.now self.old }
        requires zeros { AreZerosWithin 0 (length self.old.rows) 0 self.old.cols (coefficients_of power self.old) }
        ensures transposed { HasTransposed power matrix.now 0 (length self.old.rows) 0 self.old.cols self.old self.new }
        ensures well_formed { IsMatrix self.new }
    {
        for row_block in 0..self.rows().div_ceil(BLOCK) {
            self.put_block_row(power, row_block, matrix);
        }
    }

    /// Writes the coefficients of a power of x of the transpose of a matrix into a block of rows, where they are zeros
    /// so far: the rows from 64 times an index on, as many as a block has or those that there are. All others stay.
    fn put_block_row(&mut self, power: u8, row_block: usize, matrix: &Lines)
        requires prime { prime_of matrix.now.order ≤ 3 }
        requires power { power < degree_of matrix.now.order }
        requires shape { IsShapedAsTranspose matrix.now self.old }
        requires within { row_block * 64 < length self.old.rows }
        requires zeros { AreZerosWithin (row_block * 64) (row_block * 64 + 64) 0 self.old.cols
            (coefficients_of power self.old) }
        ensures transposed { HasTransposed power matrix.now (row_block * 64) (row_block * 64 + 64) 0 self.old.cols
            self.old self.new }
        ensures well_formed { IsMatrix self.new }
    {
        for column_block in 0..self.cols().div_ceil(BLOCK) {
            self.put_block(power, row_block, column_block, matrix);
        }
    }

    /// Writes the coefficients of a power of x of the transpose of a matrix into a block, where they are zeros so far:
    /// that of the rows and columns from 64 times an index of each on. All others stay. Where all are 0, nothing is
    /// written.
    fn put_block(&mut self, power: u8, row_block: usize, column_block: usize, matrix: &Lines)
        requires prime { prime_of matrix.now.order ≤ 3 }
        requires power { power < degree_of matrix.now.order }
        requires shape { IsShapedAsTranspose matrix.now self.old }
        requires row { row_block * 64 < length self.old.rows }
        requires column { column_block * 64 < self.old.cols }
        requires zeros { AreZerosWithin (row_block * 64) (row_block * 64 + 64) (column_block * 64)
            (column_block * 64 + 64) (coefficients_of power self.old) }
        ensures transposed { HasTransposed power matrix.now (row_block * 64) (row_block * 64 + 64) (column_block * 64)
            (column_block * 64 + 64) self.old self.new }
        ensures well_formed { IsMatrix self.new }
    {
        // Called for what it ensures beside the number: that the matrix is one.
        prove!(self.rows() == matrix.cols());
        let (ones, twos) = matrix.words_of_block(power, column_block, row_block);
        if any_nonzero(&ones) || any_nonzero(&twos) {
            let (ones, twos) = (transposed(&ones), transposed(&twos));
            self.put_words(power, row_block, column_block, &ones, &twos);
        }
    }

    /// Makes the digits of words the coefficients of a power of x in the rows of a matrix from 64 times an index on, in
    /// the columns of the words at another index: there are one of the ones and one of the twos for each row of a
    /// block. Those for which there is no row, and digits that have no entry, are dropped.
    fn put_words(
        &mut self,
        power: u8,
        row_block: usize,
        at: usize,
        ones: &[u64; BLOCK],
        twos: &[u64; BLOCK],
    )
        requires prime { prime_of self.old.order ≤ 3 }
        requires power { power < degree_of self.old.order }
        requires within { row_block * 64 < length self.old.rows }
        requires digits { (i j : ℕ) → i < 64 → j < 64 → digit_of_block ones.now twos.now i j < prime_of self.old.order }
        ensures written { HasCoefficients power
            (λ i j. digit_of_block ones.now twos.now (i - row_block * 64) (j % 64))
            (row_block * 64) (row_block * 64 + 64) (at * 64) (at * 64 + 64) self.old self.new }
        ensures well_formed { IsMatrix self.new }
    {
        let (rows, from) = (self.rows(), row_block * BLOCK);
        for index in from..rows.min(from + BLOCK) {
            self.put_row_words(power, index, at, [ones[index - from], twos[index - from]]);
        }
    }

    /// Makes the digits of two words the coefficients of a power of x in the entries of the words at an index of a row;
    /// all others stay. Digits that have no entry are dropped.
    fn put_row_words(&mut self, power: u8, row: usize, at: usize, words: [u64; 2])
        requires prime { prime_of self.old.order ≤ 3 }
        requires power { power < degree_of self.old.order }
        requires row { row < length self.old.rows }
        requires digits { (i : ℕ) → i < 64 → digit_of_words words i < prime_of self.old.order }
        ensures replaced { HasRowWords power row at words self.old self.new }
        ensures well_formed { IsMatrix self.new }
    {
        self.rows[row].set_digit_words(power, at, words);
    }
}

impl<'a> Lines<'a> {
    /// The words at an index of the coefficients of a power of x in the rows of a matrix from 64 times another index
    /// on, those of the ones and those of the twos, one of each for each row of a block; where there is no row, both
    /// are 0. Digit j of those of row i is the coefficient in row i and column j of the block.
    fn words_of_block(&self, power: u8, row_block: usize, at: usize) -> ([u64; BLOCK], [u64; BLOCK])
        requires prime { prime_of self.now.order ≤ 3 }
        requires power { power < degree_of self.now.order }
        requires within { row_block * 64 < length self.now.rows }
        ensures { (i j : ℕ) → i < 64 → j < 64 → digit_of_block result.0 result.1 i j
            ≡ entry (coefficients_of power self.now).rows (row_block * 64 + i) (at * 64 + j) }
    {
        let (rows, from) = (self.rows(), row_block * BLOCK);
        let (mut ones, mut twos) = ([0; BLOCK], [0; BLOCK]);
        for index in from..rows.min(from + BLOCK) {
            let words = self.row(index).digit_words(power, at);
            ones[index - from] = words[0];
            twos[index - from] = words[1];
        }
        (ones, twos)
    }
}

/// The transpose of a block of 64 by 64 bits, at once where all are 0: bit j of word i is bit i of word j of the block.
fn transposed(block: &[u64; BLOCK]) -> [u64; BLOCK]
    ensures { (i j : ℕ) → i < 64 → j < 64 → bit_at (slice_index result i) j ≡ bit_at (slice_index block.now j) i }
{
    if any_nonzero(block) {
        transposed_block(block)
    } else {
        [0; BLOCK]
    }
}

//! Products of matrices, row by row or by tables of combinations of rows.

ghost use Rattle.std.specs.Prelude.{◌≡◌, ◌+◌, ◌*◌, ◌^◌, ◌<◌, ◌≤◌, IsTrue, None, IfOk, OnErr, length, slice_set};
ghost use Rattle.std.specs.Simd.Lanes.{chunk};
ghost use Rattle.axe_field.specs.Order.{IsElement};
ghost use Rattle.axe_row.specs.Combinations.{most_combined, combination_at, piece_number, row_with_four, Combines};
ghost use Rattle.axe_row.specs.Combinations.{IsRowFor};
ghost use Rattle.axe_row.specs.Refusals.{Answers};
ghost use Rattle.axe_row.specs.Sums.{HasSums};
ghost use Rattle.axe_matrix.specs.Matrices.{IsMatrix, row_of, product_refusal, matrix_product};
ghost use Rattle.axe_matrix.specs.Multiples.{matrix_multiple};
ghost use Rattle.axe_matrix.specs.PieceTables.{IsTableFor, AreTablesFor, CombineFrom};
ghost use Rattle.axe_matrix.specs.Products.{matrix_with_product, matrix_with_terms, row_with_product};

use super::{Matrix, Refusal, Row};
use axe_field::Field;
use axe_row::{Combos, digits_per_byte};
use std::alloc::Global;

impl Matrix {
    /// The product of this matrix and another: its entry i, j is the sum over t of entry i, t of this matrix times
    /// entry t, j of the other. Two matrices over different fields are refused as FieldsDiffer, and else two of which
    /// the first has not as many columns as the second has rows as ShapesDiffer.
    pub fn mul(&self, alloc: Global, other: &Matrix) -> Result<Matrix, Refusal>
        ensures product { Answers (product_refusal self.now other.now)
            (λ product. product ≡ matrix_product self.now other.now) result }
        ensures well_formed { IfOk result IsMatrix }
    {
        if self.field() != other.field() {
            return Err(Refusal::FieldsDiffer);
        }
        if self.cols() != other.rows() {
            return Err(Refusal::ShapesDiffer);
        }
        self.times(alloc, other)
    }

    /// The product of this matrix and another over the same field, which has as many rows as this one has columns.
    fn times(&self, alloc: Global, other: &Matrix) -> Result<Matrix, Refusal>
        requires field { other.now.order ≡ self.now.order }
        requires inner_fit { self.now.cols ≡ length other.now.rows }
        ensures product { Answers None (λ product. product ≡ matrix_product self.now other.now) result }
        ensures well_formed { IfOk result IsMatrix }
    {
        let mut product = Matrix::zero(alloc, *self.field(), self.rows(), other.cols())?;
        product.add_product(alloc, 1, self, other)?;
        Ok(product)
    }

    /// Adds a multiple of the product of two matrices over the same field: each entry d becomes d + c s, where c is the
    /// scalar, and s the entry of the product. The first matrix has as many rows as this one, and as many columns as
    /// the second has rows; the second has as many columns as this one. For want of memory nothing is changed.
    pub fn add_product(
        &mut self,
        alloc: Global,
        scalar: u8,
        a: &Matrix,
        b: &Matrix,
    ) -> Result<(), Refusal>
        requires a_field { a.now.order ≡ self.old.order }
        requires b_field { b.now.order ≡ self.old.order }
        requires rows_fit { length a.now.rows ≡ length self.old.rows }
        requires inner_fit { a.now.cols ≡ length b.now.rows }
        requires columns_fit { b.now.cols ≡ self.old.cols }
        requires element { IsElement self.old.order scalar }
        ensures sum { Answers None (λ _. self.new ≡ matrix_with_product self.old scalar a.now b.now) result }
        ensures unchanged { OnErr result (self.new ≡ self.old) }
        ensures well_formed { IsMatrix self.new }
    {
        // `cols` is called for what it ensures beside their number: that the first matrix is one.
        prove!(a.cols() == b.rows());
        let size = rows_combined(self.field(), self.rows(), b.rows());
        if direct_is_cheaper(a, size) {
            self.add_directly(scalar, a, b);
            return Ok(());
        }
        if scalar == 1 {
            return self.add_times(alloc, a, b, size);
        }
        // The digits of a piece are read at once where no scalar is multiplied in.
        let multiple = a.multiple(alloc, scalar)?;
        self.add_times(alloc, &multiple, b, size)
    }

    /// Adds the product of two matrices as [`Matrix::add_product`] does with the scalar 1: row by row where rows are
    /// multiplied value by value, and few enough that this takes less work, by products over the prime field where
    /// there are so many that this does, and else by tables that combine so many rows of the second each; over 5 and 7
    /// elements by sums whose remainders are taken seldom. For want of memory nothing is changed.
    fn add_times(
        &mut self,
        alloc: Global,
        a: &Matrix,
        b: &Matrix,
        size: usize,
    ) -> Result<(), Refusal>
        requires a_field { a.now.order ≡ self.old.order }
        requires b_field { b.now.order ≡ self.old.order }
        requires rows_fit { length a.now.rows ≡ length self.old.rows }
        requires inner_fit { a.now.cols ≡ length b.now.rows }
        requires columns_fit { b.now.cols ≡ self.old.cols }
        requires some { 1 ≤ size }
        requires size { size ≤ most_combined self.old.order }
        ensures sum { Answers None (λ _. self.new ≡ matrix_with_product self.old 1 a.now b.now) result }
        ensures unchanged { OnErr result (self.new ≡ self.old) }
        ensures well_formed { IsMatrix self.new }
    {
        let by_values = a.field().degree() > 1 && a.cols() <= COLUMNS_BY_VALUES;
        if by_values {
            self.add_directly(1, a, b);
            return Ok(());
        }
        if a.goes_by_forms() {
            return self.add_by_forms(alloc, a, b);
        }
        if goes_by_sums(b) {
            return self.add_by_sums(alloc, a, b, size);
        }
        self.add_by_tables(alloc, a, b, size)
    }

    /// The matrix times an element: each entry e becomes c e, where c is the scalar.
    fn multiple(&self, alloc: Global, scalar: u8) -> Result<Matrix, Refusal>
        requires element { IsElement self.now.order scalar }
        ensures multiple { Answers None (λ multiple. multiple ≡ matrix_multiple scalar self.now) result }
        ensures well_formed { IfOk result IsMatrix }
    {
        let mut multiple = Matrix::zero(alloc, *self.field(), self.rows(), self.cols())?;
        multiple.add_scaled(scalar, self);
        Ok(multiple)
    }

    /// Adds the product of two matrices as [`Matrix::add_product`] does with the scalar 1, by tables that combine so
    /// many rows of the second each. For want of memory nothing is changed.
    pub(crate) fn add_by_tables(
        &mut self,
        alloc: Global,
        a: &Matrix,
        b: &Matrix,
        size: usize,
    ) -> Result<(), Refusal>
        requires a_field { a.now.order ≡ self.old.order }
        requires b_field { b.now.order ≡ self.old.order }
        requires rows_fit { length a.now.rows ≡ length self.old.rows }
        requires inner_fit { a.now.cols ≡ length b.now.rows }
        requires columns_fit { b.now.cols ≡ self.old.cols }
        requires some { 1 ≤ size }
        requires size { size ≤ most_combined self.old.order }
        ensures sum { Answers None (λ _. self.new ≡ matrix_with_product self.old 1 a.now b.now) result }
        ensures unchanged { OnErr result (self.new ≡ self.old) }
        ensures well_formed { IsMatrix self.new }
    {
        let mut tables = FourTables::new(alloc, *self.field(), self.cols(), size)?;
        self.add_blocks(a, b, &mut tables);
        // By a call, so that the end of the tables is proved apart from this function.
        drop(tables);
        Ok(())
    }

    /// Adds the product of two matrices as [`Matrix::add_product`] does with the scalar 1, block by block: the tables
    /// are made those of the combinations of each block's rows of the second matrix. It takes no memory.
    fn add_blocks(&mut self, a: &Matrix, b: &Matrix, tables: &mut FourTables)
        requires a_field { a.now.order ≡ self.old.order }
        requires b_field { b.now.order ≡ self.old.order }
        requires rows_fit { length a.now.rows ≡ length self.old.rows }
        requires inner_fit { a.now.cols ≡ length b.now.rows }
        requires columns_fit { b.now.cols ≡ self.old.cols }
        requires size { tables.old.size ≤ most_combined self.old.order }
        requires tables { AreTablesFor self.old.order self.old.cols tables.old }
        ensures sum { self.new ≡ matrix_with_product self.old 1 a.now b.now }
        ensures well_formed { IsMatrix self.new }
    {
        // `rows` is called for what it ensures beside their number: that the two are matrices.
        prove!(a.rows() == self.rows());
        let size = tables.size;
        let mut at = 0;
        while at < b.rows() {
            tables.fill(b, at);
            self.add_block(a, b, at, tables);
            at += 4 * size;
        }
    }

    /// Adds a multiple of the product of two matrices as [`Matrix::add_product`] does, but without tables: for each
    /// entry of the first matrix other than 0, a multiple of a row of the second. It takes no memory.
    fn add_directly(&mut self, scalar: u8, a: &Matrix, b: &Matrix)
        requires a_field { a.now.order ≡ self.old.order }
        requires b_field { b.now.order ≡ self.old.order }
        requires rows_fit { length a.now.rows ≡ length self.old.rows }
        requires inner_fit { a.now.cols ≡ length b.now.rows }
        requires columns_fit { b.now.cols ≡ self.old.cols }
        requires element { IsElement self.old.order scalar }
        ensures sum { self.new ≡ matrix_with_product self.old scalar a.now b.now }
        ensures well_formed { IsMatrix self.new }
    {
        // Called for what `cols` and `rows` ensure beside the numbers: that the two are matrices.
        prove!(a.cols() == b.rows());
        for index in 0..self.rows() {
            self.add_product_to_row(index, scalar, a.row(index), b);
        }
    }

    /// Adds a multiple of the product of a row vector and a matrix to the row at an index.
    fn add_product_to_row(&mut self, index: usize, scalar: u8, vector: &Row, b: &Matrix)
        requires index { index < length self.old.rows }
        requires vector_field { vector.now.order ≡ self.old.order }
        requires b_field { b.now.order ≡ self.old.order }
        requires inner_fit { length vector.now.entries ≡ length b.now.rows }
        requires columns_fit { b.now.cols ≡ self.old.cols }
        requires element { IsElement self.old.order scalar }
        ensures sum { let sum = row_with_product (row_of self.old index) scalar vector.now b.now in
            self.new ≡ record self.old { rows = slice_set self.old.rows index sum.entries } }
        ensures well_formed { IsMatrix self.new }
    {
        b.add_vec_mul(scalar, vector, &mut self.rows[index]);
    }

    /// Adds some terms of the product of two matrices: those for which tables combine four pieces of the second
    /// matrix's rows from an index on.
    fn add_block(&mut self, a: &Matrix, b: &Matrix, at: usize, tables: &FourTables)
        requires a_field { a.now.order ≡ self.old.order }
        requires b_field { b.now.order ≡ self.old.order }
        requires rows_fit { length a.now.rows ≡ length self.old.rows }
        requires inner_fit { a.now.cols ≡ length b.now.rows }
        requires columns_fit { b.now.cols ≡ self.old.cols }
        requires within { at < length b.now.rows }
        requires tables { AreTablesFor self.old.order self.old.cols tables.now }
        requires combine { CombineFrom at b.now.rows tables.now }
        ensures sum { self.new ≡ matrix_with_terms self.old 1 a.now b.now at (4 * tables.now.size) }
        ensures well_formed { IsMatrix self.new }
    {
        // `rows` is called for what it ensures beside their number: that the second matrix is one, of so few rows.
        prove!(at < b.rows());
        for index in 0..self.rows() {
            self.add_combinations(index, a.row(index), at, tables);
        }
    }

    /// Adds to the row at an index the rows of four tables that four pieces of another row name, one after another from
    /// an index on.
    fn add_combinations(&mut self, index: usize, of: &Row, at: usize, tables: &FourTables)
        requires index { index < length self.old.rows }
        requires field { of.now.order ≡ self.old.order }
        requires short { tables.now.size ≤ 8 }
        requires counted { at + 4 * tables.now.size < 2 ^ 64 }
        requires first { IsRowFor (row_of self.old index) tables.now.first
            (piece_number of.now 1 tables.now.size at) }
        requires second { IsRowFor (row_of self.old index) tables.now.second
            (piece_number of.now 1 tables.now.size (at + tables.now.size)) }
        requires third { IsRowFor (row_of self.old index) tables.now.third
            (piece_number of.now 1 tables.now.size (at + 2 * tables.now.size)) }
        requires fourth { IsRowFor (row_of self.old index) tables.now.fourth
            (piece_number of.now 1 tables.now.size (at + 3 * tables.now.size)) }
        ensures sum { let sum = row_with_four (row_of self.old index)
            (combination_at tables.now.first (piece_number of.now 1 tables.now.size at))
            (combination_at tables.now.second (piece_number of.now 1 tables.now.size (at + tables.now.size)))
            (combination_at tables.now.third (piece_number of.now 1 tables.now.size (at + 2 * tables.now.size)))
            (combination_at tables.now.fourth (piece_number of.now 1 tables.now.size (at + 3 * tables.now.size))) in
            self.new ≡ record self.old { rows = slice_set self.old.rows index sum.entries } }
        ensures well_formed { IsMatrix self.new }
    {
        let (first, second) = (&tables.first, &tables.second);
        let (third, fourth) = (&tables.third, &tables.fourth);
        self.rows[index].add_pieces(of, tables.size, at, first, second, third, fourth);
    }
}

/// Up to how many columns a matrix over a field that is not prime has where a product with it goes row by row, value by
/// value: tables of so few rows cost more to fill and to look up than they save.
const COLUMNS_BY_VALUES: usize = 128;

/// How many rows of a matrix are looked at, at most, to guess how many of its entries are 0.
const ROWS_SAMPLED: usize = 32;

/// Whether a product by rows takes fewer additions of a row than one by tables that combine so many rows each, where
/// this matrix is the first factor. A product by rows takes one for each of its entries other than 0. For each block of
/// terms, the tables take about one for each of their combinations, and one or two for each row. Both ways are
/// right: the answer is a guess from some of the rows, evenly spread, and "no" as soon as those looked at so far have
/// much more than their share of the entries.
fn direct_is_cheaper(a: &Matrix, size: usize) -> bool
    requires some { 1 ≤ size }
    requires size { size ≤ most_combined a.now.order }
{
    let combinations = usize::from(a.field().order()).saturating_pow(size as u32);
    let blocks = a.cols().div_ceil(4 * size);
    let fillings = combinations.saturating_mul(4) / a.rows().max(1);
    let additions = additions_of_four(a.field(), a.cols());
    let share = blocks.saturating_mul(fillings.saturating_add(additions));
    let step = a.rows() / ROWS_SAMPLED + 1;
    // The rows looked at first may have somewhat more than their share.
    let (mut left, mut index) = (share.saturating_mul(2), 0);
    while index < a.rows() {
        left = left.saturating_add(share);
        let taken = nonzero_entries(a.row(index));
        if taken > left {
            return false;
        }
        left -= taken;
        index += step;
    }
    true
}

/// How many entries of a row are other than 0.
fn nonzero_entries(row: &Row) -> usize {
    let (mut count, mut at) = (0, 0);
    // `len` is called for what it says of the length: that it is a number of the machine, so that no sum below wraps.
    prove!(at <= row.len());
    while let Some(index) = row.next_nonzero(at) {
        count += 1;
        at = index + 1;
    }
    count
}

/// How many rows each of four tables combines, where so many rows are added from it to sums of so many terms: one more
/// as long as that makes the additions for each term fewer, there is work for four tables, and a table can.
pub(crate) fn rows_combined(field: &Field, rows: usize, terms: usize) -> usize
    ensures some { 1 ≤ result }
    ensures fits { result ≤ most_combined field.now }
{
    let order = usize::from(field.order());
    let most = digits_per_byte(field).min(terms.div_ceil(4));
    let each = additions_of_four(field, terms);
    let (mut size, mut combinations) = (1, order);
    while size < most {
        let more = combinations.saturating_mul(order);
        // The terms of a block are as many as four times the size.
        let after = additions_of_block(more, rows, each).saturating_mul(size);
        if additions_of_block(combinations, rows, each).saturating_mul(size + 1) <= after {
            break;
        }
        size += 1;
        combinations = more;
    }
    size
}

/// About how many additions of a row a block of terms takes by four tables of so many combinations each: one for each
/// combination, and for each of so many rows what four rows of tables take.
fn additions_of_block(combinations: usize, rows: usize, each: usize) -> usize {
    combinations
        .saturating_mul(4)
        .saturating_add(rows.saturating_mul(each))
}

/// About as many additions of a row as adding four rows of tables takes in a product of so many terms, a guess: one where
/// their remainders are not taken, and else two.
fn additions_of_four(field: &Field, terms: usize) -> usize {
    if has_many_terms(field, terms) { 1 } else { 2 }
}

/// From how many terms on a product over 5 or 7 elements goes by sums: with fewer the numbers of pieces cost more to keep
/// than the remainders that are saved.
const TERMS_BY_SUMS: usize = 192;

/// Whether a product with this matrix as the second factor takes fewer steps by tables where the remainders of its entries
/// are taken seldom.
fn goes_by_sums(b: &Matrix) -> bool
    ensures { IsTrue result → HasSums b.now.order }
{
    has_many_terms(b.field(), b.rows())
}

/// Whether a field has 5 or 7 elements, and a product over it so many terms that it goes by sums.
fn has_many_terms(field: &Field, terms: usize) -> bool
    ensures { IsTrue result → HasSums field.now }
{
    field.prime() > 3 && terms >= TERMS_BY_SUMS
}

/// Four tables of combinations of up to `size` rows each.
#[derive(Drop)]
pub(super) struct FourTables {
    pub(super) size: usize,
    pub(super) first: Combos,
    pub(super) second: Combos,
    pub(super) third: Combos,
    pub(super) fourth: Combos,
}

impl FourTables {
    /// Four tables of zeros, for rows of so many entries.
    pub(super) fn new(
        alloc: Global,
        field: Field,
        len: usize,
        size: usize,
    ) -> Result<FourTables, Refusal>
        requires some { 1 ≤ size }
        requires size { size ≤ most_combined field }
        ensures size { IfOk result (λ tables. tables.size ≡ size) }
        ensures tables { Answers None (AreTablesFor field len) result }
    {
        let front = two_tables(alloc, field, len, size)?;
        match two_tables(alloc, field, len, size) {
            Ok(back) => Ok(FourTables::of_pairs(size, front, back)),
            Err(refusal) => {
                // By a call, so that the end of the tables is proved apart from this function.
                drop(front);
                Err(refusal)
            }
        }
    }

    /// The four tables of two pairs.
    fn of_pairs(size: usize, front: (Combos, Combos), back: (Combos, Combos)) -> FourTables
        ensures tables { result ≡ record {
          size = size;
          first = front.0;
          second = front.1;
          third = back.0;
          fourth = back.1;
        } }
    {
        let ((first, second), (third, fourth)) = (front, back);
        FourTables {
            size,
            first,
            second,
            third,
            fourth,
        }
    }

    /// Makes the tables those of the combinations of four pieces of a matrix's rows, one after another from an index
    /// on.
    pub(super) fn fill(&mut self, b: &Matrix, at: usize)
        requires within { at < length b.now.rows }
        requires tables { AreTablesFor b.now.order b.now.cols self.old }
        ensures combine { CombineFrom at b.now.rows self.new }
        ensures size { self.new.size ≡ self.old.size }
        ensures tables { AreTablesFor b.now.order b.now.cols self.new }
    {
        // `rows` is called for what it ensures beside their number: that there are so few that no sum below wraps.
        prove!(at < b.rows());
        let size = self.size;
        fill_piece(&mut self.first, b, at, size);
        fill_piece(&mut self.second, b, at + size, size);
        fill_piece(&mut self.third, b, at + 2 * size, size);
        fill_piece(&mut self.fourth, b, at + 3 * size, size);
    }
}

/// Two tables of zeros, for rows of so many entries.
fn two_tables(
    alloc: Global,
    field: Field,
    len: usize,
    size: usize,
) -> Result<(Combos, Combos), Refusal>
    requires some { 1 ≤ size }
    requires size { size ≤ most_combined field }
    ensures first { Answers None (λ tables. IsTableFor field len size tables.0) result }
    ensures second { Answers None (λ tables. IsTableFor field len size tables.1) result }
{
    let first = Combos::new(alloc, field, len, size)?;
    match Combos::new(alloc, field, len, size) {
        Ok(second) => Ok((first, second)),
        Err(refusal) => {
            // By a call, so that the end of the table is proved apart from this function.
            drop(first);
            Err(refusal)
        }
    }
}

/// Makes a table that of the combinations of a piece of a matrix's rows: `size` of them from an index on, or those that
/// there are.
fn fill_piece(table: &mut Combos, b: &Matrix, at: usize, size: usize)
    requires table { IsTableFor b.now.order b.now.cols size table.old }
    requires some { 1 ≤ size }
    ensures combines { Combines (chunk at size b.now.rows) table.new }
    ensures table { IsTableFor b.now.order b.now.cols size table.new }
{
    if at < b.rows() {
        let end = (at + size).min(b.rows());
        table.fill(&b.rows[at..end]);
    }
}

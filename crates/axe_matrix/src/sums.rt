//! Products over the fields of 5 and 7 elements, by sums of rows whose remainders are not taken yet, a strip of columns
//! at a time.

ghost use Rattle.std.specs.Prelude.{◌≡◌, ◌+◌, ◌*◌, ◌<◌, ◌≤◌, ◌++◌, ◌∷◌, [], None, IfOk, OnErr, length};
ghost use Rattle.std.specs.Prelude.{slice_index, slice_set};
ghost use Rattle.axe_row.specs.Combinations.{most_combined, combination_at, row_with_four, IsRowFor};
ghost use Rattle.axe_row.specs.Operations.{row_with_multiple};
ghost use Rattle.axe_row.specs.Refusals.{Answers};
ghost use Rattle.axe_row.specs.Rows.{IsRow};
ghost use Rattle.axe_row.specs.Sums.{HasSums, placed_row};
ghost use Rattle.axe_matrix.specs.Limits.{most_rows, most_columns};
ghost use Rattle.axe_matrix.specs.Matrices.{IsMatrix, matrix_block, matrix_product, row_of, zero_matrix};
ghost use Rattle.axe_matrix.specs.Multiples.{matrix_with_multiple};
ghost use Rattle.axe_matrix.specs.PieceTables.{ArePieceNumbers, AreBlockNumbers, AreTablesFor, CombineFrom};
ghost use Rattle.axe_matrix.specs.Products.{matrix_with_product, matrix_with_terms};
ghost use Rattle.axe_matrix.specs.Strips.{placed_columns};

use super::products::FourTables;
use super::{MAX_ROWS, Matrix, Refusal};
use axe_field::Field;
use axe_row::RowSum;
use std::alloc::Global;
use std::marker::Model;

/// How many entries a strip of a product has about: their sums, a byte each, stay in the second cache of most
/// processors while all terms are added to them.
const STRIP_ENTRIES: usize = 1 << 19;

/// How many columns a strip has at least, so that adding a row of a table takes more steps than finding it.
const LEAST_COLUMNS: usize = 128;

/// The numbers of four pieces of each of a matrix's rows: they name the rows of tables that are added to a product's.
#[derive(Drop)]
struct PieceNumbers {
    rows: Vec<[u8; 4]>,
}

impl Model for PieceNumbers {
    ghost use Rattle.std.specs.Prelude.{ℕ, List};

    ghost Value = { List (List ℕ) };

    ghost view = { λ a. a.rows.items };
}

/// A matrix over the field of 5 or of 7 elements to whose rows rows of tables are added: the remainders of its entries
/// are taken only where a byte has no more room, and when it is added to a matrix.
#[derive(Drop)]
struct MatrixSum {
    field: Field,
    cols: usize,
    rows: Vec<RowSum>,
}

impl Model for MatrixSum {
    ghost use Rattle.axe_matrix.specs.Matrices.{MatrixValue};

    ghost Value = { MatrixValue };

    ghost use Rattle.axe_matrix.specs.RowLists.{matrix_from_rows, MakeMatrix};

    ghost view = { λ a. matrix_from_rows a.field a.cols a.rows.items };

    ghost invariant = { λ a. MakeMatrix a.field a.cols a.rows.items };
}

impl Matrix {
    /// Adds the product of two matrices over the field of 5 or of 7 elements as [`Matrix::add_product`] does with the
    /// scalar 1, by tables that combine so many rows of the second each: the products' terms are summed apart, and their
    /// remainders taken seldom. For want of memory nothing is changed.
    pub(crate) fn add_by_sums(
        &mut self,
        alloc: Global,
        a: &Matrix,
        b: &Matrix,
        size: usize,
    ) -> Result<(), Refusal>
        requires sums { HasSums self.old.order }
        requires a_field { a.now.order ≡ self.old.order }
        requires b_field { b.now.order ≡ self.old.order }
        requires rows_fit { length a.now.rows ≡ length self.old.rows }
        requires inner_fit { a.now.cols ≡ length b.now.rows }
        requires columns_fit { b.now.cols ≡ self.old.cols }
        requires some { 1 ≤ size }
        requires size { size ≤ most_combined self.old.order }
        ensures sum { Answers None (λ _. self.new ≡ matrix_with_product self.old 1 a.now b.now) result }
        ensures unchanged { OnErr result (self.new ≡ self.old) }
        ensures well_formed { IsMatrix self.new }
    {
        // Called for what `cols` and `rows` ensure beside the numbers: that the two are matrices.
        prove!(a.cols() == b.rows());
        let width = strip_width(self.rows());
        let blocks = block_numbers(alloc, a, size)?;
        if self.cols() <= width {
            let mut sums = MatrixSum::of_product(alloc, a, &blocks, b, size)?;
            self.add_sums(&mut sums, 0);
            return Ok(());
        }
        let product = product_by_strips(alloc, a, &blocks, b, size, width)?;
        self.add_scaled(1, &product);
        Ok(())
    }

    /// Adds the product of a matrix and of so many columns of another to the columns that stand where these do.
    /// `blocks` are the numbers of the first matrix.
    fn add_strip(
        &mut self,
        alloc: Global,
        a: &Matrix,
        blocks: &[PieceNumbers],
        b: &Matrix,
        size: usize,
        start: usize,
        width: usize,
    ) -> Result<(), Refusal>
        requires sums { HasSums self.old.order }
        requires a_field { a.now.order ≡ self.old.order }
        requires b_field { b.now.order ≡ self.old.order }
        requires rows_fit { length a.now.rows ≡ length self.old.rows }
        requires inner_fit { a.now.cols ≡ length b.now.rows }
        requires columns_fit { b.now.cols ≡ self.old.cols }
        requires some { 1 ≤ size }
        requires size { size ≤ most_combined self.old.order }
        requires blocks { AreBlockNumbers a.now size blocks.now }
        requires some_column { 1 ≤ width }
        requires columns_within { start + width ≤ self.old.cols }
        ensures sum { Answers None (λ _. self.new ≡ matrix_with_multiple self.old 1 (placed_columns self.old.cols start
            (matrix_product a.now (matrix_block b.now 0 (length b.now.rows) start width)))) result }
        ensures well_formed { IsMatrix self.new }
    {
        // `cols` is called for what it ensures beside their number: that the matrix is one.
        prove!(width <= self.cols());
        let strip = b.block(alloc, 0, b.rows(), start, width)?;
        let mut sums = MatrixSum::of_product(alloc, a, blocks, &strip, size)?;
        self.add_sums(&mut sums, start);
        Ok(())
    }

    /// Adds the sums of a matrix's rows to the columns from one on. The matrix has as many rows.
    fn add_sums(&mut self, sums: &mut MatrixSum, start: usize)
        requires field { sums.old.order ≡ self.old.order }
        requires rows_fit { length sums.old.rows ≡ length self.old.rows }
        requires columns_within { start + sums.old.cols ≤ self.old.cols }
        ensures sum { self.new ≡ matrix_with_multiple self.old 1 (placed_columns self.old.cols start sums.old) }
        ensures well_formed { IsMatrix self.new }
    {
        for index in 0..self.rows() {
            self.add_sum_to_row(index, sums, start);
        }
    }

    /// Adds the sum of the row at an index to the entries of that row from a column on.
    fn add_sum_to_row(&mut self, index: usize, sums: &mut MatrixSum, start: usize)
        requires field { sums.old.order ≡ self.old.order }
        requires rows_fit { length sums.old.rows ≡ length self.old.rows }
        requires columns_within { start + sums.old.cols ≤ self.old.cols }
        requires index { index < length self.old.rows }
        ensures sum { let sum = row_with_multiple (row_of self.old index) 1
            (placed_row self.old.cols start (row_of sums.old index)) in
            self.new ≡ record self.old { rows = slice_set self.old.rows index sum.entries } }
        ensures kept { sums.new ≡ sums.old }
        ensures well_formed { IsMatrix self.new }
    {
        sums.rows[index].add_to(&mut self.rows[index], start);
    }
}

/// The product of two matrices over the field of 5 or of 7 elements, so many columns at a time. `blocks` are the
/// numbers of the first.
fn product_by_strips(
    alloc: Global,
    a: &Matrix,
    blocks: &[PieceNumbers],
    b: &Matrix,
    size: usize,
    width: usize,
) -> Result<Matrix, Refusal>
    requires sums { HasSums a.now.order }
    requires field { b.now.order ≡ a.now.order }
    requires inner_fit { a.now.cols ≡ length b.now.rows }
    requires some { 1 ≤ size }
    requires size { size ≤ most_combined a.now.order }
    requires blocks { AreBlockNumbers a.now size blocks.now }
    requires some_column { 1 ≤ width }
    ensures product { Answers None (λ product. product ≡ matrix_product a.now b.now) result }
    ensures well_formed { IfOk result IsMatrix }
{
    let mut product = Matrix::zero(alloc, *a.field(), a.rows(), b.cols())?;
    let mut start = 0;
    while start < b.cols() {
        let columns = width.min(b.cols() - start);
        product.add_strip(alloc, a, blocks, b, size, start, columns)?;
        start += columns;
    }
    Ok(product)
}

/// How many columns a strip of a product of so many rows has.
fn strip_width(rows: usize) -> usize
    ensures some { 1 ≤ result }
{
    (STRIP_ENTRIES / rows.max(1)).max(LEAST_COLUMNS)
}

/// The numbers of all pieces of a matrix's rows, for tables that combine so many rows each: those of the first four
/// pieces, those of the next four, and so on.
fn block_numbers(alloc: Global, a: &Matrix, size: usize) -> Result<Vec<PieceNumbers>, Refusal>
    requires some { 1 ≤ size }
    requires size { size ≤ most_combined a.now.order }
    ensures numbers { Answers None (λ blocks. AreBlockNumbers a.now size blocks.items) result }
{
    let mut blocks = Vec::with_capacity(alloc, a.cols().div_ceil(4 * size))?;
    let mut column = 0;
    while column < a.cols() {
        let numbers = PieceNumbers::read(alloc, a, size, column)?;
        blocks.push(numbers)?;
        column += 4 * size;
    }
    Ok(blocks)
}

impl PieceNumbers {
    /// The numbers of the four pieces of each row of a matrix that stand one after another from a column on.
    fn read(alloc: Global, a: &Matrix, size: usize, at: usize) -> Result<PieceNumbers, Refusal>
        requires some { 1 ≤ size }
        requires size { size ≤ most_combined a.now.order }
        requires within { at < a.now.cols }
        ensures numbers { Answers None (ArePieceNumbers a.now size at) result }
    {
        let mut rows = Vec::with_capacity(alloc, a.rows())?;
        for index in 0..a.rows() {
            // There are so few combinations that a byte has room for each number.
            let [first, second, third, fourth] = a.row(index).piece_numbers(1, size, at);
            rows.push([first as u8, second as u8, third as u8, fourth as u8])?;
        }
        Ok(PieceNumbers { rows })
    }
}

impl MatrixSum {
    /// The product of two matrices over the field of 5 or of 7 elements, by tables that combine so many rows of the
    /// second each. `blocks` are the numbers of the first.
    fn of_product(
        alloc: Global,
        a: &Matrix,
        blocks: &[PieceNumbers],
        b: &Matrix,
        size: usize,
    ) -> Result<MatrixSum, Refusal>
        requires sums { HasSums a.now.order }
        requires field { b.now.order ≡ a.now.order }
        requires inner_fit { a.now.cols ≡ length b.now.rows }
        requires some { 1 ≤ size }
        requires size { size ≤ most_combined a.now.order }
        requires blocks { AreBlockNumbers a.now size blocks.now }
        ensures product { Answers None (λ sums. sums ≡ matrix_product a.now b.now) result }
        ensures well_formed { IfOk result IsMatrix }
    {
        let mut sums = MatrixSum::zero(alloc, *a.field(), a.rows(), b.cols())?;
        match FourTables::new(alloc, *a.field(), b.cols(), size) {
            Ok(mut tables) => {
                sums.add_blocks(a, blocks, b, &mut tables);
                // By a call, so that the end of the tables is proved apart from this function.
                drop(tables);
                Ok(sums)
            }
            Err(refusal) => {
                drop(sums);
                Err(refusal)
            }
        }
    }

    /// The matrix of zeros of a shape, over the field of 5 or of 7 elements.
    fn zero(alloc: Global, field: Field, rows: usize, cols: usize) -> Result<MatrixSum, Refusal>
        requires sums { HasSums field }
        requires rows_fit { rows ≤ most_rows }
        requires some_column { 1 ≤ cols }
        requires columns_fit { cols ≤ most_columns }
        ensures zeros { Answers None (λ sums. sums ≡ zero_matrix field rows cols) result }
        ensures well_formed { IfOk result IsMatrix }
    {
        let mut sums = MatrixSum {
            field,
            cols,
            rows: Vec::with_capacity(alloc, rows)?,
        };
        for index in 0..rows {
            let sum = RowSum::zero(alloc, field, cols)?;
            sums.append(sum)?;
        }
        Ok(sums)
    }

    /// Appends a row, as [`Matrix::append`] does.
    fn append(&mut self, sum: RowSum) -> Result<(), Refusal>
        requires field { sum.order ≡ self.old.order }
        requires fits { length sum.entries ≡ self.old.cols }
        requires row { IsRow sum }
        requires room { length self.old.rows < most_rows }
        requires well_formed { IsMatrix self.old }
        ensures appended { Answers None
            (λ _. self.new ≡ record self.old { rows = self.old.rows ++ sum.entries ∷ [] }) result }
        ensures unchanged { OnErr result (self.new ≡ self.old) }
        ensures well_formed { IsMatrix self.new }
    {
        self.rows.push(sum).map_err(|_| Refusal::Memory)
    }

    /// Adds the product of two matrices, block by block: the tables are made those of the combinations of each block's
    /// rows of the second matrix. It takes no memory.
    fn add_blocks(
        &mut self,
        a: &Matrix,
        blocks: &[PieceNumbers],
        b: &Matrix,
        tables: &mut FourTables,
    )
        requires a_field { a.now.order ≡ self.old.order }
        requires b_field { b.now.order ≡ self.old.order }
        requires rows_fit { length a.now.rows ≡ length self.old.rows }
        requires inner_fit { a.now.cols ≡ length b.now.rows }
        requires columns_fit { b.now.cols ≡ self.old.cols }
        requires size { tables.old.size ≤ most_combined self.old.order }
        requires tables { AreTablesFor self.old.order self.old.cols tables.old }
        requires blocks { AreBlockNumbers a.now tables.old.size blocks.now }
        requires well_formed { IsMatrix self.old }
        ensures sum { self.new ≡ matrix_with_product self.old 1 a.now b.now }
        ensures well_formed { IsMatrix self.new }
    {
        // `rows` is called for what it ensures beside their number: that the matrix is one.
        prove!(a.rows() <= MAX_ROWS);
        let size = tables.size;
        let (mut block, mut at) = (0, 0);
        while at < b.rows() {
            tables.fill(b, at);
            self.add_block(a, &blocks[block], b, at, tables);
            block += 1;
            at += 4 * size;
        }
    }

    /// Adds some terms of the product of two matrices: those for which tables combine four pieces of the second
    /// matrix's rows from an index on, whose numbers in the first matrix's rows are given.
    fn add_block(
        &mut self,
        a: &Matrix,
        numbers: &PieceNumbers,
        b: &Matrix,
        at: usize,
        tables: &FourTables,
    )
        requires a_field { a.now.order ≡ self.old.order }
        requires b_field { b.now.order ≡ self.old.order }
        requires rows_fit { length a.now.rows ≡ length self.old.rows }
        requires inner_fit { a.now.cols ≡ length b.now.rows }
        requires columns_fit { b.now.cols ≡ self.old.cols }
        requires within { at < length b.now.rows }
        requires tables { AreTablesFor self.old.order self.old.cols tables.now }
        requires combine { CombineFrom at b.now.rows tables.now }
        requires numbers { ArePieceNumbers a.now tables.now.size at numbers.now }
        requires well_formed { IsMatrix self.old }
        ensures sum { self.new ≡ matrix_with_terms self.old 1 a.now b.now at (4 * tables.now.size) }
        ensures well_formed { IsMatrix self.new }
    {
        // `rows` is called for what it ensures beside their number: that the second matrix is one, of so few rows.
        prove!(at < b.rows());
        for index in 0..a.rows() {
            self.add_combinations(index, numbers.rows[index], tables);
        }
    }

    /// Adds to the row at an index the rows of four tables of these numbers.
    fn add_combinations(&mut self, index: usize, numbers: [u8; 4], tables: &FourTables)
        requires index { index < length self.old.rows }
        requires first { IsRowFor (row_of self.old index) tables.now.first (slice_index numbers 0) }
        requires second { IsRowFor (row_of self.old index) tables.now.second (slice_index numbers 1) }
        requires third { IsRowFor (row_of self.old index) tables.now.third (slice_index numbers 2) }
        requires fourth { IsRowFor (row_of self.old index) tables.now.fourth (slice_index numbers 3) }
        ensures sum { let sum = row_with_four (row_of self.old index)
            (combination_at tables.now.first (slice_index numbers 0))
            (combination_at tables.now.second (slice_index numbers 1))
            (combination_at tables.now.third (slice_index numbers 2))
            (combination_at tables.now.fourth (slice_index numbers 3)) in
            self.new ≡ record self.old { rows = slice_set self.old.rows index sum.entries } }
        ensures well_formed { IsMatrix self.new }
    {
        let [a, b, c, d] = numbers;
        let indices = [
            usize::from(a),
            usize::from(b),
            usize::from(c),
            usize::from(d),
        ];
        let (first, second) = (&tables.first, &tables.second);
        let (third, fourth) = (&tables.third, &tables.fourth);
        self.rows[index].add_four(indices, first, second, third, fourth);
    }
}

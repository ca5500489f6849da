//! Products over fields that are not prime, by products over the prime field.

ghost use Rattle.std.specs.Prelude.{◌≡◌, ◌<◌, None, IfOk, OnErr, [], length, slice_index_or, slice_set};
ghost use Rattle.axe_field.specs.Forms.{prime_order, IsForm};
ghost use Rattle.axe_field.specs.NumberFields.{number_field};
ghost use Rattle.axe_field.specs.Order.{IsElement};
ghost use Rattle.axe_row.specs.Operations.{sum_with_multiple};
ghost use Rattle.axe_row.specs.Refusals.{Answers};
ghost use Rattle.axe_matrix.specs.FormValues.{matrix_of_values};
ghost use Rattle.axe_matrix.specs.Matrices.{IsMatrix, matrix_product};
ghost use Rattle.axe_matrix.specs.Multiples.{matrix_with_multiple};
ghost use Rattle.axe_matrix.specs.Products.{matrix_with_product};

use super::products::rows_combined;
use super::{Matrix, Refusal, Row};
use axe_field::ProductTerm;
use std::alloc::Global;

/// From how many columns on a matrix over four elements is multiplied by products over two.
const LARGE_OVER_FOUR: usize = 192;

/// From how many columns on a matrix over eight elements is multiplied by products over two.
const LARGE_OVER_EIGHT: usize = 640;

/// From how many columns on a matrix over nine elements is multiplied by products over three.
const LARGE_OVER_NINE: usize = 2048;

impl Matrix {
    /// Whether a product with this matrix as the first factor takes fewer steps by products over the prime field: it is
    /// over a field that is not prime, and so large that making the values of the forms costs less than they save. Both
    /// ways are right.
    pub(crate) fn goes_by_forms(&self) -> bool {
        match self.field().order() {
            4 => self.cols() >= LARGE_OVER_FOUR,
            8 => self.cols() >= LARGE_OVER_EIGHT,
            9 => self.cols() >= LARGE_OVER_NINE,
            _ => false,
        }
    }

    /// Adds the product of two matrices as [`Matrix::add_product`] does with the scalar 1, by products of matrices over
    /// the prime field. For want of memory nothing is changed.
    pub(crate) fn add_by_forms(
        &mut self,
        alloc: Global,
        a: &Matrix,
        b: &Matrix,
    ) -> Result<(), Refusal>
        requires a_field { a.now.order ≡ self.old.order }
        requires b_field { b.now.order ≡ self.old.order }
        requires rows_fit { length a.now.rows ≡ length self.old.rows }
        requires inner_fit { a.now.cols ≡ length b.now.rows }
        requires columns_fit { b.now.cols ≡ self.old.cols }
        ensures sum { Answers None (λ _. self.new ≡ matrix_with_product self.old 1 a.now b.now) result }
        ensures unchanged { OnErr result (self.new ≡ self.old) }
        ensures well_formed { IsMatrix self.new }
    {
        // `cols` is called for what it ensures beside their number: that the matrix is one.
        prove!(self.cols() == b.cols());
        let product = product_by_forms(alloc, a, b)?;
        self.add_scaled(1, &product);
        Ok(())
    }

    /// Adds what a term gives of the product of two matrices: the product of the values of its form at their entries,
    /// times its weight.
    fn add_term(
        &mut self,
        alloc: Global,
        term: &ProductTerm,
        a: &Matrix,
        b: &Matrix,
    ) -> Result<(), Refusal>
        requires form { IsForm self.old.order term.now.form }
        requires weight { IsElement self.old.order term.now.weight }
        requires a_field { a.now.order ≡ self.old.order }
        requires b_field { b.now.order ≡ self.old.order }
        requires rows_fit { length a.now.rows ≡ length self.old.rows }
        requires inner_fit { a.now.cols ≡ length b.now.rows }
        requires columns_fit { b.now.cols ≡ self.old.cols }
        ensures sum { Answers None (λ _. self.new ≡ matrix_with_multiple self.old term.now.weight
            (matrix_product (matrix_of_values term.now.form a.now) (matrix_of_values term.now.form b.now))) result }
        ensures well_formed { IsMatrix self.new }
    {
        // `cols` is called for what it ensures beside their number: that the matrix is one.
        prove!(self.cols() == b.cols());
        let first = a.values_of_form(alloc, term.form)?;
        let second = b.values_of_form(alloc, term.form)?;
        let product = product_by_tables(alloc, &first, &second)?;
        self.add_prime_multiple(term.weight, &product);
        Ok(())
    }

    /// The matrix over the prime field of the values that a linear form takes at the entries.
    fn values_of_form(&self, alloc: Global, form: [u8; 3]) -> Result<Matrix, Refusal>
        requires form { IsForm self.now.order form }
        ensures values { Answers None (λ values. values ≡ matrix_of_values form self.now) result }
        ensures well_formed { IfOk result IsMatrix }
    {
        let field = self.field().prime_field();
        let mut values = Matrix::with_capacity(alloc, field, self.cols(), self.rows())?;
        for index in 0..self.rows() {
            let row = self.row(index).values_of_form(alloc, form)?;
            values.append(row)?;
        }
        Ok(values)
    }

    /// Adds a multiple of a matrix over the prime field and of the same shape: each entry d becomes d + c s, where c is
    /// the scalar, and s the other matrix's entry, which has the same number in this matrix's field. It takes no memory.
    fn add_prime_multiple(&mut self, scalar: u8, other: &Matrix)
        requires field { other.now.order ≡ prime_order self.old.order }
        requires rows_fit { length other.now.rows ≡ length self.old.rows }
        requires columns_fit { other.now.cols ≡ self.old.cols }
        requires element { IsElement self.old.order scalar }
        ensures sum { self.new ≡ matrix_with_multiple self.old scalar other.now }
        ensures well_formed { IsMatrix self.new }
    {
        for index in 0..self.rows() {
            self.add_prime_multiple_to_row(index, scalar, other.row(index));
        }
    }

    /// Adds a multiple of a row over the prime field to the row at an index.
    fn add_prime_multiple_to_row(&mut self, index: usize, scalar: u8, row: &Row)
        requires index { index < length self.old.rows }
        requires field { row.now.order ≡ prime_order self.old.order }
        requires fits { length row.now.entries ≡ self.old.cols }
        requires element { IsElement self.old.order scalar }
        ensures sum { let old = slice_index_or self.old.rows index [] in
            let sum = sum_with_multiple (number_field self.old.order) old scalar row.now.entries in
            self.new ≡ record self.old { rows = slice_set self.old.rows index sum } }
        ensures well_formed { IsMatrix self.new }
    {
        self.rows[index].add_prime_multiple(scalar, row);
    }
}

/// The product of two matrices over one field, the first of which has as many columns as the second has rows, by products
/// of matrices over the prime field: the sum of what the terms give of it.
fn product_by_forms(alloc: Global, a: &Matrix, b: &Matrix) -> Result<Matrix, Refusal>
    requires field { b.now.order ≡ a.now.order }
    requires inner_fit { a.now.cols ≡ length b.now.rows }
    ensures product { Answers None (λ product. product ≡ matrix_product a.now b.now) result }
    ensures well_formed { IfOk result IsMatrix }
{
    let terms = a.field().product_terms();
    let mut product = Matrix::zero(alloc, *a.field(), a.rows(), b.cols())?;
    for index in 0..terms.len() {
        product.add_term(alloc, &terms[index], a, b)?;
    }
    Ok(product)
}

/// The product of two matrices over one field, the first of which has as many columns as the second has rows, by tables.
fn product_by_tables(alloc: Global, a: &Matrix, b: &Matrix) -> Result<Matrix, Refusal>
    requires field { b.now.order ≡ a.now.order }
    requires inner_fit { a.now.cols ≡ length b.now.rows }
    ensures product { Answers None (λ product. product ≡ matrix_product a.now b.now) result }
    ensures well_formed { IfOk result IsMatrix }
{
    let mut product = Matrix::zero(alloc, *a.field(), a.rows(), b.cols())?;
    let size = rows_combined(a.field(), a.rows(), b.rows());
    product.add_by_tables(alloc, a, b, size)?;
    Ok(product)
}

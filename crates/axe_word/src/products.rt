//! Products of two generators of a module that are kept while words are evaluated, and products of more by these.

ghost use Rattle.std.specs.Prelude.{◌≡◌, ◌+◌, ◌<◌, [], ◌∷◌, length, take, All, None, IfOk, IfSome, ⊤};
ghost use Rattle.std.specs.List.{Contains};
ghost use Rattle.axe_field.specs.Order.{IsElement};
ghost use Rattle.axe_row.specs.Refusals.{Answers};
ghost use Rattle.axe_matrix.specs.Matrices.{IsMatrix, matrix_product};
ghost use Rattle.axe_word.specs.Products.{IsProductOf};
ghost use Rattle.axe_word.specs.KeptProducts.{AreProductsOf, IsFactorAt, IsMultipleAdded};

use axe_matrix::{Matrix, Refusal};
use axe_spin::Module;
use std::alloc::Global;
use std::marker::Model;

/// How many products are kept: all that a module of two generators has.
const MAX_KEPT: usize = 4;

/// The product of two generators, with their numbers.
#[derive(Drop)]
struct Kept {
    first: u8,
    second: u8,
    product: Matrix,
}

/// Products of two generators of a module, made for the values of words and kept for those of others. They are those
/// that come first, and few.
#[derive(Drop)]
pub struct Products {
    kept: Vec<Kept>,
}

impl Model for Products {
    ghost use Rattle.std.specs.Prelude.{List};
    ghost use Rattle.axe_word.specs.declared.products.Kept.{Kept};

    ghost Value = { List Kept };

    ghost view = { λ a. a.kept.items };
}

/// A factor of a product of generators: one of them, or the product of two.
#[derive(Clone, Copy)]
struct Factor<'a> {
    matrix: &'a Matrix,
    /// How many generators it is the product of.
    len: usize,
}

impl Products {
    /// No products. It takes no memory.
    pub fn new(alloc: Global) -> Products
        ensures { result ≡ [] }
    {
        Products {
            kept: Vec::new(alloc),
        }
    }

    /// Keeps the product of the first two of some generators, that of the next two and so on, as far as there is room.
    pub(crate) fn keep_pairs(
        &mut self,
        alloc: Global,
        module: &Module,
        gens: &[u8],
    ) -> Result<(), Refusal>
        requires products { AreProductsOf «module».now self.old }
        requires numbers { All (λ number. number < length «module».now.generators) gens.now }
        ensures answers { Answers None (λ _. ⊤) result }
        ensures products { AreProductsOf «module».now self.new }
    {
        for pair in 0..gens.len() / 2 {
            self.keep(alloc, module, gens[2 * pair], gens[2 * pair + 1])?;
        }
        Ok(())
    }

    /// Keeps the product of two generators, where it is not kept and there is room.
    fn keep(&mut self, alloc: Global, module: &Module, first: u8, second: u8) -> Result<(), Refusal>
        requires products { AreProductsOf «module».now self.old }
        requires first { first < length «module».now.generators }
        requires second { second < length «module».now.generators }
        ensures answers { Answers None (λ _. ⊤) result }
        ensures products { AreProductsOf «module».now self.new }
    {
        if self.kept.len() >= MAX_KEPT || self.of_two(first, second).is_some() {
            return Ok(());
        }
        let (left, right) = (usize::from(first), usize::from(second));
        let product = times(alloc, module.generator(left), module.generator(right))?;
        self.kept.push(Kept {
            first,
            second,
            product,
        })?;
        Ok(())
    }

    /// The product of two generators, where it is kept.
    fn of_two(&self, first: u8, second: u8) -> Option<&Matrix>
        ensures { IfSome result (λ product. Contains self.now
            (record { first = first; second = second; product = product.now })) }
    {
        for index in 0..self.kept.len() {
            let kept = &self.kept[index];
            if kept.first == first && kept.second == second {
                return Some(&kept.product);
            }
        }
        None
    }

    /// A factor of the product of some generators, from an index on: the product of two where it is kept, or else the
    /// generator.
    fn factor_at<'a>(&'a self, module: &'a Module, gens: &[u8], index: usize) -> Factor<'a>
        requires products { AreProductsOf «module».now self.now }
        requires numbers { All (λ number. number < length «module».now.generators) gens.now }
        requires inside { index < length gens.now }
        ensures factor { IsFactorAt «module».now gens.now index result.len result.matrix.now }
        ensures well_formed { IsMatrix result.matrix.now }
    {
        if index + 1 < gens.len() {
            if let Some(product) = self.of_two(gens[index], gens[index + 1]) {
                return Factor {
                    matrix: product,
                    len: 2,
                };
            }
        }
        Factor {
            matrix: module.generator(usize::from(gens[index])),
            len: 1,
        }
    }

    /// Adds a multiple of the product of one or more generators, from left to right, to a square matrix of the module's
    /// dimension. It goes factor by factor, by products that are kept.
    pub(crate) fn add_multiple(
        &self,
        alloc: Global,
        module: &Module,
        coefficient: u8,
        gens: &[u8],
        sum: &mut Matrix,
    ) -> Result<(), Refusal>
        requires products { AreProductsOf «module».now self.now }
        requires numbers { All (λ number. number < length «module».now.generators) gens.now }
        requires some { 0 < length gens.now }
        requires element { IsElement sum.old.order coefficient }
        requires field { sum.old.order ≡ «module».now.order }
        requires columns { sum.old.cols ≡ «module».now.dim }
        requires rows { length sum.old.rows ≡ «module».now.dim }
        ensures added { Answers None
            (λ _. IsMultipleAdded «module».now coefficient gens.now sum.old sum.new) result }
        ensures well_formed { Answers None (λ _. IsMatrix sum.new) result }
    {
        let first = self.factor_at(module, gens, 0);
        if first.len == gens.len() {
            sum.add_scaled(coefficient, first.matrix);
            return Ok(());
        }
        self.add_after(alloc, module, coefficient, gens, first, sum)
    }

    /// Adds a multiple of the product of some generators, of which the first ones, and not all, have been multiplied.
    fn add_after(
        &self,
        alloc: Global,
        module: &Module,
        coefficient: u8,
        gens: &[u8],
        begun: Factor<'_>,
        sum: &mut Matrix,
    ) -> Result<(), Refusal>
        requires products { AreProductsOf «module».now self.now }
        requires numbers { All (λ number. number < length «module».now.generators) gens.now }
        requires begun { IsProductOf «module».now (take begun.len gens.now) begun.matrix.now }
        requires left { begun.len < length gens.now }
        requires element { IsElement sum.old.order coefficient }
        requires field { sum.old.order ≡ «module».now.order }
        requires columns { sum.old.cols ≡ «module».now.dim }
        requires rows { length sum.old.rows ≡ «module».now.dim }
        ensures added { Answers None
            (λ _. IsMultipleAdded «module».now coefficient gens.now sum.old sum.new) result }
        ensures well_formed { Answers None (λ _. IsMatrix sum.new) result }
    {
        let mut product: Option<Matrix> = None;
        let mut taken = begun.len;
        // Each factor takes at least one of the generators.
        for _ in 0..gens.len() {
            let before = product.as_ref().unwrap_or(begun.matrix);
            let factor = self.factor_at(module, gens, taken);
            taken += factor.len;
            if taken == gens.len() {
                // The last factor is multiplied as it is added.
                return sum.add_product(alloc, coefficient, before, factor.matrix);
            }
            product = Some(times(alloc, before, factor.matrix)?);
        }
        unreachable!()
    }
}

/// The product of two matrices over one field, of which the first has as many columns as the second has rows.
fn times(alloc: Global, left: &Matrix, right: &Matrix) -> Result<Matrix, Refusal>
    requires field { right.now.order ≡ left.now.order }
    requires inner_fit { left.now.cols ≡ length right.now.rows }
    ensures product { Answers None (λ product. product ≡ matrix_product left.now right.now) result }
    ensures well_formed { IfOk result IsMatrix }
{
    left.mul(alloc, right)
}

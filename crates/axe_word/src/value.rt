//! The values of words.

ghost use Rattle.std.specs.Prelude.{◌+◌, ◌<◌, ◌↔◌, length, take, None, IfOk, IsTrue};
ghost use Rattle.axe_row.specs.Refusals.{Answers};
ghost use Rattle.axe_matrix.specs.Matrices.{IsMatrix};
ghost use Rattle.axe_word.specs.Words.{IsWordIn, IsTermIn, IsValueOf};
ghost use Rattle.axe_word.specs.KeptProducts.{AreProductsOf};

use crate::products::Products;
use crate::word::{Term, Word};
use axe_matrix::{Matrix, Refusal};
use axe_spin::Module;
use std::alloc::Global;

impl Word {
    /// Whether the word is one in the generators of a module: whether each coefficient is the number of an element of
    /// its field, and each generator number that of a generator.
    pub fn is_word_in(&self, module: &Module) -> bool
        ensures { IsTrue result ↔ IsWordIn «module».now self.now }
    {
        for index in 0..self.len() {
            if !is_term_in(self.term(index), module) {
                return false;
            }
        }
        true
    }

    /// The value of the word in a module of which it is one, as [`Word::is_word_in`] says: the sum over the terms of
    /// the coefficient times the product of the generators from left to right. The empty sum is zero, and the empty
    /// product the identity.
    pub fn value(&self, alloc: Global, module: &Module) -> Result<Matrix, Refusal>
        requires { IsWordIn «module».now self.now }
        ensures value { Answers None (IsValueOf «module».now self.now) result }
        ensures well_formed { IfOk result IsMatrix }
    {
        let mut products = Products::new(alloc);
        self.value_with(alloc, module, &mut products)
    }

    /// What [`Word::value`] gives, with products of generators that were kept for other words; those that are made for
    /// this one are kept, too.
    pub fn value_with(
        &self,
        alloc: Global,
        module: &Module,
        products: &mut Products,
    ) -> Result<Matrix, Refusal>
        requires word { IsWordIn «module».now self.now }
        requires products { AreProductsOf «module».now products.old }
        ensures value { Answers None (IsValueOf «module».now self.now) result }
        ensures well_formed { IfOk result IsMatrix }
        ensures products { AreProductsOf «module».now products.new }
    {
        let mut sum = Matrix::zero(alloc, *module.field(), module.dim(), module.dim())?;
        for index in 0..self.len() {
            self.add_term(alloc, module, index, products, &mut sum)?;
        }
        Ok(sum)
    }

    /// Adds the term at an index to the value of the terms before it.
    fn add_term(
        &self,
        alloc: Global,
        module: &Module,
        index: usize,
        products: &mut Products,
        sum: &mut Matrix,
    ) -> Result<(), Refusal>
        requires word { IsWordIn «module».now self.now }
        requires index { index < length self.now }
        requires products { AreProductsOf «module».now products.old }
        requires before { IsValueOf «module».now (take index self.now) sum.old }
        ensures added { Answers None (λ _. IsValueOf «module».now (take (index + 1) self.now) sum.new) result }
        ensures well_formed { Answers None (λ _. IsMatrix sum.new) result }
        ensures products { AreProductsOf «module».now products.new }
    {
        let term = self.term(index);
        if term.gens.is_empty() {
            // Of no generators the product is the identity.
            sum.add_to_diagonal(term.coefficient);
            return Ok(());
        }
        products.keep_pairs(alloc, module, term.gens)?;
        products.add_multiple(alloc, module, term.coefficient, term.gens, sum)
    }
}

/// Whether a term may stand in a word in the generators of a module.
fn is_term_in(term: Term<'_>, module: &Module) -> bool
    ensures { IsTrue result ↔ IsTermIn «module».now (term.entry.coefficient, term.entry.gens.now) }
{
    let count = module.gens();
    module.field().is_element(term.coefficient)
        && term.gens.iter().all(|&number| usize::from(number) < count)
}

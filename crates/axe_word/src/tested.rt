//! Matrices that tell of a module by their null spaces, and the values of words as such.

ghost use Rattle.std.specs.Prelude.{◌≡◌, ◌<◌, length, None};
ghost use Rattle.axe_row.specs.Refusals.{Answers};
ghost use Rattle.axe_word.specs.Words.{IsWordIn};
ghost use Rattle.axe_word.specs.Tested.{IsTested, IsTestedBy, IsTestedByPoly};

use crate::word::Word;
use axe_echelon::null_space;
use axe_matrix::{Matrix, Refusal};
use axe_poly::Poly;
use axe_spin::Module;
use std::alloc::Global;

/// A matrix that is tested, with its null space.
#[derive(Drop)]
pub struct Tested {
    /// The matrix.
    pub matrix: Matrix,
    /// The reduced basis of its null space.
    pub null_space: Matrix,
}

impl Tested {
    /// A matrix with some row, and its null space.
    pub fn of(alloc: Global, matrix: Matrix) -> Result<Tested, Refusal>
        requires { 0 < length matrix.rows }
        ensures { Answers None (λ t. (t.matrix ≡ matrix) × IsTested t) result }
    {
        let null_space = null_space(alloc, &matrix)?;
        Ok(Tested { matrix, null_space })
    }
}

impl Word {
    /// The value of the word in a module of which it is one, as [`Word::is_word_in`] says, with its null space.
    pub fn tested(&self, alloc: Global, module: &Module) -> Result<Tested, Refusal>
        requires { IsWordIn «module».now self.now }
        ensures { Answers None (IsTestedBy «module».now self.now) result }
    {
        Tested::of(alloc, self.value(alloc, module)?)
    }

    /// The value p(x) of a polynomial p over the module's field at the value x of the word in the module, of which it
    /// is one, with its null space.
    pub fn tested_by_poly(
        &self,
        alloc: Global,
        module: &Module,
        poly: &Poly,
    ) -> Result<Tested, Refusal>
        requires word { IsWordIn «module».now self.now }
        requires field { poly.now.order ≡ «module».now.order }
        ensures { Answers None (IsTestedByPoly «module».now self.now poly.now) result }
    {
        let value = self.value(alloc, module)?;
        let matrix = poly.value_at(alloc, &value)?;
        // Its memory is free again before the null space is found.
        drop(value);
        Tested::of(alloc, matrix)
    }
}

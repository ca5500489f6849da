//! The null space of the matrix that decides by a word.

ghost use Rattle.std.specs.Prelude.{◌≡◌, None, option_copied};
ghost use Rattle.std.specs.Option.{ForSome};
ghost use Rattle.axe_row.specs.Refusals.{Answers};
ghost use Rattle.axe_iso.specs.Forms.{IsNullSpaceOf};

use axe_matrix::{Matrix, Refusal};
use axe_poly::Poly;
use axe_spin::Module;
use axe_word::{Tested, nth_word};
use std::alloc::Global;

/// The reduced basis of the null space of the deciding matrix in a module: the value x of the word of a seed and a
/// number, or p(x) where there is a polynomial p over the module's field.
pub(crate) fn null_space_of(
    alloc: Global,
    module: &Module,
    seed: u64,
    word: u32,
    poly: Option<&Poly>,
) -> Result<Matrix, Refusal>
    requires field { ForSome (option_copied poly) (λ p. p.order ≡ «module».now.order) }
    ensures { Answers None (IsNullSpaceOf «module».now seed word (option_copied poly.entry)) result }
{
    let word = nth_word(seed, word, module.field().order(), module.gens() as u8);
    let Tested { null_space, .. } = match poly {
        None => word.tested(alloc, module)?,
        Some(poly) => word.tested_by_poly(alloc, module, poly)?,
    };
    Ok(null_space)
}

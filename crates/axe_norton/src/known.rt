//! What is known of a module before words of a seed are asked of it.

ghost use Rattle.std.specs.Prelude.{ℕ, ⊤, IsTrue, None, IfSome};
ghost use Rattle.axe_row.specs.Refusals.{Answers};
ghost use Rattle.axe_matrix.specs.Matrices.{IsMatrix};
ghost use Rattle.axe_spin.specs.Modules.{ModuleValue};
ghost use Rattle.axe_action.specs.Actions.{IsBasisAction, IsActionModulo};
ghost use Rattle.axe_word.specs.Words.{IsValueOf};
ghost use Rattle.axe_norton.specs.Known.{IsKnownOf, AreValuesOf, word_of_seed};
ghost use Rattle.axe_norton.specs.Spaces.{LastGenerates, IsProperSubmodule};

use axe_action::{Split, split_by_submodule};
use axe_matrix::{Matrix, Refusal};
use axe_spin::Module;
use std::alloc::Global;

/// The most values of words that are kept for one module.
const MOST_VALUES: usize = 8;

/// The most dimensions of a module for which values are kept.
const MOST_DIMENSIONS: usize = 512;

/// What is known of a module for a seed: whether its last unit vector generates everything, and the values of words 1,
/// 2 and so on of that seed, as far as they were made, and few. It may be nothing.
#[derive(Drop)]
pub struct Known {
    pub(crate) last_generates: bool,
    pub(crate) values: Vec<Matrix>,
}

impl Known {
    /// Nothing is known. It takes no memory.
    pub fn nothing(alloc: Global) -> Known
        ensures { (m : ModuleValue) (seed : ℕ) → IsKnownOf m seed result }
    {
        let last_generates = false;
        Known {
            last_generates,
            values: Vec::new(alloc),
        }
    }

    /// The value of a word by its number, where it is kept.
    pub(crate) fn value(&self, number: u32) -> Option<&Matrix>
        ensures { (m : ModuleValue) (seed : ℕ) → IsKnownOf m seed self.now →
            IfSome result (λ value. IsValueOf m (word_of_seed m seed number) value.now) }
    {
        if number == 0 {
            return None;
        }
        self.values.get(number as usize - 1)
    }

    /// Keeps the value of a word, where it is the next one and there is room. Over two elements a product costs little more
    /// than to cut a value, and none is kept.
    pub(crate) fn keep(&mut self, number: u32, value: Matrix) -> Result<(), Refusal>
        requires well_formed { IsMatrix value }
        ensures answers { Answers None (λ _. ⊤) result }
        ensures known { (m : ModuleValue) (seed : ℕ) → IsKnownOf m seed self.old →
            IsValueOf m (word_of_seed m seed number) value → IsKnownOf m seed self.new }
    {
        let next = number as usize == self.values.len() + 1;
        let pays = value.field().order() > 2 && value.rows() <= MOST_DIMENSIONS;
        if next && pays && self.values.len() < MOST_VALUES {
            self.values.push(value)?;
        }
        Ok(())
    }

    /// What is known of the actions on a submodule and on the quotient by it. The rows of `space` are a basis of the
    /// submodule, which is neither zero nor everything. The values of words there are cut from those in the module, as
    /// its generators are. Whether the quotient's last unit vector generates everything is told.
    pub fn cut(
        self,
        alloc: Global,
        space: &Matrix,
        quotient_last: bool,
    ) -> Result<(Known, Known), Refusal>
        requires { (m : ModuleValue) × (seed : ℕ) × IsKnownOf m seed self × IsProperSubmodule m space.now }
        ensures { (m sub quotient : ModuleValue) (seed : ℕ) → IsKnownOf m seed self → IsProperSubmodule m space.now →
            IsBasisAction m space.now sub → IsActionModulo m space.now quotient →
            (IsTrue quotient_last → LastGenerates quotient) →
            Answers None (λ parts. IsKnownOf sub seed parts.0 × IsKnownOf quotient seed parts.1) result }
    {
        let (sub_values, quotient_values) = cut_values(alloc, self.values, space)?;
        let sub = Known {
            last_generates: false,
            values: sub_values,
        };
        let quotient = Known {
            last_generates: quotient_last,
            values: quotient_values,
        };
        Ok((sub, quotient))
    }
}

/// The values of words in the actions on a submodule and on the quotient by it, from those in the module: as these are
/// matrices that keep the submodule, they are cut as the generators of a module.
fn cut_values(
    alloc: Global,
    values: Vec<Matrix>,
    space: &Matrix,
) -> Result<(Vec<Matrix>, Vec<Matrix>), Refusal>
    requires { (m : ModuleValue) × (seed : ℕ) × AreValuesOf m seed values.items × IsProperSubmodule m space.now }
    ensures { (m sub quotient : ModuleValue) (seed : ℕ) → AreValuesOf m seed values.items →
        IsProperSubmodule m space.now → IsBasisAction m space.now sub → IsActionModulo m space.now quotient →
        Answers None (λ parts. AreValuesOf sub seed parts.0.items × AreValuesOf quotient seed parts.1.items) result }
{
    if values.is_empty() {
        return Ok((Vec::new(alloc), Vec::new(alloc)));
    }
    let module = Module::new(values)?;
    let Split { sub, quotient, .. } = split_by_submodule(alloc, module, space)?;
    Ok((sub.into_generators(), quotient.into_generators()))
}

//! Composition series.

ghost use Rattle.std.specs.Prelude.{ℕ, ◌≤◌};
ghost use Rattle.axe_field.specs.Order.{order_number};
ghost use Rattle.axe_spin.specs.Modules.{ModuleValue};
ghost use Rattle.axe_word.specs.PointsOfMatrix.{point_count, most_points};
ghost use Rattle.axe_norton.specs.Verdicts.{last_word};
ghost use Rattle.axe_chop.specs.Kept.{acting_module};
ghost use Rattle.axe_chop.specs.Searches.{IsSearched};
ghost use Rattle.axe_chop.specs.Answers.{AnswersChop, IsTrueAnswer, IsNotUndecided};

use crate::chopped::{Chopped, named};
use crate::fault::ChopFault;
use crate::search::{Searched, search};
use crate::section::Action;
use axe_spin::Module;
use std::alloc::Global;

/// A composition series of a module, found by the words 0 to `words` of a seed (Parker 1984; Holt and Rees 1994): a
/// basis, by which each generator becomes block lower triangular with irreducible diagonal blocks, and the factors,
/// which have one name exactly where they are isomorphic. There are at most [`axe_norton::MAX_WORDS`] words beside
/// word 0. Where each of the words leaves a section of the module open, the fault has a basis that shows that section;
/// a module with at most [`axe_norton::MOST_POINTS`] points has none.
pub fn chop(alloc: Global, module: &Module, seed: u64, words: u32) -> Result<Chopped, ChopFault>
    requires words { words ≤ last_word }
    ensures run { AnswersChop «module».now seed words result }
    ensures holds { IsTrueAnswer «module».now seed words result }
    ensures small { point_count (order_number «module».now.order) «module».now.dim ≤ most_points →
        IsNotUndecided result }
{
    chop_action(alloc, Action::Lent(module), seed, words)
}

/// What [`chop`] gives, for a module that is given away: the first cut takes it apart, so that its matrices take no
/// memory beside those of its sections. No clause says when their memory is gone.
pub fn chop_owned(
    alloc: Global,
    module: Module,
    seed: u64,
    words: u32,
) -> Result<Chopped, ChopFault>
    requires words { words ≤ last_word }
    ensures run { AnswersChop «module» seed words result }
    ensures holds { IsTrueAnswer «module» seed words result }
    ensures small { point_count (order_number «module».order) «module».dim ≤ most_points → IsNotUndecided result }
{
    chop_action(alloc, Action::Owned(module), seed, words)
}

/// What [`chop`] gives of a module, lent or not.
fn chop_action(
    alloc: Global,
    action: Action<'_>,
    seed: u64,
    words: u32,
) -> Result<Chopped, ChopFault>
    requires words { words ≤ last_word }
    ensures run { AnswersChop (acting_module action.entry) seed words result }
    ensures holds { IsTrueAnswer (acting_module action.entry) seed words result }
    ensures small { point_count (order_number (acting_module action.entry).order) (acting_module action.entry).dim
        ≤ most_points → IsNotUndecided result }
{
    prove!(action.module().dim() >= 1);
    let searched = search(alloc, action, seed, words)?;
    answer_of(alloc, searched)
}

/// What [`chop`] gives of a module where a search of it gives this: the factors have their names.
fn answer_of(alloc: Global, searched: Searched) -> Result<Chopped, ChopFault>
    ensures { (m : ModuleValue) (seed words : ℕ) → IsSearched m seed words searched →
        AnswersChop m seed words result }
{
    match searched {
        Searched::Complete(found) => Ok(named(alloc, found)?),
        Searched::Open { basis, offset, dim } => Err(ChopFault::Undecided { basis, offset, dim }),
    }
}

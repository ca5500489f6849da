//! `zqt`: the action of a module modulo an invariant space.
ghost use Rattle.std.specs.Prelude.{IsTrue, [], ◌∷◌};
ghost use Rattle.axe_plan.specs.Inputs.{numbered_names};
ghost use Rattle.axe_execute.specs.ModuleCommands.{ActionModulo, QuotientPlan};
ghost use Rattle.axe_plan.specs.Outcome.{Agrees, Reads};
ghost use Rattle.axe_plan.specs.Drafts.{plan_in};

use axe_action::quotient_action;
use axe_arguments::{GeneratorCount, Name};
use axe_fault::Fault;
use axe_folder::Folder;
use axe_matrix::Matrix;
use axe_plan::{Draft, module_of, read_generators, read_matrix};
use axe_spin::Module;
use std::alloc::Global;

/// The draft of `zqt`: the quotient of a module by the space that rows span.
pub(crate) fn quotient_draft<F: Folder>(
    alloc: Global,
    generators: GeneratorCount,
    subspace: &Name,
    name: &Name,
    out: &Name,
    folder: &mut F,
) -> Result<Draft, Fault>
    ensures { IsTrue F.tells → Reads F.files F.tally folder.old folder.new
        (subspace.now ∷ numbered_names name.now generators) plan_in result
        (QuotientPlan generators subspace.now name.now out.now) }
{
    let rows = read_matrix(alloc, folder, subspace)?;
    let matrices = read_generators(alloc, folder, name, generators)?;
    let module = module_of(matrices)?;
    let quotient = action_modulo(alloc, &module, &rows)?;
    Draft::of_generators(alloc, out, &quotient)
}

/// The quotient action of a module modulo the space that rows span.
#[tactic(auto, unfolding(crate::specs::ModuleCommands::ActionModulo))]
fn action_modulo(alloc: Global, module: &Module, rows: &Matrix) -> Result<Module, Fault>
    ensures { Agrees [] (λ action. action) result (ActionModulo «module».now rows.now) }
{
    Ok(quotient_action(alloc, module, rows)?)
}

//! `zsp`: the spaces that rows generate in a module, and standard bases.
ghost use Rattle.std.specs.Prelude.{◌++◌, IsTrue, [], ◌∷◌, IfOk, option_copied};
ghost use Rattle.axe_matrix.specs.Matrices.{IsMatrix};
ghost use Rattle.axe_spin.specs.Modules.{IsModule};
ghost use Rattle.axe_plan.specs.Inputs.{numbered_names, seeded_module};
ghost use Rattle.axe_plan.specs.Meanings.{Is};
ghost use Rattle.axe_spin.specs.Spinning.{IsSubmoduleBasis};
ghost use Rattle.axe_execute.specs.ModuleCommands.{RowsOf, ActionOn, SpunPlan};
ghost use Rattle.axe_plan.specs.Outcome.{Agrees, Reads};
ghost use Rattle.axe_plan.specs.Drafts.{plan_in};

use axe_action::basis_action;
use axe_arguments::{GeneratorCount, Name};
use axe_fault::Fault;
use axe_folder::Folder;
use axe_matrix::Matrix;
use axe_plan::{Draft, module_of, read_generators, read_matrix};
use axe_spin::{Module, generate, standard_rows};
use std::alloc::Global;

/// A module, and a matrix whose rows are to be spun in it.
#[derive(Drop)]
pub(crate) struct SeededModule {
    module: Module,
    seed: Matrix,
}

impl SeededModule {
    /// Reads the generators from the files NAME.1 to NAME.N, and then the seed.
    pub(crate) fn read<F: Folder>(
        alloc: Global,
        folder: &mut F,
        generators: GeneratorCount,
        name: &Name,
        seed: &Name,
    ) -> Result<SeededModule, Fault>
        ensures reads { IsTrue F.tells → Reads F.files F.tally folder.old folder.new
            (numbered_names name.now generators ++ seed.now ∷ []) (λ seeded. (seeded.«module», seeded.seed)) result
            (λ files. Is (seeded_module generators name.now seed.now files)) }
        ensures module_well_formed { IfOk result (λ seeded. IsModule seeded.«module») }
        ensures seed_well_formed { IfOk result (λ seeded. IsMatrix seeded.seed) }
    {
        let matrices = read_generators(alloc, folder, name, generators)?;
        let seed = read_matrix(alloc, folder, seed)?;
        let module = module_of(matrices)?;
        Ok(SeededModule { module, seed })
    }

    /// The draft of `zsp`: the rows that spinning the seed gives, and the action on them.
    #[tactic(auto, unfolding(crate::specs::ModuleCommands::SpunPlan))]
    pub(crate) fn draft(
        &self,
        alloc: Global,
        standard: bool,
        action: Option<&Name>,
        out: &Name,
    ) -> Result<Draft, Fault>
        requires is_module { IsModule self.now.«module» }
        requires is_matrix { IsMatrix self.now.seed }
        ensures { Agrees [] plan_in result
            (SpunPlan standard (option_copied action.entry) out.now (self.now.«module», self.now.seed)) }
    {
        let rows = spun_rows(alloc, &self.module, &self.seed, standard)?;
        let mut draft = Draft::of_packed(alloc, out, &rows)?;
        if let Some(action) = action {
            let action_on_rows = action_on(alloc, &self.module, &rows)?;
            draft.put_generators(alloc, action.as_str(), &action_on_rows)?;
        }
        Ok(draft)
    }
}

/// The rows that spinning a seed gives.
#[tactic(auto, unfolding(crate::specs::ModuleCommands::RowsOf))]
fn spun_rows(alloc: Global, module: &Module, seed: &Matrix, standard: bool) -> Result<Matrix, Fault>
    requires is_module { IsModule «module».now }
    requires is_matrix { IsMatrix seed.now }
    ensures rows { Agrees [] (λ rows. rows) result (RowsOf standard «module».now seed.now) }
    ensures submodule { IfOk result (IsSubmoduleBasis «module».now) }
{
    if standard {
        Ok(standard_rows(alloc, module, seed)?)
    } else {
        Ok(generate(alloc, module, seed)?)
    }
}

/// The action of a module on the span of a submodule's basis, over its rows.
#[tactic(auto, unfolding(crate::specs::ModuleCommands::ActionOn))]
fn action_on(alloc: Global, module: &Module, rows: &Matrix) -> Result<Module, Fault>
    requires submodule { IsSubmoduleBasis «module».now rows.now }
    ensures { Agrees [] (λ action. action) result (ActionOn «module».now rows.now) }
{
    Ok(basis_action(alloc, module, rows)?)
}

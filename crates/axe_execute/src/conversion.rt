//! `zcv -m`: a module from texts.
ghost use Rattle.std.specs.Prelude.{IsTrue};
ghost use Rattle.axe_plan.specs.Inputs.{numbered_names};
ghost use Rattle.axe_plan.specs.Outcome.{Reads};
ghost use Rattle.axe_plan.specs.Drafts.{plan_in};
ghost use Rattle.axe_execute.specs.ModuleCommands.{ModuleConversionPlan};

use axe_arguments::{GeneratorCount, Name};
use axe_fault::Fault;
use axe_folder::Folder;
use axe_plan::{Draft, module_of, read_text_generators};
use std::alloc::Global;

/// The draft of `zcv -m`: the module of whose generators the files NAME.1 to NAME.N are texts.
pub(crate) fn module_conversion_draft<F: Folder>(
    alloc: Global,
    generators: GeneratorCount,
    name: &Name,
    out: &Name,
    folder: &mut F,
) -> Result<Draft, Fault>
    ensures { IsTrue F.tells → Reads F.files F.tally folder.old folder.new (numbered_names name.now generators)
        plan_in result (ModuleConversionPlan generators name.now out.now) }
{
    let matrices = read_text_generators(alloc, folder, name, generators)?;
    let module = module_of(matrices)?;
    Draft::of_module(alloc, out, module)
}

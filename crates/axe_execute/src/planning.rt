//! What each command is about to do: its files are read, its result is computed, and everything that it will write is
//! made. Nothing is written here.
ghost use Rattle.std.specs.Prelude.{ℕ, List, IsTrue, [], ◌∷◌, option_copied};
ghost use Rattle.axe_execute.specs.MatrixCommands.{ConversionPlan, PrintingPlan, PlanOfOne, PlanOfTwo};
ghost use Rattle.axe_execute.specs.Operations.{MadeOfOne, MadeOfTwo};
ghost use Rattle.axe_execute.specs.Means.{Means, AreRead};
ghost use Rattle.axe_plan.specs.Outcome.{Reads};
ghost use Rattle.axe_plan.specs.Drafts.{plan_in};

use crate::chopping::chop_draft;
use crate::conversion::module_conversion_draft;
use crate::operations::OfOne::{self, Inverse, NullSpace, Transpose};
use crate::operations::OfTwo::{self, Product, Sum};
use crate::quotients::quotient_draft;
use crate::spinning::SeededModule;
use crate::verifying::verify_draft;
use axe_arguments::{Command, Name};
use axe_fault::Fault;
use axe_folder::Folder;
use axe_plan::{Draft, read_matrix, read_text_matrix};
use std::alloc::Global;

/// The draft of a command.
pub(crate) fn draft_of<F: Folder>(
    alloc: Global,
    command: &Command,
    folder: &mut F,
) -> Result<Draft, Fault>
    ensures { IsTrue F.tells → (read : List (List ℕ)) × AreRead command.now (F.files folder.old) read
        × Reads F.files F.tally folder.old folder.new read plan_in result (Means command.now) }
{
    match command {
        Command::Zcv { input, out } => conversion_draft(alloc, input, out, folder),
        Command::ZcvModule {
            generators,
            name,
            out,
        } => module_conversion_draft(alloc, *generators, name, out, folder),
        Command::Zpr { input, out } => printing_draft(alloc, input, out.as_ref(), folder),
        Command::Zmu { left, right, out } => draft_of_two(alloc, Product, left, right, out, folder),
        Command::Zad { left, right, out } => draft_of_two(alloc, Sum, left, right, out, folder),
        Command::Ztr { input, out } => draft_of_one(alloc, Transpose, input, out, folder),
        Command::Ziv { input, out } => draft_of_one(alloc, Inverse, input, out, folder),
        Command::Znu { input, out } => draft_of_one(alloc, NullSpace, input, out, folder),
        Command::Zsp {
            generators,
            standard,
            action,
            name,
            seed,
            out,
        } => {
            let seeded = SeededModule::read(alloc, folder, *generators, name, seed)?;
            seeded.draft(alloc, *standard, action.as_ref(), out)
        }
        Command::Zqt {
            generators,
            subspace,
            name,
            out,
        } => quotient_draft(alloc, *generators, subspace, name, out, folder),
        Command::Chop {
            files,
            seed,
            words,
            name,
        } => chop_draft(alloc, files, *seed, *words, name, folder),
        Command::Verify { layout, name } => verify_draft(alloc, *layout, name, folder),
    }
}

/// The draft of `zcv`: the matrix of which a file is a text.
fn conversion_draft<F: Folder>(
    alloc: Global,
    input: &Name,
    out: &Name,
    folder: &mut F,
) -> Result<Draft, Fault>
    ensures { IsTrue F.tells → Reads F.files F.tally folder.old folder.new (input.now ∷ [])
        plan_in result (ConversionPlan input.now out.now) }
{
    let matrix = read_text_matrix(alloc, folder, input)?;
    Draft::of_packed(alloc, out, &matrix)
}

/// The draft of `zpr`: the text of a matrix, to be put or shown.
fn printing_draft<F: Folder>(
    alloc: Global,
    input: &Name,
    out: Option<&Name>,
    folder: &mut F,
) -> Result<Draft, Fault>
    ensures { IsTrue F.tells → Reads F.files F.tally folder.old folder.new (input.now ∷ [])
        plan_in result (PrintingPlan input.now (option_copied out.entry)) }
{
    let matrix = read_matrix(alloc, folder, input)?;
    Draft::of_text(alloc, out, &matrix)
}

/// The draft of a command that puts what is made of one matrix.
fn draft_of_one<F: Folder>(
    alloc: Global,
    operation: OfOne,
    input: &Name,
    out: &Name,
    folder: &mut F,
) -> Result<Draft, Fault>
    ensures { IsTrue F.tells → Reads F.files F.tally folder.old folder.new (input.now ∷ [])
        plan_in result (PlanOfOne (MadeOfOne operation) input.now out.now) }
{
    let matrix = read_matrix(alloc, folder, input)?;
    let made = operation.make(alloc, &matrix)?;
    Draft::of_packed(alloc, out, &made)
}

/// The draft of a command that puts what is made of two matrices.
fn draft_of_two<F: Folder>(
    alloc: Global,
    operation: OfTwo,
    left: &Name,
    right: &Name,
    out: &Name,
    folder: &mut F,
) -> Result<Draft, Fault>
    ensures { IsTrue F.tells → Reads F.files F.tally folder.old folder.new (left.now ∷ right.now ∷ [])
        plan_in result (PlanOfTwo (MadeOfTwo operation) left.now right.now out.now) }
{
    let left = read_matrix(alloc, folder, left)?;
    let right = read_matrix(alloc, folder, right)?;
    let made = operation.make(alloc, &left, &right)?;
    Draft::of_packed(alloc, out, &made)
}

//! Commands, executed.
ghost use Rattle.std.specs.Prelude.{◌≡◌, ℕ, List, IsTrue};
ghost use Rattle.axe_execute.specs.Means.{Means, AreRead};
ghost use Rattle.axe_plan.specs.Outcome.{Counted};
ghost use Rattle.axe_execute.specs.Execution.{Executes};

use crate::planning::draft_of;
use axe_arguments::Command;
use axe_fault::Fault;
use axe_folder::Folder;
use axe_plan::{Draft, make_all};
use std::alloc::Global;

/// What a command shows when it ends well.
#[derive(Debug, Drop)]
pub struct Shown {
    /// The bytes for standard output.
    pub text: Vec<u8>,
}

/// Executes a command on the files of a folder.
///
/// Everything that it writes and shows is made before its first change of the folder. So a fault of a file, a file that
/// is missing or too long, and a refusal leave every file as it was, and only a device that fails or a folder without
/// memory for a change can leave the changes before it. The folder's tally tells of both: a fault of the device is
/// answered only where the count of failures rose by one in the call, or is at its greatest value, and the fault names
/// the file whose call failed; and after a change Memory is answered only where the count of answers Memory did so. With
/// every other answer the tally is as it was. Where the folder doesn't tell its files nothing is promised but that the
/// call returns.
pub fn execute<F: Folder>(alloc: Global, command: &Command, folder: &mut F) -> Result<Shown, Fault>
    ensures outcome { IsTrue F.tells → (read : List (List ℕ)) × AreRead command.now (F.files folder.old) read
        × (let meaning = Means command.now (F.files folder.old) in
        Executes result read meaning (F.files folder.old) (F.files folder.new)) }
    ensures counted { IsTrue F.tells → (let unchanged = F.files folder.new ≡ F.files folder.old in
        Counted unchanged result (F.tally folder.old) (F.tally folder.new)) }
{
    let Draft { changes, text } = draft_of(alloc, command, folder)?;
    make_all(changes, folder)?;
    Ok(Shown { text })
}

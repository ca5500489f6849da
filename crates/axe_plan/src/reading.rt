//! Files, fetched from a folder and read.
ghost use Rattle.std.specs.Prelude.{IsTrue, [], ◌∷◌, IfOk};
ghost use Rattle.axe_matrix.specs.Matrices.{IsMatrix};
ghost use Rattle.axe_file.specs.PackedModules.{AreGenerators};
ghost use Rattle.axe_plan.specs.Inputs.{bytes_in, matrix_in, text_matrix_in, spelled_in, packed_generators_in};
ghost use Rattle.axe_plan.specs.Meanings.{Is};
ghost use Rattle.axe_plan.specs.Outcome.{Reads};

use axe_arguments::Name;
use axe_fault::Fault;
use axe_file::{MODULE_LIMIT, PACKED_LIMIT, TEXT_LIMIT, read_module, read_packed, read_text};
use axe_folder::Folder;
use axe_matrix::Matrix;
use std::alloc::Global;

/// How a file spells a matrix.
#[derive(Clone, Copy)]
pub(crate) enum Spelling {
    /// In the packed form.
    Packed,
    /// As a text.
    Text,
}

/// The matrix of the packed file that a command names.
pub fn read_matrix<F: Folder>(alloc: Global, folder: &mut F, name: &Name) -> Result<Matrix, Fault>
    ensures reads { IsTrue F.tells → Reads F.files F.tally folder.old folder.new (name.now ∷ [])
        (λ matrix. matrix) result (λ files. Is (matrix_in files name.now)) }
    ensures well_formed { IfOk result IsMatrix }
{
    read_matrix_file(alloc, folder, name.as_str())
}

/// The matrix of the text that a command names.
pub fn read_text_matrix<F: Folder>(
    alloc: Global,
    folder: &mut F,
    name: &Name,
) -> Result<Matrix, Fault>
    ensures reads { IsTrue F.tells → Reads F.files F.tally folder.old folder.new (name.now ∷ [])
        (λ matrix. matrix) result (λ files. Is (text_matrix_in files name.now)) }
    ensures well_formed { IfOk result IsMatrix }
{
    read_text_file(alloc, folder, name.as_str())
}

/// The matrix that a file spells so.
pub(crate) fn read_spelled<F: Folder>(
    alloc: Global,
    folder: &mut F,
    file: &str,
    spelling: Spelling,
) -> Result<Matrix, Fault>
    ensures reads { IsTrue F.tells → Reads F.files F.tally folder.old folder.new (file.now ∷ [])
        (λ matrix. matrix) result (λ files. Is (spelled_in spelling files file.now)) }
    ensures well_formed { IfOk result IsMatrix }
{
    match spelling {
        Spelling::Packed => read_matrix_file(alloc, folder, file),
        Spelling::Text => read_text_file(alloc, folder, file),
    }
}

/// The matrix of a packed file.
#[tactic(auto, unfolding(crate::specs::Inputs::matrix_in))]
pub fn read_matrix_file<F: Folder>(
    alloc: Global,
    folder: &mut F,
    file: &str,
) -> Result<Matrix, Fault>
    ensures reads { IsTrue F.tells → Reads F.files F.tally folder.old folder.new (file.now ∷ [])
        (λ matrix. matrix) result (λ files. Is (matrix_in files file.now)) }
    ensures well_formed { IfOk result IsMatrix }
{
    let bytes = fetch(alloc, folder, file, PACKED_LIMIT)?;
    match read_packed(alloc, &bytes) {
        Ok(matrix) => Ok(matrix),
        Err(fault) => Err(Fault::of_file(String::from_str(alloc, file)?, fault)),
    }
}

/// The matrix of which a file is a text.
#[tactic(auto, unfolding(crate::specs::Inputs::text_matrix_in))]
fn read_text_file<F: Folder>(alloc: Global, folder: &mut F, file: &str) -> Result<Matrix, Fault>
    ensures reads { IsTrue F.tells → Reads F.files F.tally folder.old folder.new (file.now ∷ [])
        (λ matrix. matrix) result (λ files. Is (text_matrix_in files file.now)) }
    ensures well_formed { IfOk result IsMatrix }
{
    let bytes = fetch(alloc, folder, file, TEXT_LIMIT)?;
    match read_text(alloc, &bytes) {
        Ok(matrix) => Ok(matrix),
        Err(fault) => Err(Fault::of_file(String::from_str(alloc, file)?, fault)),
    }
}

/// The generators of the module of a packed file.
#[tactic(auto, unfolding(crate::specs::Inputs::packed_generators_in))]
pub(crate) fn read_module_file<F: Folder>(
    alloc: Global,
    folder: &mut F,
    file: &str,
) -> Result<Vec<Matrix>, Fault>
    ensures reads { IsTrue F.tells → Reads F.files F.tally folder.old folder.new (file.now ∷ [])
        (λ matrices. matrices.items) result (λ files. Is (packed_generators_in files file.now)) }
    ensures well_formed { IfOk result (λ matrices. AreGenerators matrices.items) }
{
    let bytes = fetch(alloc, folder, file, MODULE_LIMIT)?;
    match read_module(alloc, &bytes) {
        Ok(generators) => Ok(generators),
        Err(fault) => Err(Fault::of_file(String::from_str(alloc, file)?, fault)),
    }
}

/// The bytes of a file that has at most `limit` of them.
#[tactic(auto, unfolding(crate::specs::Inputs::bytes_in))]
pub(crate) fn fetch<F: Folder>(
    alloc: Global,
    folder: &mut F,
    file: &str,
    limit: usize,
) -> Result<Vec<u8>, Fault>
    ensures { IsTrue F.tells → Reads F.files F.tally folder.old folder.new (file.now ∷ [])
        (λ bytes. bytes.items) result (λ files. Is (bytes_in files file.now limit)) }
{
    // The name is copied before the call, so that want of memory can't hide a fault of the device.
    let name = String::from_str(alloc, file)?;
    match folder.get(file, limit) {
        Ok(bytes) => Ok(bytes),
        Err(fault) => Err(Fault::of_folder(name, fault)),
    }
}

//! Modules in files: those with a file for each generator, NAME.1 to NAME.N, and those with one file, NAME.axm.
ghost use Rattle.std.specs.Prelude.{◌≡◌, ◌≤◌, IsTrue, [], length, IfOk, string_bytes};
ghost use Rattle.axe_arguments.specs.Counts.{IsGeneratorCount};
ghost use Rattle.axe_spin.specs.Limits.{most_generators};
ghost use Rattle.axe_spin.specs.Modules.{IsModule};
ghost use Rattle.axe_plan.specs.Inputs.{matrices_in, text_matrices_in, all_spelled_in, generators_in, checked_module};
ghost use Rattle.axe_plan.specs.Inputs.{numbered, numbered_names, module_file, module_names, module_in};
ghost use Rattle.axe_plan.specs.Meanings.{Is};
ghost use Rattle.axe_plan.specs.Outcome.{Agrees, Reads};

use crate::reading::{Spelling, read_module_file, read_spelled};
use axe_arguments::{GeneratorCount, ModuleFiles, Name};
use axe_fault::Fault;
use axe_folder::Folder;
use axe_matrix::Matrix;
use axe_spin::Module;
use itoa::Buffer;
use std::alloc::{AllocError, Global};

/// The module of this name from its files.
pub fn read_module<F: Folder>(
    alloc: Global,
    folder: &mut F,
    name: &Name,
    files: &ModuleFiles,
) -> Result<Module, Fault>
    ensures reads { IsTrue F.tells → Reads F.files F.tally folder.old folder.new (module_names files.now name.now)
        (λ read. read) result (λ folder. Is (module_in files.now name.now folder)) }
    ensures well_formed { IfOk result IsModule }
{
    let generators = read_stored(alloc, folder, name.as_str(), files)?;
    module_of(generators)
}

/// The generators of the module of this name from its files.
pub fn read_stored<F: Folder>(
    alloc: Global,
    folder: &mut F,
    name: &str,
    files: &ModuleFiles,
) -> Result<Vec<Matrix>, Fault>
    ensures reads { IsTrue F.tells → Reads F.files F.tally folder.old folder.new (module_names files.now name.now)
        (λ matrices. matrices.items) result (λ folder. Is (generators_in files.now name.now folder)) }
    ensures some { IfOk result (λ matrices. 1 ≤ length matrices.items) }
    ensures fits { IfOk result (λ matrices. length matrices.items ≤ most_generators) }
{
    match files {
        ModuleFiles::Separate(count) => {
            read_numbered(alloc, folder, name, *count, Spelling::Packed)
        }
        ModuleFiles::Whole => {
            let file = module_file(alloc, name)?;
            read_module_file(alloc, folder, &file)
        }
    }
}

/// The matrices of the packed files NAME.1 to NAME.N, each fetched and read before the next.
pub fn read_generators<F: Folder>(
    alloc: Global,
    folder: &mut F,
    name: &Name,
    count: GeneratorCount,
) -> Result<Vec<Matrix>, Fault>
    ensures reads { IsTrue F.tells → Reads F.files F.tally folder.old folder.new (numbered_names name.now count)
        (λ matrices. matrices.items) result (λ files. Is (matrices_in files (numbered_names name.now count))) }
    ensures many { IfOk result (λ matrices. length matrices.items ≡ count) }
    ensures counted { IsGeneratorCount count }
{
    read_numbered(alloc, folder, name.as_str(), count, Spelling::Packed)
}

/// The matrices of which the files NAME.1 to NAME.N are texts, each fetched and read before the next.
pub fn read_text_generators<F: Folder>(
    alloc: Global,
    folder: &mut F,
    name: &Name,
    count: GeneratorCount,
) -> Result<Vec<Matrix>, Fault>
    ensures reads { IsTrue F.tells → Reads F.files F.tally folder.old folder.new (numbered_names name.now count)
        (λ matrices. matrices.items) result (λ files. Is (text_matrices_in files (numbered_names name.now count))) }
    ensures many { IfOk result (λ matrices. length matrices.items ≡ count) }
    ensures counted { IsGeneratorCount count }
{
    read_numbered(alloc, folder, name.as_str(), count, Spelling::Text)
}

/// The matrices that the files NAME.1 to NAME.N spell so, each fetched and read before the next.
fn read_numbered<F: Folder>(
    alloc: Global,
    folder: &mut F,
    name: &str,
    count: GeneratorCount,
    spelling: Spelling,
) -> Result<Vec<Matrix>, Fault>
    ensures reads { IsTrue F.tells → Reads F.files F.tally folder.old folder.new (numbered_names name.now count)
        (λ matrices. matrices.items) result
        (λ files. Is (all_spelled_in spelling files (numbered_names name.now count))) }
    ensures many { IfOk result (λ matrices. length matrices.items ≡ count) }
    ensures counted { IsGeneratorCount count }
{
    let mut matrices = Vec::new(alloc);
    for index in 0..usize::from(count.get()) {
        let file = numbered(alloc, name, index + 1)?;
        let matrix = read_spelled(alloc, folder, &file, spelling)?;
        matrices.push(matrix)?;
    }
    Ok(matrices)
}

/// The name of the file of a number: the name of its module, a dot, and the number in decimal.
pub fn numbered(alloc: Global, name: &str, number: usize) -> Result<String, AllocError>
    ensures { IfOk result (λ file. string_bytes file ≡ numbered name.now number) }
{
    let mut file = String::from_str(alloc, name)?;
    file.push_str(".")?;
    file.push_str(Buffer::new().format(number))?;
    Ok(file)
}

/// The name of the file of a whole module: the name of the module, and then `.axm`.
pub(crate) fn module_file(alloc: Global, name: &str) -> Result<String, AllocError>
    ensures { IfOk result (λ file. string_bytes file ≡ module_file name.now) }
{
    let mut file = String::from_str(alloc, name)?;
    file.push_str(".axm")?;
    Ok(file)
}

/// The module with these matrices as its generators.
#[tactic(auto, unfolding(crate::specs::Inputs::checked_module))]
pub fn module_of(matrices: Vec<Matrix>) -> Result<Module, Fault>
    requires some { 1 ≤ length matrices.items }
    requires fits { length matrices.items ≤ most_generators }
    ensures made { Agrees [] (λ made. made) result (Is (checked_module matrices.items)) }
    ensures well_formed { IfOk result IsModule }
{
    Ok(Module::new(matrices)?)
}

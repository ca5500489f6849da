//! What a command is about to do, with everything made that it takes.
ghost use Rattle.std.specs.Prelude.{IsTrue, map};
ghost use Rattle.axe_plan.specs.Drafts.{step_in};
ghost use Rattle.axe_plan.specs.Outcome.{Agrees, Carries, Counted};

use crate::modules::{module_file, numbered};
use axe_arguments::{ModuleFiles, Name};
use axe_fault::Fault;
use axe_file::{write_module, write_packed, write_text};
use axe_folder::Folder;
use axe_matrix::Matrix;
use axe_spin::Module;
use std::alloc::Global;

/// One change to the files of a folder.
#[derive(Drop)]
pub enum Change {
    /// The name is given these bytes.
    Put { name: String, bytes: Vec<u8> },
    /// The name's file is taken away.
    Remove { name: String },
}

/// The changes that a command makes, in order, and the text that it shows.
#[derive(Drop)]
pub struct Draft {
    /// The changes.
    pub changes: Vec<Change>,
    /// The text.
    pub text: Vec<u8>,
}

impl Change {
    ghost use Rattle.axe_plan.specs.Outcome.{Makes};

    /// Makes the change.
    pub fn make<F: Folder>(self, folder: &mut F) -> Result<(), Fault>
        ensures made { IsTrue F.tells → Makes result (step_in self) (F.files folder.old) (F.files folder.new) }
        ensures counted { IsTrue F.tells → Counted ⊥ result (F.tally folder.old) (F.tally folder.new) }
    {
        match self {
            Change::Put { name, bytes } => match folder.put(&name, &bytes) {
                Ok(()) => Ok(()),
                Err(fault) => Err(Fault::of_folder(name, fault)),
            },
            Change::Remove { name } => match folder.remove(&name) {
                Ok(()) => Ok(()),
                Err(fault) => Err(Fault::of_folder(name, fault)),
            },
        }
    }
}

impl Draft {
    ghost use Rattle.std.specs.Prelude.{◌≡◌, [], Ok, OnOk, IfErr, option_copied, string_bytes};
    ghost use Rattle.axe_file.specs.Packed.{packed};
    ghost use Rattle.axe_file.specs.PackedModules.{packed_module};
    ghost use Rattle.axe_file.specs.TextWriting.{text_of};
    ghost use Rattle.axe_fault.specs.declared.fault.Fault.TheVariants.{Memory};
    ghost use Rattle.axe_plan.specs.Plans.{Put, Remove};
    ghost use Rattle.axe_plan.specs.Meanings.{Is};
    ghost use Rattle.axe_plan.specs.Outputs.{put_packed, put_or_show_text, put_generators};
    ghost use Rattle.axe_plan.specs.Outputs.{matrices_of, put_packed_module, put_module};
    ghost use Rattle.axe_plan.specs.Drafts.{plan_in, with_step, with_steps, with_text, HasFirstGenerators};

    /// The draft that changes nothing and shows nothing.
    pub fn new(alloc: Global) -> Draft
        ensures { plan_in result ≡ record { steps = []; shown = [] } }
    {
        Draft {
            changes: Vec::new(alloc),
            text: Vec::new(alloc),
        }
    }

    /// The draft that gives the name the packed spelling of a matrix, and shows nothing.
    pub fn of_packed(alloc: Global, name: &Name, matrix: &Matrix) -> Result<Draft, Fault>
        ensures { Agrees [] plan_in result (Is (Ok (put_packed name.now matrix.now))) }
    {
        let mut draft = Draft::new(alloc);
        draft.put_packed(alloc, name, matrix)?;
        Ok(draft)
    }

    /// The draft that gives the name the text of a matrix, or shows that text where there is no name.
    pub fn of_text(alloc: Global, name: Option<&Name>, matrix: &Matrix) -> Result<Draft, Fault>
        ensures { Agrees [] plan_in result (Is (Ok (put_or_show_text (option_copied name.entry) matrix.now))) }
    {
        let mut draft = Draft::new(alloc);
        match name {
            Some(name) => draft.put_text(alloc, name, matrix)?,
            None => draft.show_text(alloc, matrix)?,
        }
        Ok(draft)
    }

    /// The draft that gives the files NAME.1, NAME.2 and so on the packed spellings of a module's generators, in order.
    pub fn of_generators(alloc: Global, name: &Name, module: &Module) -> Result<Draft, Fault>
        ensures { Agrees [] plan_in result
            (Is (Ok (record { steps = put_generators name.now «module».now; shown = [] }))) }
    {
        let mut draft = Draft::new(alloc);
        draft.put_generators(alloc, name.as_str(), module)?;
        Ok(draft)
    }

    /// The draft that gives the name the packed spelling of a whole module, and shows nothing.
    pub fn of_module(alloc: Global, name: &Name, module: Module) -> Result<Draft, Fault>
        ensures { Agrees [] plan_in result (Is (Ok (put_packed_module name.now «module»))) }
    {
        let mut draft = Draft::new(alloc);
        let out = String::from_str(alloc, name.as_str())?;
        draft.put_module_file(alloc, out, module)?;
        Ok(draft)
    }

    /// Adds that a module is put under a name, packed: each generator in a file of its own, in order, or all in one.
    /// Where memory is refused, some first of the files may be added.
    pub fn put_module(
        &mut self,
        alloc: Global,
        files: &ModuleFiles,
        name: &str,
        module: &Module,
    ) -> Result<(), Fault>
        ensures put { OnOk result
            (plan_in self.new ≡ with_steps (plan_in self.old) (put_module files.now name.now «module».now)) }
        ensures memory { IfErr result (λ fault. fault ≡ Memory) }
    {
        match files {
            ModuleFiles::Separate(_) => self.put_generators(alloc, name, module),
            ModuleFiles::Whole => {
                let file = module_file(alloc, name)?;
                self.put_copy(alloc, file, module)
            }
        }
    }

    /// Adds that the file of this name is given the packed spelling of a whole module, which is kept.
    fn put_copy(&mut self, alloc: Global, name: String, module: &Module) -> Result<(), Fault>
        ensures put { OnOk result (plan_in self.new
            ≡ with_step (plan_in self.old) (Put (string_bytes name) (packed_module (matrices_of «module».now)))) }
        ensures memory { IfErr result (λ fault. fault ≡ Memory) }
        ensures kept { IfErr result (λ _. plan_in self.new ≡ plan_in self.old) }
    {
        match module.copy(alloc) {
            Ok(copy) => self.put_module_file(alloc, name, copy),
            Err(_) => Err(Fault::Memory),
        }
    }

    /// Adds that the file of this name is given the packed spelling of a whole module.
    fn put_module_file(&mut self, alloc: Global, name: String, module: Module) -> Result<(), Fault>
        ensures put { OnOk result (plan_in self.new
            ≡ with_step (plan_in self.old) (Put (string_bytes name) (packed_module (matrices_of «module»)))) }
        ensures memory { IfErr result (λ fault. fault ≡ Memory) }
        ensures kept { IfErr result (λ _. plan_in self.new ≡ plan_in self.old) }
    {
        let generators = module.into_generators();
        match write_module(alloc, &generators) {
            Ok(bytes) => self.put(name, bytes),
            Err(_) => Err(Fault::Memory),
        }
    }

    /// Adds that the name is given the packed spelling of a matrix.
    pub fn put_packed(&mut self, alloc: Global, name: &Name, matrix: &Matrix) -> Result<(), Fault>
        ensures put { OnOk result (plan_in self.new ≡ with_step (plan_in self.old) (Put name.now (packed matrix.now))) }
        ensures memory { IfErr result (λ fault. fault ≡ Memory) }
        ensures kept { IfErr result (λ _. plan_in self.new ≡ plan_in self.old) }
    {
        let file = String::from_str(alloc, name.as_str())?;
        self.put_packed_file(alloc, file, matrix)
    }

    /// Adds that the files NAME.1, NAME.2 and so on are given the packed spellings of a module's generators, in order.
    /// Where memory is refused, the first of them are added, and not all.
    pub fn put_generators(
        &mut self,
        alloc: Global,
        name: &str,
        module: &Module,
    ) -> Result<(), Fault>
        ensures put { OnOk result
            (plan_in self.new ≡ with_steps (plan_in self.old) (put_generators name.now «module».now)) }
        ensures memory { IfErr result (λ fault. fault ≡ Memory) }
        ensures some { IfErr result
            (λ _. HasFirstGenerators name.now «module».now (plan_in self.old) (plan_in self.new)) }
    {
        for index in 0..module.gens() {
            let file = numbered(alloc, name, index + 1)?;
            self.put_packed_file(alloc, file, module.generator(index))?;
        }
        Ok(())
    }

    /// Adds that the file of this name is given the packed spelling of a matrix.
    pub fn put_packed_file(
        &mut self,
        alloc: Global,
        name: String,
        matrix: &Matrix,
    ) -> Result<(), Fault>
        ensures put { OnOk result
            (plan_in self.new ≡ with_step (plan_in self.old) (Put (string_bytes name) (packed matrix.now))) }
        ensures memory { IfErr result (λ fault. fault ≡ Memory) }
        ensures kept { IfErr result (λ _. plan_in self.new ≡ plan_in self.old) }
    {
        match write_packed(alloc, matrix) {
            Ok(bytes) => self.put(name, bytes),
            Err(_) => Err(Fault::Memory),
        }
    }

    /// Adds that the name is given the text of a matrix.
    fn put_text(&mut self, alloc: Global, name: &Name, matrix: &Matrix) -> Result<(), Fault>
        ensures put { OnOk result
            (plan_in self.new ≡ with_step (plan_in self.old) (Put name.now (text_of matrix.now))) }
        ensures memory { IfErr result (λ fault. fault ≡ Memory) }
        ensures kept { IfErr result (λ _. plan_in self.new ≡ plan_in self.old) }
    {
        let name = String::from_str(alloc, name.as_str())?;
        match write_text(alloc, matrix) {
            Ok(bytes) => self.put(name, bytes),
            Err(_) => Err(Fault::Memory),
        }
    }

    /// Adds that the name is given these bytes.
    pub fn put(&mut self, name: String, bytes: Vec<u8>) -> Result<(), Fault>
        ensures put { OnOk result
            (plan_in self.new ≡ with_step (plan_in self.old) (Put (string_bytes name) bytes.items)) }
        ensures memory { IfErr result (λ fault. fault ≡ Memory) }
        ensures kept { IfErr result (λ _. plan_in self.new ≡ plan_in self.old) }
    {
        self.changes.push(Change::Put { name, bytes })?;
        Ok(())
    }

    /// Adds that the name's file is taken away.
    pub fn remove(&mut self, name: String) -> Result<(), Fault>
        ensures removed { OnOk result (plan_in self.new ≡ with_step (plan_in self.old) (Remove (string_bytes name))) }
        ensures memory { IfErr result (λ fault. fault ≡ Memory) }
        ensures kept { IfErr result (λ _. plan_in self.new ≡ plan_in self.old) }
    {
        self.changes.push(Change::Remove { name })?;
        Ok(())
    }

    /// Adds that the text of a matrix is shown, and nothing else.
    fn show_text(&mut self, alloc: Global, matrix: &Matrix) -> Result<(), Fault>
        ensures shown { OnOk result (plan_in self.new ≡ with_text (plan_in self.old) (text_of matrix.now)) }
        ensures memory { IfErr result (λ fault. fault ≡ Memory) }
        ensures kept { IfErr result (λ _. plan_in self.new ≡ plan_in self.old) }
    {
        match write_text(alloc, matrix) {
            Ok(text) => {
                self.text = text;
                Ok(())
            }
            Err(_) => Err(Fault::Memory),
        }
    }
}

/// Makes the changes in order.
pub fn make_all<F: Folder>(changes: Vec<Change>, folder: &mut F) -> Result<(), Fault>
    ensures carried { IsTrue F.tells →
        Carries result (map step_in changes.items) (F.files folder.old) (F.files folder.new) }
    ensures counted { IsTrue F.tells → Counted ⊥ result (F.tally folder.old) (F.tally folder.new) }
{
    for change in changes {
        change.make(folder)?;
    }
    Ok(())
}

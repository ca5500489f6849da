//! A folder in memory.
use crate::fault::FolderFault;
use crate::folder::Folder;
use std::alloc::Global;
use std::collections::BTreeMap;
use std::marker::Model;

/// A folder whose files lie in memory. It tells them, as the map that it holds, and it never answers Device.
#[derive(Drop)]
pub struct MemFolder {
    alloc: Global,
    shelf: BTreeMap<String, Vec<u8>>,
    shortages: u64,
}

impl Model for MemFolder {
    ghost use Rattle.axe_folder.specs.Memory.{Held, held_code};

    ghost Value = { Held };

    ghost coded = { held_code };

    ghost use Rattle.axe_folder.specs.Shelf.{files_of};

    ghost view = { λ a. record { files = files_of a.shelf; shortages = a.shortages } };
}

impl MemFolder {
    ghost use Rattle.std.specs.Prelude.{◌≡◌, ◌+◌, min, IfErr};
    ghost use Rattle.std.specs.Option.{option_copied};
    ghost use Rattle.axe_folder.specs.Files.{no_files, file_at};
    ghost use Rattle.axe_folder.specs.Outcomes.{Puts, most_failures};

    /// A folder with no files. It takes no memory until a file is put.
    pub fn new(alloc: Global) -> Self
        ensures { result ≡ record { files = no_files; shortages = 0 } }
    {
        Self {
            alloc,
            shelf: BTreeMap::new(alloc),
            shortages: 0,
        }
    }

    /// The bytes of the file of this name, or None where there is none.
    pub fn bytes(&self, name: &str) -> Option<&[u8]>
        ensures { option_copied result ≡ file_at self.now.files name.now }
    {
        let file = self.shelf.get(name)?;
        Some(file.as_slice())
    }

    /// Gives the name these bytes. Want of memory, its only fault, is not counted.
    pub(crate) fn keep(&mut self, name: &str, bytes: &[u8]) -> Result<(), FolderFault>
        ensures puts { Puts result self.old.files name.now bytes.now self.new.files }
        ensures memory { IfErr result (λ fault. fault ≡ FolderFault.Memory) }
        ensures as_short { self.new.shortages ≡ self.old.shortages }
    {
        let key = String::from_str(self.alloc, name)?;
        let file = Vec::from_slice(self.alloc, bytes)?;
        self.shelf.insert(key, file)?;
        Ok(())
    }

    /// Counts a want of memory, and gives its fault.
    fn short(&mut self) -> FolderFault
        ensures memory { result ≡ FolderFault.Memory }
        ensures counted { self.new ≡ record self.old
            { shortages = min (self.old.shortages + 1) most_failures } }
    {
        self.shortages = self.shortages.saturating_add(1);
        FolderFault::Memory
    }
}

impl Folder for MemFolder {
    ghost use Rattle.std.specs.Prelude.{◌≡◌, ◌≢◌, true};
    ghost use Rattle.axe_folder.specs.Files.{file_at};
    ghost use Rattle.axe_folder.specs.Memory.{held_tally};
    ghost use Rattle.axe_folder.specs.Outcomes.{Gets, Puts, Removes, Counts};

    ghost tells = { true };

    ghost files = { λ folder. folder.files };

    ghost tally = { held_tally };

    fn get(&mut self, name: &str, limit: usize) -> Result<Vec<u8>, FolderFault>
        ensures gives { Gets result (file_at self.old.files name.now) limit }
        ensures kept { self.new.files ≡ self.old.files }
        ensures counted { Counts result name.now (held_tally self.old) (held_tally self.new) }
        ensures no_device { result ≢ Err FolderFault.Device }
    {
        let bytes = self.bytes(name).ok_or(FolderFault::Missing)?;
        if bytes.len() > limit {
            return Err(FolderFault::TooLong);
        }
        match Vec::from_slice(self.alloc, bytes) {
            Ok(copy) => Ok(copy),
            Err(_) => Err(self.short()),
        }
    }

    fn put(&mut self, name: &str, bytes: &[u8]) -> Result<(), FolderFault>
        ensures puts { Puts result self.old.files name.now bytes.now self.new.files }
        ensures counted { Counts result name.now (held_tally self.old) (held_tally self.new) }
        ensures no_device { result ≢ Err FolderFault.Device }
    {
        match self.keep(name, bytes) {
            Ok(()) => Ok(()),
            Err(_) => Err(self.short()),
        }
    }

    fn remove(&mut self, name: &str) -> Result<(), FolderFault>
        ensures removes { Removes result self.old.files name.now self.new.files }
        ensures kept { self.new.shortages ≡ self.old.shortages }
        ensures never_fails { result ≡ Ok tt }
    {
        self.shelf.remove(name);
        Ok(())
    }
}

//! A folder that is watched.
use axe_folder::{DirFolder, Folder, FolderFault, FusedFolder, MemFolder};
use std::alloc::Global;
use std::process::Abort;
use std::rt::Files;

/// The most bytes of a file that is looked at.
const LIMIT: usize = 1000;

/// A folder whose files can be looked at.
pub(crate) trait Seen: Folder {
    /// Whether the file has these bytes or, where there are none, whether there is no such file.
    fn has(&mut self, name: &str, wanted: Option<&[u8]>) -> bool;
}

impl Seen for MemFolder {
    fn has(&mut self, name: &str, wanted: Option<&[u8]>) -> bool {
        self.bytes(name) == wanted
    }
}

/// A look is no call that fails.
impl Seen for FusedFolder {
    fn has(&mut self, name: &str, wanted: Option<&[u8]>) -> bool {
        self.bytes(name) == wanted
    }
}

impl<R: Files + AllocGlobal + Drop> Seen for DirFolder<R> {
    fn has(&mut self, name: &str, wanted: Option<&[u8]>) -> bool {
        match self.get(name, LIMIT) {
            Ok(bytes) => wanted == Some(bytes.as_slice()),
            Err(fault) => fault == FolderFault::Missing && wanted.is_none(),
        }
    }
}

/// A folder, the files that it is to have, and the names of all files that it was given or is to have. So a file that
/// it is not to have is seen.
#[derive(Drop)]
pub(crate) struct Watched<F: Folder + Drop> {
    alloc: Global,
    folder: F,
    wanted: MemFolder,
    names: Vec<String>,
}

impl<F: Folder + Drop> Folder for Watched<F> {
    ghost use Rattle.std.specs.Prelude.{false};
    ghost use Rattle.axe_folder.specs.Files.{no_files};
    ghost use Rattle.axe_folder.specs.Outcomes.{none_failed};

    ghost tells = { false };

    ghost files = { λ _. no_files };

    ghost tally = { λ _. none_failed };

    fn get(&mut self, name: &str, limit: usize) -> Result<Vec<u8>, FolderFault> {
        self.folder.get(name, limit)
    }

    fn put(&mut self, name: &str, bytes: &[u8]) -> Result<(), FolderFault> {
        self.watch(name)?;
        self.folder.put(name, bytes)
    }

    fn remove(&mut self, name: &str) -> Result<(), FolderFault> {
        self.folder.remove(name)
    }
}

impl<F: Folder + Drop> Watched<F> {
    /// This folder, which is to have no files.
    pub(crate) fn new(alloc: Global, folder: F) -> Self {
        Self {
            alloc,
            folder,
            wanted: MemFolder::new(alloc),
            names: Vec::new(alloc),
        }
    }

    /// From now on the file is to have these bytes.
    pub(crate) fn want(&mut self, name: &str, bytes: &[u8]) -> Result<(), FolderFault> {
        self.watch(name)?;
        self.wanted.put(name, bytes)
    }

    /// From now on there is to be no such file.
    pub(crate) fn want_none(&mut self, name: &str) -> Result<(), FolderFault> {
        self.watch(name)?;
        self.wanted.remove(name)
    }

    /// Takes the name into the list.
    fn watch(&mut self, name: &str) -> Result<(), FolderFault> {
        let name = String::from_str(self.alloc, name)?;
        self.names.push(name)?;
        Ok(())
    }

    /// Asserts that each file is as wanted, and that there is no other.
    pub(crate) fn assert_as_wanted(&mut self, rt: &impl Abort)
    where
        F: Seen,
    {
        for name in &self.names {
            let wanted = self.wanted.bytes(name.as_str());
            let is_wanted = self.folder.has(name.as_str(), wanted);
            assert!(rt; is_wanted, "the file {name}");
        }
    }
}

//! A folder of the file system.
ghost use Rattle.std.specs.Prelude.{◌≡◌, false, IfOk, OnOk, IfErr, IfSome, IsOkUnless};
ghost use Rattle.std.specs.List.{list_any};
ghost use Rattle.std.specs.Io.KnownBytes.{Appends};
ghost use Rattle.std.specs.Path.{path_buf_bytes};
ghost use Rattle.axe_folder.specs.FileName.{is_plain_name, is_separator, path_in};
ghost use Rattle.axe_folder.specs.Outcomes.{IsWriteFault};

use crate::fault::FolderFault;
use crate::folder::Folder;
use crate::reading::read_within;
use std::fs::{File, OpenFile, OpenOptions, Permissions};
use std::io::{ErrorKind, Write};
use std::path::PathBuf;
use std::rt::Files;
use std::time::SystemTime;
use std::{fs, io};

/// The most new files that may stand beside a file, as interrupted writes leave them.
const MOST_BESIDE: u8 = 100;

/// More seconds than any process takes to write one file: a day.
const LONGEST_WRITE: u64 = 86_400;

/// How often a write of a new file may be interrupted before it has taken any byte.
const MOST_INTERRUPTIONS: u8 = 100;

/// The files of one directory.
///
/// It tells nothing of them: another process may change them at any time. A name that can't be that of a file in the
/// directory (it is empty, `.` or `..`, or has a slash or a zero byte) has no file: `get` answers Missing, `put`
/// Device and `remove` Ok, and none of them asks the file system. So no call names a file outside the directory.
///
/// `put` never leaves a file half replaced: it writes a new file beside it, named `.NAME.NUMBER`, and renames that.
/// What killed processes left of such files stays, up to a hundred of them; then those go that are older than a day.
/// The new file has the permissions of the old one. A link to a file is replaced, and what it leads to stays as it is;
/// `get` follows it. What may not be written to is Device, and so is a directory that takes no new file. A FIFO or a
/// device takes the bytes as they come.
#[derive(Drop)]
pub struct DirFolder<R: Files + AllocGlobal + Drop> {
    runtime: R,
    directory: PathBuf,
}

/// Whether the text is no single part of a path.
fn has_separator(text: &str) -> bool
    ensures { result ≡ list_any is_separator text.now }
{
    text.bytes().any(|byte| byte == b'/' || byte == 0)
}

/// Whether a file in a directory can have this name.
fn is_plain_name(name: &str) -> bool
    ensures { result ≡ is_plain_name name.now }
{
    !(name.is_empty() || name == "." || name == ".." || has_separator(name))
}

/// The fault of a file that could not be opened for reading.
fn open_fault(error: io::Error) -> FolderFault {
    match error.kind() {
        ErrorKind::NotFound => FolderFault::Missing,
        _ => FolderFault::Device,
    }
}

/// The outcome of a removal that failed: there is nothing to remove where there was no such file.
fn removal_of(error: io::Error) -> Result<(), FolderFault>
    ensures { IfErr result IsWriteFault }
{
    match error.kind() {
        ErrorKind::NotFound => Ok(()),
        _ => Err(FolderFault::Device),
    }
}

/// What stands where a file is to be put.
enum Place<F: Drop> {
    /// Nothing, or a link that leads nowhere.
    Free,
    /// A file with these permissions, which may be written to.
    Taken(Permissions),
    /// What keeps no bytes but takes them as they come, opened for writing: a FIFO or a device.
    Stream(F),
}

/// Whether a file's date, where it has one, is longer ago than any write takes.
fn is_long_ago(date: io::Result<SystemTime>, now: SystemTime) -> bool {
    match date {
        Ok(date) => now
            .duration_since(date)
            .is_ok_and(|age| age.as_secs() > LONGEST_WRITE),
        Err(_) => false,
    }
}

/// Writes all bytes to a new file, by one call of the system: a file that takes fewer at once is at the end of its disk,
/// or at the limit that the process has on the size of files (`ulimit -f`), where a further call would end it by a
/// signal.
fn write_at_once<F: Write>(file: &mut F, bytes: &[u8]) -> io::Result<()>
    ensures { OnOk result (Appends (F.contents file.old) (F.contents file.new) bytes.now) }
{
    for _ in 0..MOST_INTERRUPTIONS {
        match file.write(bytes) {
            Ok(count) if count == bytes.len() => return Ok(()),
            Ok(_) => return Err(io::Error::from(ErrorKind::StorageFull)),
            Err(error) if error.kind() == ErrorKind::Interrupted => {}
            Err(error) => return Err(error),
        }
    }
    Err(io::Error::from(ErrorKind::Interrupted))
}

/// Writes all bytes of a new file to the device, after it has the permissions of the file that it will replace.
fn fill<F: Write + OpenFile + Drop>(
    mut file: F,
    bytes: &[u8],
    permissions: Option<Permissions>,
) -> io::Result<()> {
    if let Some(permissions) = permissions {
        file.set_permissions(permissions)?;
    }
    write_at_once(&mut file, bytes)?;
    // A disk that is full may say so only here.
    file.sync_all()
}

impl<R: Files + AllocGlobal + Drop> DirFolder<R> {
    ghost use Rattle.axe_folder.specs.Directory.{directory_of};

    /// The folder of the directory at `path`, which is not looked at before a call asks for a file. Its only fault is
    /// Memory.
    pub fn new(runtime: R, path: &str) -> Result<Self, FolderFault>
        ensures directory { IfOk result (λ folder. directory_of folder ≡ path.now) }
        ensures fault { IsOkUnless result FolderFault.Memory }
    {
        let directory = PathBuf::from_str(runtime.alloc(), path)?;
        Ok(Self { runtime, directory })
    }

    /// The path of the file of this name, or None where no file in the directory can have the name. Each path that the
    /// folder hands to the file system is made here.
    fn path_of(&self, name: &str) -> Result<Option<PathBuf>, FolderFault>
        ensures none { is_plain_name name.now ≡ false → result ≡ Ok None }
        ensures inside { IfOk result (λ found. IfSome found (λ path.
            path_buf_bytes path ≡ path_in (directory_of self.now) name.now)) }
        ensures fault { IsOkUnless result FolderFault.Memory }
    {
        if !is_plain_name(name) {
            return Ok(None);
        }
        Ok(Some(self.directory.join(self.runtime.alloc(), name)?))
    }

    /// What stands at a path that is to be written. What may not be written to is Device.
    fn place_at(&self, path: &PathBuf) -> Result<Place<R::File>, FolderFault>
        ensures { IfErr result IsWriteFault }
    {
        // Opened as it stands, without being cut short.
        let opened = OpenOptions::new()
            .write(true)
            .open(&self.runtime, path.as_path());
        let file = match opened {
            Ok(file) => file,
            Err(error) if error.kind() == ErrorKind::NotFound => return Ok(Place::Free),
            Err(_) => return Err(FolderFault::Device),
        };
        match file.metadata() {
            Ok(metadata) if metadata.is_file() => Ok(Place::Taken(metadata.permissions())),
            Ok(_) => Ok(Place::Stream(file)),
            Err(_) => Err(FolderFault::Device),
        }
    }

    /// The path of the new file of this number beside the file of this name. Its own name begins with a dot.
    fn path_beside(&self, name: &str, number: u8) -> Result<PathBuf, FolderFault>
        ensures { IfErr result IsWriteFault }
    {
        let beside = format!(in self.runtime.alloc(); ".{name}.{number}")?;
        self.path_of(beside.as_str())?.ok_or(FolderFault::Device)
    }

    /// An empty new file beside the file of this name, and its path. Where as many stand there as may be, those go
    /// first that killed runs left long ago.
    fn new_beside(&self, name: &str) -> Result<(PathBuf, R::File), FolderFault>
        ensures { IfErr result IsWriteFault }
    {
        if let Some(found) = self.free_beside(name)? {
            return Ok(found);
        }
        self.clear_beside(name)?;
        self.free_beside(name)?.ok_or(FolderFault::Device)
    }

    /// As [`DirFolder::new_beside`], of the first number that no file has, or None where all are taken.
    fn free_beside(&self, name: &str) -> Result<Option<(PathBuf, R::File)>, FolderFault>
        ensures { IfErr result IsWriteFault }
    {
        for number in 0..MOST_BESIDE {
            let path = self.path_beside(name, number)?;
            match File::create_new(&self.runtime, path.as_path()) {
                Ok(file) => return Ok(Some((path, file))),
                // Of a write that was interrupted, or of another process that is writing now.
                Err(error) if error.kind() == ErrorKind::AlreadyExists => {}
                Err(_) => return Err(FolderFault::Device),
            }
        }
        Ok(None)
    }

    /// Takes away the new files beside the file of this name that were last written to so long ago that no process
    /// still writes to them.
    fn clear_beside(&self, name: &str) -> Result<(), FolderFault>
        ensures { IfErr result IsWriteFault }
    {
        let now = self.time_beside(name)?;
        for number in 0..MOST_BESIDE {
            let path = self.path_beside(name, number)?;
            if self.is_left(&path, now) {
                let _ = fs::remove_file(&self.runtime, path.as_path());
            }
        }
        Ok(())
    }

    /// The time by the clock that dates the files beside the file of this name, which may be that of another machine:
    /// the date of a file that is made for that, and taken away.
    fn time_beside(&self, name: &str) -> Result<SystemTime, FolderFault>
        ensures { IfErr result IsWriteFault }
    {
        let path = self.path_beside(name, MOST_BESIDE)?;
        // Of a process that was killed here. The new one is no link that leads elsewhere.
        let _ = fs::remove_file(&self.runtime, path.as_path());
        let time = match File::create_new(&self.runtime, path.as_path()) {
            Ok(file) => file.metadata().and_then(|found| found.modified()),
            Err(error) => Err(error),
        };
        let _ = fs::remove_file(&self.runtime, path.as_path());
        time.map_err(|_| FolderFault::Device)
    }

    /// Whether a file stands at a path that was last written to longer ago than any write takes.
    fn is_left(&self, path: &PathBuf, now: SystemTime) -> bool {
        match fs::symlink_metadata(&self.runtime, path.as_path()) {
            Ok(found) => found.is_file() && is_long_ago(found.modified(), now),
            Err(_) => false,
        }
    }

    /// Puts a file with these bytes at the path of a name, or hands them to what stands there.
    fn put_at(&self, name: &str, path: &PathBuf, bytes: &[u8]) -> Result<(), FolderFault>
        ensures { IfErr result IsWriteFault }
    {
        match self.place_at(path)? {
            Place::Free => self.replace(name, path, bytes, None),
            Place::Taken(permissions) => self.replace(name, path, bytes, Some(permissions)),
            Place::Stream(mut file) => file.write_all(bytes).map_err(|_| FolderFault::Device),
        }
    }

    /// Puts a file with these bytes, and these permissions if any, at the path of a name. Where this fails what stood
    /// there stands, and nothing is left beside it.
    fn replace(
        &self,
        name: &str,
        path: &PathBuf,
        bytes: &[u8],
        permissions: Option<Permissions>,
    ) -> Result<(), FolderFault>
        ensures { IfErr result IsWriteFault }
    {
        let (beside, file) = self.new_beside(name)?;
        let filled = fill(file, bytes, permissions);
        let replaced = match filled {
            Ok(()) => fs::rename(&self.runtime, beside.as_path(), path.as_path()),
            Err(error) => Err(error),
        };
        if replaced.is_ok() {
            return Ok(());
        }
        let _ = fs::remove_file(&self.runtime, beside.as_path());
        Err(FolderFault::Device)
    }
}

impl<R: Files + AllocGlobal + Drop> Folder for DirFolder<R> {
    ghost use Rattle.std.specs.Prelude.{◌≡◌, ◌≤◌, false, vec_len, IfOk, IfErr};
    ghost use Rattle.axe_folder.specs.FileName.{is_plain_name};
    ghost use Rattle.axe_folder.specs.Files.{no_files};
    ghost use Rattle.axe_folder.specs.Outcomes.{IsWriteFault, none_failed};

    ghost tells = { false };

    ghost files = { λ _. no_files };

    ghost tally = { λ _. none_failed };

    fn get(&mut self, name: &str, limit: usize) -> Result<Vec<u8>, FolderFault>
        ensures bounded { IfOk result (λ bytes. vec_len bytes ≤ limit) }
        ensures no_such_name { is_plain_name name.now ≡ false → result ≡ Err FolderFault.Missing }
    {
        let Some(path) = self.path_of(name)? else {
            return Err(FolderFault::Missing);
        };
        let mut file = fs::open(&self.runtime, path.as_path()).map_err(open_fault)?;
        read_within(self.runtime.alloc(), &mut file, limit)
    }

    fn put(&mut self, name: &str, bytes: &[u8]) -> Result<(), FolderFault>
        ensures faults { IfErr result IsWriteFault }
        ensures no_such_name { is_plain_name name.now ≡ false → result ≡ Err FolderFault.Device }
    {
        let Some(path) = self.path_of(name)? else {
            return Err(FolderFault::Device);
        };
        self.put_at(name, &path, bytes)
    }

    fn remove(&mut self, name: &str) -> Result<(), FolderFault>
        ensures faults { IfErr result IsWriteFault }
        ensures no_such_name { is_plain_name name.now ≡ false → result ≡ Ok tt }
    {
        let Some(path) = self.path_of(name)? else {
            return Ok(());
        };
        match fs::remove_file(&self.runtime, path.as_path()) {
            Ok(()) => Ok(()),
            Err(error) => removal_of(error),
        }
    }
}

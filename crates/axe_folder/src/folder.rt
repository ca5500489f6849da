//! What a folder is.
use crate::fault::FolderFault;

/// Files by name.
///
/// An implementation either tells its files, as a map from names to bytes, or it doesn't. Where it tells them:
///
/// - `tells` is true, `files` is the map, and `tally` says how its calls have failed: it counts the device failures and
///   the answers Memory, each up to `u64::MAX`, and may keep the name at which the device failed last;
/// - each of these counts rises by one with each answer Device, or Memory, and with nothing else; at `u64::MAX` it
///   stays, and only there may that answer come without a rise;
/// - each call does what its clauses say of the map.
///
/// Where it doesn't tell them the clauses say nothing, and the two other members may be anything. A folder keeps its
/// own allocator.
pub trait Folder {
    ghost use Rattle.std.specs.Prelude.{◌≡◌, Bool, IsTrue};
    ghost use Rattle.axe_folder.specs.Files.{Files, file_at};
    ghost use Rattle.axe_folder.specs.Outcomes.{Gets, Puts, Removes, Tally, Counts};

    ghost tells: { Bool };

    ghost files: { Self → Files };

    ghost tally: { Self → Tally };

    /// The bytes of a file of at most `limit` bytes. No file is changed. Where the answer isn't Device it is Missing
    /// exactly where there is no such file, else TooLong exactly where the file has more than `limit` bytes, else the
    /// bytes or Memory.
    fn get(&mut self, name: &str, limit: usize) -> Result<Vec<u8>, FolderFault>
        ensures gives { IsTrue tells → Gets result (file_at (files self.old) name.now) limit }
        ensures kept { IsTrue tells → files self.new ≡ files self.old }
        ensures counted { IsTrue tells → Counts result name.now (tally self.old) (tally self.new) };

    /// Gives the name these bytes, whether it had a file or not. After Device all other names are as before, and this
    /// one is as before, absent, or has the first of the bytes. After Memory nothing has changed. There are no other
    /// faults.
    fn put(&mut self, name: &str, bytes: &[u8]) -> Result<(), FolderFault>
        ensures puts { IsTrue tells → Puts result (files self.old) name.now bytes.now (files self.new) }
        ensures counted { IsTrue tells → Counts result name.now (tally self.old) (tally self.new) };

    /// Takes the name's file away, if it has one. After Device all other names are as before, and this one is as
    /// before or absent. After Memory nothing has changed. There are no other faults.
    fn remove(&mut self, name: &str) -> Result<(), FolderFault>
        ensures removes { IsTrue tells → Removes result (files self.old) name.now (files self.new) }
        ensures counted { IsTrue tells → Counts result name.now (tally self.old) (tally self.new) };
}

//! A folder with a fuse.
use crate::fault::FolderFault;
use crate::folder::Folder;
use crate::memory::MemFolder;
use std::marker::Model;

/// A folder in memory that fails after a number of calls: it passes so many calls on to the folder inside, and answers
/// Device to each later one. So what a program leaves behind can be seen for each call at which a device may fail.
///
/// A call that fails changes no file, but for one: where the folder tears, and the first call that fails is a `put`,
/// that leaves the first half of its bytes at its name (`len / 2` of them), if there is memory for them.
#[derive(Drop)]
pub struct FusedFolder {
    inside: MemFolder,
    calls: u64,
    tears: bool,
    failures: u64,
}

impl Model for FusedFolder {
    ghost use Rattle.axe_folder.specs.Fused.{Fused, fused_code};

    ghost Value = { Fused };

    ghost coded = { fused_code };

    ghost view = { λ a. record { inside = a.inside; calls = a.calls; tears = a.tears; failures = a.failures } };
}

impl FusedFolder {
    ghost use Rattle.std.specs.Prelude.{◌≡◌, ◌+◌, ◌-◌, ◌<◌, min, false, IsTrue};
    ghost use Rattle.std.specs.Option.{option_copied};
    ghost use Rattle.axe_folder.specs.Files.{file_at};
    ghost use Rattle.axe_folder.specs.Outcomes.{most_failures};

    /// The folder that passes this many calls on to `inside`. `tears` says whether the first call that fails may tear a
    /// file.
    pub fn new(inside: MemFolder, calls: u64, tears: bool) -> Self
        ensures { result ≡ record { inside = inside; calls = calls; tears = tears; failures = 0 } }
    {
        Self {
            inside,
            calls,
            tears,
            failures: 0,
        }
    }

    /// The bytes of the file of this name in the folder inside, or None where there is none. This is no call that
    /// fails.
    pub fn bytes(&self, name: &str) -> Option<&[u8]>
        ensures { option_copied result ≡ file_at self.now.inside.files name.now }
    {
        self.inside.bytes(name)
    }

    /// Whether the next call is passed on, which it counts; and else counts a failure.
    fn passes(&mut self) -> bool
        ensures passed { IsTrue result → (0 < self.old.calls)
            × (self.new ≡ record self.old { calls = self.old.calls - 1 }) }
        ensures failed { result ≡ false → (self.old.calls ≡ 0)
            × (self.new ≡ record self.old { failures = min (self.old.failures + 1) most_failures }) }
    {
        if self.calls > 0 {
            self.calls -= 1;
            return true;
        }
        self.failures = self.failures.saturating_add(1);
        false
    }
}

impl Folder for FusedFolder {
    ghost use Rattle.std.specs.Prelude.{◌≡◌, ◌<◌, true};
    ghost use Rattle.axe_folder.specs.Files.{file_at};
    ghost use Rattle.axe_folder.specs.Outcomes.{Gets, Puts, Removes, Counts};
    ghost use Rattle.axe_folder.specs.Fused.{Burns, Tears, fused_tally};

    ghost tells = { true };

    ghost files = { λ folder. folder.inside.files };

    ghost tally = { fused_tally };

    fn get(&mut self, name: &str, limit: usize) -> Result<Vec<u8>, FolderFault>
        ensures gives { Gets result (file_at self.old.inside.files name.now) limit }
        ensures kept { self.new.inside.files ≡ self.old.inside.files }
        ensures counted { Counts result name.now (fused_tally self.old) (fused_tally self.new) }
        ensures burns { Burns result self.old self.new }
    {
        if self.passes() {
            self.inside.get(name, limit)
        } else {
            Err(FolderFault::Device)
        }
    }

    fn put(&mut self, name: &str, bytes: &[u8]) -> Result<(), FolderFault>
        ensures puts { Puts result self.old.inside.files name.now bytes.now self.new.inside.files }
        ensures counted { Counts result name.now (fused_tally self.old) (fused_tally self.new) }
        ensures burns { Burns result self.old self.new }
        ensures tears { self.old.calls ≡ 0 → Tears self.old name.now bytes.now self.new.inside.files }
    {
        let may_tear = self.tears && self.failures == 0;
        if self.passes() {
            return self.inside.put(name, bytes);
        }
        if may_tear {
            // Without memory for them nothing is left of the bytes.
            let _ = self.inside.keep(name, &bytes[..bytes.len() / 2]);
        }
        Err(FolderFault::Device)
    }

    fn remove(&mut self, name: &str) -> Result<(), FolderFault>
        ensures removes { Removes result self.old.inside.files name.now self.new.inside.files }
        ensures counted { Counts result name.now (fused_tally self.old) (fused_tally self.new) }
        ensures burns { Burns result self.old self.new }
        ensures kept { self.old.calls ≡ 0 → self.new.inside.files ≡ self.old.inside.files }
        ensures passed { 0 < self.old.calls → result ≡ Ok tt }
    {
        if self.passes() {
            self.inside.remove(name)
        } else {
            Err(FolderFault::Device)
        }
    }
}

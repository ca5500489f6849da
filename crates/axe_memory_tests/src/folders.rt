//! Folders: a file that is put is there whole, or nothing has changed.

use axe_folder::{DirFolder, Folder, FolderFault, FusedFolder, MemFolder};
use std::process::Abort;

/// The most bytes of a file that is read here.
const LIMIT: usize = 100;

/// How long the files A and B are that a folder has.
fn lengths(folder: &MemFolder) -> (Option<usize>, Option<usize>) {
    (length(folder, "A"), length(folder, "B"))
}

/// How long a file is.
fn length(folder: &MemFolder, name: &str) -> Option<usize> {
    let bytes = folder.bytes(name)?;
    Some(bytes.len())
}

/// Asserts that a file is put, or there is no memory and the folder is as it was.
fn assert_put(rt: &impl Abort, folder: &mut MemFolder, name: &str, bytes: &[u8]) {
    let before = lengths(folder);
    match folder.put(name, bytes) {
        Ok(()) => assert!(rt; folder.bytes(name) == Some(bytes)),
        Err(fault) => assert!(rt; fault == FolderFault::Memory && lengths(folder) == before),
    }
}

/// Asserts that a file is read as it is, or there is no memory.
fn assert_got(rt: &impl Abort, folder: &mut MemFolder, name: &str) {
    match folder.get(name, LIMIT) {
        Ok(bytes) => assert!(rt; folder.bytes(name) == Some(bytes.as_slice())),
        Err(FolderFault::Missing) => assert!(rt; folder.bytes(name).is_none()),
        Err(fault) => assert!(rt; fault == FolderFault::Memory),
    }
}

#[test]
fn files_are_put_or_nothing_has_changed(rt: HostRuntime) {
    let mut folder = MemFolder::new(rt.alloc());
    assert_put(&rt, &mut folder, "A", b"one");
    assert_put(&rt, &mut folder, "B", b"three");
    assert_put(&rt, &mut folder, "A", b"another");
    assert_got(&rt, &mut folder, "A");
    assert_got(&rt, &mut folder, "B");
    assert!(&rt; folder.remove("A").is_ok() && folder.bytes("A").is_none());
}

#[test]
fn a_fuse_passes_memory_on(rt: HostRuntime) {
    let mut folder = FusedFolder::new(MemFolder::new(rt.alloc()), 1, false);
    match folder.put("A", b"one") {
        Ok(()) => assert!(&rt; folder.bytes("A") == Some(b"one".as_slice())),
        Err(fault) => assert!(&rt; fault == FolderFault::Memory && folder.bytes("A").is_none()),
    }
    // The call that failed for want of memory was passed, too.
    let removed = folder.remove("A");
    assert!(&rt; matches!(removed, Err(FolderFault::Device)));
}

#[test]
fn a_directory_is_opened_or_there_is_no_memory(rt: HostRuntime) {
    let Ok(runtime) = rt.clone() else {
        return;
    };
    match DirFolder::new(runtime, ".") {
        Ok(mut folder) => {
            let got = folder.get("axe_memory_tests_absent", LIMIT);
            assert!(&rt; matches!(got, Err(FolderFault::Missing | FolderFault::Memory)));
        }
        Err(fault) => assert!(&rt; fault == FolderFault::Memory),
    }
}

//! Folders, in memory, with a fuse and of the file system: files put, read within a limit, and removed.
use crate::tables::assert_right;
use axe_folder::{DirFolder, Folder, FolderFault, FusedFolder, MemFolder};
use axe_test_values::{
    TableFault, bytes_of_text, first_field, is_fault, number_of, one_field, three_fields,
    two_fields,
};
use std::alloc::Global;
use std::fs;
use std::process::Abort;
use std::test::Fail;

/// Calls in turn on a folder that is empty at first:
/// - `get`: a name, a limit, and the bytes of the file, or the fault;
/// - `put`: a name, and the bytes that it is given;
/// - `remove`: a name.
const PUT: &str = "\
get | A | 3 | Missing
put | A | one
put | B |
";

/// The calls that follow on these.
const PUT_AGAIN_AND_REMOVED: &str = "\
get | A | 3 | one
get | B | 0 |
get | A | 2 | TooLong
put | A | another
get | A | 7 | another
remove | A
remove | A
get | A | 7 | Missing
";

/// Calls in turn on another folder that is empty at first.
const PUT_READ_AND_REMOVED: &str = "\
put | EMPTY |
put | ABC | abc
get | EMPTY | 0 |
get | ABC | 3 | abc
get | ABC | 2 | TooLong
remove | EMPTY
remove | ABC
";

fn puts<F: Folder>(alloc: Global, folder: &mut F, line: &str) -> Result<bool, TableFault> {
    let (name, bytes) = two_fields(line)?;
    let bytes = bytes_of_text(alloc, bytes)?;
    Ok(folder.put(name, &bytes).is_ok())
}

fn gets<F: Folder>(alloc: Global, folder: &mut F, line: &str) -> Result<bool, TableFault> {
    let (name, limit, wanted) = three_fields(line)?;
    match folder.get(name, number_of(limit)?) {
        Ok(bytes) => Ok(bytes.as_slice() == wanted.as_bytes()),
        Err(fault) => is_fault(alloc, &fault, wanted),
    }
}

/// Whether a call on a folder answers what its line says.
fn answers<F: Folder>(alloc: Global, folder: &mut F, line: &str) -> Result<bool, TableFault> {
    let (call, line) = first_field(line)?;
    match call {
        "put" => puts(alloc, folder, line),
        "get" => gets(alloc, folder, line),
        "remove" => Ok(folder.remove(one_field(line)?).is_ok()),
        _ => Err(TableFault::NotWritten),
    }
}

/// Makes the calls of a table in turn, and asserts of each that it answers what its line says.
fn each_call<F: Folder>(
    rt: &impl Abort,
    alloc: Global,
    folder: &mut F,
    table: &str,
) -> Result<(), TableFault> {
    for line in table.lines() {
        assert_right(rt, line, answers(alloc, folder, line))?;
    }
    Ok(())
}

#[test]
fn memory_keeps_files_by_name(rt: HostRuntime) -> Result<(), TableFault> {
    let mut folder = MemFolder::new(rt.alloc());
    assert!(rt; folder.bytes("A").is_none());
    each_call(&rt, rt.alloc(), &mut folder, PUT)?;
    assert!(rt; folder.bytes("A") == Some(b"one".as_slice()));
    each_call(&rt, rt.alloc(), &mut folder, PUT_AGAIN_AND_REMOVED)?;
    assert!(rt; folder.bytes("B").is_some());
    Ok(())
}

/// Whether a call failed.
fn has_failed<T: Drop>(answer: &Result<T, FolderFault>) -> bool {
    matches!(answer, Err(FolderFault::Device))
}

/// Asserts that each call on a folder fails.
fn assert_failing(rt: &impl Abort, folder: &mut FusedFolder, name: &str) {
    assert!(rt; has_failed(&folder.remove(name)));
    assert!(rt; has_failed(&folder.put(name, b"three")));
    assert!(rt; has_failed(&folder.get(name, 3)));
}

#[test]
fn a_fuse_passes_three_calls_and_no_more(rt: HostRuntime) -> Result<(), TableFault> {
    let mut folder = FusedFolder::new(MemFolder::new(rt.alloc()), 3, true);
    each_call(&rt, rt.alloc(), &mut folder, PUT)?;
    // The first call that fails is no put, so no file is torn.
    assert_failing(&rt, &mut folder, "A");
    assert!(rt; folder.bytes("A") == Some(b"one".as_slice()));
    Ok(())
}

#[test]
fn the_first_put_that_fails_may_be_torn(rt: HostRuntime) {
    for (tears, left) in [(true, Some(b"th".as_slice())), (false, None)] {
        let mut folder = FusedFolder::new(MemFolder::new(rt.alloc()), 0, tears);
        assert!(rt; has_failed(&folder.put("A", b"three")));
        assert_failing(&rt, &mut folder, "A");
        assert!(rt; folder.bytes("A") == left);
    }
}

#[test]
fn a_directory_reads_files_up_to_the_limit(rt: HostRuntime) -> Result<(), Fail> {
    let place = "axe_call_tests_limits";
    fs::create_dir(&rt, place)?;
    let mut folder = DirFolder::new(rt.clone()?, place)?;
    each_call(&rt, rt.alloc(), &mut folder, PUT_READ_AND_REMOVED)?;
    fs::remove_dir(&rt, place)?;
    Ok(())
}

/// Names that no file in a directory can have. The fifth leads to a file all the same.
const BAD_NAMES: [&str; 7] = ["", ".", "..", "/A", "within/A", "../A", "A\0"];

#[test]
fn a_directory_has_no_file_of_a_bad_name(rt: HostRuntime) -> Result<(), Fail> {
    let place = "axe_call_tests_names";
    fs::create_dir(&rt, place)?;
    fs::create_dir(&rt, "axe_call_tests_names/within")?;
    fs::write(&rt, "axe_call_tests_names/within/A", "one")?;
    let mut folder = DirFolder::new(rt.clone()?, place)?;
    for name in BAD_NAMES {
        let got = folder.get(name, 3);
        assert!(rt; matches!(got, Err(FolderFault::Missing)), "get {name}");
        assert!(rt; has_failed(&folder.put(name, b"two")), "put {name}");
        assert!(rt; folder.remove(name).is_ok(), "remove {name}");
    }
    let kept = fs::read(&rt, "axe_call_tests_names/within/A")?;
    assert!(rt; kept.as_slice() == b"one".as_slice());
    fs::remove_file(&rt, "axe_call_tests_names/within/A")?;
    fs::remove_dir(&rt, "axe_call_tests_names/within")?;
    // It is refused where another file is left.
    fs::remove_dir(&rt, place)?;
    Ok(())
}

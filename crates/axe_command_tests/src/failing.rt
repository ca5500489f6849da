//! Command lines on a folder whose device fails.
//!
//! A scene is played once for each number of calls that are passed, up to all of them, on a folder that tears files and
//! on one that doesn't. It is written as `script` says, and has one command line, which ends well where nothing fails.
//! The lines after that are the calls of the command line, in order: `? NAME` for a file that is fetched, `- NAME` for
//! one that is taken away, and `= NAME CONTENT` for one that is put.
use crate::script::{bytes, play_line, run};
use crate::spelling::parts;
use crate::watched::Watched;
use axe_folder::{FusedFolder, MemFolder};
use std::process::Abort;

/// A scene, taken apart.
#[derive(Drop)]
struct Scene<'a> {
    /// The lines that give files.
    given: &'a str,
    /// The command line, and how it ends where nothing fails.
    row: &'a str,
    /// The lines of its calls.
    calls: &'a str,
}

/// How a device fails.
#[derive(Clone, Copy)]
struct Failing {
    /// How many calls of the command line are passed.
    passed: usize,
    /// Whether a file that is being put is torn.
    tears: bool,
}

/// Plays a scene for each number of calls that are passed.
pub(crate) fn play_failing<R: Abort + AllocGlobal>(rt: &R, scene: &str) {
    let (given, rest) = parts(rt, scene.trim(), "\n$ ");
    let (row, calls) = parts(rt, rest, "\n");
    let scene = Scene { given, row, calls };
    for passed in 0..=calls.lines().count() {
        for tears in [false, true] {
            play_once(rt, &scene, Failing { passed, tears });
        }
    }
}

/// Plays a scene on a device that fails so.
fn play_once<R: Abort + AllocGlobal>(rt: &R, scene: &Scene<'_>, failing: Failing) {
    let passed = scene.given.lines().count().saturating_add(failing.passed);
    let fused = FusedFolder::new(MemFolder::new(rt.alloc()), passed as u64, failing.tears);
    let mut folder = Watched::new(rt.alloc(), fused);
    for line in scene.given.lines() {
        play_line(rt, line, &mut folder);
    }
    match scene.calls.lines().nth(failing.passed) {
        Some(call) => run_to_failure(rt, scene.row, call, &mut folder),
        None => run(rt, scene.row, &mut folder),
    }
    for (number, call) in scene.calls.lines().enumerate() {
        if number < failing.passed {
            play_line(rt, call, &mut folder);
        } else if number == failing.passed && failing.tears {
            want_torn(rt, call, &mut folder);
        }
    }
    folder.assert_as_wanted(rt);
}

/// Carries out a command line of which this call fails.
fn run_to_failure<R: Abort + AllocGlobal>(
    rt: &R,
    row: &str,
    call: &str,
    folder: &mut Watched<FusedFolder>,
) {
    let (command, _) = parts(rt, row, " -> ");
    let (_, file) = parts(rt, call, " ");
    let name = file.split_whitespace().next().unwrap_or("");
    let row = format!(in rt.alloc(); "{command} -> 6 axe: {name}: Device\\n").expect(rt, "memory");
    run(rt, row.as_str(), folder);
}

/// Says that a file that is put has the first half of its bytes now.
fn want_torn<R: Abort + AllocGlobal>(rt: &R, call: &str, folder: &mut Watched<FusedFolder>) {
    if let Some(file) = call.strip_prefix("= ") {
        let (name, content) = parts(rt, file, " ");
        let bytes = bytes(rt, content);
        let half = &bytes[..bytes.len() / 2];
        folder.want(name, half).expect(rt, "memory");
    }
}

//! Scripts of worked command lines, and what plays them.
//!
//! A script is made of scenes with a blank line between two of them. A scene is played on a folder of its own, which is
//! empty at first. Each of its lines begins with a sign:
//!
//! ```text
//! # REMARK                   is for the reader
//! + NAME CONTENT             puts a file into the folder
//! $ WORD .. -> STATUS TEXT   carries out a command line, which is to end with this status and to print this text
//! = NAME CONTENT             says that the file has this content now
//! - NAME                     says that there is no such file
//! ? NAME                     says that the command line fetched the file, for `failing`
//! ```
//!
//! A CONTENT is `text TEXT`, or `packed ORDER ROWS COLUMNS BYTE ..` for a packed matrix: three decimal numbers, each
//! below 256, and the bytes of its rows in hexadecimal digits; or `bytes BYTE ..`, all bytes in such digits. WORD and
//! TEXT are spelled as `spelling` says. A command line that prints nothing has no TEXT.
//!
//! After each command line, and what the lines after it say of files, all files are looked at: each that was put or
//! spoken of in the scene has its last content, and there is no other. Any other line, and a scene without a command
//! line, fail.
use crate::spelling::{assert_text, parts, plain, words};
use crate::watched::{Seen, Watched};
use axe_command::{Command, Fault, ParseFault, Shown, execute, line, parse, status};
use axe_folder::{Folder, MemFolder};
use std::process::Abort;
use std::str::SplitWhitespace;

/// Plays the scenes of a script, each on a folder of its own.
pub(crate) fn play<R: Abort + AllocGlobal>(rt: &R, script: &str) {
    for scene in script.split("\n\n") {
        let mut folder = Watched::new(rt.alloc(), MemFolder::new(rt.alloc()));
        play_scene(rt, scene, &mut folder);
    }
}

/// Plays one scene on this folder.
pub(crate) fn play_scene<R: Abort + AllocGlobal, F: Seen + Drop>(
    rt: &R,
    scene: &str,
    folder: &mut Watched<F>,
) {
    let mut has_run = false;
    for line in scene.trim().lines() {
        has_run |= line.starts_with("$ ");
        play_line(rt, line, folder);
    }
    folder.assert_as_wanted(rt);
    assert!(rt; has_run, "no command line in the scene:\n{scene}");
}

/// Does what one line of a scene says.
pub(crate) fn play_line<R: Abort + AllocGlobal, F: Seen + Drop>(
    rt: &R,
    line: &str,
    folder: &mut Watched<F>,
) {
    let (sign, rest) = parts(rt, line, " ");
    match sign {
        "#" | "?" => {}
        "+" => give(rt, rest, folder),
        "$" => run(rt, rest, folder),
        "=" => want(rt, rest, folder),
        "-" => want_none(rt, rest, folder),
        _ => rt.panic(line),
    }
}

/// Puts a file into the folder, after a look at those that are there.
fn give<R: Abort + AllocGlobal, F: Seen + Drop>(rt: &R, file: &str, folder: &mut Watched<F>) {
    folder.assert_as_wanted(rt);
    let (name, content) = parts(rt, file, " ");
    let bytes = bytes(rt, content);
    folder
        .put(name, bytes.as_slice())
        .expect(rt, "a file that is given");
    folder.want(name, bytes.as_slice()).expect(rt, "memory");
}

/// Says what a file has now.
fn want<R: Abort + AllocGlobal, F: Seen + Drop>(rt: &R, file: &str, folder: &mut Watched<F>) {
    let (name, content) = parts(rt, file, " ");
    let bytes = bytes(rt, content);
    folder.want(name, bytes.as_slice()).expect(rt, "memory");
}

/// Says that there is no such file now.
fn want_none<F: Seen + Drop>(rt: &impl Abort, name: &str, folder: &mut Watched<F>) {
    assert!(rt; !name.contains(" "), "no name of a file: {name}");
    folder.want_none(name).expect(rt, "memory");
}

/// The bytes of a file with this content.
pub(crate) fn bytes<R: Abort + AllocGlobal>(rt: &R, content: &str) -> Vec<u8> {
    let (kind, rest) = parts(rt, content, " ");
    match kind {
        "text" => plain(rt, rest).into_bytes(),
        "packed" => packed(rt, rest),
        "bytes" => with_bytes(rt, Vec::new(rt.alloc()), rest.split_whitespace()),
        _ => rt.panic(content),
    }
}

/// The bytes of a packed matrix: the header with three numbers, each below 256 here, and the rows.
fn packed<R: Abort + AllocGlobal>(rt: &R, matrix: &str) -> Vec<u8> {
    let mut words = matrix.split_whitespace();
    let mut bytes = Vec::from_slice(rt.alloc(), b"AXP1").expect(rt, "memory");
    for _ in 0..3 {
        let number = number(rt, words.next().unwrap_or(""));
        bytes
            .extend_from_slice(&[number, 0, 0, 0])
            .expect(rt, "memory");
    }
    with_bytes(rt, bytes, words)
}

/// Bytes with those behind them that words spell in hexadecimal digits.
fn with_bytes(rt: &impl Abort, mut bytes: Vec<u8>, words: SplitWhitespace<'_>) -> Vec<u8> {
    for word in words {
        let byte = u8::from_str_radix(word, 16).expect(rt, "two hexadecimal digits");
        bytes.push(byte).expect(rt, "memory");
    }
    bytes
}

/// A number below 256.
fn number(rt: &impl Abort, digits: &str) -> u8 {
    u8::from_str_radix(digits, 10).expect(rt, "a number below 256")
}

/// Carries out a command line, after a look at the files that are there, and asserts how it ends.
pub(crate) fn run<R: Abort + AllocGlobal, F: Seen + Drop>(
    rt: &R,
    row: &str,
    folder: &mut Watched<F>,
) {
    folder.assert_as_wanted(rt);
    let (command, ending) = parts(rt, row, " -> ");
    let (wanted_status, wanted_text) = ending.split_once(" ").unwrap_or((ending, ""));
    let words = words(rt, command);
    let (status, text) = ending_of(rt, words.as_slice(), folder);
    assert_eq!(rt; status, number(rt, wanted_status), "{row}");
    let text = str::from_utf8(text.as_slice()).expect(rt, "UTF-8");
    assert_text(rt, row, text, plain(rt, wanted_text).as_str());
}

/// The status that the program would end with, and what it would print.
fn ending_of<R: Abort + AllocGlobal, F: Folder>(
    rt: &R,
    words: &[String],
    folder: &mut F,
) -> (u8, Vec<u8>) {
    match parse(rt.alloc(), words) {
        Ok(command) => command_ending(rt, &command, folder),
        Err(fault) => words_ending(rt, fault),
    }
}

/// How a command ends.
fn command_ending<R: Abort + AllocGlobal, F: Folder>(
    rt: &R,
    command: &Command,
    folder: &mut F,
) -> (u8, Vec<u8>) {
    match execute(rt.alloc(), command, folder) {
        Ok(Shown { text }) => (0, text),
        Err(fault) => fault_ending(rt, &fault),
    }
}

/// How words end that are no command.
fn words_ending<R: Abort + AllocGlobal>(rt: &R, fault: ParseFault) -> (u8, Vec<u8>) {
    match fault {
        ParseFault::Help(text) => (0, text.into_bytes()),
        ParseFault::Usage(text) => fault_ending(rt, &Fault::Usage(text)),
        ParseFault::Memory => fault_ending(rt, &Fault::Memory),
    }
}

/// The status of a fault, and its line.
fn fault_ending<R: Abort + AllocGlobal>(rt: &R, fault: &Fault) -> (u8, Vec<u8>) {
    let text = line(rt.alloc(), fault).expect(rt, "memory");
    (status(fault), text)
}

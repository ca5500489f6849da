//! The program `axe`: carries out one command on the files of the working directory.
//!
//! What a command shows goes to standard output, as does help, and the status is then 0. A fault goes to standard
//! error, and each kind of fault has a status of its own. A text that can't be printed changes no status.
#![tactic(auto)]

use axe_command::{Command, Fault, ParseFault, execute, line, parse, status};
use axe_folder::DirFolder;
use std::env;
use std::io::{ErrorKind, Write};
use std::process::ExitCode;

fn main(rt: HostRuntime) -> ExitCode {
    match output(&rt) {
        Ok(text) => {
            let _ = rt.stdout().write_all(text.as_slice());
            ExitCode::SUCCESS
        }
        Err(ending) => {
            print_line(&rt, &ending);
            ExitCode::from(ending.status)
        }
    }
}

/// How the program ends where it fails.
#[derive(Drop)]
struct Ending {
    /// The line for standard error, where there is memory for it.
    line: Option<Vec<u8>>,
    /// The exit status.
    status: u8,
}

/// Does what the words of the command line say, and gives the bytes for standard output.
fn output(rt: &HostRuntime) -> Result<Vec<u8>, Ending> {
    match words(rt) {
        Ok(words) => answer(rt, words.as_slice()),
        Err(fault) => Err(ending_of(rt, &fault)),
    }
}

/// Does what the words say.
fn answer(rt: &HostRuntime, words: &[String]) -> Result<Vec<u8>, Ending> {
    match parse(rt.alloc(), words) {
        Ok(command) => carry_out(rt, &command),
        Err(ParseFault::Help(text)) => Ok(text.into_bytes()),
        Err(ParseFault::Usage(text)) => Err(ending_of(rt, &Fault::Usage(text))),
        Err(ParseFault::Memory) => Err(ending_of(rt, &Fault::Memory)),
    }
}

/// Carries a command out on the files of the working directory.
fn carry_out(rt: &HostRuntime, command: &Command) -> Result<Vec<u8>, Ending> {
    let Ok(runtime) = rt.clone() else {
        return Err(ending_of(rt, &Fault::Memory));
    };
    let Ok(mut folder) = DirFolder::new(runtime, ".") else {
        return Err(ending_of(rt, &Fault::Memory));
    };
    match execute(rt.alloc(), command, &mut folder) {
        Ok(shown) => Ok(shown.text),
        Err(fault) => Err(ending_of(rt, &fault)),
    }
}

/// The words after the program's name.
fn words(rt: &HostRuntime) -> Result<Vec<String>, Fault> {
    match env::args(rt) {
        Ok(words) => Ok(words.skip(1).collect::<Vec<String>>(rt.alloc())?),
        Err(error) if error.kind() == ErrorKind::OutOfMemory => Err(Fault::Memory),
        Err(_) => {
            let text = String::from_str(rt.alloc(), "axe: a word is no valid text\n")?;
            Err(Fault::Usage(text))
        }
    }
}

/// How the program ends with a fault.
fn ending_of(rt: &HostRuntime, fault: &Fault) -> Ending {
    Ending {
        line: line(rt.alloc(), fault).ok(),
        status: status(fault),
    }
}

/// Prints the line of an ending to standard error. Where there is no memory for it, that is what is printed.
fn print_line(rt: &HostRuntime, ending: &Ending) {
    let _ = match &ending.line {
        Some(line) => rt.stderr().write_all(line.as_slice()),
        None => rt.stderr().write_all(b"axe: Memory\n"),
    };
}

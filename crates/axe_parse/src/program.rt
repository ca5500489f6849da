//! The command lines as `clap` reads them.
use crate::help;
use crate::lines::{CommandLine, NumberOption, Word, WordKind, command_lines};
use axe_arguments::MAX_GENERATORS;
use clap::builder::ValueParser;
use clap::{Arg, ArgAction, Command};
use std::alloc::{AllocError, Global};

/// The version, and in a line of its own the logic that the proofs are made in, as `rt version` names it.
const VERSION: &str = "0.1.0\nRattle logic dac8208d650f15bf";

/// The program with all its commands, for words without the program's name.
pub(crate) fn program<'a>(alloc: Global) -> Result<Command<'a>, AllocError> {
    let mut program = without_commands(alloc)?;
    for line in &command_lines() {
        let command = command(alloc, line)?;
        program = program.subcommand(command)?;
    }
    Ok(program)
}

/// The program before it has any command.
fn without_commands<'a>(alloc: Global) -> Result<Command<'a>, AllocError> {
    with_help(Command::new(alloc, "axe"), help::ABOUT, help::LONG_ABOUT)
        .no_binary_name(true)
        .version(VERSION)
        .subcommand_required(true)
        .arg_required_else_help(true)
        .bin_name("axe")
}

/// The command of a command line.
fn command<'a>(alloc: Global, line: &CommandLine) -> Result<Command<'a>, AllocError> {
    let mut command = with_help(Command::new(alloc, line.name), line.about, line.long_about);
    for word in line.words {
        command = command.arg(argument(alloc, word))?;
    }
    Ok(command)
}

/// Adds what help says in a line and at length, and of files and exit statuses.
fn with_help<'a>(command: Command<'a>, about: &'a str, long_about: &'a str) -> Command<'a> {
    command
        .about(about)
        .long_about(long_about)
        .after_long_help(help::FILES_AND_STATUSES)
}

/// The argument that a word of a command line is.
fn argument<'a>(alloc: Global, word: &Word) -> Arg<'a> {
    let argument = Arg::new(alloc, word.name).help(word.help);
    match word.kind {
        WordKind::File => argument.required(true),
        WordKind::OptionalFile => argument,
        WordKind::FileOption(letter) => argument.short(letter),
        WordKind::Flag(letter) => argument.short(letter).action(ArgAction::SetTrue),
        WordKind::NamedFlag(letter) => argument
            .short(letter)
            .long(word.name)
            .action(ArgAction::SetTrue),
        WordKind::Count(letter) => count(argument.short(letter)),
        WordKind::Number(ref option) => number(argument, option),
    }
}

/// Has an argument be a number of generators, which is 2 where none is given.
fn count<'a>(argument: Arg<'a>) -> Arg<'a> {
    argument
        .value_parser(ValueParser::Unsigned(1, u64::from(MAX_GENERATORS)))
        .default_value("2")
}

/// Has an argument be an option with a number.
fn number<'a>(argument: Arg<'a>, option: &NumberOption) -> Arg<'a> {
    argument
        .long(option.name)
        .value_parser(ValueParser::Unsigned(0, option.most))
        .default_value(option.default)
}

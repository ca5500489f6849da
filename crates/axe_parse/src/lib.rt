//! From the words of a command line to a command.
//!
//! `clap` takes the words apart. Which words give which command is tested and not proved. It is proved that `parse`
//! returns whatever the words are, that each name in the command that it answers keeps the rule of names, and that each
//! number of generators or of words there is in its range.
#![tactic(auto)]

ghost use Rattle.std.specs.Prelude.{◌≡◌, true, IfOk, IfSome};
ghost use Rattle.axe_arguments.specs.Names.{is_name};
ghost use Rattle.axe_arguments.specs.Commands.{HasNames, HasCounts, HasFileCount};
ghost use Rattle.axe_arguments.specs.Counts.{IsGeneratorCount, IsWordCount};

mod help;
mod lines;
mod program;

use axe_arguments::{
    Command, GeneratorCount, ModuleFiles, ModuleLayout, Name, NameFault, WordCount,
};
use clap::ArgMatches;
use clap::error::ErrorKind;
use std::alloc::{AllocError, Global};
use thiserror::Error;

/// Why words gave no command. Each text ends with a newline and is to be printed as it stands.
#[derive(Debug, Drop, Error)]
pub enum ParseFault {
    /// The words are no command line of `axe`. The text says what is wrong with them.
    #[error("{0}")]
    Usage(String),
    /// The words asked for help or for the version. The text is what they asked for.
    #[error("{0}")]
    Help(String),
    /// There was not enough memory to read the words or to make the text.
    #[error("Memory")]
    Memory,
}

impl From<AllocError> for ParseFault {
    ghost use Rattle.std.specs.Prelude.{◌≡◌};
    ghost use Rattle.axe_parse.specs.declared.ParseFault.TheVariants.{Memory};

    ghost from_gives = { λ _ fault. fault ≡ Memory };

    fn from(_error: AllocError) -> ParseFault {
        ParseFault::Memory
    }
}

/// The command that the words ask for. They are the words after the program's name.
///
/// Where `clap` takes the words, but one that stands for a file is no name, the answer is Usage with the text
/// `axe: bad file name` and a newline. All other texts are those of `clap`.
pub fn parse(alloc: Global, words: &[String]) -> Result<Command, ParseFault>
    ensures names { IfOk result HasNames }
    ensures counts { IfOk result HasCounts }
{
    match program::program(alloc)?.try_get_matches_from(asked_of_clap(words)) {
        Ok(matches) => command_in(alloc, &matches),
        Err(error) => Err(fault_of(alloc, &error)?),
    }
}

/// The words that `clap` takes apart: it knows no help of `help`, so `help -h` is `help`.
fn asked_of_clap(words: &[String]) -> &[String] {
    if words.len() == 2 && words[0].as_str() == "help" && is_help_option(words[1].as_str()) {
        &words[..1]
    } else {
        words
    }
}

/// Whether a word asks for help.
fn is_help_option(word: &str) -> bool {
    word == "-h" || word == "--help"
}

/// The command that `clap` found.
fn command_in(alloc: Global, matches: &ArgMatches<'_>) -> Result<Command, ParseFault>
    ensures names { IfOk result HasNames }
    ensures counts { IfOk result HasCounts }
{
    match matches.subcommand() {
        Some((command, found)) => command_of(alloc, command, found),
        None => Err(no_command(alloc)?),
    }
}

/// The command with this name and these files.
fn command_of(alloc: Global, command: &str, found: &ArgMatches<'_>) -> Result<Command, ParseFault>
    ensures names { IfOk result HasNames }
    ensures counts { IfOk result HasCounts }
{
    match command {
        lines::ZCV => zcv_of(alloc, found),
        lines::ZPR => zpr_of(alloc, found),
        lines::ZMU => zmu_of(alloc, found),
        lines::ZAD => zad_of(alloc, found),
        lines::ZTR => ztr_of(alloc, found),
        lines::ZIV => ziv_of(alloc, found),
        lines::ZNU => znu_of(alloc, found),
        lines::ZSP => zsp_of(alloc, found),
        lines::ZQT => zqt_of(alloc, found),
        lines::CHOP => chop_of(alloc, found),
        lines::VERIFY => verify_of(alloc, found),
        _ => Err(no_command(alloc)?),
    }
}

/// The command `zcv IN OUT`, or `zcv -m [-g N] NAME OUT`.
fn zcv_of(alloc: Global, found: &ArgMatches<'_>) -> Result<Command, ParseFault>
    ensures names { IfOk result HasNames }
    ensures counts { IfOk result HasCounts }
{
    let (input, out) = two_names_of(alloc, found, lines::IN, lines::OUT)?;
    if !found.get_flag(lines::MODULE) {
        return Ok(Command::Zcv { input, out });
    }
    Ok(Command::ZcvModule {
        generators: generators_of(alloc, found)?,
        name: input,
        out,
    })
}

/// The command `zpr IN [OUT]`.
fn zpr_of(alloc: Global, found: &ArgMatches<'_>) -> Result<Command, ParseFault>
    ensures names { IfOk result HasNames }
    ensures counts { IfOk result HasCounts }
{
    Ok(Command::Zpr {
        input: name_of(alloc, found, lines::IN)?,
        out: optional_name_of(alloc, found, lines::OUT)?,
    })
}

/// The command `zmu A B OUT`.
fn zmu_of(alloc: Global, found: &ArgMatches<'_>) -> Result<Command, ParseFault>
    ensures names { IfOk result HasNames }
    ensures counts { IfOk result HasCounts }
{
    let (left, right, out) = three_names_of(alloc, found, lines::LEFT, lines::RIGHT, lines::OUT)?;
    Ok(Command::Zmu { left, right, out })
}

/// The command `zad A B OUT`.
fn zad_of(alloc: Global, found: &ArgMatches<'_>) -> Result<Command, ParseFault>
    ensures names { IfOk result HasNames }
    ensures counts { IfOk result HasCounts }
{
    let (left, right, out) = three_names_of(alloc, found, lines::LEFT, lines::RIGHT, lines::OUT)?;
    Ok(Command::Zad { left, right, out })
}

/// The command `ztr A OUT`.
fn ztr_of(alloc: Global, found: &ArgMatches<'_>) -> Result<Command, ParseFault>
    ensures names { IfOk result HasNames }
    ensures counts { IfOk result HasCounts }
{
    let (input, out) = two_names_of(alloc, found, lines::LEFT, lines::OUT)?;
    Ok(Command::Ztr { input, out })
}

/// The command `ziv A OUT`.
fn ziv_of(alloc: Global, found: &ArgMatches<'_>) -> Result<Command, ParseFault>
    ensures names { IfOk result HasNames }
    ensures counts { IfOk result HasCounts }
{
    let (input, out) = two_names_of(alloc, found, lines::LEFT, lines::OUT)?;
    Ok(Command::Ziv { input, out })
}

/// The command `znu A OUT`.
fn znu_of(alloc: Global, found: &ArgMatches<'_>) -> Result<Command, ParseFault>
    ensures names { IfOk result HasNames }
    ensures counts { IfOk result HasCounts }
{
    let (input, out) = two_names_of(alloc, found, lines::LEFT, lines::OUT)?;
    Ok(Command::Znu { input, out })
}

/// The command `zsp [-g N] [-b] [-a ACT] NAME SEED OUT`.
fn zsp_of(alloc: Global, found: &ArgMatches<'_>) -> Result<Command, ParseFault>
    ensures names { IfOk result HasNames }
    ensures counts { IfOk result HasCounts }
{
    let generators = generators_of(alloc, found)?;
    let action = optional_name_of(alloc, found, lines::ACTION)?;
    let (name, seed, out) = three_names_of(alloc, found, lines::NAME, lines::SEED, lines::OUT)?;
    Ok(Command::Zsp {
        generators,
        standard: found.get_flag(lines::STANDARD),
        action,
        name,
        seed,
        out,
    })
}

/// The command `zqt [-g N] SUB NAME OUTNAME`.
fn zqt_of(alloc: Global, found: &ArgMatches<'_>) -> Result<Command, ParseFault>
    ensures names { IfOk result HasNames }
    ensures counts { IfOk result HasCounts }
{
    let generators = generators_of(alloc, found)?;
    let (subspace, name, out) = three_names_of(
        alloc,
        found,
        lines::SUBSPACE,
        lines::NAME,
        lines::OUT_NAME,
    )?;
    Ok(Command::Zqt {
        generators,
        subspace,
        name,
        out,
    })
}

/// The command `chop [-m] [-g N] [--seed S] [--words W] NAME`.
fn chop_of(alloc: Global, found: &ArgMatches<'_>) -> Result<Command, ParseFault>
    ensures names { IfOk result HasNames }
    ensures counts { IfOk result HasCounts }
{
    let files = module_files_of(alloc, found)?;
    let words = words_of(alloc, found)?;
    Ok(Command::Chop {
        files,
        seed: found.get_one::<u64>(lines::WORD_SEED).unwrap_or(1),
        words,
        name: name_of(alloc, found, lines::NAME)?,
    })
}

/// The command `verify [-m] NAME`.
fn verify_of(alloc: Global, found: &ArgMatches<'_>) -> Result<Command, ParseFault>
    ensures names { IfOk result HasNames }
    ensures counts { IfOk result HasCounts }
{
    let layout = if found.get_flag(lines::MODULE) {
        ModuleLayout::Whole
    } else {
        ModuleLayout::Separate
    };
    Ok(Command::Verify {
        layout,
        name: name_of(alloc, found, lines::NAME)?,
    })
}

/// The files of a module: with `-m` one for all generators, and else one for each.
fn module_files_of(alloc: Global, found: &ArgMatches<'_>) -> Result<ModuleFiles, ParseFault>
    ensures { IfOk result HasFileCount }
{
    if found.get_flag(lines::MODULE) {
        Ok(ModuleFiles::Whole)
    } else {
        Ok(ModuleFiles::Separate(generators_of(alloc, found)?))
    }
}

/// The number of a module's generators. A number that is missing, or is not 1 to 16, has been refused by `clap`
/// already.
fn generators_of(alloc: Global, found: &ArgMatches<'_>) -> Result<GeneratorCount, ParseFault>
    ensures { IfOk result IsGeneratorCount }
{
    let number = found.get_one::<u8>(lines::GENERATORS).unwrap_or(0);
    match GeneratorCount::new(number) {
        Some(count) => Ok(count),
        None => Err(usage(alloc, "axe: bad number of generators\n")?),
    }
}

/// The number of words that are tried. A number that is missing, or is more than 10,000, has been refused by `clap`
/// already.
fn words_of(alloc: Global, found: &ArgMatches<'_>) -> Result<WordCount, ParseFault>
    ensures { IfOk result IsWordCount }
{
    match found.get_one::<u32>(lines::WORDS).and_then(WordCount::new) {
        Some(words) => Ok(words),
        None => Err(usage(alloc, "axe: bad number of words\n")?),
    }
}

/// What `clap` answers in the place of a command.
fn fault_of(alloc: Global, error: &clap::Error) -> Result<ParseFault, AllocError> {
    let text = error.to_string(alloc)?;
    Ok(match error.kind() {
        ErrorKind::OutOfMemory => ParseFault::Memory,
        ErrorKind::DisplayHelp | ErrorKind::DisplayVersion => ParseFault::Help(text),
        _ => ParseFault::Usage(text),
    })
}

/// The names of two files that have to be given.
fn two_names_of(
    alloc: Global,
    found: &ArgMatches<'_>,
    first: &str,
    second: &str,
) -> Result<(Name, Name), ParseFault>
    ensures { IfOk result (λ names. (is_name names.0 ≡ true) × (is_name names.1 ≡ true)) }
{
    let first = name_of(alloc, found, first)?;
    Ok((first, name_of(alloc, found, second)?))
}

/// The names of three files that have to be given.
fn three_names_of(
    alloc: Global,
    found: &ArgMatches<'_>,
    first: &str,
    second: &str,
    third: &str,
) -> Result<(Name, Name, Name), ParseFault>
    ensures { IfOk result (λ names. (is_name names.0 ≡ true) × (is_name names.1 ≡ true)
        × (is_name names.2 ≡ true)) }
{
    let (first, second) = two_names_of(alloc, found, first, second)?;
    Ok((first, second, name_of(alloc, found, third)?))
}

/// The name of a file that has to be given. A word that is missing, which `clap` has refused already, counts as the
/// empty word, which is no name.
fn name_of(alloc: Global, found: &ArgMatches<'_>, file: &str) -> Result<Name, ParseFault>
    ensures { IfOk result (λ name. is_name name ≡ true) }
{
    name_from(alloc, found.get_str(file).unwrap_or(""))
}

/// The name of a file that may be left out.
fn optional_name_of(
    alloc: Global,
    found: &ArgMatches<'_>,
    file: &str,
) -> Result<Option<Name>, ParseFault>
    ensures { IfOk result (λ given. IfSome given (λ name. is_name name ≡ true)) }
{
    match found.get_str(file) {
        Some(word) => Ok(Some(name_from(alloc, word)?)),
        None => Ok(None),
    }
}

/// The name of a file from the word that stands for it.
fn name_from(alloc: Global, word: &str) -> Result<Name, ParseFault>
    ensures { IfOk result (λ name. is_name name ≡ true) }
{
    match Name::new(alloc, word) {
        Ok(name) => Ok(name),
        Err(NameFault::BadName) => Err(usage(alloc, "axe: bad file name\n")?),
        Err(NameFault::Memory) => Err(ParseFault::Memory),
    }
}

/// The answer where no command has the name that was given, which `clap` has refused already.
fn no_command(alloc: Global) -> Result<ParseFault, AllocError> {
    usage(alloc, "axe: no such command\n")
}

/// The fault of words that are no command line, with this text.
fn usage(alloc: Global, text: &str) -> Result<ParseFault, AllocError> {
    Ok(ParseFault::Usage(String::from_str(alloc, text)?))
}

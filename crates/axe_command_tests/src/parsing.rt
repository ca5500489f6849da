//! Which words give which answer.
//!
//! A table has lines `WORD .. -> ANSWER`. The answer is what the command does with which files, or `usage: TEXT` or
//! `help: TEXT` where the words are no command. Words and texts are spelled as `spelling` says.
use crate::spelling::{assert_text, parts, plain, words};
use axe_command::{Command, GeneratorCount, ModuleFiles, ModuleLayout, Name, ParseFault, parse};
use std::alloc::{AllocError, Global};
use std::process::Abort;

const COMMANDS: &str = r"
zcv in.txt A -> convert in.txt to A
zcv A A -> convert A to A
zcv -g 3 in.txt A -> convert in.txt to A
zpr A -> print A
zpr -- A -> print A
zpr A in.txt -> print A to in.txt
zmu A B-2.x 9+_ -> multiply A by B-2.x to 9+_
zmu -- A B-2.x 9+_ -> multiply A by B-2.x to 9+_
zad A B-2.x 9+_ -> add A and B-2.x to 9+_
ztr A OUT -> transpose A to OUT
ziv A OUT -> invert A to OUT
znu A OUT -> null space of A to OUT
znu -- 9+_ A -> null space of 9+_ to A
";

#[test]
fn words_make_commands(rt: HostRuntime) {
    assert_table(&rt, COMMANDS);
}

const OPTIONS: &str = r"
zsp M S OUT -> spin S by 2 generators of M to OUT, standard false, action none
zsp -g 1 -b -a T M S OUT -> spin S by 1 generators of M to OUT, standard true, action T
zsp -g16 -ba T M S OUT -> spin S by 16 generators of M to OUT, standard true, action T
zsp M S OUT -g=3 -> spin S by 3 generators of M to OUT, standard false, action none
zqt S M Q -> quotient by S of 2 generators of M to Q
zqt -g 16 S M Q -> quotient by S of 16 generators of M to Q
zcv -m M M.axm -> convert 2 generators of M to the module M.axm
zcv --module -g 16 M OUT -> convert 16 generators of M to the module OUT
zcv M -g1 OUT -m -> convert 1 generators of M to the module OUT
";

#[test]
fn words_with_options_make_commands(rt: HostRuntime) {
    assert_table(&rt, OPTIONS);
}

const SERIES: &str = r"
chop M -> chop 2 generators of M, seed 1, words 400
chop -g 1 M -> chop 1 generators of M, seed 1, words 400
chop -g 16 M -> chop 16 generators of M, seed 1, words 400
chop --seed 0 --words 0 M -> chop 2 generators of M, seed 0, words 0
chop --seed=7 --words=20 M -g3 -> chop 3 generators of M, seed 7, words 20
chop M --seed 18446744073709551615 -> chop 2 generators of M, seed 18446744073709551615, words 400
chop --words 10000 M -> chop 2 generators of M, seed 1, words 10000
chop -m M -> chop one file of M, seed 1, words 400
chop --module -g 16 --seed 2 M -> chop one file of M, seed 2, words 400
verify M -> verify a file for each generator of M
verify -m M -> verify one file of M
verify M --module -> verify one file of M
";

#[test]
fn words_ask_for_composition_series(rt: HostRuntime) {
    assert_table(&rt, SERIES);
}

const COUNTS: &str = r"
zcv -> usage: ..Usage: axe zcv <IN> <OUT>\n
zcv A -> usage: ..Usage: axe zcv <IN> <OUT>\n
zcv A B C -> usage: ..Usage: axe zcv [OPTIONS] <IN> <OUT>\n
zcv -m A -> usage: ..Usage: axe zcv --module <IN> <OUT>\n
zpr -> usage: ..Usage: axe zpr <IN> [OUT]\n
zpr A B C -> usage: ..Usage: axe zpr <IN> [OUT]\n
zmu -> usage: ..Usage: axe zmu <A> <B> <OUT>\n
zmu A -> usage: ..Usage: axe zmu <A> <B> <OUT>\n
zmu A B -> usage: ..Usage: axe zmu <A> <B> <OUT>\n
zmu A B C D -> usage: ..Usage: axe zmu <A> <B> <OUT>\n
zmu A B C '' -> usage: ..Usage: axe zmu <A> <B> <OUT>\n
zad -> usage: ..Usage: axe zad <A> <B> <OUT>\n
zad A -> usage: ..Usage: axe zad <A> <B> <OUT>\n
zad A B -> usage: ..Usage: axe zad <A> <B> <OUT>\n
zad A B C D -> usage: ..Usage: axe zad <A> <B> <OUT>\n
ztr A -> usage: ..Usage: axe ztr <A> <OUT>\n
ztr A B C -> usage: ..Usage: axe ztr <A> <OUT>\n
ziv -> usage: ..Usage: axe ziv <A> <OUT>\n
ziv A -> usage: ..Usage: axe ziv <A> <OUT>\n
ziv A B C -> usage: ..Usage: axe ziv <A> <OUT>\n
znu -> usage: ..Usage: axe znu <A> <OUT>\n
znu A -> usage: ..Usage: axe znu <A> <OUT>\n
znu A B C -> usage: ..Usage: axe znu <A> <OUT>\n
zsp M S -> usage: ..Usage: axe zsp <NAME> <SEED> <OUT>\n
zsp M S OUT A -> usage: ..Usage: axe zsp [OPTIONS] <NAME> <SEED> <OUT>\n
zqt S M -> usage: ..Usage: axe zqt <SUB> <NAME> <OUTNAME>\n
zqt S M Q A -> usage: ..Usage: axe zqt [OPTIONS] <SUB> <NAME> <OUTNAME>\n
chop -> usage: ..Usage: axe chop <NAME>\n
chop M A -> usage: ..Usage: axe chop [OPTIONS] <NAME>\n
verify -> usage: ..Usage: axe verify <NAME>\n
verify M A -> usage: ..Usage: axe verify [OPTIONS] <NAME>\n
";

#[test]
fn too_few_or_too_many_words_are_usage(rt: HostRuntime) {
    assert_table(&rt, COUNTS);
}

const NUMBERS: &str = r"
zsp -g 17 M S OUT -> usage: ..invalid value '17' for '-g <N>'
zsp -g 0 M S OUT -> usage: ..invalid value '0' for '-g <N>'
zcv -m -g 0 M OUT -> usage: ..invalid value '0' for '-g <N>'
zcv -m -g 17 M OUT -> usage: ..invalid value '17' for '-g <N>'
zqt -g x S M Q -> usage: ..invalid value 'x' for '-g <N>'
zqt S M Q -g -> usage: ..a value is required for '-g <N>'
chop -g 0 M -> usage: ..invalid value '0' for '-g <N>'
chop -g 17 M -> usage: ..invalid value '17' for '-g <N>'
chop --seed 18446744073709551616 M -> usage: ..invalid value '18446744073709551616' for '--seed <S>'
chop --seed=-1 M -> usage: ..invalid value '-1' for '--seed <S>'
chop --seed x M -> usage: ..invalid value 'x' for '--seed <S>'
chop M --seed -> usage: ..a value is required for '--seed <S>'
chop --words 10001 M -> usage: ..invalid value '10001' for '--words <W>'
chop --words=-1 M -> usage: ..invalid value '-1' for '--words <W>'
chop --words '' M -> usage: ..invalid value '' for '--words <W>'
";

#[test]
fn other_numbers_are_usage(rt: HostRuntime) {
    assert_table(&rt, NUMBERS);
}

/// Words that are no command.
const OTHERS: &str = r"
''
axe
zm
ZMU A B C
multiply A B C
-C
--words
zmu -C B OUT
zpr A -o
zsp -c M S OUT
zqt -b S M Q
chop -b M
chop --word 3 M
chop --modules M
zpr -m M
verify -g 2 M
";

#[test]
fn other_words_are_usage(rt: HostRuntime) {
    assert_answer(&rt, "", "usage: ..Usage: axe ");
    assert_each(&rt, OTHERS, "usage: ..Usage: axe ");
}

/// Words of which one stands for a file and is no name.
const BAD_NAMES: &str = r"
zmu a/b B OUT
zmu A .. OUT
zmu A B .out
zmu A B ''
zmu '' B OUT
zmu é B OUT
zmu A B\n OUT
zmu A B -- -C
zmu -- -C B OUT
zmu A - OUT
zcv a/b OUT
zcv A +
zpr .
zpr A ''
zpr A a\sb
zad _A B OUT
zad A /B OUT
zad A B ../OUT
ztr - OUT
ztr A é
ziv .A OUT
ziv A ''
znu a/b OUT
znu A ..
zsp a/b S OUT
zsp -a .T M S OUT
zqt S M ..
chop a/b
chop ''
chop -- -M
chop -m a/b
verify a/b
verify -m -- -M
zcv -m a/b OUT
zcv -m M .axm
";

#[test]
fn bad_names_have_a_text_of_their_own(rt: HostRuntime) {
    assert_each(&rt, BAD_NAMES, "usage: axe: bad file name\n");
}

const SHOWN: &str = r"
--version -> help: ..axe 0.1.0\n
-V -> help: ..axe 0.1.0\n
-h -> help: ..  zcv     Convert the text of a matrix to a packed file\n
-h -> help: ..  zpr     Print a matrix as text\n
-h -> help: ..  zmu     Multiply two matrices\n
-h -> help: ..  zad     Add two matrices\n
-h -> help: ..  ztr     Transpose a matrix\n
-h -> help: ..  ziv     Invert a matrix\n
-h -> help: ..  znu     Find the null space of a matrix\n
-h -> help: ..  zsp     Spin vectors in a module\n
-h -> help: ..  zqt     Take the quotient of a module by a submodule\n
-h -> help: ..  chop    Find a composition series of a module\n
-h -> help: ..  verify  Check a composition series of a module\n
--help -> help: ..fields of order 2, 3, 4, 5, 7, 8 and 9
--help -> help: ..  zmu     Multiply two matrices\n
help -> help: ..  zmu     Multiply two matrices\n
help -h -> help: ..  zmu     Multiply two matrices\n
help --help -> help: ..  zmu     Multiply two matrices\n
zcv -h -> help: ..Usage: axe zcv [OPTIONS] <IN> <OUT>\n
zcv -h -> help: ..  -m, --module  Convert the texts IN.1 to IN.N, the generators of a module, to one file\n
zcv --help -> help: ..With -m it converts a module
chop --help -> help: ..With -m the module is one file, NAME.axm
zcv --help -> help: ..  1 3 2 4            matrix field=3 rows=2 cols=4\n
help zpr -> help: ..Usage: axe zpr <IN> [OUT]\n
zpr --help -> help: ..lines of 80 digits
zmu -h -> help: ..Usage: axe zmu <A> <B> <OUT>\n
zmu --help -> help: ..AXP1
zmu A --help -> help: ..Exit status:\n
help zmu -> help: ..Usage: axe zmu <A> <B> <OUT>\n
zad --help -> help: ..the sum A plus B
ztr --help -> help: ..at least one row
ziv -h -> help: ..Usage: axe ziv <A> <OUT>\n
ziv --help -> help: ..refused as singular
help znu -> help: ..Usage: axe znu <A> <OUT>\n
znu --help -> help: ..all vectors v with v A = 0
zsp -h -> help: ..Usage: axe zsp [OPTIONS] <NAME> <SEED> <OUT>\n
help zsp -> help: ..the standard basis of that row
zqt -h -> help: ..Usage: axe zqt [OPTIONS] <SUB> <NAME> <OUTNAME>\n
zqt --help -> help: ..the generators of the quotient
chop -h -> help: ..Usage: axe chop [OPTIONS] <NAME>\n
chop -h -> help: ..      --seed <S>   The seed that draws the words, 0 to 18446744073709551615 [default: 1]\n
chop -h -> help: ..      --words <W>  How many words are tried after word 0, 0 to 10000 [default: 400]\n
chop --help -> help: ..  factor 2a dim=2 mult=1 word=0\n
verify -h -> help: ..Usage: axe verify [OPTIONS] <NAME>\n
verify --help -> help: ..Whoever wrote the files, and by whatever program
help verify -> help: ..axe: NotVerified same 2a 2b
";

#[test]
fn help_and_version_are_shown(rt: HostRuntime) {
    assert_table(&rt, SHOWN);
}

/// Asserts each line of a table.
fn assert_table<R: Abort + AllocGlobal>(rt: &R, table: &str) {
    for line in table.trim().lines() {
        let (words, wanted) = parts(rt, line, " -> ");
        assert_answer(rt, words, plain(rt, wanted).as_str());
    }
}

/// Asserts that the words of each line give this answer.
fn assert_each<R: Abort + AllocGlobal>(rt: &R, lines: &str, wanted: &str) {
    for line in lines.trim().lines() {
        assert_answer(rt, line, wanted);
    }
}

/// Asserts what the words of a line give.
fn assert_answer<R: Abort + AllocGlobal>(rt: &R, line: &str, wanted: &str) {
    let words = words(rt, line);
    let answer = answer(rt.alloc(), words.as_slice()).expect(rt, "memory");
    assert_text(rt, line, answer.as_str(), wanted);
}

/// What words give.
fn answer(alloc: Global, words: &[String]) -> Result<String, AllocError> {
    match parse(alloc, words) {
        Ok(command) => told(alloc, &command),
        Err(ParseFault::Usage(text)) => format!(in alloc; "usage: {text}"),
        Err(ParseFault::Help(text)) => format!(in alloc; "help: {text}"),
        Err(ParseFault::Memory) => Err(AllocError),
    }
}

/// What a command does with which files, in words.
fn told(alloc: Global, command: &Command) -> Result<String, AllocError> {
    match command {
        Command::Zcv { input, out } => told_two(alloc, "convert", input, out),
        Command::ZcvModule {
            generators,
            name,
            out,
        } => {
            let (generators, name, out) = (generators.get(), name.as_str(), out.as_str());
            format!(in alloc; "convert {generators} generators of {name} to the module {out}")
        }
        Command::Zpr { input, out: None } => format!(in alloc; "print {}", input.as_str()),
        Command::Zpr {
            input,
            out: Some(out),
        } => told_two(alloc, "print", input, out),
        Command::Zmu { left, right, out } => told_three(alloc, "multiply", left, "by", right, out),
        Command::Zad { left, right, out } => told_three(alloc, "add", left, "and", right, out),
        Command::Ztr { input, out } => told_two(alloc, "transpose", input, out),
        Command::Ziv { input, out } => told_two(alloc, "invert", input, out),
        Command::Znu { input, out } => told_two(alloc, "null space of", input, out),
        Command::Zsp {
            generators,
            standard,
            action,
            name,
            seed,
            out,
        } => {
            let spun = told_module(alloc, "spin", seed, "by", *generators, name, out)?;
            let action = told_action(action);
            format!(in alloc; "{spun}, standard {standard}, action {action}")
        }
        Command::Zqt {
            generators,
            subspace,
            name,
            out,
        } => told_module(alloc, "quotient by", subspace, "of", *generators, name, out),
        Command::Chop {
            files,
            seed,
            words,
            name,
        } => {
            let files = told_files(alloc, files)?;
            let (words, name) = (words.get(), name.as_str());
            format!(in alloc; "chop {files} of {name}, seed {seed}, words {words}")
        }
        Command::Verify { layout, name } => told_layout(alloc, *layout, name),
    }
}

fn told_two(alloc: Global, verb: &str, input: &Name, out: &Name) -> Result<String, AllocError> {
    let (input, out) = (input.as_str(), out.as_str());
    format!(in alloc; "{verb} {input} to {out}")
}

fn told_three(
    alloc: Global,
    verb: &str,
    left: &Name,
    preposition: &str,
    right: &Name,
    out: &Name,
) -> Result<String, AllocError> {
    let (left, right, out) = (left.as_str(), right.as_str(), out.as_str());
    format!(in alloc; "{verb} {left} {preposition} {right} to {out}")
}

fn told_module(
    alloc: Global,
    verb: &str,
    rows: &Name,
    preposition: &str,
    generators: GeneratorCount,
    name: &Name,
    out: &Name,
) -> Result<String, AllocError> {
    let (rows, name, out) = (rows.as_str(), name.as_str(), out.as_str());
    let generators = generators.get();
    format!(in alloc; "{verb} {rows} {preposition} {generators} generators of {name} to {out}")
}

fn told_files(alloc: Global, files: &ModuleFiles) -> Result<String, AllocError> {
    match files {
        ModuleFiles::Separate(generators) => {
            let generators = generators.get();
            format!(in alloc; "{generators} generators")
        }
        ModuleFiles::Whole => String::from_str(alloc, "one file"),
    }
}

fn told_layout(alloc: Global, layout: ModuleLayout, name: &Name) -> Result<String, AllocError> {
    let files = match layout {
        ModuleLayout::Separate => "a file for each generator",
        ModuleLayout::Whole => "one file",
    };
    let name = name.as_str();
    format!(in alloc; "verify {files} of {name}")
}

fn told_action(action: &Option<Name>) -> &str {
    match action {
        Some(action) => action.as_str(),
        None => "none",
    }
}

//! What a command line of `axe` says: a command, and the names of its files.
#![tactic(auto)]

ghost use Rattle.std.specs.Prelude.{◌≡◌};
ghost use Rattle.axe_arguments.specs.Limits.{most_generators, most_name_bytes, most_words};

pub mod command;
pub mod count;
pub mod name;

pub use command::{Command, ModuleFiles, ModuleLayout};
pub use count::{GeneratorCount, WordCount};
pub use name::{Name, NameFault};

/// The most generators that a module has. It has at least one.
pub const MAX_GENERATORS: u8 = 16;

/// The most words that are tried after word 0. There may be none.
pub const MAX_WORDS: u32 = 10_000;

/// The most bytes that a name has. It has at least one.
pub const MAX_NAME_BYTES: usize = 100;

/// The limits of the code are those of the definitions.
pub fn limits_are_named()
    ensures generators { MAX_GENERATORS ≡ most_generators }
    ensures words { MAX_WORDS ≡ most_words }
    ensures name_bytes { MAX_NAME_BYTES ≡ most_name_bytes }
{}

//! The command lines that `axe` takes, as data.
use crate::help;
use axe_arguments::MAX_WORDS;

/// The word for a matrix as text, converted to its packed form.
pub(crate) const ZCV: &str = "zcv";

/// The word for a matrix, printed as text.
pub(crate) const ZPR: &str = "zpr";

/// The word for the product of two matrices.
pub(crate) const ZMU: &str = "zmu";

/// The word for the sum of two matrices.
pub(crate) const ZAD: &str = "zad";

/// The word for the transpose of a matrix.
pub(crate) const ZTR: &str = "ztr";

/// The word for the inverse of a matrix.
pub(crate) const ZIV: &str = "ziv";

/// The word for the null space of a matrix.
pub(crate) const ZNU: &str = "znu";

/// The word for the space that vectors generate in a module.
pub(crate) const ZSP: &str = "zsp";

/// The word for the action of a module modulo an invariant space.
pub(crate) const ZQT: &str = "zqt";

/// The word for a composition series of a module.
pub(crate) const CHOP: &str = "chop";

/// The word for the check of a composition series.
pub(crate) const VERIFY: &str = "verify";

/// The file that is converted or printed, as help calls it.
pub(crate) const IN: &str = "IN";

/// The file of the first operand, as help calls it.
pub(crate) const LEFT: &str = "A";

/// The file of the second operand, as help calls it.
pub(crate) const RIGHT: &str = "B";

/// The file that is written, as help calls it.
pub(crate) const OUT: &str = "OUT";

/// The number of generators, as help calls it.
pub(crate) const GENERATORS: &str = "N";

/// Whether a module is asked for that is kept in one file.
pub(crate) const MODULE: &str = "module";

/// Whether a standard basis is asked for.
pub(crate) const STANDARD: &str = "standard";

/// The name before the numbers of the files of an action, as help calls it.
pub(crate) const ACTION: &str = "ACT";

/// The name before the numbers of a module's files, as help calls it.
pub(crate) const NAME: &str = "NAME";

/// The file of the vectors to be spun, as help calls it.
pub(crate) const SEED: &str = "SEED";

/// The file of the rows that span a space, as help calls it.
pub(crate) const SUBSPACE: &str = "SUB";

/// The name before the numbers of the files that are written, as help calls it.
pub(crate) const OUT_NAME: &str = "OUTNAME";

/// The seed of words, as help calls it.
pub(crate) const WORD_SEED: &str = "S";

/// The number of words that are tried, as help calls it.
pub(crate) const WORDS: &str = "W";

/// A command line: the command's name, the words that it takes, and what help says of it.
pub(crate) struct CommandLine {
    /// The name that asks for the command.
    pub(crate) name: &'static str,
    /// What help says of it in a line.
    pub(crate) about: &'static str,
    /// What help says of it at length.
    pub(crate) long_about: &'static str,
    /// The words that it takes, in the order in which help shows them.
    pub(crate) words: &'static [Word],
}

/// A word that a command takes, or an option with its word.
pub(crate) struct Word {
    /// What help calls it, and what it is read back by.
    pub(crate) name: &'static str,
    /// What help says of it.
    pub(crate) help: &'static str,
    /// What stands on the command line.
    pub(crate) kind: WordKind,
}

/// What stands on the command line for a word.
pub(crate) enum WordKind {
    /// A file's name, or the name before the numbers of files, in its place. It has to be there.
    File,
    /// As [`WordKind::File`], and it may be left out.
    OptionalFile,
    /// This letter after a hyphen, and then a file's name. They may be left out.
    FileOption(char),
    /// This letter after a hyphen, which may be left out.
    Flag(char),
    /// As [`WordKind::Flag`], or the word's name after two hyphens.
    NamedFlag(char),
    /// This letter after a hyphen, and then a number of generators. They may be left out.
    Count(char),
    /// An option with a number, which may be left out.
    Number(NumberOption),
}

/// An option with a number from 0 on.
pub(crate) struct NumberOption {
    /// What stands after two hyphens and before the number.
    pub(crate) name: &'static str,
    /// The greatest number that is taken.
    pub(crate) most: u64,
    /// The number where the option is left out.
    pub(crate) default: &'static str,
}

/// All command lines of `axe`, in the order in which help shows them.
pub(crate) fn command_lines() -> [&'static CommandLine; 11] {
    [
        &ZCV_LINE,
        &ZPR_LINE,
        &ZMU_LINE,
        &ZAD_LINE,
        &ZTR_LINE,
        &ZIV_LINE,
        &ZNU_LINE,
        &ZSP_LINE,
        &ZQT_LINE,
        &CHOP_LINE,
        &VERIFY_LINE,
    ]
}

/// `zcv [-m] [-g N] IN OUT`.
static ZCV_LINE: CommandLine = CommandLine {
    name: ZCV,
    about: help::ZCV_ABOUT,
    long_about: help::ZCV_LONG_ABOUT,
    words: &[
        Word {
            name: MODULE,
            help: "Convert the texts IN.1 to IN.N, the generators of a module, to one file",
            kind: WordKind::NamedFlag('m'),
        },
        Word {
            name: GENERATORS,
            help: help::GENERATORS,
            kind: WordKind::Count('g'),
        },
        Word {
            name: IN,
            help: help::IN_TEXT,
            kind: WordKind::File,
        },
        Word {
            name: OUT,
            help: help::OUT_MATRIX,
            kind: WordKind::File,
        },
    ],
};

/// `zpr IN [OUT]`.
static ZPR_LINE: CommandLine = CommandLine {
    name: ZPR,
    about: help::ZPR_ABOUT,
    long_about: help::ZPR_LONG_ABOUT,
    words: &[
        Word {
            name: IN,
            help: "The file of the matrix",
            kind: WordKind::File,
        },
        Word {
            name: OUT,
            help: help::OUT_TEXT,
            kind: WordKind::OptionalFile,
        },
    ],
};

/// `zmu A B OUT`.
static ZMU_LINE: CommandLine = CommandLine {
    name: ZMU,
    about: help::ZMU_ABOUT,
    long_about: help::ZMU_LONG_ABOUT,
    words: &[
        Word {
            name: LEFT,
            help: "The file of the left factor",
            kind: WordKind::File,
        },
        Word {
            name: RIGHT,
            help: "The file of the right factor",
            kind: WordKind::File,
        },
        Word {
            name: OUT,
            help: help::OUT_PRODUCT,
            kind: WordKind::File,
        },
    ],
};

/// `zad A B OUT`.
static ZAD_LINE: CommandLine = CommandLine {
    name: ZAD,
    about: help::ZAD_ABOUT,
    long_about: help::ZAD_LONG_ABOUT,
    words: &[
        Word {
            name: LEFT,
            help: "The file of the first term",
            kind: WordKind::File,
        },
        Word {
            name: RIGHT,
            help: "The file of the second term",
            kind: WordKind::File,
        },
        Word {
            name: OUT,
            help: help::OUT_SUM,
            kind: WordKind::File,
        },
    ],
};

/// `ztr A OUT`.
static ZTR_LINE: CommandLine = CommandLine {
    name: ZTR,
    about: help::ZTR_ABOUT,
    long_about: help::ZTR_LONG_ABOUT,
    words: &[
        Word {
            name: LEFT,
            help: "The file of the matrix",
            kind: WordKind::File,
        },
        Word {
            name: OUT,
            help: help::OUT_TRANSPOSE,
            kind: WordKind::File,
        },
    ],
};

/// `ziv A OUT`.
static ZIV_LINE: CommandLine = CommandLine {
    name: ZIV,
    about: help::ZIV_ABOUT,
    long_about: help::ZIV_LONG_ABOUT,
    words: &[
        Word {
            name: LEFT,
            help: "The file of the matrix",
            kind: WordKind::File,
        },
        Word {
            name: OUT,
            help: help::OUT_INVERSE,
            kind: WordKind::File,
        },
    ],
};

/// `znu A OUT`.
static ZNU_LINE: CommandLine = CommandLine {
    name: ZNU,
    about: help::ZNU_ABOUT,
    long_about: help::ZNU_LONG_ABOUT,
    words: &[
        Word {
            name: LEFT,
            help: "The file of the matrix",
            kind: WordKind::File,
        },
        Word {
            name: OUT,
            help: help::OUT_BASIS,
            kind: WordKind::File,
        },
    ],
};

/// `zsp [-g N] [-b] [-a ACT] NAME SEED OUT`.
static ZSP_LINE: CommandLine = CommandLine {
    name: ZSP,
    about: help::ZSP_ABOUT,
    long_about: help::ZSP_LONG_ABOUT,
    words: &[
        Word {
            name: GENERATORS,
            help: help::GENERATORS,
            kind: WordKind::Count('g'),
        },
        Word {
            name: STANDARD,
            help: "Write the standard basis of SEED's first nonzero row",
            kind: WordKind::Flag('b'),
        },
        Word {
            name: ACTION,
            help: "Write the action on these rows to ACT.1 to ACT.N, too",
            kind: WordKind::FileOption('a'),
        },
        Word {
            name: NAME,
            help: help::NAME_GENERATORS,
            kind: WordKind::File,
        },
        Word {
            name: SEED,
            help: "The file of the vectors to be spun",
            kind: WordKind::File,
        },
        Word {
            name: OUT,
            help: help::OUT_ROWS,
            kind: WordKind::File,
        },
    ],
};

/// `zqt [-g N] SUB NAME OUTNAME`.
static ZQT_LINE: CommandLine = CommandLine {
    name: ZQT,
    about: help::ZQT_ABOUT,
    long_about: help::ZQT_LONG_ABOUT,
    words: &[
        Word {
            name: GENERATORS,
            help: help::GENERATORS,
            kind: WordKind::Count('g'),
        },
        Word {
            name: SUBSPACE,
            help: "The file of rows that span the space",
            kind: WordKind::File,
        },
        Word {
            name: NAME,
            help: help::NAME_GENERATORS,
            kind: WordKind::File,
        },
        Word {
            name: OUT_NAME,
            help: help::OUT_NAME_GENERATORS,
            kind: WordKind::File,
        },
    ],
};

/// `chop [-m] [-g N] [--seed S] [--words W] NAME`.
static CHOP_LINE: CommandLine = CommandLine {
    name: CHOP,
    about: help::CHOP_ABOUT,
    long_about: help::CHOP_LONG_ABOUT,
    words: &[
        Word {
            name: MODULE,
            help: "Read the module from the file NAME.axm, and write each constituent to one file",
            kind: WordKind::NamedFlag('m'),
        },
        Word {
            name: GENERATORS,
            help: help::GENERATORS,
            kind: WordKind::Count('g'),
        },
        Word {
            name: WORD_SEED,
            help: help::WORD_SEED,
            kind: WordKind::Number(NumberOption {
                name: "seed",
                most: u64::MAX,
                default: "1",
            }),
        },
        Word {
            name: WORDS,
            help: help::WORDS,
            kind: WordKind::Number(NumberOption {
                name: "words",
                most: MAX_WORDS as u64,
                default: "400",
            }),
        },
        Word {
            name: NAME,
            help: help::NAME_MODULE,
            kind: WordKind::File,
        },
    ],
};

/// `verify [-m] NAME`.
static VERIFY_LINE: CommandLine = CommandLine {
    name: VERIFY,
    about: help::VERIFY_ABOUT,
    long_about: help::VERIFY_LONG_ABOUT,
    words: &[
        Word {
            name: MODULE,
            help: "Read the module from the file NAME.axm, and each constituent from one file",
            kind: WordKind::NamedFlag('m'),
        },
        Word {
            name: NAME,
            help: help::NAME_MODULE,
            kind: WordKind::File,
        },
    ],
};

//! What a command line asks for.
use crate::count::{GeneratorCount, WordCount};
use crate::name::Name;

/// The files of a module.
#[derive(Debug, Clone, Copy)]
pub enum ModuleFiles {
    /// One for each generator, NAME.1 to NAME.N, packed matrices.
    Separate(GeneratorCount),
    /// One for all, NAME.axm, a packed module.
    Whole,
}

/// How the files of a module lie, where something else says how many generators it has.
#[derive(Debug, Clone, Copy)]
pub enum ModuleLayout {
    /// Each generator in a file of its own, NAME.1 to NAME.N.
    Separate,
    /// All in one file, NAME.axm.
    Whole,
}

impl ModuleLayout {
    ghost use Rattle.std.specs.Prelude.{◌≡◌};
    ghost use Rattle.axe_arguments.specs.Layouts.{files_with};

    /// The files of a module with so many generators.
    pub fn files(self, generators: GeneratorCount) -> ModuleFiles
        ensures { result ≡ files_with self generators }
    {
        match self {
            ModuleLayout::Separate => ModuleFiles::Separate(generators),
            ModuleLayout::Whole => ModuleFiles::Whole,
        }
    }
}

/// One command of `axe` with its files. Files lie in the working directory, and are packed matrices where nothing
/// else is said.
#[derive(Debug, Drop)]
pub enum Command {
    /// `zcv IN OUT`: converts the text of a matrix to its packed form.
    Zcv {
        /// The file of the text.
        input: Name,
        /// The file that the packed matrix is written to, which may be the text's own.
        out: Name,
    },
    /// `zcv -m [-g N] NAME OUT`: converts texts, the generators of a module, to its packed form. They are the files
    /// NAME.1 to NAME.N.
    ZcvModule {
        /// How many generators there are.
        generators: GeneratorCount,
        /// The name before the numbers of the texts' files.
        name: Name,
        /// The file that the packed module is written to, which may be one of the texts' own.
        out: Name,
    },
    /// `zpr IN [OUT]`: prints a matrix as text.
    Zpr {
        /// The file of the matrix.
        input: Name,
        /// The file that the text is written to, which may be the matrix's own. Without it the text is shown.
        out: Option<Name>,
    },
    /// `zmu LEFT RIGHT OUT`: multiplies two matrices.
    Zmu {
        /// The file of the left factor.
        left: Name,
        /// The file of the right factor.
        right: Name,
        /// The file that the product is written to, which may be one of the factors' own.
        out: Name,
    },
    /// `zad LEFT RIGHT OUT`: adds two matrices.
    Zad {
        /// The file of the first term.
        left: Name,
        /// The file of the second term.
        right: Name,
        /// The file that the sum is written to, which may be one of the terms' own.
        out: Name,
    },
    /// `ztr IN OUT`: transposes a matrix.
    Ztr {
        /// The file of the matrix.
        input: Name,
        /// The file that the transpose is written to, which may be the matrix's own.
        out: Name,
    },
    /// `ziv IN OUT`: inverts a matrix.
    Ziv {
        /// The file of the matrix.
        input: Name,
        /// The file that the inverse is written to, which may be the matrix's own.
        out: Name,
    },
    /// `znu IN OUT`: gives the null space of a matrix.
    Znu {
        /// The file of the matrix.
        input: Name,
        /// The file that the reduced basis of the null space is written to, which may be the matrix's own.
        out: Name,
    },
    /// `zsp [-g N] [-b] [-a ACT] NAME SEED OUT`: spins vectors in a module. The module's generators are the files
    /// NAME.1 to NAME.N.
    Zsp {
        /// How many generators there are.
        generators: GeneratorCount,
        /// Whether the standard basis of the first vector other than zero is asked for, in the place of the reduced
        /// basis of the space that all vectors generate.
        standard: bool,
        /// The name before the numbers of the files that the action on these rows is written to, where it is asked for.
        action: Option<Name>,
        /// The name before the numbers of the generators' files.
        name: Name,
        /// The file of the vectors, the rows of a matrix.
        seed: Name,
        /// The file that the rows are written to.
        out: Name,
    },
    /// `zqt [-g N] SUB NAME OUTNAME`: gives the action of a module modulo an invariant space. The module's generators
    /// are the files NAME.1 to NAME.N.
    Zqt {
        /// How many generators there are.
        generators: GeneratorCount,
        /// The file of rows that span the space.
        subspace: Name,
        /// The name before the numbers of the generators' files.
        name: Name,
        /// The name before the numbers of the files that the action is written to.
        out: Name,
    },
    /// `chop [-m] [-g N] [--seed S] [--words W] NAME`: finds a composition series of a module.
    Chop {
        /// The files of the module, and those of each constituent.
        files: ModuleFiles,
        /// The seed of the words that are tried.
        seed: u64,
        /// How many words are tried after word 0.
        words: WordCount,
        /// The name of the module, which is the beginning of the name of each file that is read or written.
        name: Name,
    },
    /// `verify [-m] NAME`: checks that what lies beside a module is a composition series of it. The report says how
    /// many generators there are.
    Verify {
        /// How the files of the module lie, and those of each constituent.
        layout: ModuleLayout,
        /// The name of the module, which is the beginning of the name of each file that is read.
        name: Name,
    },
}

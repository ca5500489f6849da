//! Matrices as files: the packed form, in which a byte holds as many elements as fit, and the text form, in which each
//! element is a digit. Whole modules as files: the packed form of all generators.
#![tactic(auto)]

mod fault;
mod laws;
mod layout;
mod module_laws;
mod module_reading;
mod module_writing;
mod reading;
mod text_header;
mod text_laws;
mod text_reading;
mod text_writing;
mod writing;

pub use fault::FileFault;
pub use laws::{
    digits_per_byte_is_greatest, faultless_bytes_are_spellings, limits_are_named,
    spellings_are_apart, spellings_are_read, spellings_keep_the_limit,
};
pub use module_laws::{
    faultless_bytes_are_modules, module_spellings_are_apart, module_spellings_are_read,
    module_spellings_keep_the_limit, no_bytes_spell_both,
};
pub use module_reading::read_module;
pub use module_writing::write_module;
pub use reading::read_packed;
pub use text_laws::{
    text_faults_are_first, texts_are_of_one_matrix, written_texts_are_texts,
    written_texts_keep_the_limit,
};
pub use text_reading::read_text;
pub use text_writing::write_text;
pub use writing::write_packed;

/// No packed file of a matrix is longer than this, in bytes.
pub const PACKED_LIMIT: usize = 16_777_216;

/// No packed file of a module is longer than this, in bytes.
pub const MODULE_LIMIT: usize = 268_435_456;

/// The most generators of a module in a file. It has at least one.
pub const MAX_GENERATORS: usize = 16;

/// No text file is longer than this, in bytes.
pub const TEXT_LIMIT: usize = 67_108_864;

//! What the commands read, and what they are about to do: matrices and modules from the files of a folder, and the
//! draft of a command, which holds everything that it will put and show before the folder is changed.
#![tactic(auto)]

mod draft;
mod modules;
mod reading;
mod report_files;

pub use draft::{Change, Draft, make_all};
pub use modules::{
    module_of, numbered, read_generators, read_module, read_stored, read_text_generators,
};
pub use reading::{read_matrix, read_matrix_file, read_text_matrix};
pub use report_files::read_report_file;

//! Files by name: what a folder is, one in memory, one with a fuse, and one of the file system.
#![tactic(auto)]

mod directory;
mod fault;
mod folder;
mod fused;
mod laws;
mod memory;
mod reading;

pub use directory::DirFolder;
pub use fault::FolderFault;
pub use folder::Folder;
pub use fused::FusedFolder;
pub use laws::files_are_a_map;
pub use memory::MemFolder;

//! A folder in memory for tests, and the folders that the program runs over.
//!
//! [`MemoryFolder`] keeps its files in memory, all of which are known, and fails at the calls that a test picks. The others
//! stand in `program_folders`, so that the program needs no folder that fails on purpose, and are handed on.
#![tactic(auto)]

mod memory;

pub use memory::MemoryFolder;
pub use outside_calls::{Folder, FolderFault};
pub use program_folders::{DiskFolder, SureFolder, copy_from, fill, write_all};
pub use shared_terms::NoMemory;

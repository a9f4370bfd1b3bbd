//! What a program asks of what is outside it: a folder of named files with a place to print lines.
//!
//! [`Folder`] is what a program is written against. It says of each call what it reads, writes or prints, what it leaves
//! alone, and which count rose where the call failed. `specs/Outputs.antt` says what a folder holds of outputs that are written piece by
//! piece.
#![tactic(auto)]

mod folder;

pub use folder::{Folder, FolderFault};

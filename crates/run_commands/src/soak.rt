//! The command `soak`: a run of two files and a script that a seed gives, in a folder of its own. A pure function of the seed and of the folder
//! that is handed in, to which nothing but a line is printed. [`soak_words`] reads the words, and [`soak`] does what they say.
//!
//! [`soak_file`] draws the file of a role and [`soak_script`] the script, with delays, noise on every symbol and some lost slots.

mod command;
mod counts;
mod drawing;
mod files;
mod folder;
mod laws;
mod script;
mod soaking;
mod words;

pub use command::soak;
pub use counts::SoakCounts;
pub use files::soak_file;
pub use script::soak_script;
pub use words::soak_words;

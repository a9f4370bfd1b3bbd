//! Whole runs of two ends over the line of samples, as definitions and theorems; nothing runs here. [`laws`] says what holds of all of
//! them, and how many turns they have. [`direction`] has the theorems of one direction up to the first symbol that a line of the script
//! displaces, or as long as what it adds is faint: what is heard in a slot is what was sent in it and nothing else, the line is not
//! lost, and no slot is a chance match.
#![tactic(auto)]

pub mod direction;
mod fault;
pub mod laws;
mod names;

pub use fault::RunFault;
pub use names::Names;

//! The exact decoder of a trellis code, as a pure function of the samples so far: [`Decoder`] releases labels as
//! soon as all survivors agree on them, and tells with which symbol too many were left unreleased ([`Lost`]).
//! No label is ever decided otherwise. It works for each [`trellis_tables::TrellisCode`] that has a [`ViterbiStep`]: an empty `impl` block
//! gives it the plain one, which serves any code, and [`trellis_tables::V32Code`] has one by vectors.
//!
//! It is the Viterbi algorithm with squared distances. The survivor of each state is a sum, and a way back through columns of
//! choices. [`survivors`] has the theorems of what it is proved against: of all sequences to a state the one of least cost, what all survivors
//! begin with, and where too little of it is known.
#![tactic(auto)]

mod back;
mod choice;
mod column;
mod columns;
mod decoder;
mod entering;
mod kept;
mod key;
mod labels;
pub mod laws;
mod lines;
mod nearest;
mod room;
mod step;
pub mod survivors;
mod tail;
mod v32;

pub use column::Column;
pub use decoder::{Decoder, Lost};
pub use step::{ViterbiStep, advance_plainly};
pub use tail::Tail;

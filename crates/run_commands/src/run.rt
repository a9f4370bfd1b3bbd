//! The commands `run` and `record`: two ends send each other a file over a line of samples that a script disturbs; `record` keeps the samples
//! that they send besides. A pure function of the words and of the
//! folder that are handed in. [`run`] does what the words say that [`run_words`] or [`record_words`] reads.

mod command;
mod laws;
mod outputs;

pub use command::run;
pub use run_inputs::laws::limits_of_inputs;
pub use run_inputs::{RunWords, record_words, run_words};

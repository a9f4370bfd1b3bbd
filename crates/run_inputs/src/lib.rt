//! What a run is made from: the names that its words give, the script that is read, and the files whose lengths are looked at. A pure
//! function of the words and of the folder that are handed in.
//!
//! [`run_words`] and [`record_words`] read the words, [`open_inputs`] takes a script and files in order, whatever words name them. [`stop_of`]
//! is why a job stops whose turns end by a fault.
#![tactic(auto)]

mod inputs;
pub mod laws;
mod lengths;
mod limits;
mod script;
mod stop;
mod words;

pub use inputs::open_inputs;
pub use limits::{LIMITS, Limits};
pub use stop::stop_of;
pub use words::{RunWords, record_words, run_words};

//! Scripts of delays, offers, losses, noise, breaks and pauses: a pure function of a text's octets.
//!
//! A [`Script`] says what the line does to slots and samples: when a slot arrives, whether it is lost, and what [`Offset`]
//! is added to each symbol. It also says what each end offers, how often it tries, and when its user asks for a break or a
//! pause. [`read_script`] reads one from a text, or names the first faulty line and its [`Cause`].
#![tactic(auto)]

mod batch;
mod draft;
mod entry;
mod fault;
mod forms;
mod generators;
pub mod laws;
mod limits;
mod lines;
mod numbers;
mod offered;
mod offset;
mod reader;
mod reading;
mod script;

pub use entry::{Break, Hit, Loss, Noise, Pause};
pub use fault::ScriptFault;
pub use generators::Generators;
pub use limits::{
    BREAK_LINES, BUSY_LINES, HIT_LINES, LOSE_LINES, NOISE_LINES, OFFSET_MOST, SCRIPT_OCTETS,
};
pub use numbers::read_plain_number;
pub use offset::Offset;
pub use reader::read_script;
pub use script::Script;
pub use shared_terms::Cause;

//! The command `margin`: how much noise there is between a recording and the octets that were sent. A pure function of the words and
//! of the folder that are handed in. [`margin_words`] reads the words, and [`margin`] does what they say.

mod command;
mod measuring;
mod opening;
mod words;

pub use command::margin;
pub use words::{MarginWords, margin_words};

//! The command `frames`: the pieces of a stream of bits are listed, a line each. A pure function of the words and of the
//! folder that are handed in. [`frames_words`] reads the words, and [`frames`] does what they say.

mod command;
mod listing;
mod words;

pub use command::frames;
pub use words::{FramesWords, frames_words};

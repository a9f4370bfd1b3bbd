//! The command `pickup`: the frames of a recording that begins anywhere in a stream. A pure function of the words and of the folder
//! that are handed in. [`pickup_words`] reads the words, and [`pickup`] does what they say.

mod command;
pub mod laws;
mod player;
mod playing;
mod words;

pub use command::pickup;
pub use words::pickup_words;

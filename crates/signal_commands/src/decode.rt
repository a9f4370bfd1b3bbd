//! The commands `decode` and `decode4`: a recording of one direction of a line becomes the octets of the least sequence. A pure function of
//! the words and of the folder that are handed in. [`decode_words`] reads the words, and [`decode`] does what they say.

mod command;
mod octet_joiner;
mod playback;
mod player;
mod rate_reader;
mod words;

pub use command::decode;
pub use words::{DecodeWords, decode_words};

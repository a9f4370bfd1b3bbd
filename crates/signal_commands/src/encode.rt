//! The commands `encode` and `encode4`: a file becomes a recording of one direction of a line, by either code. A pure function of the words and of the
//! folder that are handed in. [`encode_words`] reads the words, and [`encode`] does what they say.

mod command;
mod recorder;
mod recording;
mod words;

pub use command::encode;
pub use recorder::{RECORDED, Recorder};
pub use words::{EncodeWords, encode_words};

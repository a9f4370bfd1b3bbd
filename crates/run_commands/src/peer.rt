//! The command `peer`: one end with its user against recorded bits of any peer. A pure function of the words and of the folder that are
//! handed in. [`peer_words`] reads the words, and [`peer`] does what they say.

mod command;
pub mod laws;
mod turns;
mod words;

pub use command::peer;
pub use words::{PeerWords, peer_words};

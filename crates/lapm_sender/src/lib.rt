//! The segments that an end of the link sends: its window, what is to be sent again, and the count of retries. A pure function
//! of the segments and acknowledgements that are handed in. The central type is [`Sender`]. Segments are numbered from 0
//! without bound; frames carry their numbers modulo 128.
#![tactic(auto)]

mod faults;
pub mod laws;
mod numbers;
mod segments;
mod sender;

pub use faults::{BadAck, Spent};
pub use sender::Sender;

//! Break signals both ways: their words in UI frames (a profile of our own), the break that waits for its answer, and the breaks
//! of the other end, each given once. A pure function of words and turn numbers. The central types are [`BreakSender`] and
//! [`BreakReceiver`].
#![tactic(auto)]

mod break_receiver;
mod break_sender;
mod fault;
pub mod laws;
mod octets;
mod word;

pub use break_receiver::BreakReceiver;
pub use break_sender::{BreakSender, Spent0};
pub use fault::BreakFault;
pub use octets::{read_break, write_break};
pub use word::BreakWord;

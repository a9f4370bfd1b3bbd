//! The segments that an end of the link takes: their order, those held back for a missing one, and what is asked for again. A
//! pure function of the segments that are handed in. The central type is [`Receiver`]. Frames carry segment numbers modulo 128.
#![tactic(auto)]

pub mod laws;
mod receiver;
mod slots;
mod took;

pub use receiver::Receiver;
pub use took::Took;

//! The calls of the static library `modem_c`, for Rattle: samples to bits ([`SampleDecoder`]) and back ([`SampleEncoder`]), bits to frames
//! ([`FrameReader`]) and back ([`FrameWriter`]), how good a decoding is ([`LockMeter`]), and an end of the link ([`Endpoint`]). Nothing is
//! asked of who calls them: what the crates below ask is tested here, or kept by the type.
#![tactic(auto)]

mod any_reader;
mod bit_groups;
mod decoder;
mod deframer;
mod detector;
mod encoder;
mod framer;
mod label_bits;
pub mod laws;
mod link;
mod meter;
mod parts;
pub mod signal_laws;
mod turns;

pub use any_reader::LineKind;
pub use decoder::{DecoderStop, LAST_BITS, Pushed, SampleDecoder};
pub use deframer::{FrameReader, FrameStop};
pub use detector::PatternDetector;
pub use encoder::{Encoded, SampleEncoder};
pub use framer::{FRAME_BITS, FrameWriter, SlotStop, frame_bits};
pub use link::{BreakAsked, Endpoint, LinkStop, TurnState};
pub use meter::{LockMeter, LockReading};
pub use turns::{Carried, Told};

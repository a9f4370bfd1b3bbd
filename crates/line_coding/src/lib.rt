//! Line coding of ITU-T V.32 at 9600 bit/s with trellis coding, both ways: from bits to samples, and from samples and labels back to bits.
//! Pure functions of the bits, samples and labels so far.
//!
//! A [`Modulator`] scrambles the four bits of a quad, codes them and gives the point of the label; a [`Demodulator`] reads the
//! quad that each label carries after those before it, and descrambles its four bits. A quad is a number below 16 whose lowest bit
//! comes first. Which scrambler is used follows from the mode of the modem that sends. [`Demodulate`] is what the readers of several codes'
//! labels have in common.
//!
//! A [`SampleReader`] is the exact decoder of a trellis code with the reader of the labels that it releases, for any code whose labels carry
//! bits. A recording is read from its beginning, or from anywhere in it. [`LineReader`] reads the line of ITU-T V.32, which is lost past
//! [`DEPTH`] labels.
//!
//! A [`MiddleReader`] reads a line that is picked up in its middle. The quad of the first label can't be told there, since it is a turn from
//! the label before it, and a descrambler is right once 23 bits have filled its register: the bits behind these are those that were sent, by
//! however many quarters the labels are turned. What is least of turned samples are the turned labels ([`quarter_turns`]).
#![tactic(auto)]

mod demodulator;
pub mod laws;
mod line;
mod middle_reader;
mod modulator;
pub mod quarter_turns;
mod reader;
mod scrambling;

pub use demodulator::{Demodulate, Demodulator};
pub use line::{DEPTH, LineReader};
pub use middle_reader::{MiddleReader, Taken};
pub use modulator::Modulator;
pub use reader::SampleReader;
pub use scrambling::{ModeDescrambler, ModeScrambler};

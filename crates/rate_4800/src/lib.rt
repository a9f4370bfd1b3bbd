//! A rate of 4800 bit/s, of this project's own: two scrambled bits a symbol are a number of quarter turns, their sum is a label, and each
//! label one of four points. The code has one state, so that no label is ever undecided. [`Rate4800`] is the code, a [`Modulator`]
//! makes samples of bits, and a [`Demodulator`] reads the bits that labels carry.
#![tactic(auto)]

mod code;
mod demodulator;
pub mod laws;
mod modulator;
mod step;

pub use code::Rate4800;
pub use demodulator::Demodulator;
use line_coding::SampleReader;
pub use modulator::Modulator;

/// Reads a line of this rate, two bits a label.
pub type QuarterReader<const DEPTH: usize> = SampleReader<Rate4800, Demodulator, 1, 4, DEPTH>;

// The line of ITU-T V.32.
use crate::demodulator::Demodulator;
use crate::reader::SampleReader;
use trellis_tables::V32Code;

/// How many labels may be unreleased before the line is lost.
pub const DEPTH: usize = 128;

/// Reads a line of ITU-T V.32, four bits a label. At most as many labels as the parameter says are unreleased while it is not lost.
pub type LineReader<const DEPTH: usize> = SampleReader<V32Code, Demodulator, 8, 32, DEPTH>;

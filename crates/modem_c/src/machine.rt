// What a handle leads to.

use gateway::{
    Endpoint, FrameReader, FrameWriter, LockMeter, PatternDetector, SampleDecoder, SampleEncoder,
};

/// What C keeps by a handle.
#[derive(Drop)]
pub enum Machine {
    /// Samples to bits.
    Decoder(SampleDecoder),
    /// Bits to samples.
    Encoder(SampleEncoder),
    /// How good a decoding is.
    Meter(LockMeter),
    /// Bits to frames.
    Deframer(FrameReader),
    /// Bits to patterns.
    Detector(PatternDetector),
    /// Frames to bits.
    Framer(FrameWriter),
    /// An end of the link.
    Link(Endpoint),
    /// Nothing: a line that is finished.
    Spent,
}

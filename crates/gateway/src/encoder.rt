// Bits to samples, as they come, into room that the caller has.
ghost use Rattle.std.specs.Prelude.{◌≡◌, ◌+◌, ◌*◌, ◌<◌, ◌≤◌, ◌++◌, Bool, List, [], ◌∷◌, length};
ghost use Rattle.std.specs.Bool.{OnTrue, OnFalse};
ghost use Rattle.scramblers.specs.declared.mode.Mode.{Mode};
ghost use Rattle.symbol_map.specs.declared.sample.Sample.{Sample};
ghost use Rattle.gateway.specs.declared.any_reader.LineKind.{LineKind};
ghost use Rattle.gateway.specs.declared.any_reader.LineKind.TheVariants as lines;
ghost use Rattle.gateway.specs.Encoded.{HasEncoded, bits_each};
ghost use Rattle.gateway.specs.Given.{heard, samples_in};

use crate::bit_groups::{four_at, two_at};
use crate::parts::put_sample;
use line_coding::Modulator;
use rate_4800::Modulator as QuarterModulator;
use scramblers::Mode;
use symbol_map::Sample;

/// Bits on their way to samples, from the first bit on.
#[derive(Drop)]
pub enum SampleEncoder {
    /// At 9600 bit/s, four bits a sample.
    Begun(Modulator),
    /// At 4800 bit/s, two bits a sample.
    Quarters(QuarterModulator),
}

/// How far an encoder came.
#[derive(Clone, Copy)]
pub struct Encoded {
    /// Bits that were read.
    pub read: usize,
    /// Samples that were given.
    pub written: usize,
    /// Whether fewer bits are left than become a sample.
    pub all: bool,
}

impl SampleEncoder {
    /// What a modem of that mode sends at 9600 bit/s, before its first bit.
    pub fn begun(mode: Mode) -> SampleEncoder
        ensures { HasEncoded lines.Begun mode result [] [] }
    {
        SampleEncoder::Begun(Modulator::new(mode))
    }

    /// What a modem of that mode sends at 4800 bit/s, before its first bit.
    pub fn quarters(mode: Mode) -> SampleEncoder
        ensures { HasEncoded lines.Quarters mode result [] [] }
    {
        SampleEncoder::Quarters(QuarterModulator::new(mode))
    }

    /// How many bits become a sample.
    pub fn bits_each(&self) -> usize
        ensures { result ≡ bits_each self.now }
    {
        match self {
            SampleEncoder::Begun(_) => 4,
            SampleEncoder::Quarters(_) => 2,
        }
    }

    /// The sample of the bits from this place on.
    fn sample_of(&mut self, bits: &[u8], at: usize) -> Sample
        requires { at + bits_each self.old ≤ length bits.now }
        ensures encodes { (line : LineKind) (mode : Mode) (past : List Bool) (samples : List Sample)
            → HasEncoded line mode self.old (past ++ heard at bits.now) samples
            → HasEncoded line mode self.new (past ++ heard (at + bits_each self.old) bits.now) (samples ++ result ∷ []) }
        ensures same { bits_each self.new ≡ bits_each self.old }
    {
        match self {
            SampleEncoder::Begun(modulator) => modulator.push(four_at(bits, at)),
            SampleEncoder::Quarters(modulator) => modulator.push(two_at(bits, at)),
        }
    }

    /// Bits more, an octet each whose lowest bit counts, and the samples that they become, a real and an imaginary part each: as many as both
    /// are enough for.
    pub fn push(&mut self, bits: &[u8], parts: &mut [i16]) -> Encoded
        ensures encodes { (line : LineKind) (mode : Mode) (past : List Bool) (samples : List Sample) → HasEncoded line mode self.old past samples
            → HasEncoded line mode self.new (past ++ heard result.read bits.now) (samples ++ samples_in result.written parts.new) }
        ensures all { OnTrue result.all (length bits.now < result.read + bits_each self.old) }
        ensures full { OnFalse result.all ((result.read + bits_each self.old ≤ length bits.now) × (length parts.new < 2 * result.written + 2)) }
        ensures same { bits_each self.new ≡ bits_each self.old }
        ensures each { result.read ≡ bits_each self.old * result.written }
        ensures length { length parts.new ≡ length parts.old }
        ensures read { result.read ≤ length bits.now }
        ensures written { 2 * result.written ≤ length parts.new }
    {
        let each = self.bits_each();
        let mut read = 0;
        for written in 0..parts.len() / 2 {
            if bits.len() - read < each {
                return Encoded {
                    read,
                    written,
                    all: true,
                };
            }
            let sample = self.sample_of(bits, read);
            put_sample(sample, parts, written);
            read += each;
        }
        Encoded {
            read,
            written: parts.len() / 2,
            all: bits.len() - read < each,
        }
    }
}

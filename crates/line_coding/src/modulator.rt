// Bits become samples.
ghost use Rattle.std.specs.Prelude.{◌≡◌, ◌<◌, Bool, List, [], ◌∷◌, ◌++◌};
ghost use Rattle.frame_check.specs.Bits.{low_bits};
ghost use Rattle.scramblers.specs.declared.mode.Mode.{Mode};
ghost use Rattle.symbol_map.specs.declared.sample.Sample.{Sample};
ghost use Rattle.symbol_map.specs.Points.{point_of};
ghost use Rattle.line_coding.specs.Modulates.{ModulatorStands};

use crate::scrambling::ModeScrambler;
use scramblers::Mode;
use symbol_map::{Sample, point};
use trellis_tables::Encoder;

/// A modulator of a mode. The register of its scrambler is zero and its code in state 0 before the first bit.
#[derive(Drop)]
pub struct Modulator {
    /// The bits of the next quad.
    scrambler: ModeScrambler,
    /// The labels of the bits so far.
    encoder: Encoder,
}

impl Modulator {
    /// A modulator before its first bit.
    pub fn new(mode: Mode) -> Modulator
        ensures { ModulatorStands mode result [] [] }
    {
        Modulator {
            scrambler: ModeScrambler::new(mode),
            encoder: Encoder::new(),
        }
    }

    /// The label of the next sample, for the next four bits: a quad has the first one lowest.
    pub fn label(&mut self, quad: u8) -> u8
        requires { quad < 16 }
        ensures stands { (mode : Mode) (bits : List Bool) (samples : List Sample) → ModulatorStands mode self.old bits samples
            → ModulatorStands mode self.new (bits ++ low_bits 4 quad) (samples ++ point_of result ∷ []) }
        ensures bound { result < 32 }
    {
        let scrambled = self.scrambler.push_four(quad);
        self.encoder.push(scrambled)
    }

    /// The next sample, for the next four bits.
    pub fn push(&mut self, quad: u8) -> Sample
        requires { quad < 16 }
        ensures { (mode : Mode) (bits : List Bool) (samples : List Sample) → ModulatorStands mode self.old bits samples
            → ModulatorStands mode self.new (bits ++ low_bits 4 quad) (samples ++ result ∷ []) }
    {
        point(self.label(quad))
    }
}

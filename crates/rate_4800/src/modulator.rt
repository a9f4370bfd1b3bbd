// Bits become samples.
ghost use Rattle.std.specs.Prelude.{◌≡◌, ◌<◌, Bool, List, [], ◌∷◌, ◌++◌};
ghost use Rattle.frame_check.specs.Bits.{low_bits};
ghost use Rattle.scramblers.specs.declared.mode.Mode.{Mode};
ghost use Rattle.symbol_map.specs.declared.sample.Sample.{Sample};
ghost use Rattle.rate_4800.specs.Modulates.{ModulatorStands};

use crate::code::Rate4800;
use line_coding::ModeScrambler;
use scramblers::Mode;
use symbol_map::Sample;
use trellis_tables::TrellisCode;
use trellis_tables::differential::Turner;

/// A modulator of a mode. The register of its scrambler is zero and its sum of turns 0 before the first bit.
#[derive(Drop)]
pub struct Modulator {
    /// The bits of the next two.
    scrambler: ModeScrambler,
    /// The labels: sums of turns.
    turner: Turner,
}

impl Modulator {
    /// A modulator before its first bit.
    pub fn new(mode: Mode) -> Modulator
        ensures { ModulatorStands mode result [] [] }
    {
        Modulator {
            scrambler: ModeScrambler::new(mode),
            turner: Turner::new(),
        }
    }

    /// The next sample, for the next two bits, the first one lowest.
    pub fn push(&mut self, two: u8) -> Sample
        requires { two < 4 }
        ensures { (mode : Mode) (bits : List Bool) (samples : List Sample) → ModulatorStands mode self.old bits samples
            → ModulatorStands mode self.new (bits ++ low_bits 2 two) (samples ++ result ∷ []) }
    {
        let turns = self.scrambler.push_two(two);
        let label = self.turner.encode(turns);
        Rate4800.point(label)
    }
}

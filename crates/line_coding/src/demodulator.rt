// Labels become bits.
ghost use Rattle.std.specs.Prelude.{◌≡◌, ◌+◌, ◌<◌, ◌^◌, ℕ, Bool, List, [], ◌∷◌, ◌++◌};
ghost use Rattle.frame_check.specs.Bits.{low_bits};
ghost use Rattle.scramblers.specs.declared.mode.Mode.{Mode};
ghost use Rattle.line_coding.specs.Demodulates.{DemodulatorStands};

use crate::scrambling::ModeDescrambler;
use scramblers::Mode;
use trellis_tables::LabelReader;

/// Reads the bits that a code's labels carry, so many for each label.
pub trait Demodulate<const LABELS: usize>: Drop {
    ghost BITS: { ℕ };

    /// How many bits a label carries.
    const BITS: usize;

    // It has read these labels, sent by a modem of this mode, as these bits.
    ghost reads: { Mode → Self → List ℕ → List Bool → Type 0 };

    /// What reads a modem's labels, before the first one.
    fn new(mode: Mode) -> Self
        ensures { reads mode result [] [] };

    /// The next bits, for the next label, in a number that has the first one lowest.
    fn push(&mut self, label: u8) -> u8
        requires { label < LABELS }
        ensures stands { (mode : Mode) (labels : List ℕ) (bits : List Bool) → reads mode self.old labels bits
            → reads mode self.new (labels ++ label ∷ []) (bits ++ low_bits BITS result) }
        ensures bound { result < 2 ^ BITS };

    /// The next bits, for the next two labels, in a number that has the first one lowest.
    fn push_two(&mut self, first: u8, second: u8) -> u8
        requires first { first < LABELS }
        requires second { second < LABELS }
        ensures stands { (mode : Mode) (labels : List ℕ) (bits : List Bool) → reads mode self.old labels bits
            → reads mode self.new (labels ++ first ∷ second ∷ []) (bits ++ low_bits (BITS + BITS) result) }
        ensures bound { result < 2 ^ (BITS + BITS) };
}

/// A demodulator of what a modem of a mode sent. The register of its descrambler is zero and y is 0 before the first label.
#[derive(Drop)]
pub struct Demodulator {
    /// The quads of the labels.
    reader: LabelReader,
    /// The bits of the labels so far.
    descrambler: ModeDescrambler,
}

impl Demodulate<32> for Demodulator {
    const BITS: usize = 4;

    ghost BITS = { 4 };

    ghost reads = { DemodulatorStands };

    fn new(mode: Mode) -> Demodulator {
        Demodulator {
            reader: LabelReader::new(),
            descrambler: ModeDescrambler::new(mode),
        }
    }

    fn push(&mut self, label: u8) -> u8 {
        let quad = self.reader.push(label);
        self.descrambler.push_four(quad)
    }

    fn push_two(&mut self, first: u8, second: u8) -> u8 {
        let low = self.reader.push(first);
        let high = self.reader.push(second);
        self.descrambler.push_octet(low + 16 * high)
    }
}

// Labels become bits.
ghost use Rattle.std.specs.Prelude.{◌≡◌, ◌<◌, ◌^◌, ℕ, Bool, List, [], ◌∷◌, ◌++◌};
ghost use Rattle.frame_check.specs.Bits.{low_bits};
ghost use Rattle.scramblers.specs.declared.mode.Mode.{Mode};
ghost use Rattle.rate_4800.specs.Demodulates.{DemodulatorStands};

use line_coding::{Demodulate, ModeDescrambler};
use scramblers::Mode;
use trellis_tables::differential::Unturner;

/// A demodulator of what a modem of a mode sent. The register of its descrambler is zero and the label 0 before the first.
#[derive(Drop)]
pub struct Demodulator {
    /// The turns between labels.
    unturner: Unturner,
    /// The bits of the labels so far.
    descrambler: ModeDescrambler,
}

impl Demodulate<4> for Demodulator {
    const BITS: usize = 2;

    ghost BITS = { 2 };

    ghost reads = { DemodulatorStands };

    fn new(mode: Mode) -> Demodulator {
        Demodulator {
            unturner: Unturner::new(),
            descrambler: ModeDescrambler::new(mode),
        }
    }

    fn push(&mut self, label: u8) -> u8 {
        let turns = self.unturner.decode(label);
        self.descrambler.push_two(turns)
    }

    fn push_two(&mut self, first: u8, second: u8) -> u8 {
        let low = self.unturner.decode(first);
        let high = self.unturner.decode(second);
        self.descrambler.push_four(low + 4 * high)
    }
}

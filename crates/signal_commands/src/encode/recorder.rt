// Octets become the octets of their samples.
ghost use Rattle.std.specs.Prelude.{◌≡◌, ◌≤◌, ◌+◌, ◌++◌, ◌∷◌, [], ℕ, List, length};
ghost use Rattle.scramblers.specs.declared.mode.Mode.{Mode};
ghost use Rattle.line_coding.specs.Modulates.{ModulatorStands};
ghost use Rattle.rate_4800.specs.Modulates.{ModulatorStands as QuarterModulatorStands};
ghost use Rattle.recordings.specs.declared.rate.Rate.{Rate};
ghost use Rattle.signal_commands.specs.Encoding.Recorder.{Records, RecorderStands};

use frame_check::Octets;
use line_coding::Modulator;
use rate_4800::Modulator as QuarterModulator;
use recordings::{Rate, octets_of_two};
use scramblers::Mode;

/// How many octets of a recording one octet that is sent becomes at most.
pub const RECORDED: usize = 16;

/// What is sent in one direction, as the octets of its samples.
#[derive(Drop)]
pub enum Recorder {
    /// With the trellis code.
    Trellis(Modulator),
    /// With four points.
    Quarters(QuarterModulator),
}

/// Puts the octets of the two samples of an octet, whose low four bits come first.
fn put_two<const CAP: usize>(modulator: &mut Modulator, octet: u8, out: &mut Octets<CAP>)
    requires { length out.old + 8 ≤ CAP }
    ensures stands { (mode : Mode) (octets recorded : List ℕ) → Records (ModulatorStands mode modulator.old) 2 octets (recorded ++ out.old)
        → Records (ModulatorStands mode modulator.new) 2 (octets ++ octet ∷ []) (recorded ++ out.new) }
    ensures room { length out.new ≡ length out.old + 8 }
{
    let first = modulator.push(octet % 16);
    let second = modulator.push(octet / 16);
    out.extend(&octets_of_two(first, second));
}

/// Puts the octets of the four samples of an octet, whose low two bits come first.
fn put_four<const CAP: usize>(modulator: &mut QuarterModulator, octet: u8, out: &mut Octets<CAP>)
    requires { length out.old + 16 ≤ CAP }
    ensures stands { (mode : Mode) (octets recorded : List ℕ)
        → Records (QuarterModulatorStands mode modulator.old) 4 octets (recorded ++ out.old)
        → Records (QuarterModulatorStands mode modulator.new) 4 (octets ++ octet ∷ []) (recorded ++ out.new) }
    ensures room { length out.new ≡ length out.old + 16 }
{
    let first = modulator.push(octet % 4);
    let second = modulator.push(octet / 4 % 4);
    let third = modulator.push(octet / 16 % 4);
    let fourth = modulator.push(octet / 64);
    out.extend(&octets_of_two(first, second));
    out.extend(&octets_of_two(third, fourth));
}

impl Recorder {
    /// A recorder before the first octet.
    pub fn new(rate: Rate, mode: Mode) -> Recorder
        ensures { RecorderStands rate mode result [] [] }
    {
        match rate {
            Rate::Trellis => Recorder::Trellis(Modulator::new(mode)),
            Rate::Quarters => Recorder::Quarters(QuarterModulator::new(mode)),
        }
    }

    /// Puts the octets of the samples of the next octet, whose low bits come first, behind others.
    pub fn put<const CAP: usize>(&mut self, octet: u8, out: &mut Octets<CAP>)
        requires { length out.old + RECORDED ≤ CAP }
        ensures stands { (rate : Rate) (mode : Mode) (octets recorded : List ℕ)
            → RecorderStands rate mode self.old octets (recorded ++ out.old)
            → RecorderStands rate mode self.new (octets ++ octet ∷ []) (recorded ++ out.new) }
        ensures room { length out.new ≤ length out.old + RECORDED }
    {
        match self {
            Recorder::Trellis(modulator) => put_two(modulator, octet, out),
            Recorder::Quarters(modulator) => put_four(modulator, octet, out),
        }
    }

    /// The octets of the samples of the next octet, whose low bits come first.
    pub fn push(&mut self, octet: u8) -> Octets<RECORDED>
        ensures { (rate : Rate) (mode : Mode) (octets recorded : List ℕ) → RecorderStands rate mode self.old octets recorded
            → RecorderStands rate mode self.new (octets ++ octet ∷ []) (recorded ++ result) }
    {
        let mut octets = Octets::new();
        self.put(octet, &mut octets);
        octets
    }
}

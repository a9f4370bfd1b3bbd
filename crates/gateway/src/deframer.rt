// Bits to frames.
ghost use Rattle.std.specs.Prelude.{◌≡◌, ◌≤◌, ◌++◌, Bool, List, [], Some, IfOk, IfErr, length};

use bit_stuffing::{Deframer, Piece};
use frame_check::Check;
use lapm_frames::{CheckedFault, LentFrame, read_checked_lent};
use shared_terms::Role;

/// Where a push stops.
#[derive(Clone, Copy, PartialEq, Eq)]
pub enum FrameStop {
    /// All bits are read, and no piece ends with any of them.
    Nothing,
    /// A piece ends with the last bit that was read.
    Piece(Piece),
    /// No line has so many bits: none is read.
    Late,
}

/// Hears the bits that one end sends.
#[derive(Drop)]
pub struct FrameReader {
    deframer: Deframer,
    sender: Role,
    check: Check,
    /// How many bits it has heard.
    heard: u64,
}

impl FrameReader {
    ghost use Rattle.shared_terms.specs.declared.role.Role.{Role};
    ghost use Rattle.frame_check.specs.declared.check.Check.{Check};
    ghost use Rattle.bit_stuffing.specs.Found.{lent_of};
    ghost use Rattle.lapm_frames.specs.Checked.{SpellsFrame, IsCheckedFault};
    ghost use Rattle.gateway.specs.Given.{heard};
    ghost use Rattle.gateway.specs.Frames.{HasHeard, StopsAt};

    /// A reader before the first bit of what that end sends, where I frames and S frames have this check.
    pub fn new(sender: Role, check: Check) -> FrameReader
        ensures { HasHeard sender check result [] }
    {
        FrameReader {
            deframer: Deframer::new(),
            sender,
            check,
            heard: 0,
        }
    }

    /// I frames and S frames have this check from now on, also one that has begun.
    pub fn set_check(&mut self, check: Check)
        ensures checks { (sender : Role) (before : Check) (past : List Bool) → HasHeard sender before self.old past → HasHeard sender check self.new past }
        ensures is { self.new ≡ record self.old { check = check } }
    {
        self.check = check;
    }

    /// Goes on by bits, an octet each of which the lowest bit counts, up to the one with which a piece ends: how many were read, and where
    /// it stops.
    pub fn push(&mut self, bits: &[u8]) -> (usize, FrameStop)
        ensures reads { (sender : Role) (check : Check) (past : List Bool) → HasHeard sender check self.old past
            → HasHeard sender check self.new (past ++ heard result.0 bits.now) }
        ensures stops { (sender : Role) (check : Check) (past : List Bool) → HasHeard sender check self.old past
            → StopsAt past bits.now result.0 result.1 }
        ensures stays { result.1 ≡ FrameStop.Late → self.new ≡ self.old }
        ensures within { result.0 ≤ length bits.now }
    {
        let Some(heard) = self.heard.checked_add(bits.len() as u64) else {
            return (0, FrameStop::Late);
        };
        for place in 0..bits.len() {
            if let Some(piece) = self.deframer.push(bits[place] % 2 == 1) {
                self.heard += place as u64 + 1;
                return (place + 1, FrameStop::Piece(piece));
            }
        }
        self.heard = heard;
        (bits.len(), FrameStop::Nothing)
    }

    /// How many bits it has heard.
    pub fn heard(&self) -> u64
        ensures { (sender : Role) (check : Check) (past : List Bool) → HasHeard sender check self.now past → result ≡ length past }
    {
        self.heard
    }

    /// The octets, with their check, of the piece that ended with the last bit, where that was whole; else none.
    pub fn octets(&self) -> &[u8]
        ensures { (sender : Role) (check : Check) (past : List Bool) → HasHeard sender check self.now past → result.now ≡ lent_of past }
    {
        self.deframer.whole()
    }

    /// The frame that these octets are.
    pub fn frame(&self) -> Result<LentFrame<'_>, CheckedFault>
        ensures frame { (sender : Role) (check : Check) (past : List Bool) → HasHeard sender check self.now past
            → IfOk result (SpellsFrame check sender 0 (lent_of past)) }
        ensures fault { (sender : Role) (check : Check) (past : List Bool) → HasHeard sender check self.now past
            → IfErr result (IsCheckedFault check sender 0 (lent_of past)) }
    {
        // The channel is below 64: it is the constant 0.
        read_checked_lent(self.deframer.whole(), self.check, self.sender, 0)
    }
}

// What finds pieces and patterns in one stream of bits.
ghost use Rattle.std.specs.Prelude.{◌≡◌, [], ◌++◌, List, Bool, true, false};
ghost use Rattle.frame_check.specs.Bits.{octet_bits};
ghost use Rattle.bit_stuffing.specs.Found.{pieces_of};
ghost use Rattle.detection.specs.Ear.{HasHeard};
ghost use Rattle.detection.specs.Sights.{sights_of};

use crate::PatternReader;
use bit_stuffing::Deframer;

/// What hears a stream of bits: its pieces, and its patterns. Each takes the same bits.
#[derive(Drop)]
pub struct Ear {
    /// Finds pieces, across slots too.
    pub deframer: Deframer,
    /// Finds patterns.
    pub reader: PatternReader,
}

impl Ear {
    /// An ear before the first bit.
    pub fn new() -> Ear
        ensures { HasHeard result [] }
    {
        Ear {
            deframer: Deframer::new(),
            reader: PatternReader::new(),
        }
    }
    /// Goes on by the bits of an octet, the low one first, where it is plain that neither a piece nor a pattern ends with any of them:
    /// whether it did.
    pub fn pass(&mut self, octet: u8) -> bool
        ensures stands { result ≡ true → (past : List Bool) → HasHeard self.old past → HasHeard self.new (past ++ octet_bits octet) }
        ensures pieces { result ≡ true → (past : List Bool) → HasHeard self.old past → pieces_of (past ++ octet_bits octet) ≡ pieces_of past }
        ensures sights { result ≡ true → (past : List Bool) → HasHeard self.old past → sights_of (past ++ octet_bits octet) ≡ sights_of past }
        ensures stays { result ≡ false → self.new ≡ self.old }
    {
        let Some(reader) = self.reader.behind(octet) else {
            return false;
        };
        if !self.deframer.pass(octet) {
            return false;
        }
        self.reader = reader;
        true
    }
}

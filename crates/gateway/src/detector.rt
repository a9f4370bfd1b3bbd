// Bits to the patterns of the detection phase.
ghost use Rattle.std.specs.Prelude.{◌≤◌, ◌++◌, Bool, List, [], length};
ghost use Rattle.detection.specs.Reader.{ReaderStands};
ghost use Rattle.gateway.specs.Given.{heard};
ghost use Rattle.gateway.specs.Sightings.{SeesAt};

use detection::PatternReader;
use lapm_frames::Seen;

/// Looks for the patterns that the other end sends before the link is up.
#[derive(Drop)]
pub struct PatternDetector {
    reader: PatternReader,
}

impl PatternDetector {
    /// A detector before the first bit.
    pub fn new() -> PatternDetector
        ensures { ReaderStands result.reader [] }
    {
        PatternDetector {
            reader: PatternReader::new(),
        }
    }

    /// Goes on by bits, an octet each of which the lowest bit counts, up to the one with which a pattern is seen: how many were read, and the
    /// pattern. It is seen once two whole ones came in a row.
    pub fn push(&mut self, bits: &[u8]) -> (usize, Option<Seen>)
        ensures stands { (past : List Bool) → ReaderStands self.old.reader past → ReaderStands self.new.reader (past ++ heard result.0 bits.now) }
        ensures sees { (past : List Bool) → ReaderStands self.old.reader past → SeesAt past bits.now result.0 result.1 }
        ensures within { result.0 ≤ length bits.now }
    {
        for place in 0..bits.len() {
            if let Some(seen) = self.reader.push(bits[place] % 2 == 1) {
                return (place + 1, Some(seen));
            }
        }
        (bits.len(), None)
    }
}

// Samples of a piece of a recording, as many at once as a decoder takes.
ghost use Rattle.std.specs.Prelude.{◌≡◌, ◌≤◌, ◌+◌, ◌*◌, ◌++◌, length, take};
ghost use Rattle.recordings.specs.Samples.{samples_in};

use command_base::PIECE;
use line_coding::DEPTH;
use recordings::{SAMPLE, sample_at};
use symbol_map::Sample;

/// The most samples that are handed to a decoder at once. It has room for one more.
pub(crate) const BATCH: usize = DEPTH;

/// Puts the samples of a piece from a place on into the list, as far as both go: how many.
pub(crate) fn copy_samples(piece: &[u8], at: usize, samples: &mut [Sample; BATCH]) -> usize
    requires few { length piece.now ≤ PIECE }
    requires within { 4 * at ≤ length piece.now }
    ensures samples { samples_in (take (4 * at) piece.now) ++ take result samples.new ≡ samples_in (take (4 * (at + result)) piece.now) }
    ensures within { 4 * (at + result) ≤ length piece.now }
    ensures few { result ≤ BATCH }
    ensures some { 4 * at + 4 ≤ length piece.now → 1 ≤ result }
{
    let count = (piece.len() / SAMPLE - at).min(BATCH);
    for place in 0..count {
        samples[place] = sample_at(piece, at + place);
    }
    count
}

// Samples as two parts each, real and imaginary by turns.
ghost use Rattle.std.specs.Prelude.{◌≡◌, ◌+◌, ◌*◌, ◌<◌, ◌≤◌, ◌++◌, [], ◌∷◌, length, take, slice_index_or, pos};
ghost use Rattle.gateway.specs.Given.{samples_in};

use line_coding::DEPTH;
use symbol_map::Sample;

/// The sample at this place.
pub(crate) fn sample_at(parts: &[i16], place: usize) -> Sample
    requires { 2 * place + 1 < length parts.now }
    ensures re { result.re ≡ slice_index_or parts.now (2 * place) (pos 0) }
    ensures im { result.im ≡ slice_index_or parts.now (2 * place + 1) (pos 0) }
{
    Sample {
        re: parts[2 * place],
        im: parts[2 * place + 1],
    }
}

/// The most samples that are handed to a decoder at once. It has room for one more.
pub(crate) const BATCH: usize = DEPTH;

/// Puts the samples from a place on into the list, up to this other place or as many as there is room for: how many.
pub(crate) fn copy_samples(
    parts: &[i16],
    at: usize,
    end: usize,
    samples: &mut [Sample; BATCH],
) -> usize
    requires low { at ≤ end }
    requires high { 2 * end ≤ length parts.now }
    ensures samples { samples_in at parts.now ++ take result samples.new ≡ samples_in (at + result) parts.now }
    ensures within { at + result ≤ end }
    ensures few { result ≤ BATCH }
    ensures some { at < end → 1 ≤ result }
{
    let count = (end - at).min(BATCH);
    for place in 0..count {
        samples[place] = sample_at(parts, at + place);
    }
    count
}

/// Puts the sample at this place.
pub(crate) fn put_sample(sample: Sample, parts: &mut [i16], place: usize)
    requires { 2 * place + 1 < length parts.old }
    ensures samples { samples_in (place + 1) parts.new ≡ samples_in place parts.old ++ sample ∷ [] }
    ensures length { length parts.new ≡ length parts.old }
{
    parts[2 * place] = sample.re;
    parts[2 * place + 1] = sample.im;
}

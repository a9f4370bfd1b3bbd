// Offsets of many symbols at once, a sum for each: each line adds its offsets to the symbols that it covers.
ghost use Rattle.std.specs.Prelude.{◌≡◌, ◌+◌, ◌-◌, ◌*◌, ◌^◌, ◌<◌, ◌≤◌, ℕ, length, map, min};
ghost use Rattle.noise_script.specs.Offsets.{nothing, sum_of, IsWithin, hit_offset, noise_offset, IsQuiet, AreQuiet};
ghost use Rattle.noise_script.specs.Batches.{at_place, Grow, AreWithin};

use crate::generators::{Generator, Generators};
use crate::limits::{HIT_LINES, NOISE_LINES, OFFSET_MOST};
use crate::offset::{NOTHING, drawn_offset, offset_of_hit, plus};
use crate::{Hit, Noise, Offset};
use shared_terms::Role;

/// The place, among `len` symbols from `start` on, of the first one that a line from `from` on covers.
fn begin_of(from: u64, start: u64, len: usize) -> usize
    ensures { result ≡ min (from - start) len }
{
    from.saturating_sub(start).min(len as u64) as usize
}

/// The place behind the last one that a line of `count` symbols from `from` on covers.
fn end_of(from: u64, count: u32, start: u64, len: usize) -> usize
    ensures { result ≡ min (from + count - start) len }
{
    if from <= start {
        return u64::from(count)
            .saturating_sub(start - from)
            .min(len as u64) as usize;
    }
    (from - start)
        .saturating_add(u64::from(count))
        .min(len as u64) as usize
}

/// Makes each sum nothing.
pub(crate) fn clear(sums: &mut [Offset])
    ensures long { length sums.new ≡ length sums.old }
    ensures each { (place : ℕ) → place < length sums.old → at_place sums.new place ≡ nothing }
{
    for place in 0..sums.len() {
        sums[place] = NOTHING;
    }
}

/// Adds what a hit line adds to the symbols from `start` on.
fn add_hit(hit: &Hit, sender: Role, start: u64, sums: &mut [Offset])
    requires { AreWithin (2 ^ 30 - 1) sums.old }
    ensures grow { Grow (λ place. hit_offset sender (start + place) hit.now) sums.old sums.new }
    ensures small { (symbol : ℕ) → IsWithin 32768 (hit_offset sender symbol hit.now) }
{
    if hit.role != sender {
        return;
    }
    let begin = begin_of(hit.from, start, sums.len());
    let end = end_of(hit.from, hit.count, start, sums.len());
    let offset = offset_of_hit(hit);
    for place in begin..end {
        sums[place] = plus(sums[place], offset);
    }
}

/// Adds what a noise line adds to the symbols from `start` on.
fn add_noise(
    noise: &Noise,
    generator: &mut Generator,
    sender: Role,
    start: u64,
    sums: &mut [Offset],
)
    requires quiet { IsQuiet noise.now }
    requires far { AreWithin (2 ^ 30 - 1) sums.old }
    ensures grow { Grow (λ place. noise_offset sender (start + place) noise.now) sums.old sums.new }
    ensures small { (symbol : ℕ) → IsWithin 32767 (noise_offset sender symbol noise.now) }
{
    if noise.role != sender {
        return;
    }
    let begin = begin_of(noise.from, start, sums.len());
    let end = end_of(noise.from, noise.count, start, sums.len());
    if end <= begin {
        return;
    }
    // a copy, so that it stays in registers
    let mut own = *generator;
    own.bring_to(noise.seed, sender, start.saturating_sub(noise.from) as u32);
    for place in begin..end {
        let word = own.next_word();
        sums[place] = plus(sums[place], drawn_offset(noise.amplitude, word));
    }
    *generator = own;
}

/// Adds what hit lines add to the symbols from `start` on.
pub(crate) fn add_hits(hits: &[Hit], sender: Role, start: u64, sums: &mut [Offset])
    requires few { length hits.now ≤ HIT_LINES }
    requires clear { AreWithin 0 sums.old }
    ensures grow { Grow (λ place. sum_of (map (hit_offset sender (start + place)) hits.now)) sums.old sums.new }
    ensures small { AreWithin (32768 * HIT_LINES) sums.new }
{
    for hit in hits {
        add_hit(hit, sender, start, sums);
    }
}

/// Adds what noise lines add to them, where hit lines alone have added.
pub(crate) fn add_noises(
    noises: &[Noise],
    generators: &mut Generators,
    sender: Role,
    start: u64,
    sums: &mut [Offset],
)
    requires few { length noises.now ≤ NOISE_LINES }
    requires quiet { AreQuiet noises.now }
    requires hits { AreWithin (32768 * HIT_LINES) sums.old }
    ensures grow { Grow (λ place. sum_of (map (noise_offset sender (start + place)) noises.now)) sums.old sums.new }
    ensures small { AreWithin OFFSET_MOST sums.new }
{
    for line in 0..noises.len() {
        let generator = &mut generators.of_lines[line];
        add_noise(&noises[line], generator, sender, start, sums);
    }
}

// Labels become samples, and the script displaces them on their way.
ghost use Rattle.std.specs.Prelude.{◌≡◌, ◌+◌, ◌<◌, ◌≤◌, ◌^◌, ◌%◌, ℕ, List, [], ◌++◌, length, map, take, slice_index};
ghost use Rattle.frame_check.specs.declared.sizes.TheConstants.{SLOT};
ghost use Rattle.symbol_map.specs.declared.sample.Sample.{Sample};
ghost use Rattle.symbol_map.specs.Points.{point_of};
ghost use Rattle.noise_script.specs.Script.{ScriptValue};
ghost use Rattle.noise_script.specs.Offsets.{IsWithin};
ghost use Rattle.noise_script.specs.declared.limits.TheConstants.{OFFSET_MOST};
ghost use Rattle.sample_line.specs.Recorded.{saturated, displaced};
ghost use Rattle.sample_line.specs.Transmits.{Transmits};

use crate::LabelSlot;
use line_coding::DEPTH;
use noise_script::{Generators, Offset, Script};
use shared_terms::Role;
use symbol_map::{Sample, point};

/// A coordinate, held at the ends of 16 bits.
fn saturated(coordinate: i32) -> i16
    ensures { result ≡ saturated coordinate }
{
    if coordinate < -32768 {
        i16::MIN
    } else if 32767 < coordinate {
        i16::MAX
    } else {
        coordinate as i16
    }
}

/// A point with an offset added.
fn displaced(offset: Offset, point: Sample) -> Sample
    requires { IsWithin OFFSET_MOST offset }
    ensures { result ≡ displaced offset point }
{
    Sample {
        re: saturated(offset.re + i32::from(point.re)),
        im: saturated(offset.im + i32::from(point.im)),
    }
}

/// The most samples that are made, and then heard, at once: fewer than the decoder has room for.
pub(crate) const BATCH: usize = DEPTH;

/// What makes samples of an end's labels. Symbols are counted from 0 over all slots.
#[derive(Drop)]
pub(crate) struct Transmitter {
    /// The end that sends.
    pub sender: Role,
    /// The generators of the noise on what is sent.
    generators: Generators,
    /// The number of the next symbol.
    pub symbol: u64,
}

impl Transmitter {
    /// A transmitter before its first label.
    pub fn new(sender: Role) -> Transmitter
        ensures sender { result.sender ≡ sender }
        ensures symbol { result.symbol ≡ 0 }
        ensures stands { (script : ScriptValue) → Transmits result script [] [] }
    {
        Transmitter {
            sender,
            generators: Generators::new(),
            symbol: 0,
        }
    }

    /// The next samples as they arrive, so many, for these labels. Their offsets are asked at once.
    fn send_each(
        &mut self,
        script: &Script,
        labels: &[u8; BATCH],
        count: usize,
        samples: &mut [Sample; BATCH],
    )
        requires few { count ≤ BATCH }
        requires small { (k : ℕ) → k < count → slice_index labels.now k < 32 }
        requires symbol { self.old.symbol < 2 ^ 55 }
        ensures stands { (points past : List Sample) → Transmits self.old script.now points past
            → Transmits self.new script.now (points ++ map point_of (take count labels.now)) (past ++ take count samples.new) }
        ensures sender { self.new.sender ≡ self.old.sender }
        ensures symbol { self.new.symbol ≡ self.old.symbol + count }
    {
        let mut room = [Offset { re: 0, im: 0 }; BATCH];
        let sums = &mut room[..count];
        script.offsets(&mut self.generators, self.sender, self.symbol, sums);
        for place in 0..count {
            samples[place] = displaced(sums[place], point(labels[place]));
        }
        self.symbol += count as u64;
    }

    /// The same where no line of the script reaches one of them: they are the labels' points.
    fn send_still(&mut self, labels: &[u8; BATCH], count: usize, samples: &mut [Sample; BATCH])
        requires few { count ≤ BATCH }
        requires small { (k : ℕ) → k < count → slice_index labels.now k < 32 }
        requires symbol { self.old.symbol < 2 ^ 55 }
        ensures points { take count samples.new ≡ map point_of (take count labels.now) }
        ensures sender { self.new.sender ≡ self.old.sender }
        ensures symbol { self.new.symbol ≡ self.old.symbol + count }
    {
        for place in 0..count {
            samples[place] = point(labels[place]);
        }
        self.symbol += count as u64;
    }

    /// The next samples as they arrive, so many, for the labels of a slot from a multiple of eight on.
    pub fn send_some(
        &mut self,
        script: &Script,
        slot: &LabelSlot,
        at: usize,
        count: usize,
        samples: &mut [Sample; BATCH],
    )
        requires multiple { at % 8 ≡ 0 }
        requires within { at + count ≤ length slot.now }
        requires early { at ≤ SLOT }
        requires few { count ≤ BATCH }
        requires symbol { self.old.symbol < 2 ^ 55 }
        ensures stands { (before past : List Sample) → Transmits self.old script.now (before ++ map point_of (take at slot.now)) past
            → Transmits self.new script.now (before ++ map point_of (take (at + count) slot.now)) (past ++ take count samples.new) }
        ensures sender { self.new.sender ≡ self.old.sender }
        ensures symbol { self.new.symbol ≡ self.old.symbol + count }
    {
        let mut labels = [0; BATCH];
        slot.unpack(at, count, &mut labels);
        if script.is_still(self.sender, self.symbol, count as u32) {
            self.send_still(&labels, count, samples);
        } else {
            self.send_each(script, &labels, count, samples);
        }
    }
}

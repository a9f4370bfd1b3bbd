// How far samples are from what was decoded of them, as they come.
ghost use Rattle.std.specs.Prelude.{◌≡◌, ◌+◌, ◌*◌, ◌/◌, ◌<◌, ◌≤◌, ◌^◌, ◌++◌, Bool, List, [], length, min, nat_lt, MatchOption};
ghost use Rattle.scramblers.specs.declared.mode.Mode.{Mode};
ghost use Rattle.symbol_map.specs.declared.sample.Sample.{Sample};
ghost use Rattle.noise_bound.specs.Near.{sure};
ghost use Rattle.gateway.specs.Given.{heard, samples_in};

use crate::bit_groups::octet_at;
use crate::parts::sample_at;
use noise_bound::Margin;
use scramblers::Mode;

/// No more octets are measured.
const MOST: u32 = 1 << 24;

/// A meter of a decoding at 9600 bit/s, from its first symbol on.
#[derive(Drop)]
pub struct LockMeter {
    margin: Margin,
    octets: u32,
    ghost counted: { margin.count ≡ octets },
    ghost few: { octets ≤ 2 ^ 24 },
}

/// What a meter reads.
#[derive(Clone, Copy)]
pub struct LockReading {
    /// The sum of the squared distances between what was sent and what was heard, in squares of 1/2048 of a unit of the map.
    pub cost: u64,
    /// How many samples the costs are of.
    pub symbols: u64,
    /// Whether the cost is below 2.5 squares of a unit: a decoder of this mode then gives these bits, at most 126 samples behind. Others may be as
    /// near at the end, and those that were sent needn't be these.
    pub sure: bool,
}

impl LockMeter {
    ghost use Rattle.gateway.specs.Measured.{HasMeasured, BitsCost};

    /// A meter before the first bit of the modem of that mode.
    pub fn new(mode: Mode) -> LockMeter
        ensures { HasMeasured mode result [] [] }
    {
        LockMeter {
            margin: Margin::new(mode),
            octets: 0,
        }
    }

    /// Bits more, an octet each whose lowest bit counts, and the samples that they were decoded of, a real and an imaginary part each: how
    /// many octets were measured, of eight bits and two samples, as many as both are enough for. Where they are too many none is measured.
    pub fn push(self, bits: &[u8], parts: &[i16]) -> (LockMeter, Option<usize>)
        ensures measures { (mode : Mode) (past : List Bool) (samples : List Sample) → HasMeasured mode self past samples
            → MatchOption result.1 (result.0 ≡ self)
            (λ octets. HasMeasured mode result.0 (past ++ heard (8 * octets) bits.now) (samples ++ samples_in (2 * octets) parts.now)) }
        ensures octets { let both = min (length bits.now / 8) (length parts.now / 4) in
            MatchOption result.1 (2 ^ 24 < self.octets + both) (λ octets. (octets ≡ both) × (self.octets + both ≤ 2 ^ 24)) }
        ensures stays { MatchOption result.1 (result.0 ≡ self) (λ octets. result.0.octets ≡ self.octets + octets) }
    {
        let LockMeter { mut margin, octets } = self;
        let count = (bits.len() / 8).min(parts.len() / 4);
        if count > (MOST - octets) as usize {
            return (LockMeter { margin, octets }, None);
        }
        for place in 0..count {
            let first = sample_at(parts, 2 * place);
            let second = sample_at(parts, 2 * place + 1);
            margin.push(octet_at(bits, 8 * place), first, second);
        }
        (
            LockMeter {
                margin,
                octets: octets + count as u32,
            },
            Some(count),
        )
    }

    /// What the meter reads now.
    pub fn reading(&self) -> LockReading
        ensures cost { (mode : Mode) (bits : List Bool) (samples : List Sample) → HasMeasured mode self.now bits samples
            → BitsCost mode bits samples result.cost × (result.symbols ≡ length samples) }
        ensures sure { result.sure ≡ nat_lt result.cost sure }
    {
        LockReading {
            cost: self.margin.cost(),
            symbols: 2 * u64::from(self.octets),
            sure: self.margin.sure(),
        }
    }
}

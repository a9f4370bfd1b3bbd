// The readers of the two rates as one.
ghost use Rattle.std.specs.Prelude.{◌≡◌, ◌+◌, ◌<◌, ◌≤◌, ◌^◌, ◌++◌, ◌∷◌, [], ℕ, Bool, List, Some, None, length, drop, IfOk, MatchOption, MatchResult};
ghost use Rattle.std.specs.Option.{option_map};
ghost use Rattle.scramblers.specs.declared.mode.Mode.{Mode};
ghost use Rattle.symbol_map.specs.declared.sample.Sample.{Sample};
ghost use Rattle.recordings.specs.declared.rate.Rate.{Rate};
ghost use Rattle.exact_decoder.specs.Batches.{heard_of};
ghost use Rattle.signal_commands.specs.Decoding.Octets.{AreFew, taken_bits};
ghost use Rattle.signal_commands.specs.Decoding.Playing.{decoding_of, ReadsAt, IsReady};

use crate::decode::octet_joiner::Bits;
use exact_decoder::Lost;
use line_coding::{DEPTH, LineReader};
use rate_4800::{QuarterReader, Rate4800};
use recordings::Rate;
use scramblers::Mode;
use shared_terms::NoMemory;
use std::alloc::Global;
use symbol_map::Sample;
use trellis_tables::V32Code;

/// Reads the bits that a line's samples carry, at its rate.
#[derive(Drop)]
pub(crate) enum RateReader {
    /// With the trellis code.
    Trellis(LineReader<DEPTH>),
    /// With four points.
    Quarters(QuarterReader<DEPTH>),
}

/// A number of so many bits, if there is one.
fn bits_of(number: Option<u8>, count: u8) -> Option<Bits>
    ensures { result ≡ option_map (λ n. record { count = count; number = n }) number }
{
    match number {
        Some(number) => Some(Bits { count, number }),
        None => None,
    }
}

impl RateReader {
    /// A reader before a recording's first sample. All memory is taken here.
    pub fn new(alloc: Global, rate: Rate, mode: Mode) -> Result<RateReader, NoMemory>
        ensures reads { IfOk result (λ r. ReadsAt rate mode r [] []) }
        ensures ready { IfOk result (λ r. IsReady r 0) }
    {
        match rate {
            Rate::Trellis => Ok(RateReader::Trellis(LineReader::new(alloc, V32Code, 0, mode)?)),
            Rate::Quarters => Ok(RateReader::Quarters(QuarterReader::new(
                alloc, Rate4800, 0, mode,
            )?)),
        }
    }

    /// As many of the samples as there is room for, at least one where there is one: how many. `Lost` comes with the first sample after
    /// which more than `DEPTH` labels are unreleased, and again with each later call.
    pub fn push_some(&mut self, samples: &[Sample]) -> Result<usize, Lost>
        requires taken { (decoding_of self.old).pending ≡ [] }
        requires count { (decoding_of self.old).count + length samples.now ≤ 2 ^ 56 }
        ensures reads { (rate : Rate) (mode : Mode) (past : List Sample) (bits : List Bool) → ReadsAt rate mode self.old past bits
            → ReadsAt rate mode self.new (past ++ heard_of result samples.now) bits }
        ensures answer { MatchResult result (λ _. (decoding_of self.new).lost ≡ None)
            (λ lost. (decoding_of self.new).lost ≡ Some lost.symbol) }
        ensures within { IfOk result (λ heard. heard ≤ length samples.now) }
        ensures some { IfOk result (λ heard. 1 ≤ length samples.now → 1 ≤ heard) }
        ensures count { MatchResult result (λ heard. (decoding_of self.new).count ≤ (decoding_of self.old).count + heard)
            (λ _. (decoding_of self.new).count ≤ (decoding_of self.old).count + length samples.now) }
    {
        match self {
            RateReader::Trellis(reader) => reader.push_some(samples),
            RateReader::Quarters(reader) => reader.push_some(samples),
        }
    }

    /// The bits of the oldest label that is released and not yet taken.
    pub fn take(&mut self) -> Option<Bits>
        ensures reads { (rate : Rate) (mode : Mode) (samples : List Sample) (bits : List Bool) → ReadsAt rate mode self.old samples bits
            → ReadsAt rate mode self.new samples (bits ++ taken_bits result) }
        ensures first { MatchOption result ((decoding_of self.old).pending ≡ [])
            (λ bits. AreFew 4 bits × (length (decoding_of self.old).pending ≡ length (decoding_of self.new).pending + 1)) }
        ensures pending { (decoding_of self.new).pending ≡ drop 1 (decoding_of self.old).pending }
        ensures count { (decoding_of self.new).count ≡ (decoding_of self.old).count }
        ensures lost { (decoding_of self.new).lost ≡ (decoding_of self.old).lost }
    {
        match self {
            RateReader::Trellis(reader) => bits_of(reader.take(), 4),
            RateReader::Quarters(reader) => bits_of(reader.take(), 2),
        }
    }

    /// The bits of the two oldest labels that are released and not yet taken, where there are two.
    pub fn take_two(&mut self) -> Option<Bits>
        ensures reads { (rate : Rate) (mode : Mode) (samples : List Sample) (bits : List Bool) → ReadsAt rate mode self.old samples bits
            → ReadsAt rate mode self.new samples (bits ++ taken_bits result) }
        ensures first { MatchOption result (length (decoding_of self.old).pending < 2)
            (λ bits. AreFew 8 bits × (length (decoding_of self.old).pending ≡ length (decoding_of self.new).pending + 2)) }
        ensures stays { result ≡ None → self.new ≡ self.old }
        ensures count { (decoding_of self.new).count ≡ (decoding_of self.old).count }
        ensures lost { (decoding_of self.new).lost ≡ (decoding_of self.old).lost }
    {
        match self {
            RateReader::Trellis(reader) => bits_of(reader.take_two(), 8),
            RateReader::Quarters(reader) => bits_of(reader.take_two(), 4),
        }
    }

    /// How many labels are released and not taken.
    pub fn pending(&self) -> usize
        ensures value { result ≡ length (decoding_of self.now).pending }
        ensures few { result ≤ DEPTH + 1 }
    {
        match self {
            RateReader::Trellis(reader) => reader.pending(),
            RateReader::Quarters(reader) => reader.pending(),
        }
    }
}

// Samples from the middle of a line become bits.
ghost use Rattle.std.specs.Prelude.{◌≡◌, ℕ, ◌+◌, ◌<◌, ◌≤◌, ◌^◌, Bool, List, [], ◌∷◌, ◌++◌, Some, None, length, drop, IfOk, IfSome, MatchOption, MatchResult};
ghost use Rattle.scramblers.specs.declared.mode.Mode.{Mode};
ghost use Rattle.symbol_map.specs.declared.sample.Sample.{Sample};
ghost use Rattle.line_coding.specs.Reading.{bits_in};
ghost use Rattle.line_coding.specs.MiddleReading.{MiddleRead, bits_taken};
ghost use Rattle.exact_decoder.specs.Batches.{heard_of};

use crate::line::LineReader;
use exact_decoder::Lost;
use scramblers::Mode;
use shared_terms::NoMemory;
use std::alloc::Global;
use std::marker::Model;
use symbol_map::Sample;
use trellis_tables::V32Code;

/// What a label gives.
#[derive(Clone, Copy)]
pub enum Taken {
    /// No bit: it is the first one, or fills the register of the descrambler.
    Nothing,
    /// The last bit of a quad of which the others fill the register.
    LastBit(bool),
    /// Four bits, the first one lowest.
    Four(u8),
}

/// How many labels give nothing.
const SILENT: u8 = 6;

/// Reads the bits of a line that is picked up in its middle, by however many quarters its points are turned. At most `DEPTH` labels are
/// unreleased while the line is not lost.
#[derive(Drop)]
pub struct MiddleReader<const DEPTH: usize> {
    /// From any state.
    reader: LineReader<DEPTH>,
    /// How many labels were taken, counted up to `SILENT`.
    taken: u8,
}

impl<const DEPTH: usize> Model for MiddleReader<DEPTH> {
    ghost use Rattle.line_coding.specs.MiddleReading.{Middle};

    ghost Value = { Middle };

    ghost view = { λ m. record { reading = m.reader; taken = m.taken } };
}

impl<const DEPTH: usize> MiddleReader<DEPTH> {
    /// A reader before its first sample. All memory is taken here.
    pub fn new(alloc: Global, mode: Mode) -> Result<MiddleReader<DEPTH>, NoMemory>
        requires low { 1 ≤ DEPTH }
        requires high { DEPTH ≤ 128 }
        ensures stands { IfOk result (λ m. MiddleRead mode DEPTH m [] []) }
        ensures count { IfOk result (λ m. m.reading.decoder.count ≡ 0) }
        ensures pending { IfOk result (λ m. m.reading.decoder.pending ≡ []) }
        ensures lost { IfOk result (λ m. m.reading.decoder.lost ≡ None) }
    {
        Ok(MiddleReader {
            reader: LineReader::new_any(alloc, V32Code, mode)?,
            taken: 0,
        })
    }

    /// As many of the samples as there is room for, at least one where there is one: how many. `Lost` comes with the first sample after
    /// which more than `DEPTH` labels are unreleased, of which no call hears one more, and again with each later call.
    pub fn push_some(&mut self, samples: &[Sample]) -> Result<usize, Lost>
        requires taken { self.old.reading.decoder.pending ≡ [] }
        requires count { self.old.reading.decoder.count + length samples.now ≤ 2 ^ 56 }
        ensures stands { (mode : Mode) (past : List Sample) (bits : List Bool) → MiddleRead mode DEPTH self.old past bits
            → MiddleRead mode DEPTH self.new (past ++ heard_of result samples.now) bits }
        ensures answer { MatchResult result (λ _. self.new.reading.decoder.lost ≡ None) (λ lost. self.new.reading.decoder.lost ≡ Some lost.symbol) }
        ensures within { IfOk result (λ heard. heard ≤ length samples.now) }
        ensures some { IfOk result (λ heard. 1 ≤ length samples.now → 1 ≤ heard) }
        ensures count { MatchResult result (λ heard. self.new.reading.decoder.count ≤ self.old.reading.decoder.count + heard)
            (λ _. self.new.reading.decoder.count ≤ self.old.reading.decoder.count + length samples.now) }
    {
        self.reader.push_some(samples)
    }

    /// One sample more. `Lost` comes with the first sample after which more than `DEPTH` labels are unreleased, and again with each later
    /// one.
    pub fn push(&mut self, sample: Sample) -> Result<(), Lost>
        requires taken { self.old.reading.decoder.pending ≡ [] }
        requires count { self.old.reading.decoder.count < 2 ^ 56 }
        ensures stands { (mode : Mode) (samples : List Sample) (bits : List Bool) → MiddleRead mode DEPTH self.old samples bits
            → MiddleRead mode DEPTH self.new (samples ++ sample ∷ []) bits }
        ensures answer { MatchResult result (λ _. self.new.reading.decoder.lost ≡ None) (λ lost. self.new.reading.decoder.lost ≡ Some lost.symbol) }
        ensures count { self.new.reading.decoder.count ≤ self.old.reading.decoder.count + 1 }
    {
        self.reader.push(sample)
    }

    /// What the oldest label gives that is released and not yet taken.
    pub fn take(&mut self) -> Option<Taken>
        ensures stands { (mode : Mode) (samples : List Sample) (bits : List Bool) → MiddleRead mode DEPTH self.old samples bits
            → MiddleRead mode DEPTH self.new samples (bits ++ bits_taken result) }
        ensures first { MatchOption result (self.old.reading.decoder.pending ≡ [])
            (λ _. length self.old.reading.decoder.pending ≡ length self.new.reading.decoder.pending + 1) }
        ensures pending { self.new.reading.decoder.pending ≡ drop 1 self.old.reading.decoder.pending }
        ensures count { self.new.reading.decoder.count ≡ self.old.reading.decoder.count }
        ensures lost { self.new.reading.decoder.lost ≡ self.old.reading.decoder.lost }
    {
        match self.reader.take() {
            None => None,
            Some(four) => {
                if self.taken < SILENT {
                    self.taken += 1;
                    return Some(Taken::Nothing);
                }
                if self.taken == SILENT {
                    self.taken = SILENT + 1;
                    return Some(Taken::LastBit(four / 8 == 1));
                }
                Some(Taken::Four(four))
            }
        }
    }

    /// The bits of the two oldest labels that are released and not yet taken, where there are two, and the register is full.
    pub fn take_octet(&mut self) -> Option<u8>
        ensures stands { (mode : Mode) (samples : List Sample) (bits : List Bool) → MiddleRead mode DEPTH self.old samples bits
            → MiddleRead mode DEPTH self.new samples (bits ++ bits_in 8 result) }
        ensures two { IfSome result (λ _. length self.old.reading.decoder.pending ≡ length self.new.reading.decoder.pending + 2) }
        ensures stays { result ≡ None → self.new ≡ self.old }
        ensures count { self.new.reading.decoder.count ≡ self.old.reading.decoder.count }
        ensures lost { self.new.reading.decoder.lost ≡ self.old.reading.decoder.lost }
    {
        if self.taken <= SILENT {
            return None;
        }
        self.reader.take_two()
    }

    /// How many labels are released and not taken.
    pub fn pending(&self) -> usize
        ensures value { result ≡ length self.now.reading.decoder.pending }
        ensures few { result ≤ DEPTH + 1 }
    {
        self.reader.pending()
    }

    /// Where the line was lost.
    pub fn lost(&self) -> Option<Lost>
        ensures { MatchOption result (self.now.reading.decoder.lost ≡ None) (λ lost. self.now.reading.decoder.lost ≡ Some lost.symbol) }
    {
        self.reader.lost()
    }
}

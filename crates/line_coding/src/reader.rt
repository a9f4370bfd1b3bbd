// The decoder with the reader of its labels. What is released has to be taken before the next sample is pushed: one sample may release more
// than a hundred labels, which the decoder keeps in a list of fixed room.
ghost use Rattle.std.specs.Prelude.{◌≡◌, ℕ, ◌+◌, ◌<◌, ◌≤◌, ◌^◌, Bool, List, All, [], ◌∷◌, ◌++◌, Some, None, length, drop, nat_eq, nat_lt, IfOk, MatchOption, MatchResult};
ghost use Rattle.scramblers.specs.declared.mode.Mode.{Mode};
ghost use Rattle.symbol_map.specs.declared.sample.Sample.{Sample};
ghost use Rattle.line_coding.specs.Reading.{SamplesRead, IsFinished, bits_in};
ghost use Rattle.exact_decoder.specs.Batches.{heard_of};

use crate::demodulator::Demodulate;
use exact_decoder::{Decoder, Lost, Tail, ViterbiStep};
use scramblers::Mode;
use shared_terms::NoMemory;
use std::alloc::Global;
use std::marker::Model;
use symbol_map::Sample;

/// Reads the bits that a line's samples carry, those of each label that the decoder releases. At most `DEPTH` labels are unreleased while
/// the line is not lost.
pub struct SampleReader<
    C: ViterbiStep<STATES, LABELS> + Drop,
    D: Demodulate<LABELS>,
    const STATES: usize,
    const LABELS: usize,
    const DEPTH: usize,
> {
    decoder: Decoder<C, STATES, LABELS, DEPTH>,
    demodulator: D,
}

impl<
    C: ViterbiStep<STATES, LABELS> + Drop,
    D: Demodulate<LABELS>,
    const STATES: usize,
    const LABELS: usize,
    const DEPTH: usize,
> Drop for SampleReader<C, D, STATES, LABELS, DEPTH> {
    // for the prover: so it is dropped by a call, and its fields are not dropped anew wherever one is.
    fn drop(self) {
        let SampleReader {
            decoder: _,
            demodulator: _,
        } = self;
    }
}

impl<
    C: ViterbiStep<STATES, LABELS> + Drop,
    D: Demodulate<LABELS>,
    const STATES: usize,
    const LABELS: usize,
    const DEPTH: usize,
> Model for SampleReader<C, D, STATES, LABELS, DEPTH> {
    ghost use Rattle.line_coding.specs.Reading.{Reading};

    ghost Value = { Reading D };

    ghost view = { λ r. record { decoder = r.decoder; demodulator = r.demodulator } };
}

impl<
    C: ViterbiStep<STATES, LABELS> + Drop,
    D: Demodulate<LABELS>,
    const STATES: usize,
    const LABELS: usize,
    const DEPTH: usize,
> SampleReader<C, D, STATES, LABELS, DEPTH> {
    /// A reader before a line's first sample, at which the code is in this state. All memory is taken here.
    pub fn new(
        alloc: Global,
        code: C,
        start: u8,
        mode: Mode,
    ) -> Result<SampleReader<C, D, STATES, LABELS, DEPTH>, NoMemory>
        requires start { start < STATES }
        requires low { 1 ≤ DEPTH }
        requires high { DEPTH ≤ 128 }
        ensures stands { IfOk result (λ r. SamplesRead C.table C.points (D.reads mode) (λ state. nat_eq state start) DEPTH r [] []) }
        ensures count { IfOk result (λ r. r.decoder.count ≡ 0) }
        ensures pending { IfOk result (λ r. r.decoder.pending ≡ []) }
        ensures lost { IfOk result (λ r. r.decoder.lost ≡ None) }
    {
        Ok(SampleReader {
            decoder: Decoder::new(alloc, code, start)?,
            demodulator: D::new(mode),
        })
    }

    /// A reader before a sample in the middle of a line: its code is in any state. All memory is taken here.
    pub fn new_any(
        alloc: Global,
        code: C,
        mode: Mode,
    ) -> Result<SampleReader<C, D, STATES, LABELS, DEPTH>, NoMemory>
        requires low { 1 ≤ DEPTH }
        requires high { DEPTH ≤ 128 }
        ensures stands { IfOk result (λ r. SamplesRead C.table C.points (D.reads mode) (λ state. nat_lt state STATES) DEPTH r [] []) }
        ensures count { IfOk result (λ r. r.decoder.count ≡ 0) }
        ensures pending { IfOk result (λ r. r.decoder.pending ≡ []) }
        ensures lost { IfOk result (λ r. r.decoder.lost ≡ None) }
    {
        Ok(SampleReader {
            decoder: Decoder::new_any(alloc, code)?,
            demodulator: D::new(mode),
        })
    }

    /// As many of the samples as there is room for, at least one where there is one: how many. `Lost` comes with the first sample after
    /// which more than `DEPTH` labels are unreleased, of which no call hears one more, and again with each later call.
    pub fn push_some(&mut self, samples: &[Sample]) -> Result<usize, Lost>
        requires taken { self.old.decoder.pending ≡ [] }
        requires count { self.old.decoder.count + length samples.now ≤ 2 ^ 56 }
        ensures stands { (mode : Mode) (starts : ℕ → Bool) (past : List Sample) (bits : List Bool) → SamplesRead C.table C.points (D.reads mode) starts DEPTH self.old past bits
            → SamplesRead C.table C.points (D.reads mode) starts DEPTH self.new (past ++ heard_of result samples.now) bits }
        ensures answer { MatchResult result (λ _. self.new.decoder.lost ≡ None) (λ lost. self.new.decoder.lost ≡ Some lost.symbol) }
        ensures within { IfOk result (λ heard. heard ≤ length samples.now) }
        ensures some { IfOk result (λ heard. 1 ≤ length samples.now → 1 ≤ heard) }
        ensures count { MatchResult result (λ heard. self.new.decoder.count ≤ self.old.decoder.count + heard)
            (λ _. self.new.decoder.count ≤ self.old.decoder.count + length samples.now) }
    {
        self.decoder.push_some(samples)
    }

    /// One sample more. `Lost` comes with the first sample after which more than `DEPTH` labels are unreleased, and again with each later
    /// one.
    pub fn push(&mut self, sample: Sample) -> Result<(), Lost>
        requires taken { self.old.decoder.pending ≡ [] }
        requires count { self.old.decoder.count < 2 ^ 56 }
        ensures stands { (mode : Mode) (starts : ℕ → Bool) (samples : List Sample) (bits : List Bool) → SamplesRead C.table C.points (D.reads mode) starts DEPTH self.old samples bits
            → SamplesRead C.table C.points (D.reads mode) starts DEPTH self.new (samples ++ sample ∷ []) bits }
        ensures answer { MatchResult result (λ _. self.new.decoder.lost ≡ None) (λ lost. self.new.decoder.lost ≡ Some lost.symbol) }
        ensures count { self.new.decoder.count ≤ self.old.decoder.count + 1 }
    {
        self.decoder.push(sample)
    }

    /// The bits of the oldest label that is released and not yet taken, in a number that has the first one lowest.
    pub fn take(&mut self) -> Option<u8>
        ensures stands { (mode : Mode) (starts : ℕ → Bool) (samples : List Sample) (bits : List Bool) → SamplesRead C.table C.points (D.reads mode) starts DEPTH self.old samples bits
            → SamplesRead C.table C.points (D.reads mode) starts DEPTH self.new samples (bits ++ bits_in D.BITS result) }
        ensures first { MatchOption result (self.old.decoder.pending ≡ []) (λ number. (number < 2 ^ D.BITS) × (length self.old.decoder.pending ≡ length self.new.decoder.pending + 1)) }
        ensures pending { self.new.decoder.pending ≡ drop 1 self.old.decoder.pending }
        ensures count { self.new.decoder.count ≡ self.old.decoder.count }
        ensures lost { self.new.decoder.lost ≡ self.old.decoder.lost }
    {
        match self.decoder.take() {
            Some(label) => Some(self.demodulator.push(label)),
            None => None,
        }
    }

    /// The bits of the two oldest labels that are released and not yet taken, where there are two, in a number that has the first one lowest.
    pub fn take_two(&mut self) -> Option<u8>
        ensures stands { (mode : Mode) (starts : ℕ → Bool) (samples : List Sample) (bits : List Bool) → SamplesRead C.table C.points (D.reads mode) starts DEPTH self.old samples bits
            → SamplesRead C.table C.points (D.reads mode) starts DEPTH self.new samples (bits ++ bits_in (D.BITS + D.BITS) result) }
        ensures first { MatchOption result (length self.old.decoder.pending < 2)
            (λ number. (number < 2 ^ (D.BITS + D.BITS)) × (length self.old.decoder.pending ≡ length self.new.decoder.pending + 2)) }
        ensures stays { result ≡ None → self.new ≡ self.old }
        ensures count { self.new.decoder.count ≡ self.old.decoder.count }
        ensures lost { self.new.decoder.lost ≡ self.old.decoder.lost }
    {
        match self.decoder.take_two() {
            Some((first, second)) => Some(self.demodulator.push_two(first, second)),
            None => None,
        }
    }

    /// The decoder.
    pub fn decoder(&self) -> &Decoder<C, STATES, LABELS, DEPTH>
        ensures { result.now ≡ self.now.decoder }
    {
        &self.decoder
    }

    /// How many labels are released and not taken.
    pub fn pending(&self) -> usize
        ensures value { result ≡ length self.now.decoder.pending }
        ensures few { result ≤ DEPTH + 1 }
    {
        self.decoder.pending()
    }

    /// Where the line was lost.
    pub fn lost(&self) -> Option<Lost>
        ensures { MatchOption result (self.now.decoder.lost ≡ None) (λ lost. self.now.decoder.lost ≡ Some lost.symbol) }
    {
        self.decoder.lost()
    }

    /// The labels behind the released ones in the least whole sequence, and what reads on from there: of survivors of one cost that of the
    /// smallest end state.
    pub fn finish(self) -> (Tail, D)
        requires taken { self.decoder.pending ≡ [] }
        requires lost { self.decoder.lost ≡ None }
        ensures least { (mode : Mode) (starts : ℕ → Bool) (samples : List Sample) (bits : List Bool) → SamplesRead C.table C.points (D.reads mode) starts DEPTH self samples bits
            → IsFinished C.table C.points (D.reads mode) starts samples bits result.0 result.1 }
        ensures bound { All (λ label. label < LABELS) result.0 }
    {
        let SampleReader {
            decoder,
            demodulator,
        } = self;
        (decoder.finish(), demodulator)
    }
}

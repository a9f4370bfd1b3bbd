// A recording's samples, played into the decoder.
ghost use Rattle.std.specs.Prelude.{◌≡◌, ◌<◌, ◌≤◌, ◌+◌, ◌*◌, ◌^◌, ◌++◌, ◌∷◌, [], ℕ, Bool, List, length, IfOk, None, Some, MatchResult, All, option_to_list};
ghost use Rattle.scramblers.specs.declared.mode.Mode.{Mode};
ghost use Rattle.scramblers.specs.Mode.{tap_of};
ghost use Rattle.recordings.specs.declared.rate.Rate.{Rate};
ghost use Rattle.symbol_map.specs.declared.sample.Sample.{Sample};
ghost use Rattle.exact_decoder.specs.Batches.{heard_of};
ghost use Rattle.signal_commands.specs.Decoding.Octets.{AreFew, bits_in, OctetsJoined};
ghost use Rattle.signal_commands.specs.Decoding.Playing.{decoding_of, Hears, IsReady, Finishes, LabelsJoined, ReadToEnd};

use crate::decode::octet_joiner::{Bits, OctetJoiner};
use crate::decode::rate_reader::RateReader;
use exact_decoder::Lost;
use frame_check::Octets;
use line_coding::{DEPTH, Demodulate, Demodulator};
use rate_4800::Demodulator as QuarterDemodulator;
use recordings::Rate;
use scramblers::Mode;
use shared_terms::NoMemory;
use std::alloc::Global;
use symbol_map::Sample;

/// The most octets that the labels of one step give: 129 labels, and the bits that waited for them.
pub(crate) const GIVEN: usize = 65;

/// The most octets that are given between two writes.
pub(crate) const ROOM: usize = 66_560;

/// A recording on its way to octets: what reads its samples, and what puts octets together.
pub(crate) struct Playback {
    /// Samples become bits.
    reader: RateReader,
    /// Bits become octets.
    joiner: OctetJoiner,
}

impl Drop for Playback {
    // for the prover: so it is dropped by a call, and its fields are not dropped anew wherever one is.
    fn drop(self) {
        let Playback {
            reader: _,
            joiner: _,
        } = self;
    }
}

/// Puts the octet that is whole with these bits behind the others, if one is.
fn join(joiner: &mut OctetJoiner, bits: Bits, octets: &mut Octets<ROOM>)
    requires few { AreFew 8 bits }
    requires room { 8 * length octets.old + joiner.old.count + bits.count < 8 * ROOM + 8 }
    ensures joined { (before : List Bool) (given : List ℕ) → OctetsJoined joiner.old before (given ++ octets.old)
        → OctetsJoined joiner.new (before ++ bits_in bits) (given ++ octets.new) }
    ensures count { 8 * length octets.new + joiner.new.count ≡ 8 * length octets.old + joiner.old.count + bits.count }
{
    if let Some(octet) = joiner.push(bits) {
        octets.push(octet);
    }
}

impl Playback {
    /// A recording before its first sample. All memory is taken here.
    pub fn new(alloc: Global, rate: Rate, mode: Mode) -> Result<Playback, NoMemory>
        ensures hears { IfOk result (λ p. Hears rate mode p [] []) }
        ensures ready { IfOk result (λ p. IsReady p.reader 0) }
    {
        Ok(Playback {
            reader: RateReader::new(alloc, rate, mode)?,
            joiner: OctetJoiner::new(),
        })
    }

    /// Reads the labels that are released, and puts the octets that are whole behind the others.
    fn take_octets(&mut self, octets: &mut Octets<ROOM>)
        requires { length octets.old + GIVEN ≤ ROOM }
        ensures hears { (rate : Rate) (mode : Mode) (samples : List Sample) (before : List ℕ)
            → Hears rate mode self.old samples (before ++ octets.old) → Hears rate mode self.new samples (before ++ octets.new) }
        ensures taken { (decoding_of self.new.reader).pending ≡ [] }
        ensures lost { (decoding_of self.new.reader).lost ≡ (decoding_of self.old.reader).lost }
        ensures count { (decoding_of self.new.reader).count ≡ (decoding_of self.old.reader).count }
        ensures room { length octets.new ≤ length octets.old + GIVEN }
    {
        let _few_labels = self.reader.pending();
        let _few_bits = self.joiner.waiting();
        while let Some(two) = self.reader.take_two() {
            join(&mut self.joiner, two, octets);
        }
        if let Some(one) = self.reader.take() {
            join(&mut self.joiner, one, octets);
        }
    }

    /// As many of the samples as there is room for, at least one where there is one: how many. The octets that they give are put behind
    /// the others.
    pub fn push_some(
        &mut self,
        samples: &[Sample],
        octets: &mut Octets<ROOM>,
    ) -> Result<usize, Lost>
        requires room { length octets.old + GIVEN ≤ ROOM }
        requires taken { (decoding_of self.old.reader).pending ≡ [] }
        requires count { (decoding_of self.old.reader).count + length samples.now ≤ 2 ^ 56 }
        ensures hears { (rate : Rate) (mode : Mode) (past : List Sample) (before : List ℕ)
            → Hears rate mode self.old past (before ++ octets.old)
            → Hears rate mode self.new (past ++ heard_of result samples.now) (before ++ octets.new) }
        ensures taken { (decoding_of self.new.reader).pending ≡ [] }
        ensures answer { MatchResult result (λ _. (decoding_of self.new.reader).lost ≡ None)
            (λ lost. (decoding_of self.new.reader).lost ≡ Some lost.symbol) }
        ensures within { IfOk result (λ heard. heard ≤ length samples.now) }
        ensures some { IfOk result (λ heard. 1 ≤ length samples.now → 1 ≤ heard) }
        ensures count { MatchResult result (λ heard. (decoding_of self.new.reader).count ≤ (decoding_of self.old.reader).count + heard)
            (λ _. (decoding_of self.new.reader).count ≤ (decoding_of self.old.reader).count + length samples.now) }
        ensures room { length octets.new ≤ length octets.old + GIVEN }
    {
        let pushed = self.reader.push_some(samples);
        self.take_octets(octets);
        pushed
    }

    /// The octets of the labels that follow the released ones in the least whole sequence.
    pub fn finish(self) -> Octets<GIVEN>
        requires taken { (decoding_of self.reader).pending ≡ [] }
        requires lost { (decoding_of self.reader).lost ≡ None }
        ensures { (rate : Rate) (mode : Mode) (samples : List Sample) (before : List ℕ) → Hears rate mode self samples before
            → Finishes rate (tap_of mode) samples (before ++ result) }
    {
        let Playback { reader, joiner } = self;
        match reader {
            RateReader::Trellis(reader) => {
                let (tail, demodulator) = reader.finish();
                read_tail::<Demodulator, 32>(demodulator, joiner, tail.as_slice())
            }
            RateReader::Quarters(reader) => {
                let (tail, demodulator) = reader.finish();
                read_tail::<QuarterDemodulator, 4>(demodulator, joiner, tail.as_slice())
            }
        }
    }
}

/// The octets that are whole with the labels.
fn read_tail<D: Demodulate<LABELS>, const LABELS: usize>(
    mut demodulator: D,
    mut joiner: OctetJoiner,
    labels: &[u8],
) -> Octets<GIVEN>
    requires few { length labels.now ≤ DEPTH }
    requires small { All (λ label. label < LABELS) labels.now }
    requires bits { D.BITS ≤ 4 }
    ensures { (mode : Mode) (before octets : List ℕ) → LabelsJoined (D.reads mode) demodulator joiner before octets
        → ReadToEnd (D.reads mode) (before ++ labels.now) (octets ++ result) }
{
    let mut octets = Octets::new();
    for label in labels {
        let number = demodulator.push(*label);
        let octet = joiner.push(Bits {
            count: D::BITS as u8,
            number,
        });
        put(&mut octets, octet);
    }
    octets
}

/// Puts an octet behind the others, if there is one.
fn put(octets: &mut Octets<GIVEN>, octet: Option<u8>)
    requires { length octets.old < GIVEN }
    ensures octets { octets.new ≡ octets.old ++ option_to_list octet }
    ensures room { length octets.new ≡ length octets.old + length (option_to_list octet) }
{
    if let Some(octet) = octet {
        octets.push(octet);
    }
}

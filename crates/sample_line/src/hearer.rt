// The end that hears: samples to labels, and what is found in their bits.
ghost use Rattle.std.specs.Prelude.{◌≡◌, ◌+◌, ◌<◌, ◌≤◌, ◌^◌, Bool, List, [], ◌++◌, drop, length, IfOk, None, OnOk};
ghost use Rattle.scramblers.specs.declared.mode.Mode.{Mode};
ghost use Rattle.symbol_map.specs.declared.sample.Sample.{Sample};
ghost use Rattle.sample_line.specs.Hears.{Hears, HearsBetween, HearsSamples};

use crate::receiver::{Slot, push_four, push_octet};
use crate::tally::Tally;
use detection::Ear;
use exact_decoder::{Decoder, Lost};
use line_coding::{DEPTH, LineReader};
use scramblers::Mode;
use shared_terms::NoMemory;
use std::alloc::Global;
use symbol_map::Sample;
use trellis_tables::V32Code;

/// The decoder of a line.
pub type LineDecoder = Decoder<V32Code, 8, 32, DEPTH>;

/// What reads the samples, and what finds pieces and patterns in their bits.
#[derive(Drop)]
pub(crate) struct Hearer {
    /// From samples to bits.
    pub reader: LineReader<DEPTH>,
    /// From bits to pieces and patterns.
    ear: Ear,
}

impl Hearer {
    /// A hearer before its first sample.
    pub fn new(alloc: Global, mode: Mode) -> Result<Hearer, NoMemory>
        ensures count { IfOk result (λ hearer. hearer.reader.decoder.count ≡ 0) }
        ensures pending { IfOk result (λ hearer. hearer.reader.decoder.pending ≡ []) }
        ensures lost { IfOk result (λ hearer. hearer.reader.decoder.lost ≡ None) }
        ensures stands { IfOk result (λ hearer. Hears mode hearer [] []) }
    {
        Ok(Hearer {
            reader: LineReader::new(alloc, V32Code, 0, mode)?,
            ear: Ear::new(),
        })
    }

    /// The tally once the oldest label that the decoder released was read, if there is one.
    fn read_label(&mut self, slot: Slot<'_>, tally: Tally) -> Tally
        requires { slot.framing.dlci < 64 }
        ensures stands { (mode : Mode) (samples : List Sample) (earlier : List Bool)
            → HearsBetween mode self.old samples slot.entry.framing.check slot.entry.framing.sender slot.entry.framing.dlci slot.entry.sent.now earlier tally
            → HearsBetween mode self.new samples slot.entry.framing.check slot.entry.framing.sender slot.entry.framing.dlci slot.entry.sent.now earlier result }
        ensures pending { self.new.reader.decoder.pending ≡ drop 1 self.old.reader.decoder.pending }
        ensures count { self.new.reader.decoder.count ≡ self.old.reader.decoder.count }
        ensures lost { self.new.reader.decoder.lost ≡ self.old.reader.decoder.lost }
    {
        match self.reader.take() {
            Some(four) => push_four(&mut self.ear, four, slot, tally),
            None => tally,
        }
    }

    /// The tally once the two oldest labels that the decoder released were read, if there are two.
    fn read_two(&mut self, slot: Slot<'_>, tally: Tally) -> Tally
        requires { slot.framing.dlci < 64 }
        ensures stands { (mode : Mode) (samples : List Sample) (earlier : List Bool)
            → HearsBetween mode self.old samples slot.entry.framing.check slot.entry.framing.sender slot.entry.framing.dlci slot.entry.sent.now earlier tally
            → HearsBetween mode self.new samples slot.entry.framing.check slot.entry.framing.sender slot.entry.framing.dlci slot.entry.sent.now earlier result }
        ensures pending { 2 ≤ length self.old.reader.decoder.pending
            → length self.old.reader.decoder.pending ≡ length self.new.reader.decoder.pending + 2 }
        ensures count { self.new.reader.decoder.count ≡ self.old.reader.decoder.count }
        ensures lost { self.new.reader.decoder.lost ≡ self.old.reader.decoder.lost }
    {
        match self.reader.take_two() {
            Some(octet) => push_octet(&mut self.ear, octet, slot, tally),
            None => tally,
        }
    }

    /// The tally once all labels that the decoder released were read.
    fn read_labels(&mut self, slot: Slot<'_>, tally: Tally) -> Tally
        requires { slot.framing.dlci < 64 }
        ensures stands { (mode : Mode) (samples : List Sample) (earlier : List Bool)
            → HearsBetween mode self.old samples slot.entry.framing.check slot.entry.framing.sender slot.entry.framing.dlci slot.entry.sent.now earlier tally
            → HearsBetween mode self.new samples slot.entry.framing.check slot.entry.framing.sender slot.entry.framing.dlci slot.entry.sent.now earlier result }
        ensures pending { self.new.reader.decoder.pending ≡ [] }
        ensures count { self.new.reader.decoder.count ≡ self.old.reader.decoder.count }
        ensures lost { self.new.reader.decoder.lost ≡ self.old.reader.decoder.lost }
    {
        let mut tally = tally;
        for _ in 0..self.reader.pending() / 2 {
            tally = self.read_two(slot, tally);
        }
        self.read_label(slot, tally)
    }

    /// The tally once these samples were heard, and each label that they release was read.
    pub fn hear(&mut self, samples: &[Sample], slot: Slot<'_>, tally: Tally) -> Result<Tally, Lost>
        requires channel { slot.framing.dlci < 64 }
        requires pending { self.old.reader.decoder.pending ≡ [] }
        requires lost { self.old.reader.decoder.lost ≡ None }
        requires count { self.old.reader.decoder.count + length samples.now ≤ 2 ^ 56 }
        ensures stands { (mode : Mode) (past : List Sample) (earlier : List Bool)
            → HearsBetween mode self.old past slot.entry.framing.check slot.entry.framing.sender slot.entry.framing.dlci slot.entry.sent.now earlier tally
            → HearsSamples mode self.new (past ++ samples.now) slot.entry.framing.check slot.entry.framing.sender slot.entry.framing.dlci slot.entry.sent.now earlier result }
        ensures pending { OnOk result (self.new.reader.decoder.pending ≡ []) }
        ensures lost { OnOk result (self.new.reader.decoder.lost ≡ None) }
        ensures taken { self.new.reader.decoder.lost ≡ None → self.new.reader.decoder.pending ≡ [] }
        ensures count { self.new.reader.decoder.count ≤ self.old.reader.decoder.count + length samples.now }
    {
        let mut tally = tally;
        let mut at = 0;
        while at < samples.len() {
            at += self.reader.push_some(&samples[at..])?;
            tally = self.read_labels(slot, tally);
        }
        Ok(tally)
    }
}
